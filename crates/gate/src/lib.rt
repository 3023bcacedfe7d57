#![tactic(auto)]

mod as_device;
pub mod calls;
mod gate;

pub use gate::{Gate, must_shut};
