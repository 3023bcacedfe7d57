#![tactic(auto)]

mod as_device;
mod offset;

pub use offset::Offset;
