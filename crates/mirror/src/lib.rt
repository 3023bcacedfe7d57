#![tactic(auto)]

mod as_device;
mod mirror;
mod mix;

pub use mirror::Mirror;
