#![tactic(auto)]

mod as_device;
mod buffer;
mod drive;
mod service;

pub use drive::Drive;
