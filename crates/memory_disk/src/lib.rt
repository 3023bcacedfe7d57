#![tactic(auto)]

mod as_device;
mod disk;
mod service;

pub use disk::MemoryDisk;
