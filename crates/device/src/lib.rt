#![tactic(auto)]

mod device;
mod fault;
mod faults;
mod form;
mod height;
mod interface;
mod numbers;
mod refusals;
mod words;

pub use device::Device;
pub use fault::Fault;
pub use faults::fault_at;
pub use form::{LONGEST_RUN, MOST_SECTORS, MOST_TICKETS, RUN_BYTES, SECTOR, examine};
pub use height::layer_height;
pub use interface::{Cause, Home, Kind, Refusal, Request, State};
pub use refusals::refused;
