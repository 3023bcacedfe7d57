#![tactic(auto)]

mod named;
mod row;

pub use named::{is_named, mask};
pub use row::{Row, read_run};
