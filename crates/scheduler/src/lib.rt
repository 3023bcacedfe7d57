#![tactic(auto)]

mod choose;
mod free;
mod join;
mod questions;
mod runs;
mod setup;
mod state;
mod submit;
mod turn;
mod waiting;

pub use state::Scheduler;
pub use waiting::Waiting;

#[cfg(test)]
mod tests;
