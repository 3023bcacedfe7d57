#![tactic(auto)]

mod dry;

pub use dry::run_dry;
