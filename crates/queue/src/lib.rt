// The open tickets of an elevator over the device below: what they mean, and what serving a run of them leaves.
#![tactic(auto)]

mod serve;

pub use serve::serve_below;
