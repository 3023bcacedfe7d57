// Stacks of layers: the promises of a history apply to them, and what they answer on examples.
#![tactic(auto)]

#[cfg(test)]
mod examples;
mod promised;

pub use promised::play_on_stack;
