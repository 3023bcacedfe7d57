#![tactic(auto)]

mod calls;
mod front;
mod place;

pub use front::Front;
pub use place::Place;
