#![tactic(auto)]

mod call;
mod open;
mod sends;

pub use call::{Call, Event, OpenTicket};
pub use open::open_list;
pub use sends::send_all;
