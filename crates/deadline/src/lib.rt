#![tactic(auto)]

mod dispatch;
mod laws;
mod making;
mod settings;

pub use dispatch::{Batch, Choice, Queued, Run};
pub use laws::{
    batches_are_short_and_rising, candidates_are_the_free_runs, nothing_overtakes, oldest_is_free,
    orders_hold, turns_follow_the_rules, waiting_is_bounded, writes_are_not_starved,
};
pub use settings::{Settings, SettingsCause};
