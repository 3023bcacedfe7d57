// What a scheduler remembers for its choices.
ghost use Rattle.std.specs.Prelude.{◌≤◌};
ghost use Rattle.scheduler.specs.Bounds.{served};

use crate::waiting::Waiting;
use deadline::{Batch, Settings};

/// The waiting tickets, and what the deadline rules remember from call to call.
#[derive(Drop)]
pub struct Scheduler {
    /// The settings, for life.
    // Each call with `&mut self` says that it keeps them, since an invariant cannot speak of the value before the call.
    pub settings: Settings,
    /// The latest tick that counted.
    pub latest: u32,
    /// The batch, with the runs that it has served.
    pub batch: Batch,
    /// The end of the last served run of reads.
    pub read_position: u32,
    /// The end of the last served run of writes.
    pub write_position: u32,
    /// How many read batches began while a free write waited, since the last write batch.
    pub passed_over: u32,
    /// The waiting tickets.
    pub waiting: Waiting,
    ghost served_limit: { served batch ≤ 64 },
    ghost passed_limit: { passed_over ≤ 16 },
}
