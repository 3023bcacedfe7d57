// Making a scheduler.
ghost use Rattle.std.specs.Prelude.{◌≡◌, IfOk};
ghost use Rattle.deadline.specs.Turn.{set_up};
ghost use Rattle.scheduler.specs.Meaning.{state_of};

use crate::state::Scheduler;
use crate::waiting::Waiting;
use deadline::{Batch, Settings};
use std::alloc::{AllocError, Global};

impl Scheduler {
    /// A scheduler in which nothing waits, with room for as many tickets as a device may have open.
    pub fn new(heap: Global, settings: Settings) -> Result<Scheduler, AllocError>
        ensures { IfOk result (λ s. (state_of s ≡ set_up) × (s.settings ≡ settings)) }
    {
        let waiting = Waiting::new(heap)?;
        Ok(Scheduler {
            settings,
            latest: 0,
            batch: Batch::Closed,
            read_position: 0,
            write_position: 0,
            passed_over: 0,
            waiting,
        })
    }
}
