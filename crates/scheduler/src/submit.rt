// A request that is accepted waits.
ghost use Rattle.std.specs.Prelude.{◌≡◌, if◌then◌else◌, is_ok};
ghost use Rattle.deadline.specs.Settings.{settings_of};
ghost use Rattle.deadline.specs.Turn.{submitted};
ghost use Rattle.scheduler.specs.Places.{place_for};
ghost use Rattle.scheduler.specs.Meaning.{state_of};

use crate::state::Scheduler;
use deadline::Queued;
use device::{Cause, Kind};

impl Scheduler {
    /// Takes a request in, or says why not: it reaches past the sectors that a device may have (`PastEnd`), or as many tickets wait
    /// as a device may have open (`Full`). A request whose tag waits already changes nothing.
    // The five numbers make no struct: they go through this call alone, which takes them as `submitted` of the rules does.
    #[tactic(auto, unfolding(deadline::specs::Turn::submitted, deadline::specs::Turn::taken, deadline::specs::Joining::once_runs_touch))]
    pub fn submit(
        &mut self,
        tag: u32,
        kind: Kind,
        first: u32,
        count: u32,
        tick: u32,
    ) -> Result<(), Cause>
        ensures taken { result ≡ place_for self.old.waiting.tickets.items first count }
        ensures state { state_of self.new ≡ (if is_ok result then submitted (settings_of self.old.settings) (state_of self.old) tag kind first count tick else state_of self.old) }
        ensures settings { self.new.settings ≡ self.old.settings }
    {
        self.waiting.place_for(first, count)?;
        if self.waits(tag) {
            return Ok(());
        }
        let tick = self.latest.max(tick);
        let own = Queued {
            tag,
            kind,
            first,
            count,
            tick,
            head: tag,
        };
        let head = self.run_for(&own);
        self.latest = tick;
        self.waiting.push(Queued { head, ..own });
        Ok(())
    }
}
