// Which waiting run a new ticket joins.
ghost use Rattle.std.specs.Prelude.{◌≡◌, drop};
ghost use Rattle.std.specs.List.{list_all, prefix_len};
ghost use Rattle.deadline.specs.Settings.{settings_of};
ghost use Rattle.deadline.specs.Waiting.{any, conflict as conflicting};
ghost use Rattle.deadline.specs.Joining.{past_flushes, has_room, run_for};
ghost use Rattle.scheduler.specs.Passes.{outside, no_flush};

use crate::free::{conflict, end, ends};
use crate::state::Scheduler;
use crate::waiting::Waiting;
use deadline::{Queued, Run};
use device::{Kind, LONGEST_RUN};

impl Waiting {
    /// Whether x conflicts with a waiting ticket.
    fn conflicts(&self, x: &Queued) -> bool
        ensures { result ≡ any (conflicting x.now) self.now.tickets.items }
    {
        self.tickets.iter().any(|y| conflict(x, y))
    }

    /// Whether each ticket of the run is younger than every waiting flush.
    fn is_past_flushes(&self, run: u32) -> bool
        ensures { result ≡ list_all no_flush (drop 1 (drop (prefix_len (outside run) self.now.tickets.items) self.now.tickets.items)) }
    {
        self.tickets
            .iter()
            .skip_while(|x| x.head != run)
            .skip(1)
            .all(|x| x.kind != Kind::Flush)
    }

    /// Whether the run is of x's kind and has room for it, and no flush waits in or after the run.
    #[tactic(auto, using(crate::proofs::Chains::past_flushes_is))]
    fn has_room(&self, x: &Queued, r: &Run) -> bool
        ensures { result ≡ has_room self.now.tickets.items x.now r.now }
    {
        r.kind == x.kind
            && u64::from(r.count) + u64::from(x.count) <= u64::from(LONGEST_RUN)
            && self.is_past_flushes(r.name)
    }
}

impl Scheduler {
    /// The name of the run that x belongs to: one that it joins at the end, else, with front merges, one that it joins in front of
    /// the first sector, else its own.
    pub(crate) fn run_for(&self, x: &Queued) -> u32
        ensures { result ≡ run_for (settings_of self.now.settings) self.now.waiting.tickets.items x.now }
    {
        let ws = &self.waiting;
        if ws.conflicts(x) {
            return x.tag;
        }
        let behind = ws.first_run(|r| ws.has_room(x, r) && ends(r) == u64::from(x.first));
        let in_front = ws.first_run(|r| {
            ws.has_room(x, r) && self.settings.front_merges && end(x) == u64::from(r.begins)
        });
        behind.or(in_front).map_or(x.tag, |r| r.name)
    }
}
