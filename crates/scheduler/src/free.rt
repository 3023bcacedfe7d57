// Which waiting runs are free. Each answer is what a definition of the deadline rules says.
ghost use Rattle.std.specs.Prelude.{◌≡◌};
ghost use Rattle.std.specs.List.{enumerate_from, list_all, take_while};
ghost use Rattle.deadline.specs.Waiting.{any, conflict as conflicting, end, ends, free};
ghost use Rattle.scheduler.specs.Passes.{outside, no_flush, hinders, unhindered_at};

use crate::waiting::Waiting;
use deadline::{Queued, Run};
use device::Kind;

/// The first sector past a ticket.
pub(crate) fn end(x: &Queued) -> u64
    ensures { result ≡ end x.now }
{
    u64::from(x.first) + u64::from(x.count)
}

/// The first sector past a run.
// The sum of `end`, of fields with other names: a trait for tickets and runs would be longer than the two sums.
pub(crate) fn ends(r: &Run) -> u64
    ensures { result ≡ ends r.now }
{
    u64::from(r.begins) + u64::from(r.count)
}

/// Whether two tickets share a sector, of which at least one writes.
#[tactic(auto, unfolding(deadline::specs::Waiting::conflict))]
pub(crate) fn conflict(x: &Queued, y: &Queued) -> bool
    ensures { result ≡ conflicting x.now y.now }
{
    u64::from(x.first) < end(y)
        && u64::from(y.first) < end(x)
        && (x.kind == Kind::Write || y.kind == Kind::Write)
}

/// Whether one of the older tickets is outside the run and conflicts with x.
fn any_hinders(older: &[Queued], run: u32, x: &Queued) -> bool
    ensures { result ≡ any (hinders run x.now) older.now }
{
    older.iter().any(|y| y.head != run && conflict(x, y))
}

impl Waiting {
    /// Whether none of the run's tickets conflicts with an older waiting ticket outside it.
    fn is_unhindered(&self, run: u32) -> bool
        ensures { result ≡ list_all (unhindered_at run self.now.tickets.items) (enumerate_from 0 self.now.tickets.items) }
    {
        let ws = self.tickets.as_slice();
        ws.iter()
            .enumerate()
            .all(|(i, x)| x.head != run || !any_hinders(&ws[..i], run, x))
    }

    /// Whether no waiting flush is older than the run's head.
    fn is_before_flushes(&self, run: u32) -> bool
        ensures { result ≡ list_all no_flush (take_while (outside run) self.now.tickets.items) }
    {
        self.tickets
            .iter()
            .take_while(|x| x.head != run)
            .all(|x| x.kind != Kind::Flush)
    }

    /// Whether the run is free: nothing that waits has to be served before it.
    #[tactic(auto, using(crate::proofs::Chains::before_flushes_is, crate::proofs::Chains::unhindered_is), unfolding(deadline::specs::Waiting::free))]
    pub(crate) fn is_free(&self, run: u32) -> bool
        ensures { result ≡ free self.now.tickets.items run }
    {
        self.is_unhindered(run) && self.is_before_flushes(run)
    }
}
