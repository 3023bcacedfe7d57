// The waiting runs: where each begins and ends, and which of the free ones a turn can serve.
ghost use Rattle.std.specs.Prelude.{◌≡◌, Bool, min, fold, map, sum};
ghost use Rattle.std.specs.List.{filter};
ghost use Rattle.std.specs.Iterator.{ActsAsAt};
ghost use Rattle.deadline.specs.declared.dispatch.Run.{Run};
ghost use Rattle.deadline.specs.Waiting.{is_in, is_head, run_of, runs, those, free_runs};
ghost use Rattle.deadline.specs.Turn.{lowest, some_of};
ghost use Rattle.scheduler.specs.Found.{heads_free, oldest_of, run_at};

use crate::waiting::Waiting;
use deadline::{Queued, Run};
use device::Kind;

/// Whether a ticket is the head of a run.
fn is_head(x: &Queued) -> bool
    ensures { result ≡ is_head x.now }
{
    x.tag == x.head && x.kind != Kind::Flush
}

impl Waiting {
    /// The first sector of a run, of which a ticket begins at `start`.
    fn begins(&self, run: u32, start: u32) -> u32
        ensures { result ≡ fold min start (map (λ x. x.first) (filter (is_in run) self.now.tickets.items)) }
    {
        self.tickets
            .iter()
            .filter(|x| x.head == run)
            .map(|x| x.first)
            .fold(start, |low, first| low.min(first))
    }

    /// The sectors of a run.
    fn count_of(&self, run: u32) -> u32
        ensures { result ≡ sum (map (λ x. x.count) (filter (is_in run) self.now.tickets.items)) }
    {
        self.tickets
            .iter()
            .filter(|x| x.head == run)
            .map(|x| x.count)
            .sum()
    }

    /// The run that x is the head of.
    #[tactic(auto, using(crate::proofs::Chains::lowest_sector_is, crate::proofs::Chains::sectors_is), unfolding(deadline::specs::Waiting::run_of))]
    fn run_of(&self, x: &Queued) -> Run
        ensures { result ≡ run_of self.now.tickets.items x.now }
    {
        Run {
            name: x.head,
            kind: x.kind,
            begins: self.begins(x.head, x.first),
            count: self.count_of(x.head),
            tick: x.tick,
        }
    }

    /// The run that x is the head of, if it is the head of one.
    #[tactic(auto, unfolding(crate::specs::Found::run_at))]
    fn run_at(&self, x: &Queued) -> Option<Run>
        ensures { result ≡ run_at self.now.tickets.items x.now }
    {
        is_head(x).then(|| self.run_of(x))
    }

    /// The run with the oldest head of those that pass a test.
    pub(crate) fn first_run<F: FnMut(&Run) -> bool>(&self, passes: F) -> Option<Run>
        requires { F.IsAlwaysCallable passes }
        ensures { (p : Run → Bool) → ActsAsAt F.FnMut passes p → result ≡ oldest_of (those p (runs self.now.tickets.items)) }
    {
        self.tickets
            .iter()
            .filter_map(|x| self.run_at(x))
            .find(passes)
    }

    /// Whether x is the head of a free run of the kind. What can be told without making up the run is asked first.
    fn heads_free(&self, kind: Kind, x: &Queued) -> bool
        ensures { result ≡ heads_free kind self.now.tickets.items x.now }
    {
        is_head(x) && x.kind == kind && self.is_free(x.head)
    }

    /// The free run of a kind with the oldest head.
    pub(crate) fn oldest(&self, kind: Kind) -> Option<Run>
        ensures { result ≡ oldest_of (free_runs kind self.now.tickets.items) }
    {
        self.tickets
            .iter()
            .find(|x| self.heads_free(kind, x))
            .map(|x| self.run_of(x))
    }

    /// Whether a run of the kind is free.
    pub(crate) fn has_free(&self, kind: Kind) -> bool
        ensures { result ≡ some_of (free_runs kind self.now.tickets.items) }
    {
        self.tickets.iter().any(|x| self.heads_free(kind, x))
    }

    /// The lowest free run of a kind at or past a position; of two that begin at one sector, the one with the older head.
    // The heads that `oldest` asks too, by a `filter` of its own: Rattle proves no function that returns an `impl Iterator`.
    pub(crate) fn lowest(&self, kind: Kind, position: u32) -> Option<Run>
        ensures { result ≡ lowest position (free_runs kind self.now.tickets.items) }
    {
        self.tickets
            .iter()
            .filter(|x| self.heads_free(kind, x))
            .map(|x| self.run_of(x))
            .filter(|r| position <= r.begins)
            .min_by_key(|r| r.begins)
    }
}
