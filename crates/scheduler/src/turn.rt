// One turn's change of the scheduler.
ghost use Rattle.std.specs.Prelude.{◌≡◌, ◌<◌, ◌≤◌};
ghost use Rattle.device.specs.declared.interface.Kind.TheVariants.{Write};
ghost use Rattle.deadline.specs.Settings.{settings_of};
ghost use Rattle.deadline.specs.Waiting.{free_runs};
ghost use Rattle.deadline.specs.Turn.{after, chosen, one_more, opened, passed_over_by, serving, some_of, turned};
ghost use Rattle.scheduler.specs.Allowed.{Allowed, Short};
ghost use Rattle.scheduler.specs.Bounds.{served};
ghost use Rattle.scheduler.specs.Meaning.{state_of};

use crate::state::Scheduler;
use deadline::{Batch, Choice, Run};
use device::Kind;

/// The batch once it has served one run more.
fn with_one_more(batch: Batch) -> Batch
    requires { served batch < 64 }
    ensures { result ≡ one_more batch }
{
    match batch {
        Batch::Closed => Batch::Closed,
        Batch::Reading(n) => Batch::Reading(n + 1),
        Batch::Writing(n) => Batch::Writing(n + 1),
    }
}

/// The batch that a first run of the kind begins.
fn opened_by(kind: Kind) -> Batch
    ensures { result ≡ opened kind }
{
    match kind {
        Kind::Read => Batch::Reading(1),
        Kind::Write => Batch::Writing(1),
        Kind::Flush => Batch::Closed,
    }
}

impl Scheduler {
    /// How many read batches passed free writes over, once a batch of the kind has begun.
    fn passed_after(&self, kind: Kind) -> u32
        ensures { result ≡ passed_over_by kind (some_of (free_runs Write self.now.waiting.tickets.items)) self.now.passed_over }
    {
        match kind {
            Kind::Read if self.waiting.has_free(Kind::Write) => self.passed_over + 1,
            Kind::Write => 0,
            Kind::Read | Kind::Flush => self.passed_over,
        }
    }

    /// The run is served: its kind's position is its end, and its tickets wait no more.
    fn serve(&mut self, r: Run)
        requires { Short r }
        ensures state { state_of self.new ≡ serving (state_of self.old) r self.old.batch self.old.passed_over }
        ensures settings { self.new.settings ≡ self.old.settings }
    {
        let end = r.begins + r.count;
        match r.kind {
            Kind::Read => self.read_position = end,
            Kind::Write => self.write_position = end,
            Kind::Flush => {}
        }
        self.waiting.take_out(r.name);
    }

    /// What is served waits no more, and the batch, the positions and the count of read batches follow.
    #[tactic(auto, unfolding(deadline::specs::Turn::after))]
    fn apply(&mut self, choice: Choice)
        requires { Allowed (settings_of self.old.settings) (state_of self.old) (some_of (free_runs Write self.old.waiting.tickets.items)) choice }
        ensures state { state_of self.new ≡ after (state_of self.old) choice }
        ensures settings { self.new.settings ≡ self.old.settings }
    {
        match choice {
            Choice::Idle => {}
            Choice::PassesDown(tag) => {
                self.batch = Batch::Closed;
                self.waiting.take_out(tag);
            }
            Choice::GoesOn(r) => {
                self.batch = with_one_more(self.batch);
                self.serve(r);
            }
            Choice::BeginsWith(r) => {
                self.passed_over = self.passed_after(r.kind);
                self.batch = opened_by(r.kind);
                self.serve(r);
            }
        }
    }

    /// Serves what the rules choose at the later of the latest tick and this one, and answers which.
    #[tactic(auto, unfolding(deadline::specs::Turn::turned, deadline::specs::Turn::chosen, deadline::specs::Turn::choice))]
    pub fn turn(&mut self, tick: u32) -> Choice
        ensures state { state_of self.new ≡ turned (settings_of self.old.settings) (state_of self.old) tick }
        ensures chosen { result ≡ chosen (settings_of self.old.settings) (state_of self.old) tick }
        ensures settings { self.new.settings ≡ self.old.settings }
    {
        if self.waiting.tickets.is_empty() {
            return Choice::Idle;
        }
        self.latest = self.latest.max(tick);
        let choice = self.choice();
        self.apply(choice);
        choice
    }
}
