// Which run or flush one turn serves.
ghost use Rattle.std.specs.Prelude.{◌≡◌, None};
ghost use Rattle.deadline.specs.Settings.{period, settings_of};
ghost use Rattle.deadline.specs.Waiting.{free_runs};
ghost use Rattle.deadline.specs.Turn.{choice, expired, first_of, new_batch, next_of, position};
ghost use Rattle.scheduler.specs.Going.{may_go_on};
ghost use Rattle.scheduler.specs.Meaning.{state_of};

use crate::state::Scheduler;
use deadline::{Batch, Choice, Run};
use device::Kind;

impl Scheduler {
    /// The ticks after which a waiting run of the kind is expired.
    fn period(&self, kind: Kind) -> u32
        ensures { result ≡ period (settings_of self.now.settings) kind }
    {
        match kind {
            Kind::Read => self.settings.read_expire,
            Kind::Write => self.settings.write_expire,
            Kind::Flush => 0,
        }
    }

    /// The end of the last served run of the kind.
    fn position(&self, kind: Kind) -> u32
        ensures { result ≡ position kind (state_of self.now) }
    {
        match kind {
            Kind::Read => self.read_position,
            Kind::Write => self.write_position,
            Kind::Flush => 0,
        }
    }

    /// Whether a run has waited for its period.
    fn is_expired(&self, r: Run) -> bool
        ensures { result ≡ expired (settings_of self.now.settings) (state_of self.now) r }
    {
        self.period(r.kind) <= self.latest.saturating_sub(r.tick)
    }

    /// Whether the batch is of the kind, and may serve one run more.
    fn may_go_on(&self, kind: Kind) -> bool
        ensures { result ≡ may_go_on (settings_of self.now.settings) self.now.batch kind }
    {
        match self.batch {
            Batch::Closed => false,
            Batch::Reading(n) => kind == Kind::Read && n < self.settings.fifo_batch,
            Batch::Writing(n) => kind == Kind::Write && n < self.settings.fifo_batch,
        }
    }

    /// The run that the batch goes on with: the lowest free one of its kind at or past the position.
    fn next_of_batch(&self) -> Option<Run>
        ensures { result ≡ next_of (settings_of self.now.settings) (state_of self.now) self.now.batch }
    {
        let (kind, served) = match self.batch {
            Batch::Closed => return None,
            Batch::Reading(n) => (Kind::Read, n),
            Batch::Writing(n) => (Kind::Write, n),
        };
        if served < self.settings.fifo_batch {
            self.waiting.lowest(kind, self.position(kind))
        } else {
            None
        }
    }

    /// The first run of a new batch of the kind: the oldest free one if it is expired, else the lowest at or past the position,
    /// else the oldest. A new batch begins where the last one can't go on, so where that may still serve one run of the kind, none is
    /// free at or past the position, and none is looked for again.
    fn first_of(&self, kind: Kind) -> Option<Run>
        requires { next_of (settings_of self.now.settings) (state_of self.now) self.now.batch ≡ None }
        ensures { result ≡ first_of (settings_of self.now.settings) (state_of self.now) (position kind (state_of self.now)) (free_runs kind self.now.waiting.tickets.items) }
    {
        let oldest = self.waiting.oldest(kind)?;
        if self.is_expired(oldest) || self.may_go_on(kind) {
            return Some(oldest);
        }
        self.waiting
            .lowest(kind, self.position(kind))
            .or(Some(oldest))
    }

    /// The run that begins a new batch: a read, unless none is free or free writes were passed over often enough.
    #[tactic(auto, unfolding(deadline::specs::Turn::new_batch))]
    fn new_batch(&self) -> Option<Run>
        requires { next_of (settings_of self.now.settings) (state_of self.now) self.now.batch ≡ None }
        ensures { result ≡ new_batch (settings_of self.now.settings) (state_of self.now) }
    {
        let starving = self.settings.writes_starved <= self.passed_over
            && self.waiting.has_free(Kind::Write);
        if self.waiting.has_free(Kind::Read) && !starving {
            self.first_of(Kind::Read)
        } else {
            self.first_of(Kind::Write)
        }
    }

    /// What a turn at the latest tick serves.
    #[tactic(auto, unfolding(deadline::specs::Turn::choice))]
    pub(crate) fn choice(&self) -> Choice
        ensures { result ≡ choice (settings_of self.now.settings) (state_of self.now) self.now.waiting.tickets.items }
    {
        let Some(oldest) = self.waiting.tickets.first() else {
            return Choice::Idle;
        };
        if oldest.kind == Kind::Flush {
            return Choice::PassesDown(oldest.tag);
        }
        if let Some(r) = self.next_of_batch() {
            return Choice::GoesOn(r);
        }
        self.new_batch().map_or(Choice::Idle, Choice::BeginsWith)
    }
}
