// The waiting tickets.
ghost use Rattle.std.specs.Prelude.{◌≡◌, ◌<◌, ◌≤◌, ◌++◌, [], ◌∷◌, IfOk, length, vec_capacity};
ghost use Rattle.device.specs.Sound.{most_sectors, most_tickets};
ghost use Rattle.deadline.specs.Waiting.{end, has_tag};
ghost use Rattle.deadline.specs.Turn.{without};
ghost use Rattle.scheduler.specs.Bounds.{Bounded};
ghost use Rattle.scheduler.specs.Places.{place_for};

use deadline::Queued;
use device::{Cause, MOST_SECTORS, MOST_TICKETS};
use std::alloc::{AllocError, Global};

/// The waiting tickets in order of acceptance, the oldest first: no more than a device may have open, each within the sectors that
/// it may have.
#[derive(Drop)]
pub struct Waiting {
    pub tickets: Vec<Queued>,
    ghost bounded: { Bounded tickets.items },
    ghost reserved: { most_tickets ≤ vec_capacity tickets },
}

impl Waiting {
    /// No tickets, with room for as many as a device may have open.
    pub(crate) fn new(heap: Global) -> Result<Waiting, AllocError>
        ensures { IfOk result (λ ws. ws.tickets.items ≡ []) }
    {
        let tickets = Vec::with_capacity(heap, MOST_TICKETS as usize)?;
        Ok(Waiting { tickets })
    }

    /// Whether a ticket of the tag waits.
    pub(crate) fn holds_tag(&self, tag: u32) -> bool
        ensures { result ≡ has_tag tag self.now.tickets.items }
    {
        self.tickets.iter().any(|x| x.tag == tag)
    }

    /// Whether there is a place for `count` sectors from `first` on, or why there is none.
    pub(crate) fn place_for(&self, first: u32, count: u32) -> Result<(), Cause>
        ensures { result ≡ place_for self.now.tickets.items first count }
    {
        if first as usize + count as usize > MOST_SECTORS {
            return Err(Cause::PastEnd);
        }
        if self.tickets.len() >= MOST_TICKETS as usize {
            return Err(Cause::Full);
        }
        Ok(())
    }

    /// Puts a ticket behind the others.
    pub(crate) fn push(&mut self, x: Queued)
        requires place { length self.old.tickets.items < most_tickets }
        requires within { end x ≤ most_sectors }
        ensures { self.new.tickets.items ≡ self.old.tickets.items ++ (x ∷ []) }
    {
        self.tickets.push_reserved(x);
    }

    /// Takes the tickets of a run out; the others keep their order.
    pub(crate) fn take_out(&mut self, run: u32)
        ensures { self.new.tickets.items ≡ without run self.old.tickets.items }
    {
        self.tickets.retain(|x| x.head != run);
    }
}
