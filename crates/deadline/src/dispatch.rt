// What the deadline rules speak of: waiting tickets, runs, batches, and what a turn serves.
use device::Kind;

/// A ticket that waits to be served. `tick` is the tick of its submission as it counts; `head` is the tag of the oldest ticket
/// of the run that it belongs to.
#[derive(Clone, Copy, PartialEq, Eq, Debug)]
pub struct Queued {
    pub tag: u32,
    pub kind: Kind,
    pub first: u32,
    pub count: u32,
    pub tick: u32,
    pub head: u32,
}

/// Waiting reads, or waiting writes, of neighbouring sectors that are served together. A run goes by the tag of its head, its
/// oldest ticket; its age and its tick are the head's.
#[derive(Clone, Copy, PartialEq, Eq, Debug)]
pub struct Run {
    pub name: u32,
    // A read or a write, yet a `Kind`: the rules compare it with tickets' kinds, and would have to convert a type with no flush.
    pub kind: Kind,
    pub begins: u32,
    pub count: u32,
    pub tick: u32,
}

/// The batch, with the runs that it has served.
#[derive(Clone, Copy, PartialEq, Eq, Debug)]
pub enum Batch {
    Closed,
    Reading(u32),
    Writing(u32),
}

/// What one turn serves: nothing, a flush by its tag, the next run of the batch, or the first run of a new batch.
#[derive(Clone, Copy, PartialEq, Eq, Debug)]
pub enum Choice {
    Idle,
    PassesDown(u32),
    GoesOn(Run),
    BeginsWith(Run),
}
