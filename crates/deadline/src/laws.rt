// The laws of the deadline rules. Each function's contract is one of them: it does nothing, and is proved only with its law.
ghost use Rattle.deadline.specs.Bound.{BoundIsMet, WaitingIsBounded};
ghost use Rattle.deadline.specs.Laws.{FreeIsFree, CandidatesAreTheFreeRuns, OldestIsFree, TurnsFollowTheRules, NothingOvertakes, BatchesAreShortAndRising, FlushesCloseTheBatch, WritesAreNotStarved, WriteBatchesResetTheCount};
ghost use Rattle.deadline.specs.Orders.{OrdersHold};

/// A run is free exactly if none of its tickets conflicts with an older waiting ticket outside it and no waiting flush is older
/// than its head; and the candidates of a kind are its free runs, all of them and no others.
pub fn candidates_are_the_free_runs()
    ensures free { FreeIsFree }
    ensures candidates { CandidatesAreTheFreeRuns }
{}

/// The run of the oldest waiting ticket is free, or that ticket is a flush: a turn always finds something to serve.
pub fn oldest_is_free()
    ensures { OldestIsFree }
{}

/// What a turn serves is what the rules name: the oldest flush, the lowest run for the batch to go on with, or the first run of
/// a new batch.
pub fn turns_follow_the_rules()
    ensures { TurnsFollowTheRules }
{}

/// No ticket is served before an older waiting one that it conflicts with, and none passes a flush.
pub fn nothing_overtakes()
    ensures { NothingOvertakes }
{}

/// A batch serves at most `fifo_batch` runs, all of one kind, in rising order of sector; a flush closes it.
pub fn batches_are_short_and_rising()
    ensures rising { BatchesAreShortAndRising }
    ensures closed { FlushesCloseTheBatch }
{}

/// At most `writes_starved` read batches begin while a free write waits, before a write batch begins; the count is that of the
/// read batches since the last write batch.
pub fn writes_are_not_starved()
    ensures limits { WritesAreNotStarved }
    ensures resets { WriteBatchesResetTheCount }
{}

/// No ticket waits through (k + 1) × (writes_starved + 1) × fifo_batch turns from the first one whose tick lies the longer period
/// past its own, where k older tickets wait before that turn; and one list of events comes within a turn of it.
pub fn waiting_is_bounded()
    ensures bounded { WaitingIsBounded }
    ensures met { BoundIsMet }
{}

/// The examples of what is served in which order.
pub fn orders_hold()
    ensures { OrdersHold }
{}
