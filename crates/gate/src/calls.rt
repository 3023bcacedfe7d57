// The calls of a device as it is, or shut: what a gate over it answers, and what a layer that is open or shut asks below.
ghost use Rattle.std.specs.Prelude.{◌≡◌, true, false, length, MatchOption};
ghost use Rattle.device.specs.Collect.{collected, collect_answer, buffer_after};
ghost use Rattle.device.specs.Questions.{tag_at, state_of, byte_count};
ghost use Rattle.device.specs.Submit.{submitted, submit_answer};
ghost use Rattle.device.specs.Told.{submit as told_submit, turn as told_turn, collect as told_collect};
ghost use Rattle.device.specs.Turns.{Turned};
ghost use Rattle.gate.specs.Means.{gated};
ghost use Rattle.gate.specs.Turn.{Passed};

use device::{Cause, Device, Refusal, Request, State, examine, refused};

/// The device, where it is not shut.
fn opened<D>(lower: &D, shut: bool) -> Option<&D>
    ensures { MatchOption result (shut ≡ true) (λ there. (shut ≡ false) × (there.now ≡ lower.now)) }
{
    (!shut).then_some(lower)
}

/// The most tickets that may be open.
pub fn capacity<D: Device>(lower: &D, shut: bool) -> u32
    ensures { D.kept lower.now → result ≡ (gated shut (D.meaning lower.now)).capacity }
{
    opened(lower, shut).map_or(0, |open| open.capacity())
}

/// The number of open tickets.
pub fn open_tickets<D: Device>(lower: &D, shut: bool) -> u32
    ensures { D.kept lower.now → result ≡ length (gated shut (D.meaning lower.now)).tickets }
{
    opened(lower, shut).map_or(0, |open| open.open_tickets())
}

/// The tag of the i-th oldest open ticket, from 0.
pub fn tag_at<D: Device>(lower: &D, shut: bool, i: u32) -> Option<u32>
    ensures { D.kept lower.now → result ≡ tag_at i (gated shut (D.meaning lower.now)).tickets }
{
    opened(lower, shut)?.tag_at(i)
}

/// How far the ticket of a tag has come.
pub fn state<D: Device>(lower: &D, shut: bool, tag: u32) -> State
    ensures { D.kept lower.now → result ≡ state_of tag (gated shut (D.meaning lower.now)).tickets }
{
    opened(lower, shut).map_or(State::NotOpen, |open| open.state(tag))
}

/// The bytes that the read of a tag gives, else 0.
pub fn byte_count<D: Device>(lower: &D, shut: bool, tag: u32) -> u32
    ensures { D.kept lower.now → result ≡ byte_count tag (gated shut (D.meaning lower.now)).tickets }
{
    opened(lower, shut).map_or(0, |open| open.byte_count(tag))
}

/// A submit, which a shut device refuses.
pub fn submit<D: Device>(
    lower: &mut D,
    shut: bool,
    request: Request,
    bytes: &[u8],
    tick: u32,
) -> Result<(), Refusal>
    ensures keeps { D.kept lower.old → D.kept lower.new }
    ensures answers { D.kept lower.old → result ≡ submit_answer (gated shut (D.meaning lower.old)) request (length bytes.now) }
    ensures leaves { D.kept lower.old → gated shut (D.meaning lower.new) ≡ submitted (gated shut (D.meaning lower.old)) request bytes.now }
    ensures did { D.kept lower.old → Passed D.does shut lower.old (told_submit request bytes.now tick result) shut lower.new }
{
    if !shut {
        return lower.submit(request, bytes, tick);
    }
    let cause = examine(request, bytes.len(), lower.size())
        .err()
        .unwrap_or(Cause::Full);
    Err(refused(lower, cause))
}

/// A turn, which a shut device does not make.
pub fn turn<D: Device>(lower: &mut D, shut: bool, tick: u32) -> u32
    ensures keeps { D.kept lower.old → D.kept lower.new }
    ensures turns { D.kept lower.old → Turned (gated shut (D.meaning lower.old)) (gated shut (D.meaning lower.new)) result }
    ensures did { D.kept lower.old → Passed D.does shut lower.old (told_turn tick result) shut lower.new }
{
    if shut {
        return 0;
    }
    lower.turn(tick)
}

/// A collect, which a shut device refuses.
pub fn collect<D: Device>(
    lower: &mut D,
    shut: bool,
    tag: u32,
    buffer: &mut [u8],
) -> Result<u8, Refusal>
    ensures keeps { D.kept lower.old → D.kept lower.new }
    ensures answers { D.kept lower.old → result ≡ collect_answer (gated shut (D.meaning lower.old)) tag (length buffer.old) }
    ensures hands { D.kept lower.old → buffer.new ≡ buffer_after (gated shut (D.meaning lower.old)) tag buffer.old }
    ensures leaves { D.kept lower.old → gated shut (D.meaning lower.new) ≡ collected (gated shut (D.meaning lower.old)) tag (length buffer.old) }
    ensures did { D.kept lower.old → Passed D.does shut lower.old (told_collect tag buffer.old result buffer.new) shut lower.new }
{
    if shut {
        return Err(refused(lower, Cause::NotOpen));
    }
    lower.collect(tag, buffer)
}
