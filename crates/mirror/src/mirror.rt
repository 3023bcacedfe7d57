// Two devices that hold the same: what one has lost, the other shows.
ghost use Rattle.std.specs.Prelude.{◌≡◌, ℕ, ◌≤◌, IfOk};
ghost use Rattle.device.specs.Collect.{due};
ghost use Rattle.device.specs.Meaning.{refused_by, run_bytes};
ghost use Rattle.device.specs.Submit.{admitted};
ghost use Rattle.mirror.specs.Means.{room_due, set_up, shut_both};

use device::{Cause, Device, Kind, RUN_BYTES, Refusal, Request, State, examine};
use gate::must_shut;

/// Two devices as one: every request goes to both sides; open, or shut so that it only asks questions below.
#[derive(Drop)]
pub struct Mirror<L, R> {
    pub(crate) left: L,
    pub(crate) right: R,
    pub(crate) shut: bool,
}

/// Whether a mirror of the sides only asks questions: one of them has open tickets, or no room for any.
fn must_shut_both<L: Device, R: Device>(left: &L, right: &R) -> bool
    ensures { L.kept left.now → R.kept right.now → result ≡ shut_both (L.meaning left.now) (R.meaning right.now) }
{
    must_shut(left) || must_shut(right)
}

impl<L: Device, R: Device> Mirror<L, R> {
    /// A mirror over two sides; over a side that has open tickets, or no room for any, it only asks questions.
    pub fn new(left: L, right: R) -> Mirror<L, R>
        ensures keeps { L.kept left → R.kept right → ⟦<Mirror<L, R> as Device>⟧.kept result }
        ensures means { L.kept left → R.kept right → ⟦<Mirror<L, R> as Device>⟧.meaning result ≡ set_up (L.meaning left) (R.meaning right) }
    {
        let shut = must_shut_both(&left, &right);
        Mirror { left, right, shut }
    }

    /// A refusal at the height of the mirror.
    // Not `device::refused`: asked from the mirror's own `submit` and `collect` it closes a cycle of calls, which the check refuses.
    pub(crate) fn refused(&self, cause: Cause) -> Refusal
        ensures { ⟦<Mirror<L, R> as Device>⟧.kept self.now → result ≡ refused_by (⟦<Mirror<L, R> as Device>⟧.meaning self.now) cause }
    {
        Refusal {
            cause,
            height: self.height(),
        }
    }

    /// The kind under which a request is accepted, or the first cause to refuse it, from questions alone.
    // A bottom device's front judges alike, by its list: one function for both would ask a front for a meaning, which has none.
    pub(crate) fn admit(&self, request: Request, given: usize) -> Result<Kind, Cause>
        ensures { ⟦<Mirror<L, R> as Device>⟧.kept self.now → result ≡ admitted (⟦<Mirror<L, R> as Device>⟧.meaning self.now) request given }
    {
        let kind = examine(request, given, self.size())?;
        if self.state(request.tag) != State::NotOpen {
            return Err(Cause::TagOpen);
        }
        if self.open_tickets() == self.capacity() {
            return Err(Cause::Full);
        }
        Ok(kind)
    }

    /// The bytes that a collect hands over, or the first cause to refuse it, from questions alone.
    pub(crate) fn bytes_due(&self, tag: u32, space: usize) -> Result<usize, Cause>
        ensures answers { ⟦<Mirror<L, R> as Device>⟧.kept self.now → result ≡ room_due (due (⟦<Mirror<L, R> as Device>⟧.meaning self.now) tag space) }
        ensures fits { IfOk result (λ n. n ≤ space) }
        ensures short { IfOk result (λ n. n ≤ run_bytes) }
    {
        match self.state(tag) {
            State::NotOpen => Err(Cause::NotOpen),
            State::Waiting => Err(Cause::Waits),
            State::Ready => {
                let n = self.byte_count(tag) as usize;
                if space < n {
                    Err(Cause::ShortBuffer)
                } else {
                    // A side that is kept has no more; one that is not may say any number, and no more is patched.
                    Ok(n.min(RUN_BYTES))
                }
            }
        }
    }
}
