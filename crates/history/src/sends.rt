// A list of calls sent to any device, and the history that they make.
ghost use Rattle.std.specs.Prelude.{◌≡◌, MatchResult};
ghost use Rattle.history.specs.Log.{call_of, Step, SentAll, SentSome};

use crate::call::{Call, Event};
use crate::open::open_list;
use device::{Device, fault_at};
use std::alloc::{AllocError, Global};

impl Call {
    /// Sends the call. If there is no memory for the answer, nothing is sent.
    fn send<D: Device>(self, heap: Global, device: &mut D) -> Result<Event, AllocError>
        ensures keeps { D.kept device.old → D.kept device.new }
        ensures sends { D.kept device.old → MatchResult result (λ e. (call_of e ≡ self) × Step D.meaning D.does device.old e device.new) (λ _. device.new ≡ device.old) }
    {
        Ok(match self {
            Call::Submit {
                request,
                bytes,
                tick,
            } => {
                let answer = device.submit(request, &bytes, tick);
                Event::Submitted {
                    request,
                    bytes,
                    tick,
                    answer,
                }
            }
            Call::Turn { tick } => Event::Turned {
                tick,
                ticks: device.turn(tick),
            },
            Call::Collect { tag, buffer: given } => {
                let mut buffer = given.clone()?;
                let answer = device.collect(tag, &mut buffer);
                Event::Collected {
                    tag,
                    given,
                    answer,
                    buffer,
                }
            }
            Call::Open => Event::Opened {
                tickets: open_list(heap, device)?,
            },
            Call::Home { sector } => Event::Homed {
                sector,
                home: device.home(sector),
            },
            Call::Fault { first, mask } => Event::Faulted {
                first,
                mask,
                fault: fault_at(device, first, mask),
            },
        })
    }
}

/// Sends the calls, one after the other, and returns what the device answered. If memory runs out, the first of the calls
/// have been sent and the others not.
pub fn send_all<D: Device>(
    heap: Global,
    device: &mut D,
    calls: Vec<Call>,
) -> Result<Vec<Event>, AllocError>
    ensures keeps { D.kept device.old → D.kept device.new }
    ensures heard { D.kept device.old → MatchResult result (λ log. SentAll D.meaning D.does device.old calls.items log.items device.new) (λ _. SentSome D.meaning D.does device.old calls.items device.new) }
{
    let mut log = Vec::new(heap);
    for call in calls {
        log.push(call.send(heap, device)?)?;
    }
    Ok(log)
}
