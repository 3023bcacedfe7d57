// A line's words as a call.
use crate::words::{kind_of, length, number, request_data};
use crate::wrong::{Problem, Wrong};
use device::Request;
use history::Call;
use std::alloc::Global;

/// What a buffer holds before a collect.
const BUFFER: u8 = 238;

/// The call that the words of a line ask for.
pub(crate) fn call_of(heap: Global, words: &[&str]) -> Result<Call, Problem> {
    match words {
        ["submit", tag, kind, first, count, bytes, tick] => {
            let request = Request {
                tag: number(tag, Wrong::Tag)?,
                kind: kind_of(kind)?,
                first: number(first, Wrong::First)?,
                count: number(count, Wrong::Count)?,
            };
            Ok(Call::Submit {
                request,
                bytes: request_data(heap, bytes, request.count)?,
                tick: number(tick, Wrong::Tick)?,
            })
        }
        ["turn", tick] => Ok(Call::Turn {
            tick: number(tick, Wrong::Tick)?,
        }),
        ["collect", tag, room] => {
            let tag = number(tag, Wrong::Tag)?;
            let room = length(room, Wrong::Room)?;
            Ok(Call::Collect {
                tag,
                buffer: vec![in heap; BUFFER; room]?,
            })
        }
        ["open"] => Ok(Call::Open),
        ["home", sector] => Ok(Call::Home {
            sector: number(sector, Wrong::Sector)?,
        }),
        ["fault", first, mask] => Ok(Call::Fault {
            first: number(first, Wrong::First)?,
            mask: number(mask, Wrong::Mask)?,
        }),
        [
            "submit" | "turn" | "collect" | "open" | "home" | "fault",
            ..
        ] => Err(Wrong::Words.into()),
        ["stack", ..] => Err(Wrong::StackNotFirst.into()),
        _ => Err(Wrong::Command.into()),
    }
}
