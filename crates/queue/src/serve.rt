// One run or flush, served by the device below.
ghost use Rattle.std.specs.Prelude.{◌≡◌, ℕ, ◌*◌, ◌≤◌, length};
ghost use Rattle.device.specs.Meaning.{sector_bytes};
ghost use Rattle.queue.specs.Serve.{Tried, Servable, Served, Called};

use device::{Device, Kind, Request};

// Kind, first sector and count come one by one: a flush has no run, and a struct of the three would only be taken apart here.
// Every input is taken, by a rule of the project: a submit or collect that is refused below shows as the mask 0, and `Tried` says which.
/// Serves a run, or a flush, by one submit, one turn and one collect under tag 0 and at one tick, and answers the turn's ticks and
/// the run's mask, or 0 where the collect is refused. A write's data is the front of the buffer; a read's bytes are left there.
pub fn serve_below<D: Device>(
    below: &mut D,
    kind: Kind,
    first: u32,
    count: u32,
    buffer: &mut [u8],
    tick: u32,
) -> (u32, u8)
    ensures keeps { D.kept below.old → D.kept below.new }
    ensures tries { D.kept below.old → Tried D.meaning D.does below.old below.new kind first count buffer.old buffer.new tick result.0 result.1 }
    ensures serves { D.kept below.old → Servable (D.meaning below.old) kind first count → count * sector_bytes ≤ length buffer.old → Served (D.meaning below.old) (D.meaning below.new) kind first count buffer.old buffer.new result.0 result.1 }
    ensures calls { D.kept below.old → Servable (D.meaning below.old) kind first count → count * sector_bytes ≤ length buffer.old → Called D.does below.old below.new kind first count buffer.old buffer.new tick result.0 result.1 }
{
    let given = kind.due_length(count).min(buffer.len());
    let request = Request {
        tag: 0,
        kind: u8::from(kind),
        first,
        count,
    };
    let _ = below.submit(request, &buffer[..given], tick);
    let ticks = below.turn(tick);
    let mask = below.collect(0, buffer).unwrap_or(0);
    (ticks, mask)
}
