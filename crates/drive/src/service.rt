// How a drive serves a ticket.
ghost use Rattle.std.specs.Prelude.{◌≡◌, ℕ, ◌+◌, ◌*◌, ◌≤◌, length};
ghost use Rattle.std.specs.VecDeque.{deque_capacity};
ghost use Rattle.device.specs.Meaning.{sector_bytes, longest_run};
ghost use Rattle.device.specs.Sound.{most_sectors};
ghost use Rattle.tickets.specs.Front.{served};
ghost use Rattle.tickets.specs.Open.{places_of, SameFront};
ghost use Rattle.drive.specs.Service.{sight, travel, cost_as, arm_as, entries_as, row_as};
ghost use Rattle.drive.specs.Turn.{turned_ticks, turned_places, turned_arm, turned_buffer, turned_bytes};

use crate::buffer::Buffer;
use crate::drive::Drive;
use device::{Kind, SECTOR};
use tickets::Place;

/// The sectors that the arm passes in a tick.
const STRIDE: u32 = 16;

/// Moves the arm over a run, and answers the ticks.
fn seek(arm: &mut u32, first: u32, count: u32) -> u32
    requires { first + count ≤ most_sectors }
    ensures ticks { result ≡ travel arm.old first }
    ensures arm { arm.new ≡ first + count }
{
    let ticks = 1 + arm.abs_diff(first) / STRIDE;
    *arm = first + count;
    ticks
}

/// Serves a ticket: the place that is lent turns from waiting to ready.
fn serve(place: &mut Place, arm: &mut u32, buffer: &mut Buffer) -> u32
    requires fits { (place.old.first + place.old.count) * sector_bytes ≤ length buffer.old.row.bytes.now }
    requires low { place.old.first + place.old.count ≤ most_sectors }
    requires short { place.old.count ≤ longest_run }
    ensures ticks { result ≡ cost_as place.old.kind arm.old place.old buffer.old.entries.items }
    ensures readies { place.new ≡ served (sight buffer.old.row.named buffer.old.entries.items buffer.old.row.bytes.now) place.old }
    ensures arm { arm.new ≡ arm_as place.old.kind arm.old place.old }
    ensures entries { buffer.new.entries.items ≡ entries_as place.old.kind buffer.old.row.named place.old buffer.old.entries.items }
    ensures bytes { buffer.new.row.bytes.now ≡ row_as place.old.kind buffer.old.row.named place.old buffer.old.entries.items buffer.old.row.bytes.now }
    ensures named { buffer.new.row.named ≡ buffer.old.row.named }
    ensures capacity { deque_capacity buffer.new.entries ≡ deque_capacity buffer.old.entries }
    ensures same_reference { buffer.new.row.bytes.ghost_name ≡ buffer.old.row.bytes.ghost_name }
{
    place.ready = true;
    match place.kind {
        Kind::Read => {
            buffer.read_run(place.first, place.count, &mut place.bytes);
            seek(arm, place.first, place.count)
        }
        Kind::Write => {
            let n = place.count as usize * SECTOR;
            buffer.bring_run(place.first, place.count, &place.bytes[..n]);
            seek(arm, place.first, place.count)
        }
        Kind::Flush => {
            let put = buffer.entries.len() as u32;
            buffer.put_all();
            1 + put
        }
    }
}

impl Drive<'_> {
    /// Serves the oldest ticket that waits, and answers the ticks.
    pub(crate) fn serve_oldest(&mut self) -> u32
        ensures ticks { result ≡ turned_ticks self.old }
        ensures places { places_of self.new.front ≡ turned_places self.old }
        ensures arm { self.new.arm ≡ turned_arm self.old }
        ensures entries { self.new.buffer.entries.items ≡ turned_buffer self.old }
        ensures bytes { self.new.buffer.row.bytes.now ≡ turned_bytes self.old }
        ensures shape { SameFront self.old.front self.new.front }
        ensures capacity { deque_capacity self.new.buffer.entries ≡ deque_capacity self.old.buffer.entries }
        ensures same_reference { self.new.buffer.row.bytes.ghost_name ≡ self.old.buffer.row.bytes.ghost_name }
    {
        let Drive { front, arm, buffer } = self;
        let Some(i) = front.oldest_waiting() else {
            return 0;
        };
        serve(&mut front.places[i], arm, buffer)
    }
}
