// How a memory disk serves a ticket.
ghost use Rattle.std.specs.Prelude.{◌≡◌, ℕ, ◌+◌, ◌*◌, ◌≤◌, length};
ghost use Rattle.device.specs.Meaning.{longest_run, sector_bytes};
ghost use Rattle.sectors.specs.Memory.{seen};
ghost use Rattle.tickets.specs.Front.{served, places_as};
ghost use Rattle.tickets.specs.Open.{places_of, oldest_of, SameFront};
ghost use Rattle.memory_disk.specs.Stored.{stored};
ghost use Rattle.memory_disk.specs.Turn.{turn_ticks, turned_bytes};

use crate::disk::MemoryDisk;
use device::{Kind, SECTOR};
use sectors::Row;
use tickets::Place;

/// Serves a ticket: the place that is lent turns from waiting to ready.
fn serve(place: &mut Place, row: &mut Row)
    requires fits { (place.old.first + place.old.count) * sector_bytes ≤ length row.old.bytes.now }
    requires short { place.old.count ≤ longest_run }
    ensures readies { place.new ≡ served (seen row.old.named row.old.bytes.now) place.old }
    ensures stores { row.new.bytes.now ≡ stored row.old.named place.old row.old.bytes.now }
    ensures named { row.new.named ≡ row.old.named }
    ensures same_reference { row.new.bytes.ghost_name ≡ row.old.bytes.ghost_name }
{
    match place.kind {
        Kind::Read => row.read_run(place.first, place.count, &mut place.bytes),
        Kind::Write => {
            let n = place.count as usize * SECTOR;
            row.write_run(place.first, place.count, &place.bytes[..n]);
        }
        Kind::Flush => {}
    }
    place.ready = true;
}

impl MemoryDisk<'_> {
    /// Serves the oldest ticket that waits, and answers the ticks.
    pub(crate) fn serve_oldest(&mut self) -> u32
        ensures ticks { result ≡ turn_ticks self.old }
        ensures places { places_of self.new.front ≡ places_as (oldest_of self.old.front) (seen self.old.front.named self.old.row.bytes.now) (places_of self.old.front) }
        ensures bytes { self.new.row.bytes.now ≡ turned_bytes self.old }
        ensures shape { SameFront self.old.front self.new.front }
        ensures same_reference { self.new.row.bytes.ghost_name ≡ self.old.row.bytes.ghost_name }
    {
        let MemoryDisk { row, front } = self;
        let Some(i) = front.oldest_waiting() else {
            return 0;
        };
        serve(&mut front.places[i], row);
        1
    }
}
