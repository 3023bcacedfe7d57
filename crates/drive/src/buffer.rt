// The write-back buffer of a drive over its row of bytes: sectors with their bytes, the one longest in it first.
ghost use Rattle.std.specs.Prelude.{◌≡◌, ℕ, ◌+◌, ◌*◌, ◌≤◌, true, [], ◌++◌, length, drop, IfOk, if◌then◌else◌};
ghost use Rattle.std.specs.VecDeque.{deque_capacity};
ghost use Rattle.device.specs.Meaning.{bytes_of, sector_bytes};
ghost use Rattle.device.specs.Sound.{most_sectors};
ghost use Rattle.sectors.specs.Memory.{listed, seen};
ghost use Rattle.drive.specs.Buffer.{buffer_size, index_of, buffered, eased, pushed_out, brought_in, put_out, brought_run, put_out_run, put_all, all_lie, all_good, single};

use device::SECTOR;
use sectors::{Row, is_named};
use std::alloc::{AllocError, Global};
use std::collections::VecDeque;

/// The sectors that the buffer holds at most.
const BUFFERED: usize = 8;

/// A sector in the buffer, with its bytes.
#[derive(Drop)]
pub struct Entry {
    pub sector: u32,
    pub bytes: [u8; SECTOR],
}

/// The buffer, and the row below it.
#[derive(Drop)]
pub struct Buffer<'a> {
    pub row: Row<'a>,
    pub entries: VecDeque<Entry>,
    ghost room: { buffer_size ≤ deque_capacity entries },
    ghost most: { length entries.items ≤ buffer_size },
    ghost lie: { all_lie (length row.bytes.now) entries.items ≡ true },
    ghost good: { all_good row.named entries.items ≡ true },
    ghost single: { single entries.items ≡ true },
}

impl<'a> Buffer<'a> {
    /// An empty buffer over a row.
    pub(crate) fn new(heap: Global, row: Row<'a>) -> Result<Buffer<'a>, AllocError>
        ensures { IfOk result (λ b. (b.row.bytes.now ≡ row.entry.bytes.now) × (b.row.named ≡ row.entry.named) × (b.entries.items ≡ [])) }
    {
        let entries = VecDeque::with_capacity(heap, BUFFERED)?;
        Ok(Buffer { row, entries })
    }

    /// Where a sector stands in the buffer.
    fn find(&self, sector: u32) -> Option<usize>
        ensures { result ≡ index_of sector self.now.entries.items }
    {
        self.entries.iter().position(|entry| entry.sector == sector)
    }

    /// What a sector shows, buffered bytes first.
    fn read_sector(&self, sector: u32) -> &[u8]
        ensures { result.now ≡ buffered self.now.entries.items (seen self.now.row.named self.now.row.bytes.now) sector }
    {
        match self.find(sector) {
            Some(i) => &self.entries[i].bytes,
            None => self.row.read_sector(sector as usize),
        }
    }

    /// Copies what a run shows to the front of `into`.
    // The loop is `Row`'s, over another `read_sector`: a trait for both would bring a ghost member and a law on lengths for three lines.
    // What is asked of a run stands here, at `bring_run` and at `serve`: a struct of run and buffer would be made anew at each step.
    pub(crate) fn read_run(&self, first: u32, count: u32, into: &mut [u8])
        requires low { first + count ≤ most_sectors }
        requires inside { (first + count) * sector_bytes ≤ length self.now.row.bytes.now }
        requires whole { count * sector_bytes ≤ length into.old }
        ensures { into.new ≡ bytes_of (buffered self.now.entries.items (seen self.now.row.named self.now.row.bytes.now)) first count ++ drop (count * sector_bytes) into.old }
    {
        // By place: after `as_chunks_mut` a proof knows how long the bytes are, and not what they are.
        for i in 0..count {
            let to = i as usize * SECTOR;
            let shown = self.read_sector(first + i);
            // All of it: a length that is told in the code is copied without a call.
            into[to..to + SECTOR].copy_from_slice(&shown[..SECTOR]);
        }
    }

    /// Makes room in a full buffer: the sector longest in it goes to the row.
    fn ease(&mut self)
        ensures entries { self.new.entries.items ≡ eased self.old.entries.items }
        ensures bytes { self.new.row.bytes.now ≡ pushed_out self.old.row.named self.old.entries.items self.old.row.bytes.now }
        ensures named { self.new.row.named ≡ self.old.row.named }
        ensures capacity { deque_capacity self.new.entries ≡ deque_capacity self.old.entries }
        ensures same_reference { self.new.row.bytes.ghost_name ≡ self.old.row.bytes.ghost_name }
    {
        let Buffer { row, entries } = self;
        if entries.len() == BUFFERED
            && let Some(oldest) = entries.pop_front()
        {
            row.write_sector(oldest.sector as usize, &oldest.bytes);
        }
    }

    /// Brings a sector into the buffer, but where it is named; if a new one finds it full, the sector longest in it goes to the
    /// row first.
    fn bring_in(&mut self, sector: u32, bytes: &[u8; SECTOR])
        requires { (sector + 1) * sector_bytes ≤ length self.old.row.bytes.now }
        ensures entries { self.new.entries.items ≡ (if listed sector self.old.row.named then self.old.entries.items else brought_in sector bytes.now self.old.entries.items) }
        ensures bytes { self.new.row.bytes.now ≡ (if listed sector self.old.row.named then self.old.row.bytes.now else put_out self.old.row.named sector self.old.entries.items self.old.row.bytes.now) }
        ensures named { self.new.row.named ≡ self.old.row.named }
        ensures capacity { deque_capacity self.new.entries ≡ deque_capacity self.old.entries }
        ensures same_reference { self.new.row.bytes.ghost_name ≡ self.old.row.bytes.ghost_name }
    {
        if is_named(&self.row.named, sector as usize) {
            return;
        }
        match self.find(sector) {
            Some(i) => self.entries[i].bytes = *bytes,
            None => {
                self.ease();
                let entry = Entry {
                    sector,
                    bytes: *bytes,
                };
                self.entries.push_back_reserved(entry);
            }
        }
    }

    /// Brings the good sectors of a run into the buffer, in rising order.
    pub(crate) fn bring_run(&mut self, first: u32, count: u32, bytes: &[u8])
        requires low { first + count ≤ most_sectors }
        requires inside { (first + count) * sector_bytes ≤ length self.old.row.bytes.now }
        requires whole { count * sector_bytes ≤ length bytes.now }
        ensures entries { self.new.entries.items ≡ brought_run self.old.row.named first count bytes.now self.old.entries.items }
        ensures bytes { self.new.row.bytes.now ≡ put_out_run self.old.row.named first count bytes.now self.old.entries.items self.old.row.bytes.now }
        ensures named { self.new.row.named ≡ self.old.row.named }
        ensures capacity { deque_capacity self.new.entries ≡ deque_capacity self.old.entries }
        ensures same_reference { self.new.row.bytes.ghost_name ≡ self.old.row.bytes.ghost_name }
    {
        let (parts, _) = bytes.as_chunks::<SECTOR>();
        for (i, part) in parts[..count as usize].iter().enumerate() {
            self.bring_in(first + i as u32, part);
        }
    }

    /// Puts the whole buffer on the row, the sector longest in it first.
    pub(crate) fn put_all(&mut self)
        ensures entries { self.new.entries.items ≡ [] }
        ensures bytes { self.new.row.bytes.now ≡ put_all self.old.row.named self.old.entries.items self.old.row.bytes.now }
        ensures named { self.new.row.named ≡ self.old.row.named }
        ensures capacity { deque_capacity self.new.entries ≡ deque_capacity self.old.entries }
        ensures same_reference { self.new.row.bytes.ghost_name ≡ self.old.row.bytes.ghost_name }
    {
        let Buffer { row, entries } = self;
        while let Some(oldest) = entries.pop_front() {
            row.write_sector(oldest.sector as usize, &oldest.bytes);
        }
    }
}
