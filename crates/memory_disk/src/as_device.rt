// The memory disk as a device.
ghost use Rattle.std.specs.Prelude.{◌≡◌, ℕ, [], IfOk};
ghost use Rattle.memory_disk.specs.Means.{set_up};
ghost use Rattle.memory_disk.specs.Turn.{means, Acts};
ghost use Rattle.memory_disk.specs.SoundFacts.{sound_disk};

use crate::disk::MemoryDisk;
use device::{Device, Home, Refusal, Request, SECTOR, State};
use sectors::Row;
use std::alloc::{AllocError, Global};
use tickets::Front;

/// The tickets that a memory disk holds at most.
const CAPACITY: u32 = 4;

impl<'a> MemoryDisk<'a> {
    /// A memory disk over the bytes; `named` names its bad sectors, and a number not below the size names none.
    pub fn new(
        heap: Global,
        bytes: &'a mut [u8],
        named: [u32; 8],
    ) -> Result<MemoryDisk<'a>, AllocError>
        ensures { IfOk result (λ d. (d.row.bytes.now ≡ bytes.old) × (means d ≡ set_up named bytes.old)) }
    {
        let front = Front::new(heap, bytes.len() / SECTOR, CAPACITY, named)?;
        let row = Row { bytes, named };
        Ok(MemoryDisk { row, front })
    }
}

// The drive's impl is alike: a generic one would put a trait of five ghost members and its laws where one-line answers stand.
impl Device for MemoryDisk<'_> {
    ghost meaning = { means };

    ghost kept = { λ d. Unit {0} };

    ghost sound = { λ d k. sound_disk d };

    ghost does = { Acts };

    fn size(&self) -> u32 {
        self.front.size
    }

    fn capacity(&self) -> u32 {
        self.front.capacity
    }

    fn height(&self) -> u8 {
        0
    }

    fn open_tickets(&self) -> u32 {
        self.front.open_tickets()
    }

    fn tag_at(&self, i: u32) -> Option<u32> {
        self.front.tag_at(i)
    }

    fn state(&self, tag: u32) -> State {
        self.front.state(tag)
    }

    fn byte_count(&self, tag: u32) -> u32 {
        self.front.byte_count(tag)
    }

    fn home(&self, sector: u32) -> Option<Home> {
        self.front.home(sector)
    }

    fn submit(&mut self, request: Request, bytes: &[u8], _tick: u32) -> Result<(), Refusal> {
        self.front.submit(request, bytes)
    }

    fn turn(&mut self, _tick: u32) -> u32 {
        self.serve_oldest()
    }

    fn collect(&mut self, tag: u32, buffer: &mut [u8]) -> Result<u8, Refusal> {
        self.front.collect(tag, buffer)
    }
}
