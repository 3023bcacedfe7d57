// The drive as a device.
ghost use Rattle.std.specs.Prelude.{◌≡◌, ℕ, IfOk};
ghost use Rattle.drive.specs.Means.{set_up};
ghost use Rattle.drive.specs.Turn.{means, Acts};
ghost use Rattle.drive.specs.SoundFacts.{sound_drive};

use crate::buffer::Buffer;
use crate::drive::Drive;
use device::{Device, Home, Refusal, Request, SECTOR, State};
use sectors::Row;
use std::alloc::{AllocError, Global};
use tickets::Front;

/// The tickets that a drive holds at most.
const CAPACITY: u32 = 1;

impl<'a> Drive<'a> {
    /// A drive over the bytes; `named` names its bad sectors, and a number not below the size names none.
    pub fn new(heap: Global, bytes: &'a mut [u8], named: [u32; 8]) -> Result<Drive<'a>, AllocError>
        ensures { IfOk result (λ d. (d.buffer.row.bytes.now ≡ bytes.old) × (means d ≡ set_up named bytes.old) × (d.arm ≡ 0)) }
    {
        let front = Front::new(heap, bytes.len() / SECTOR, CAPACITY, named)?;
        let buffer = Buffer::new(heap, Row { bytes, named })?;
        Ok(Drive {
            front,
            arm: 0,
            buffer,
        })
    }
}

// The memory disk's impl is alike: a generic one would put a trait of five ghost members and its laws where one-line answers stand.
impl Device for Drive<'_> {
    ghost meaning = { means };

    ghost kept = { λ d. Unit {0} };

    ghost sound = { λ d k. sound_drive d };

    ghost does = { Acts };

    fn size(&self) -> u32 {
        self.front.size
    }

    fn capacity(&self) -> u32 {
        self.front.capacity
    }

    fn height(&self) -> u8 {
        0
    }

    fn open_tickets(&self) -> u32 {
        self.front.open_tickets()
    }

    fn tag_at(&self, i: u32) -> Option<u32> {
        self.front.tag_at(i)
    }

    fn state(&self, tag: u32) -> State {
        self.front.state(tag)
    }

    fn byte_count(&self, tag: u32) -> u32 {
        self.front.byte_count(tag)
    }

    fn home(&self, sector: u32) -> Option<Home> {
        self.front.home(sector)
    }

    fn submit(&mut self, request: Request, bytes: &[u8], _tick: u32) -> Result<(), Refusal> {
        self.front.submit(request, bytes)
    }

    fn turn(&mut self, _tick: u32) -> u32 {
        self.serve_oldest()
    }

    fn collect(&mut self, tag: u32, buffer: &mut [u8]) -> Result<u8, Refusal> {
        self.front.collect(tag, buffer)
    }
}
