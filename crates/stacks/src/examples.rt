// What stacks of layers answer.
ghost use Rattle.std.specs.Prelude.{◌≤◌, []};
ghost use Rattle.device.specs.Sound.{most_height};
ghost use Rattle.memory_disk.specs.Means.{set_up};
ghost use Rattle.stacks.specs.Tall.{raised};
ghost use Rattle.stacks.specs.SoundFacts.{sound_raised};

use device::{Cause, Device, Home, Kind, RUN_BYTES, Refusal, Request, SECTOR, State};
use drive::Drive;
use memory_disk::MemoryDisk;
use mirror::Mirror;
use offset::Offset;
use std::alloc::{AllocError, Global};
use std::test::Fail;

// numbers that name no sector
const NONE: [u32; 8] = [65536; 8];

// What a submit answers, with a write's data.
// Its own, and not shared with the other examples: one sends wrong lengths, one serves a step, one sends what is due.
fn submit<D: Device>(
    device: &mut D,
    tag: u32,
    kind: Kind,
    first: u32,
    count: u32,
) -> Result<(), Cause> {
    let data = [5; RUN_BYTES];
    let given = kind.due_length(count).min(RUN_BYTES);
    let request = Request {
        tag,
        kind: u8::from(kind),
        first,
        count,
    };
    device
        .submit(request, &data[..given], 0)
        .map_err(|refusal| refusal.cause)
}

// Submits a read of a sector, turns, and collects; the answer, and the byte in the sector's middle.
fn read<D: Device>(device: &mut D, sector: u32) -> (Result<u8, Cause>, u8) {
    let mut buffer = [238; SECTOR];
    let _ = submit(device, 77, Kind::Read, sector, 1);
    let _ = device.turn(0);
    let answer = device
        .collect(77, &mut buffer)
        .map_err(|refusal| refusal.cause);
    (answer, buffer[64])
}

// An offset of an offset: sector 0 is sector 3 below, and the home comes up shifted.
#[test]
fn offset_of_offset(rt: HostRuntime) -> Result<(), Fail> {
    let mut bytes = [0u8; 1024];
    let disk = MemoryDisk::new(rt.alloc(), &mut bytes, NONE)?;
    let mut stack = Offset::new(Offset::new(disk, 1, 6), 2, 100);
    assert_eq!(rt; stack.size(), 4);
    assert_eq!(rt; stack.capacity(), 4);
    assert_eq!(rt; stack.height(), 2);
    assert_eq!(rt;
        stack.home(0),
        Some(Home {
            height: 0,
            sector: 3,
        })
    );
    assert_eq!(rt; stack.home(4), None);
    assert_eq!(rt; submit(&mut stack, 1, Kind::Write, 0, 4), Ok(()));
    assert_eq!(rt; submit(&mut stack, 2, Kind::Flush, 0, 0), Ok(()));
    assert_eq!(rt;
        submit(&mut stack, 3, Kind::Read, 1, 4),
        Err(Cause::PastEnd)
    );
    assert_eq!(rt; stack.turn(0), 1);
    drop(stack);
    assert_eq!(rt; bytes[383], 0);
    assert_eq!(rt; bytes[384], 5);
    assert_eq!(rt; bytes[895], 5);
    assert_eq!(rt; bytes[896], 0);
    Ok(())
}

// A base at and past the end, and one near the largest number.
#[test]
fn base_past_the_end(rt: HostRuntime) -> Result<(), Fail> {
    let mut a = [0u8; 512];
    let mut b = [0u8; 512];
    let mut c = [0u8; 512];
    let at = Offset::new(MemoryDisk::new(rt.alloc(), &mut a, NONE)?, 4, 9);
    let last = Offset::new(MemoryDisk::new(rt.alloc(), &mut b, NONE)?, 3, 4294967295);
    let far = Offset::new(
        MemoryDisk::new(rt.alloc(), &mut c, NONE)?,
        4294967295,
        4294967295,
    );
    assert_eq!(rt; at.size(), 0);
    assert_eq!(rt; last.size(), 1);
    assert_eq!(rt; far.size(), 0);
    assert_eq!(rt; far.home(1), None);
    Ok(())
}

// A layer over a device with an open ticket has no room for any, and neither has a layer over that one.
#[test]
fn open_below(rt: HostRuntime) -> Result<(), Fail> {
    let mut bytes = [0u8; 512];
    let mut disk = MemoryDisk::new(rt.alloc(), &mut bytes, NONE)?;
    assert_eq!(rt; submit(&mut disk, 1, Kind::Read, 0, 1), Ok(()));
    let mut stack = Offset::new(Offset::new(disk, 0, 4), 0, 4);
    assert_eq!(rt; stack.capacity(), 0);
    assert_eq!(rt; stack.open_tickets(), 0);
    assert_eq!(rt; stack.turn(0), 0);
    assert_eq!(rt; submit(&mut stack, 1, Kind::Read, 0, 1), Err(Cause::Full));
    let refused = stack.collect(1, &mut []).map_err(|refusal| refusal.cause);
    assert_eq!(rt; refused, Err(Cause::NotOpen));
    Ok(())
}

// A mirror of unequal sides: sizes, capacities, heights, homes, and what a bad sector on one side shows.
#[test]
fn unequal_sides(rt: HostRuntime) -> Result<(), Fail> {
    let mut left = [7u8; 640];
    let mut right = [9u8; 768];
    let a = Drive::new(rt.alloc(), &mut left, [2, 3, 99, 99, 99, 99, 99, 99])?;
    let b = MemoryDisk::new(rt.alloc(), &mut right, [3, 4, 99, 99, 99, 99, 99, 99])?;
    let mut stack = Mirror::new(a, Offset::new(b, 0, 6));
    assert_eq!(rt; stack.size(), 5);
    assert_eq!(rt; stack.capacity(), 1);
    assert_eq!(rt; stack.height(), 2);
    assert_eq!(rt;
        stack.home(4),
        Some(Home {
            height: 2,
            sector: 4,
        })
    );
    assert_eq!(rt; read(&mut stack, 2), (Ok(0), 9));
    assert_eq!(rt; read(&mut stack, 3), (Ok(1), 0));
    assert_eq!(rt; read(&mut stack, 4), (Ok(0), 7));
    Ok(())
}

// A mirror of mirrors of unequal size, and ticks that are the larger sum.
#[test]
fn mirror_of_mirrors(rt: HostRuntime) -> Result<(), Fail> {
    let mut one = [1u8; 512];
    let mut two = [2u8; 384];
    let mut three = [3u8; 640];
    let a = MemoryDisk::new(rt.alloc(), &mut one, [1, 99, 99, 99, 99, 99, 99, 99])?;
    let b = MemoryDisk::new(rt.alloc(), &mut two, [1, 99, 99, 99, 99, 99, 99, 99])?;
    let c = MemoryDisk::new(rt.alloc(), &mut three, NONE)?;
    let mut stack = Mirror::new(Mirror::new(a, b), c);
    assert_eq!(rt; stack.size(), 3);
    assert_eq!(rt; submit(&mut stack, 1, Kind::Write, 0, 1), Ok(()));
    assert_eq!(rt; submit(&mut stack, 2, Kind::Flush, 0, 0), Ok(()));
    assert_eq!(rt; stack.turn(0), 2);
    assert_eq!(rt; stack.turn(0), 0);
    assert_eq!(rt; read(&mut stack, 1), (Ok(0), 3));
    assert_eq!(rt; read(&mut stack, 0), (Ok(0), 5));
    Ok(())
}

// A stand-in that keeps nothing: it only stands as high as a device may.
#[derive(Drop)]
struct Tall {
    height: u8,
}

impl Device for Tall {
    ghost meaning = { λ _. set_up [] [] };

    ghost kept = { λ _. ⊥ };

    ghost sound = { λ d k. absurd k };

    ghost does = { λ _ _ _. Unit {0} };

    fn size(&self) -> u32 {
        1
    }

    fn capacity(&self) -> u32 {
        1
    }

    fn height(&self) -> u8 {
        self.height
    }

    fn open_tickets(&self) -> u32 {
        0
    }

    fn tag_at(&self, _i: u32) -> Option<u32> {
        None
    }

    fn state(&self, _tag: u32) -> State {
        State::NotOpen
    }

    fn byte_count(&self, _tag: u32) -> u32 {
        0
    }

    fn home(&self, _sector: u32) -> Option<Home> {
        None
    }

    fn submit(&mut self, _request: Request, _bytes: &[u8], _tick: u32) -> Result<(), Refusal> {
        Ok(())
    }

    fn turn(&mut self, _tick: u32) -> u32 {
        0
    }

    fn collect(&mut self, _tag: u32, _buffer: &mut [u8]) -> Result<u8, Refusal> {
        Ok(0)
    }
}

// No layer stands higher than 255.
#[test]
fn the_highest_layers(rt: HostRuntime) {
    assert_eq!(rt; Offset::new(Tall { height: 253 }, 0, 1).height(), 254);
    assert_eq!(rt;
        Offset::new(Offset::new(Tall { height: 254 }, 0, 1), 0, 1).height(),
        255
    );
    assert_eq!(rt;
        Mirror::new(Tall { height: 3 }, Tall { height: 255 }).height(),
        255
    );
}

// A device that only says that it stands at another height.
#[derive(Drop)]
struct Raised<D: Device> {
    lower: D,
    height: u8,
    ghost low: { height ≤ most_height },
}

impl<D: Device> Device for Raised<D> {
    ghost meaning = { λ d. raised d.height (D.Device.meaning d.lower) };

    ghost kept = { λ d. D.Device.kept d.lower };

    ghost sound = { λ d k. sound_raised d.height (D.Device.meaning d.lower) d.low (D.Device.sound d.lower k) };

    ghost does = { λ _ _ _. Unit {0} };

    fn size(&self) -> u32 {
        self.lower.size()
    }

    fn capacity(&self) -> u32 {
        self.lower.capacity()
    }

    fn height(&self) -> u8 {
        self.height
    }

    fn open_tickets(&self) -> u32 {
        self.lower.open_tickets()
    }

    fn tag_at(&self, i: u32) -> Option<u32> {
        self.lower.tag_at(i)
    }

    fn state(&self, tag: u32) -> State {
        self.lower.state(tag)
    }

    fn byte_count(&self, tag: u32) -> u32 {
        self.lower.byte_count(tag)
    }

    fn home(&self, sector: u32) -> Option<Home> {
        self.lower.home(sector)
    }

    fn submit(&mut self, request: Request, bytes: &[u8], tick: u32) -> Result<(), Refusal> {
        let height = self.height;
        self.lower
            .submit(request, bytes, tick)
            .map_err(|refusal| Refusal { height, ..refusal })
    }

    fn turn(&mut self, tick: u32) -> u32 {
        self.lower.turn(tick)
    }

    fn collect(&mut self, tag: u32, buffer: &mut [u8]) -> Result<u8, Refusal> {
        let height = self.height;
        self.lower
            .collect(tag, buffer)
            .map_err(|refusal| Refusal { height, ..refusal })
    }
}

// A device of one sector and room for one ticket, at the height.
fn one_sector_at<'a>(
    heap: Global,
    bytes: &'a mut [u8; SECTOR],
    height: u8,
) -> Result<Raised<Drive<'a>>, AllocError> {
    let lower = Drive::new(heap, bytes, NONE)?;
    Ok(Raised { lower, height })
}

// An open layer stands no higher either.
#[test]
fn the_highest_open_layers(rt: HostRuntime) -> Result<(), Fail> {
    let heap = rt.alloc();
    let (mut a, mut b) = ([0; SECTOR], [0; SECTOR]);
    let one = Offset::new(one_sector_at(heap, &mut a, 253)?, 0, 1);
    assert_eq!(rt; (one.height(), one.capacity()), (254, 1));
    drop(one);
    let two = Offset::new(Offset::new(one_sector_at(heap, &mut a, 254)?, 0, 1), 0, 1);
    assert_eq!(rt; (two.height(), two.capacity()), (255, 1));
    drop(two);
    let sides = Mirror::new(
        one_sector_at(heap, &mut a, 3)?,
        one_sector_at(heap, &mut b, 255)?,
    );
    assert_eq!(rt; (sides.height(), sides.capacity()), (255, 1));
    Ok(())
}
