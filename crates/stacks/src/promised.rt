// An offset over a mirror of a drive and a memory disk, sent a list of calls: the contract of the sending call applies to it with
// nothing to prove but the making calls.
ghost use Rattle.std.specs.Prelude.{IfOk};
ghost use Rattle.stacks.specs.Stack.{Promised};

use drive::Drive;
use history::{Call, Event, send_all};
use memory_disk::MemoryDisk;
use mirror::Mirror;
use offset::Offset;
use std::alloc::{AllocError, Global};

// Seven parameters, each of which goes to another part of the stack: no two of them travel together anywhere else.
/// Sends the calls to an offset over a mirror of a drive and a memory disk, which lie over the bytes that are lent.
pub fn play_on_stack(
    heap: Global,
    left: &mut [u8],
    right: &mut [u8],
    named: [u32; 8],
    base: u32,
    most: u32,
    calls: Vec<Call>,
) -> Result<Vec<Event>, AllocError>
    ensures { IfOk result (λ log. Promised named base most left.old right.old calls.items log.items) }
{
    let drive = Drive::new(heap, left, named)?;
    let disk = MemoryDisk::new(heap, right, named)?;
    let mirror = Mirror::new(drive, disk);
    let mut stack = Offset::new(mirror, base, most);
    send_all(heap, &mut stack, calls)
}
