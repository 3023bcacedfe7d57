// The stacks that the console builds, and the bottom memories that it prints at the end.
use crate::script::Script;
use crate::show::Bytes;
use crate::wrong::Wrong;
use device::SECTOR;
use drive::Drive;
use memory_disk::MemoryDisk;
use mirror::Mirror;
use offset::Offset;
use std::alloc::{AllocError, Global};
use std::array;
use std::str::FromStr;

/// The stacks that the console can build. Unless one says otherwise, its bottom device has 512 sectors, and sector 300 is bad.
#[derive(Clone, Copy, Default)]
pub(crate) enum Stack {
    /// A memory disk.
    #[default]
    Memory,
    /// A drive.
    Drive,
    /// An offset with base 100 and length 250 over a drive.
    Offset,
    /// A mirror of a drive, sectors 300 and 310 bad, and a memory disk of 400 sectors, sectors 310 and 320 bad.
    Mirror,
}

impl FromStr for Stack {
    type Err = Wrong;

    fn from_str(name: &str) -> Result<Stack, Wrong> {
        match name {
            "memory" => Ok(Stack::Memory),
            "drive" => Ok(Stack::Drive),
            "offset" => Ok(Stack::Offset),
            "mirror" => Ok(Stack::Mirror),
            _ => Err(Wrong::StackName),
        }
    }
}

/// A number that names no sector.
const NO_SECTOR: u32 = 65536;

/// Eight numbers: those of the bad sectors, and others that name none.
fn bad(sectors: &[u32]) -> [u32; 8] {
    array::from_fn(|i| sectors.get(i).copied().unwrap_or(NO_SECTOR))
}

/// So many zeroed sectors.
fn zeroed(heap: Global, sectors: usize) -> Result<Vec<u8>, AllocError> {
    vec![in heap; 0u8; sectors.saturating_mul(SECTOR)]
}

/// Plays a script on the stack that it chooses, and says what is to be printed: the answers, and the bottom memories.
pub(crate) fn transcript(heap: Global, script: Script) -> Result<String, AllocError> {
    let mut bytes = zeroed(heap, 512)?;
    let played = match script.stack {
        Stack::Memory => {
            let disk = MemoryDisk::new(heap, bytes.as_mut_slice(), bad(&[300]))?;
            script.play(heap, disk)?
        }
        Stack::Drive => {
            let drive = Drive::new(heap, bytes.as_mut_slice(), bad(&[300]))?;
            script.play(heap, drive)?
        }
        Stack::Offset => {
            let drive = Drive::new(heap, bytes.as_mut_slice(), bad(&[300]))?;
            script.play(heap, Offset::new(drive, 100, 250))?
        }
        Stack::Mirror => return mirrored(heap, script, bytes),
    };
    let bytes = Bytes(bytes.as_slice());
    format!(in heap; "{played}medium 0: {bytes}\n")
}

/// The same on a mirror, whose other side lies in a memory of its own.
fn mirrored(heap: Global, script: Script, mut left: Vec<u8>) -> Result<String, AllocError> {
    let mut right = zeroed(heap, 400)?;
    let drive = Drive::new(heap, left.as_mut_slice(), bad(&[300, 310]))?;
    let disk = MemoryDisk::new(heap, right.as_mut_slice(), bad(&[310, 320]))?;
    let played = script.play(heap, Mirror::new(drive, disk))?;
    let left = Bytes(left.as_slice());
    let right = Bytes(right.as_slice());
    format!(in heap; "{played}medium 0: {left}\nmedium 1: {right}\n")
}
