// A drive over bytes that its owner lends.
ghost use Rattle.std.specs.Prelude.{◌≡◌, ◌*◌, ◌≤◌, true};
ghost use Rattle.device.specs.Meaning.{sector_bytes};
ghost use Rattle.drive.specs.Buffer.{all_lie};
ghost use Rattle.drive.specs.Means.{Holds};

use crate::buffer::Buffer;
use tickets::Front;

/// A drive: its size is the whole sectors of its bytes, and the bytes of its good sectors are the medium.
#[derive(Drop)]
pub struct Drive<'a> {
    pub(crate) front: Front,
    pub(crate) arm: u32,
    pub(crate) buffer: Buffer<'a>,
    ghost holds: { Holds front buffer.row.bytes.now },
    // The front judges by the eight numbers and the row stores by them, so each has them.
    ghost named: { buffer.row.named ≡ front.named },
    ghost lie: { all_lie (front.size * sector_bytes) buffer.entries.items ≡ true },
    ghost reach: { arm ≤ front.size },
    ghost one: { front.capacity ≡ 1 },
}
