// A block device over bytes that its owner lends.
ghost use Rattle.std.specs.Prelude.{◌≡◌};
ghost use Rattle.memory_disk.specs.Means.{Holds};

use sectors::Row;
use tickets::Front;

/// A disk in memory: its size is the whole sectors of its bytes, and the bytes of its good sectors are the medium.
#[derive(Drop)]
pub struct MemoryDisk<'a> {
    pub(crate) row: Row<'a>,
    pub(crate) front: Front,
    ghost holds: { Holds front row.bytes.now },
    // The front judges by the eight numbers and the row stores by them, so each has them.
    ghost named: { row.named ≡ front.named },
}
