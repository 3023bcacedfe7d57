// Two answers to one read as one.
ghost use Rattle.std.specs.Prelude.{◌≡◌, ℕ, ◌*◌, ◌<◌, ◌≤◌, ◌++◌, length, drop};
ghost use Rattle.device.specs.Meaning.{longest_run, sector_bytes};
ghost use Rattle.mirror.specs.Means.{picked, bit, answered};

use device::{Refusal, SECTOR};

/// Whether bit i of a mask is set.
fn has_bit(mask: u8, i: usize) -> bool
    requires { i < 8 }
    ensures { result ≡ bit mask i }
{
    (mask >> i) & 1 == 1
}

/// Puts the other side's sectors in place of those that the mask names.
pub(crate) fn patch(buffer: &mut [u8], other: &[u8], mask: u8, count: usize)
    requires run { count ≤ longest_run }
    requires in_buffer { count * sector_bytes ≤ length buffer.old }
    requires in_other { count * sector_bytes ≤ length other.now }
    ensures { buffer.new ≡ picked (bit mask) count buffer.old other.now ++ drop (count * sector_bytes) buffer.old }
{
    let (sectors, _) = other.as_chunks::<SECTOR>();
    // By place: after `as_chunks_mut` a proof knows how long the bytes are, and not what they are.
    for (i, sector) in sectors[..count].iter().enumerate() {
        if has_bit(mask, i) {
            let to = i * SECTOR;
            buffer[to..to + SECTOR].copy_from_slice(sector);
        }
    }
}

/// The mask of an answer; 0 of a refusal.
// A number and no `Result`: no side refuses what the mirror has ready, and by a rule of the project a collect takes every input.
pub(crate) fn mask_in(answer: Result<u8, Refusal>) -> u8
    ensures { result ≡ answered answer }
{
    answer.unwrap_or(0)
}
