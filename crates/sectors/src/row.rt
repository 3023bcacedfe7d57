// A row of bytes that somebody lends, as sectors of which some are named bad.
ghost use Rattle.std.specs.Prelude.{◌≡◌, ℕ, ◌+◌, ◌*◌, ◌++◌, length, drop, nat_le, if◌then◌else◌};
ghost use Rattle.device.specs.Meaning.{bytes_of, sector_bytes};
ghost use Rattle.sectors.specs.Memory.{seen, put_sector, put_run, lies_in};

use crate::named::is_named;
use device::SECTOR;

/// Whether a run lies in `memory` bytes, and its bytes in `buffer` bytes.
fn lies_in(first: u32, count: u32, memory: usize, buffer: usize) -> bool
    ensures { result ≡ lies_in first count memory buffer }
{
    let end = first as usize + count as usize;
    end * SECTOR <= memory && count as usize * SECTOR <= buffer
}

/// What a sector shows: zeros where it is named, and no more bytes than there are where the memory ends before it does.
fn shown_sector<'a>(memory: &'a [u8], named: &[u32; 8], sector: usize) -> &'a [u8]
    ensures { result.now ≡ seen named.now memory.now sector }
{
    if is_named(named, sector) {
        return &[0; SECTOR];
    }
    let from = sector.saturating_mul(SECTOR).min(memory.len());
    let rest = &memory[from..];
    &rest[..SECTOR.min(rest.len())]
}

/// Copies what a run shows to the front of `into`; a run that does not lie in the memory, or whose bytes do not fit, is not read.
pub fn read_run(memory: &[u8], named: &[u32; 8], first: u32, count: u32, into: &mut [u8])
    ensures { into.new ≡ (if lies_in first count (length memory.now) (length into.old) then bytes_of (seen named.now memory.now) first count ++ drop (count * sector_bytes) into.old else into.old) }
{
    if lies_in(first, count, memory.len(), into.len()) {
        // By place: after `as_chunks_mut` a proof knows how long the bytes are, and not what they are.
        for i in 0..count as usize {
            let to = i * SECTOR;
            let shown = shown_sector(memory, named, first as usize + i);
            // All of it: a length that is told in the code is copied without a call.
            into[to..to + SECTOR].copy_from_slice(&shown[..SECTOR]);
        }
    }
}

/// The bytes, and the numbers of the sectors that are named.
#[derive(Drop)]
pub struct Row<'a> {
    pub bytes: &'a mut [u8],
    // Eight numbers and no list, by a rule of the project: memory is fixed, and no call allocates.
    pub named: [u32; 8],
}

impl Row<'_> {
    /// What a sector shows: zeros where it is named, and no more bytes than there are where the row ends before it does.
    pub fn read_sector(&self, sector: usize) -> &[u8]
        ensures { result.now ≡ seen self.now.named self.now.bytes.now sector }
    {
        shown_sector(self.bytes, &self.named, sector)
    }

    /// Stores a sector's bytes; a sector that is named, or that does not lie in the row, is not stored.
    pub fn write_sector(&mut self, sector: usize, bytes: &[u8; SECTOR])
        ensures bytes { self.new.bytes.now ≡ (if nat_le ((sector + 1) * sector_bytes) (length self.old.bytes.now) then put_sector self.old.named sector bytes.now self.old.bytes.now else self.old.bytes.now) }
        ensures named { self.new.named ≡ self.old.named }
        ensures same_reference { self.new.bytes.ghost_name ≡ self.old.bytes.ghost_name }
    {
        if sector < self.bytes.len() / SECTOR && !is_named(&self.named, sector) {
            // By place: after `as_chunks_mut` a proof knows how long the bytes are, and not what they are.
            let to = sector * SECTOR;
            self.bytes[to..to + SECTOR].copy_from_slice(bytes);
        }
    }

    /// Copies what a run shows to the front of `into`; a run that does not lie in the row, or whose bytes do not fit, is not read.
    pub fn read_run(&self, first: u32, count: u32, into: &mut [u8])
        ensures { into.new ≡ (if lies_in first count (length self.now.bytes.now) (length into.old) then bytes_of (seen self.now.named self.now.bytes.now) first count ++ drop (count * sector_bytes) into.old else into.old) }
    {
        read_run(self.bytes, &self.named, first, count, into);
    }

    /// Stores the bytes of a run at those of its sectors that are not named; a run that does not lie in the row, or that
    /// comes with too few bytes, is not stored.
    pub fn write_run(&mut self, first: u32, count: u32, bytes: &[u8])
        ensures bytes { self.new.bytes.now ≡ (if lies_in first count (length self.old.bytes.now) (length bytes.now) then put_run self.old.named first count bytes.now self.old.bytes.now else self.old.bytes.now) }
        ensures named { self.new.named ≡ self.old.named }
        ensures same_reference { self.new.bytes.ghost_name ≡ self.old.bytes.ghost_name }
    {
        if lies_in(first, count, self.bytes.len(), bytes.len()) {
            let (parts, _) = bytes.as_chunks::<SECTOR>();
            for (i, part) in parts[..count as usize].iter().enumerate() {
                self.write_sector(first as usize + i, part);
            }
        }
    }
}
