// The eight numbers that name bad sectors.
ghost use Rattle.std.specs.Prelude.{◌≡◌, ℕ, min};
ghost use Rattle.device.specs.Meaning.{mask_of, longest_run};
ghost use Rattle.sectors.specs.Memory.{listed, names};

use device::LONGEST_RUN;

/// Whether a sector is named.
// A function of the array and no struct's method: making calls take the array as it is, and a struct would be taken apart in every clause.
pub fn is_named(named: &[u32; 8], sector: usize) -> bool
    ensures { result ≡ listed sector named.now }
{
    named.iter().any(|name| *name as usize == sector)
}

/// The mask of a run, or of its first 8 sectors: bit i is set if its sector i is named.
pub fn mask(named: &[u32; 8], first: u32, count: u32) -> u8
    ensures { result ≡ mask_of (names named.now) first (min count longest_run) }
{
    (0..count.min(LONGEST_RUN))
        .map(|i| u8::from(is_named(named, first as usize + i as usize)) << i)
        .sum()
}
