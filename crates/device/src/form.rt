// What every device looks at first in a request: its form.
ghost use Rattle.std.specs.Prelude.{◌≡◌, ℕ};
ghost use Rattle.device.specs.Submit.{fair_count, due_length, form};

use crate::interface::{Cause, Kind, Request};

/// The bytes of a sector.
pub const SECTOR: usize = 128;

/// The most sectors that one request covers.
pub const LONGEST_RUN: u32 = 8;

/// The bytes of the longest run.
pub const RUN_BYTES: usize = LONGEST_RUN as usize * SECTOR;

/// The most sectors that a device has.
pub const MOST_SECTORS: usize = 65536;

/// The most tickets that are open on a device at once.
pub const MOST_TICKETS: u32 = 32;

impl Kind {
    /// Whether the kind may have the run.
    fn may_have(self, first: u32, count: u32) -> bool
        ensures { result ≡ fair_count self first count }
    {
        match self {
            Kind::Read | Kind::Write => (1..=LONGEST_RUN).contains(&count),
            Kind::Flush => first == 0 && count == 0,
        }
    }

    /// The bytes that a request of the kind comes with.
    pub fn due_length(self, count: u32) -> usize
        ensures { result ≡ due_length self count }
    {
        match self {
            Kind::Write => count as usize * SECTOR,
            Kind::Read | Kind::Flush => 0,
        }
    }
}

/// The kind of a well-formed request that comes with `given` bytes, or the first cause to refuse it
/// on a device of `size` sectors.
pub fn examine(request: Request, given: usize, size: u32) -> Result<Kind, Cause>
    ensures { result ≡ form size request given }
{
    let kind = Kind::try_from(request.kind)?;
    if !kind.may_have(request.first, request.count) {
        return Err(Cause::BadCount);
    }
    if u64::from(request.first) + u64::from(request.count) > u64::from(size) {
        return Err(Cause::PastEnd);
    }
    if given != kind.due_length(request.count) {
        return Err(Cause::BadLength);
    }
    Ok(kind)
}
