// A stretch of a device, as a device of its own.
ghost use Rattle.std.specs.Prelude.{◌≡◌};
ghost use Rattle.offset.specs.Means.{set_up};

use device::Device;
use gate::must_shut;

/// The sectors of a device from `base` on, `most` of them at most; open, or shut so that it only asks questions below.
#[derive(Drop)]
pub struct Offset<D> {
    pub(crate) lower: D,
    pub(crate) shut: bool,
    pub(crate) base: u32,
    pub(crate) most: u32,
}

impl<D: Device> Offset<D> {
    /// An offset over a device; over one that has open tickets, or no room for any, it only asks questions.
    pub fn new(lower: D, base: u32, most: u32) -> Offset<D>
        ensures keeps { D.kept lower → ⟦<Offset<D> as Device>⟧.kept result }
        ensures means { D.kept lower → ⟦<Offset<D> as Device>⟧.meaning result ≡ set_up base most (D.meaning lower) }
    {
        let shut = must_shut(&lower);
        Offset {
            lower,
            shut,
            base,
            most,
        }
    }
}
