// Faults over any device.
ghost use Rattle.std.specs.Prelude.{◌≡◌, ℕ};
ghost use Rattle.device.specs.Fault.{fault_of};

use crate::device::Device;
use crate::fault::Fault;

/// The fault that a mask tells of the run from `first`; the mask 0 tells of none.
pub fn fault_at<D: Device>(device: &D, first: u32, mask: u8) -> Option<Fault>
    ensures { D.kept device.now → result ≡ fault_of (D.meaning device.now) first mask }
{
    if mask == 0 {
        return None;
    }
    let lowest = first
        .checked_add(mask.trailing_zeros())
        .and_then(|sector| device.home(sector));
    Some(Fault {
        lowest,
        bad: mask.count_ones(),
    })
}
