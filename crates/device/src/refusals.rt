// A refusal by any device.
ghost use Rattle.std.specs.Prelude.{◌≡◌};
ghost use Rattle.device.specs.Meaning.{refused_by};

use crate::device::Device;
use crate::interface::{Cause, Refusal};

/// What a refused call of the device returns: the cause, at the device's height.
pub fn refused<D: Device>(device: &D, cause: Cause) -> Refusal
    ensures { D.kept device.now → result ≡ refused_by (D.meaning device.now) cause }
{
    Refusal {
        cause,
        height: device.height(),
    }
}
