// The open tickets of any device.
ghost use Rattle.std.specs.Prelude.{◌≡◌, IfOk};
ghost use Rattle.history.specs.Questions.{open_list};

use crate::call::OpenTicket;
use device::Device;
use std::alloc::{AllocError, Global};

/// The open tickets, the oldest first, each with its state.
pub fn open_list<D: Device>(heap: Global, device: &D) -> Result<Vec<OpenTicket>, AllocError>
    ensures { D.kept device.now → IfOk result (λ v. v.items ≡ open_list (D.meaning device.now).tickets) }
{
    (0..device.open_tickets())
        .filter_map(|i| device.tag_at(i))
        .map(|tag| OpenTicket {
            tag,
            state: device.state(tag),
        })
        .collect(heap)
}
