// A device that passes every call down, or has no room for tickets.
ghost use Rattle.std.specs.Prelude.{◌≡◌};
ghost use Rattle.device.specs.Layers.{shut_over};

use device::Device;

/// A device as it is, or shut: then it has no room for tickets and only asks questions below.
#[derive(Drop)]
pub struct Gate<D> {
    pub(crate) lower: D,
    // A flag and not two types: which of the two it is shows only when the program runs.
    pub(crate) shut: bool,
}

/// Whether a layer over the device only asks questions: it has open tickets, or no room for any.
pub fn must_shut<D: Device>(lower: &D) -> bool
    ensures { D.kept lower.now → result ≡ shut_over (D.meaning lower.now) }
{
    0 < lower.open_tickets() || lower.capacity() == 0
}

impl<D: Device> Gate<D> {
    /// A gate over a device, shut or open.
    pub fn new(lower: D, shut: bool) -> Gate<D>
        ensures { result ≡ record { lower = lower; shut = shut } }
    {
        Gate { lower, shut }
    }

    /// A gate over a device, shut where a layer over the device only asks questions.
    pub fn over(lower: D) -> Gate<D>
        ensures lower { result.lower ≡ lower }
        ensures shut { D.kept lower → result.shut ≡ shut_over (D.meaning lower) }
    {
        let shut = must_shut(&lower);
        Gate::new(lower, shut)
    }
}
