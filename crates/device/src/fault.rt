// What a mask says of a run on a device.
use crate::interface::Home;

/// The home of the lowest bad sector of a run, if that lies on the device, and how many are bad.
#[derive(Clone, Copy, PartialEq, Eq, Debug)]
pub struct Fault {
    pub lowest: Option<Home>,
    pub bad: u32,
}
