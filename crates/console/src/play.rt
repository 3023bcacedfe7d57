// A script played on any device.
use crate::script::Script;
use crate::show::{Answered, Shape};
use crate::wrong::Complaint;
use device::Device;
use history::{Event, send_all};
use std::alloc::{AllocError, Global};
use std::fmt;

/// A script that was played: the shape of its stack, and what came of its lines.
#[derive(Drop)]
pub(crate) struct Played {
    shape: Shape,
    // Beside the log, which is the one list that `send_all` gives for the calls of the whole script.
    lines: Vec<Result<(), Complaint>>,
    log: Vec<Event>,
}

impl Script {
    /// Sends the calls to the device as one list.
    pub(crate) fn play<D: Device + Drop>(
        self,
        heap: Global,
        mut device: D,
    ) -> Result<Played, AllocError> {
        let Script { calls, lines, .. } = self;
        let shape = Shape::of(&device);
        let log = send_all(heap, &mut device, calls)?;
        Ok(Played { shape, lines, log })
    }
}

impl fmt::Display for Played {
    fn fmt<W: fmt::Write>(&self, f: &mut fmt::Formatter<W>) -> fmt::Result {
        writeln!(f, "{}", self.shape)?;
        let mut events = self.log.iter();
        for line in &self.lines {
            match line {
                Ok(()) => {
                    if let Some(event) = events.next() {
                        writeln!(f, "{}", Answered(event))?;
                    }
                }
                Err(complaint) => writeln!(f, "{complaint}")?,
            }
        }
        Ok(())
    }
}
