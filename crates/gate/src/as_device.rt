// The gate as a device over any device.
ghost use Rattle.gate.specs.Means.{gated};
ghost use Rattle.gate.specs.Turn.{Passed};
ghost use Rattle.gate.specs.SoundFacts.{gated_sound};

use crate::calls;
use crate::gate::Gate;
use device::{Device, Home, Refusal, Request, State};

impl<D: Device> Device for Gate<D> {
    ghost meaning = { λ d. gated d.shut (D.Device.meaning d.lower) };

    ghost kept = { λ d. D.Device.kept d.lower };

    ghost sound = { λ d k. gated_sound d.shut (D.Device.meaning d.lower) (D.Device.sound d.lower k) };

    ghost does = { λ d e x. Passed D.Device.does d.shut d.lower e x.shut x.lower };

    fn size(&self) -> u32 {
        self.lower.size()
    }

    fn capacity(&self) -> u32 {
        calls::capacity(&self.lower, self.shut)
    }

    fn height(&self) -> u8 {
        self.lower.height()
    }

    fn open_tickets(&self) -> u32 {
        calls::open_tickets(&self.lower, self.shut)
    }

    fn tag_at(&self, i: u32) -> Option<u32> {
        calls::tag_at(&self.lower, self.shut, i)
    }

    fn state(&self, tag: u32) -> State {
        calls::state(&self.lower, self.shut, tag)
    }

    fn byte_count(&self, tag: u32) -> u32 {
        calls::byte_count(&self.lower, self.shut, tag)
    }

    fn home(&self, sector: u32) -> Option<Home> {
        self.lower.home(sector)
    }

    fn submit(&mut self, request: Request, bytes: &[u8], tick: u32) -> Result<(), Refusal> {
        calls::submit(&mut self.lower, self.shut, request, bytes, tick)
    }

    fn turn(&mut self, tick: u32) -> u32 {
        calls::turn(&mut self.lower, self.shut, tick)
    }

    fn collect(&mut self, tag: u32, buffer: &mut [u8]) -> Result<u8, Refusal> {
        calls::collect(&mut self.lower, self.shut, tag, buffer)
    }
}
