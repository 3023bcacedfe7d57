// The offset as a device over any device.
ghost use Rattle.std.specs.Prelude.{◌≡◌, ◌+◌, ◌-◌, ◌^◌, min, if◌then◌else◌};
ghost use Rattle.device.specs.Meaning.{is_flush};
ghost use Rattle.gate.specs.Means.{gated};
ghost use Rattle.gate.specs.SoundFacts.{gated_sound};
ghost use Rattle.gate.specs.Turn.{Passed};
ghost use Rattle.offset.specs.Means.{over, Within};
ghost use Rattle.offset.specs.Turn.{Acts};
ghost use Rattle.offset.specs.SoundFacts.{over_sound};

use crate::offset::Offset;
use device::{Device, Home, Kind, Refusal, Request, State, examine, layer_height};
use gate::calls;

/// Where a request of the kind begins below: a flush has no sectors.
fn lowered(base: u32, kind: Kind, first: u32) -> u32
    ensures { result ≡ (if is_flush kind then 0 else min (base + first) (2 ^ 32 - 1)) }
{
    match kind {
        Kind::Read | Kind::Write => base.saturating_add(first),
        Kind::Flush => 0,
    }
}

impl<D: Device> Device for Offset<D> {
    ghost meaning = { λ d. over d.base d.most (gated d.shut (D.Device.meaning d.lower)) };

    ghost kept = { λ d. D.Device.kept d.lower × Within d.base d.most (gated d.shut (D.Device.meaning d.lower)) };

    ghost sound = { λ d k. over_sound d.base d.most (gated d.shut (D.Device.meaning d.lower)) (gated_sound d.shut (D.Device.meaning d.lower) (D.Device.sound d.lower k.0)) k.1 };

    ghost does = { λ d e x. (x.shut ≡ d.shut) × Acts d.base (λ l. gated d.shut (D.Device.meaning l)) (λ l e y. Passed D.Device.does d.shut l e x.shut y) d.lower e x.lower };

    fn size(&self) -> u32 {
        self.most.min(self.lower.size().saturating_sub(self.base))
    }

    fn capacity(&self) -> u32 {
        calls::capacity(&self.lower, self.shut)
    }

    fn height(&self) -> u8 {
        layer_height(self.lower.height())
    }

    fn open_tickets(&self) -> u32 {
        calls::open_tickets(&self.lower, self.shut)
    }

    fn tag_at(&self, i: u32) -> Option<u32> {
        calls::tag_at(&self.lower, self.shut, i)
    }

    fn state(&self, tag: u32) -> State {
        calls::state(&self.lower, self.shut, tag)
    }

    fn byte_count(&self, tag: u32) -> u32 {
        calls::byte_count(&self.lower, self.shut, tag)
    }

    fn home(&self, sector: u32) -> Option<Home> {
        if sector < self.size() {
            self.lower.home(self.base.saturating_add(sector))
        } else {
            None
        }
    }

    fn submit(&mut self, request: Request, bytes: &[u8], tick: u32) -> Result<(), Refusal> {
        let kind = examine(request, bytes.len(), self.size()).map_err(|cause| Refusal {
            cause,
            height: self.height(),
        })?;
        let first = lowered(self.base, kind, request.first);
        let request = Request { first, ..request };
        calls::submit(&mut self.lower, self.shut, request, bytes, tick).map_err(|refusal| Refusal {
            height: self.height(),
            ..refusal
        })
    }

    fn turn(&mut self, tick: u32) -> u32 {
        calls::turn(&mut self.lower, self.shut, tick)
    }

    fn collect(&mut self, tag: u32, buffer: &mut [u8]) -> Result<u8, Refusal> {
        calls::collect(&mut self.lower, self.shut, tag, buffer).map_err(|refusal| Refusal {
            height: self.height(),
            ..refusal
        })
    }
}
