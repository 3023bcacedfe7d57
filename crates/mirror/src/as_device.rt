// The mirror as a device over any two devices.
ghost use Rattle.gate.specs.Means.{gated};
ghost use Rattle.gate.specs.SoundFacts.{gated_sound};
ghost use Rattle.mirror.specs.Means.{mirrored, Level};
ghost use Rattle.mirror.specs.Turn.{Acts};
ghost use Rattle.mirror.specs.SoundFacts.{mirrored_sound};

use crate::mirror::Mirror;
use crate::mix::{mask_in, patch};
use device::{Device, Home, RUN_BYTES, Refusal, Request, SECTOR, State, layer_height};
use dry::run_dry;
use gate::calls;

impl<L: Device, R: Device> Device for Mirror<L, R> {
    ghost meaning = { λ d. mirrored (gated d.shut (L.Device.meaning d.left)) (gated d.shut (R.Device.meaning d.right)) };

    ghost kept = { λ d. L.Device.kept d.left × R.Device.kept d.right × Level (gated d.shut (L.Device.meaning d.left)) (gated d.shut (R.Device.meaning d.right)) };

    ghost sound = { λ d k. mirrored_sound _ _ (gated_sound d.shut (L.Device.meaning d.left) (L.Device.sound d.left k.0)) (gated_sound d.shut (R.Device.meaning d.right) (R.Device.sound d.right k.1)) k.2 };

    ghost does = { λ d e x. Acts L.Device.meaning L.Device.does R.Device.meaning R.Device.does d.shut d.left d.right e x.left x.right };

    fn size(&self) -> u32 {
        self.left.size().min(self.right.size())
    }

    fn capacity(&self) -> u32 {
        calls::capacity(&self.left, self.shut).min(calls::capacity(&self.right, self.shut))
    }

    fn height(&self) -> u8 {
        layer_height(self.left.height().max(self.right.height()))
    }

    fn open_tickets(&self) -> u32 {
        calls::open_tickets(&self.left, self.shut)
    }

    fn tag_at(&self, i: u32) -> Option<u32> {
        calls::tag_at(&self.left, self.shut, i)
    }

    fn state(&self, tag: u32) -> State {
        calls::state(&self.left, self.shut, tag)
    }

    fn byte_count(&self, tag: u32) -> u32 {
        calls::byte_count(&self.left, self.shut, tag)
    }

    fn home(&self, sector: u32) -> Option<Home> {
        (sector < self.size()).then(|| Home {
            height: self.height(),
            sector,
        })
    }

    fn submit(&mut self, request: Request, bytes: &[u8], tick: u32) -> Result<(), Refusal> {
        self.admit(request, bytes.len())
            .map_err(|cause| self.refused(cause))?;
        // Neither side refuses what the mirror admits.
        let _ = calls::submit(&mut self.left, self.shut, request, bytes, tick);
        let _ = calls::submit(&mut self.right, self.shut, request, bytes, tick);
        Ok(())
    }

    fn turn(&mut self, tick: u32) -> u32 {
        if self.shut {
            return 0;
        }
        run_dry(&mut self.left, tick).max(run_dry(&mut self.right, tick))
    }

    fn collect(&mut self, tag: u32, buffer: &mut [u8]) -> Result<u8, Refusal> {
        let n = self
            .bytes_due(tag, buffer.len())
            .map_err(|cause| self.refused(cause))?;
        // Room for the longest run: memory is fixed, and a collect allocates nothing.
        let mut other = [0; RUN_BYTES];
        // Neither side refuses what the mirror has ready.
        let first = mask_in(calls::collect(&mut self.left, self.shut, tag, buffer));
        let second = mask_in(calls::collect(&mut self.right, self.shut, tag, &mut other));
        patch(buffer, &other, first, n / SECTOR);
        Ok(first & second)
    }
}
