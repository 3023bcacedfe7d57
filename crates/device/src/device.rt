ghost use Rattle.std.specs.Prelude.{◌≡◌, ℕ, length};
ghost use Rattle.device.specs.Collect.{collected, collect_answer, buffer_after};
ghost use Rattle.device.specs.Meaning.{Meaning};
ghost use Rattle.device.specs.Questions.{tag_at, state_of, byte_count, home_at};
ghost use Rattle.device.specs.Sound.{Sound};
ghost use Rattle.device.specs.Submit.{submitted, submit_answer};
ghost use Rattle.device.specs.Told.{Told, submit as told_submit, turn as told_turn, collect as told_collect};
ghost use Rattle.device.specs.Turns.{Turned};

use crate::interface::{Home, Refusal, Request, State};

/// A block device. `meaning` is what it stands for; `kept` is what its own fields keep to, so that every clause holds of a
/// device that was made by its making call and changed by these calls alone; `does` is what a call does beyond the meaning.
pub trait Device {
    ghost meaning: { Self → Meaning };

    ghost kept: { Self → Type 0 };

    ghost sound: { (d : Self) → kept d → Sound (meaning d) };

    ghost does: { Self → Told → Self → Type 0 };

    /// The number of sectors.
    fn size(&self) -> u32
        ensures { kept self.now → result ≡ (meaning self.now).size };

    /// The most tickets that may be open.
    fn capacity(&self) -> u32
        ensures { kept self.now → result ≡ (meaning self.now).capacity };

    /// The height: 0 of a bottom device, one more than the highest below of a layer.
    fn height(&self) -> u8
        ensures { kept self.now → result ≡ (meaning self.now).height };

    /// The number of open tickets.
    fn open_tickets(&self) -> u32
        ensures { kept self.now → result ≡ length (meaning self.now).tickets };

    /// The tag of the i-th oldest open ticket, from 0.
    fn tag_at(&self, i: u32) -> Option<u32>
        ensures { kept self.now → result ≡ tag_at i (meaning self.now).tickets };

    /// How far the ticket of a tag has come.
    fn state(&self, tag: u32) -> State
        ensures { kept self.now → result ≡ state_of tag (meaning self.now).tickets };

    /// The bytes that the read of a tag gives, else 0.
    fn byte_count(&self, tag: u32) -> u32
        ensures { kept self.now → result ≡ byte_count tag (meaning self.now).tickets };

    /// The home of a sector, or nothing beyond the last.
    fn home(&self, sector: u32) -> Option<Home>
        ensures { kept self.now → result ≡ home_at (meaning self.now) sector };

    /// Adds a waiting ticket, or refuses and leaves all as it was.
    // Request, data and tick make no struct: a layer changes the request alone and hands the other two on as they are.
    fn submit(&mut self, request: Request, bytes: &[u8], tick: u32) -> Result<(), Refusal>
        ensures keeps { kept self.old → kept self.new }
        ensures answers { kept self.old → result ≡ submit_answer (meaning self.old) request (length bytes.now) }
        ensures leaves { kept self.old → meaning self.new ≡ submitted (meaning self.old) request bytes.now }
        ensures did { kept self.old → does self.old (told_submit request bytes.now tick result) self.new };

    /// Readies at least one ticket if any waits, and answers the ticks that it took.
    fn turn(&mut self, tick: u32) -> u32
        ensures keeps { kept self.old → kept self.new }
        ensures turns { kept self.old → Turned (meaning self.old) (meaning self.new) result }
        ensures did { kept self.old → does self.old (told_turn tick result) self.new };

    /// Answers the mask of a ready ticket, hands a read's bytes over and removes the ticket, or refuses and leaves all as it was.
    fn collect(&mut self, tag: u32, buffer: &mut [u8]) -> Result<u8, Refusal>
        ensures keeps { kept self.old → kept self.new }
        ensures answers { kept self.old → result ≡ collect_answer (meaning self.old) tag (length buffer.old) }
        ensures hands { kept self.old → buffer.new ≡ buffer_after (meaning self.old) tag buffer.old }
        ensures leaves { kept self.old → meaning self.new ≡ collected (meaning self.old) tag (length buffer.old) }
        ensures did { kept self.old → does self.old (told_collect tag buffer.old result buffer.new) self.new };
}
