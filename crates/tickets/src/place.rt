// The place of one open ticket.
ghost use Rattle.std.specs.Prelude.{◌≡◌, ◌≤◌, ◌++◌, length, take, drop};
ghost use Rattle.device.specs.Meaning.{run_bytes};
ghost use Rattle.device.specs.Questions.{state_by};
ghost use Rattle.tickets.specs.Fresh.{fresh};
ghost use Rattle.tickets.specs.Front.{byte_room};

use device::{Kind, RUN_BYTES, Request, SECTOR, State};

/// An open ticket: what was asked, the mask that is due, and room for the bytes of its run,
/// which are a write's data and, once it is ready, what a read shows.
#[derive(Drop)]
pub struct Place {
    pub tag: u32,
    pub kind: Kind,
    pub first: u32,
    pub count: u32,
    pub mask: u8,
    // A flag and no `State`: the ticket of a place is open, so that the case `NotOpen` would have to be ruled out at each use.
    pub ready: bool,
    // Room for the longest run, of which a run of `count` sectors uses the front: memory is fixed, and a submit allocates nothing.
    pub bytes: [u8; RUN_BYTES],
}

impl Place {
    /// The place of a request that was just accepted, with the data that came with it, of which a run's bytes fit.
    pub(crate) fn waiting(request: Request, kind: Kind, mask: u8, given: &[u8]) -> Place
        ensures { result ≡ fresh request kind mask (take run_bytes given.now) }
    {
        let mut bytes = [0; RUN_BYTES];
        let n = RUN_BYTES.min(given.len());
        bytes[..n].copy_from_slice(&given[..n]);
        Place {
            tag: request.tag,
            kind,
            first: request.first,
            count: request.count,
            mask,
            ready: false,
            bytes,
        }
    }

    /// The bytes that the ticket's answer has: those of its run for a read, else none.
    pub(crate) fn byte_count(&self) -> usize
        ensures { result ≡ byte_room self.now }
    {
        match self.kind {
            Kind::Read => self.count as usize * SECTOR,
            Kind::Write | Kind::Flush => 0,
        }
    }

    /// Copies the bytes of the answer to the front of a buffer.
    pub(crate) fn hand_over(&self, buffer: &mut [u8])
        requires short { byte_room self.now ≤ run_bytes }
        requires fits { byte_room self.now ≤ length buffer.old }
        ensures { buffer.new ≡ take (byte_room self.now) self.now.bytes ++ drop (byte_room self.now) buffer.old }
    {
        let n = self.byte_count();
        buffer[..n].copy_from_slice(&self.bytes[..n]);
    }

    /// How far the ticket has come.
    pub(crate) fn state(&self) -> State
        ensures { result ≡ state_by self.now.ready }
    {
        if self.ready {
            State::Ready
        } else {
            State::Waiting
        }
    }
}
