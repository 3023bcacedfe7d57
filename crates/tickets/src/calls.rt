// What a device's front does: take a request, hand out an answer, say how far a ticket has come.
ghost use Rattle.std.specs.Prelude.{◌≡◌, ℕ, ◌≤◌, min, [], ◌++◌, length, take, drop, IfOk, Ok};
ghost use Rattle.device.specs.Sound.{most_sectors, most_tickets};
ghost use Rattle.std.specs.Option.{option_map};
ghost use Rattle.tickets.specs.Meant.{place_of, less};
ghost use Rattle.tickets.specs.Front.{at_bottom, answer_as, put_in, mask_as, handed_as, rest_as, state_place, count_place, home_below};
ghost use Rattle.tickets.specs.Places.{index_of, tag_of, first_waiting};
ghost use Rattle.tickets.specs.Open.{places_of, admission, answered_place, Due, SameFront};

use crate::front::Front;
use crate::place::Place;
use device::{Cause, Home, Kind, MOST_SECTORS, MOST_TICKETS, Refusal, Request, State, examine};
use sectors::mask;
use std::alloc::{AllocError, Global};

/// A refusal by a bottom device.
fn at_bottom(cause: Cause) -> Refusal
    ensures { result ≡ at_bottom cause }
{
    Refusal { cause, height: 0 }
}

impl Front {
    /// A front with no tickets, of as many sectors and with as much room for tickets as a device may have.
    pub fn new(
        heap: Global,
        sectors: usize,
        capacity: u32,
        named: [u32; 8],
    ) -> Result<Front, AllocError>
        ensures { IfOk result (λ f. (f.size ≡ min sectors most_sectors) × (f.capacity ≡ min capacity most_tickets) × (f.named ≡ named) × (places_of f ≡ [])) }
    {
        let size = sectors.min(MOST_SECTORS) as u32;
        let capacity = capacity.min(MOST_TICKETS);
        let places = Vec::with_capacity(heap, capacity as usize)?;
        Ok(Front {
            size,
            capacity,
            named,
            places,
        })
    }

    /// The number of open tickets.
    pub fn open_tickets(&self) -> u32
        ensures { result ≡ length (places_of self.now) }
    {
        self.places.len() as u32
    }

    /// The tag of the i-th oldest ticket, from 0.
    pub fn tag_at(&self, i: u32) -> Option<u32>
        ensures { result ≡ tag_of i (places_of self.now) }
    {
        self.places.get(i as usize).map(|place| place.tag)
    }

    /// Where the ticket of a tag stands.
    fn find(&self, tag: u32) -> Option<usize>
        ensures { result ≡ index_of tag (places_of self.now) }
    {
        self.places.iter().position(|place| place.tag == tag)
    }

    /// Where the oldest ticket that waits stands.
    pub fn oldest_waiting(&self) -> Option<usize>
        ensures { result ≡ first_waiting (places_of self.now) }
    {
        self.places.iter().position(|place| !place.ready)
    }

    /// The place of a tag.
    fn place(&self, tag: u32) -> Option<&Place>
        ensures { option_map (λ x. x.now) result ≡ place_of tag (places_of self.now) }
    {
        self.places.iter().find(|place| place.tag == tag)
    }

    /// The kind under which a request is accepted, or the first cause to refuse it.
    pub fn admit(&self, request: Request, given: usize) -> Result<Kind, Cause>
        ensures { result ≡ admission self.now request given }
    {
        let kind = examine(request, given, self.size)?;
        if self.find(request.tag).is_some() {
            return Err(Cause::TagOpen);
        }
        if self.places.len() == self.capacity as usize {
            return Err(Cause::Full);
        }
        Ok(kind)
    }

    /// Adds the ticket of an admitted request.
    fn add(&mut self, request: Request, kind: Kind, bytes: &[u8])
        requires { admission self.old request (length bytes.now) ≡ Ok kind }
        ensures places { places_of self.new ≡ put_in (Ok kind) (places_of self.old) self.old.named request bytes.now }
        ensures shape { SameFront self.old self.new }
    {
        let mask = mask(&self.named, request.first, request.count);
        let place = Place::waiting(request, kind, mask, bytes);
        self.places.push_reserved(place);
    }

    /// Adds the ticket of a request, or refuses it at height 0.
    pub fn submit(&mut self, request: Request, bytes: &[u8]) -> Result<(), Refusal>
        ensures answers { result ≡ answer_as (admission self.old request (length bytes.now)) }
        ensures places { places_of self.new ≡ put_in (admission self.old request (length bytes.now)) (places_of self.old) self.old.named request bytes.now }
        ensures shape { SameFront self.old self.new }
    {
        let kind = self.admit(request, bytes.len()).map_err(at_bottom)?;
        self.add(request, kind, bytes);
        Ok(())
    }

    /// Where the ticket stands that a collect into so much room answers, or the first cause to refuse it.
    fn due(&self, tag: u32, room: usize) -> Result<usize, Cause>
        ensures { Due self.now tag room result }
    {
        let i = self.find(tag).ok_or(Cause::NotOpen)?;
        let place = &self.places[i];
        if !place.ready {
            return Err(Cause::Waits);
        }
        if room < place.byte_count() {
            return Err(Cause::ShortBuffer);
        }
        Ok(i)
    }

    /// Takes a ready ticket out and hands its answer over, or refuses at height 0.
    pub fn collect(&mut self, tag: u32, buffer: &mut [u8]) -> Result<u8, Refusal>
        ensures answers { result ≡ mask_as (answered_place self.old tag (length buffer.old)) }
        ensures hands { buffer.new ≡ handed_as (answered_place self.old tag (length buffer.old)) buffer.old }
        ensures places { places_of self.new ≡ rest_as (answered_place self.old tag (length buffer.old)) tag (places_of self.old) }
        ensures shape { SameFront self.old self.new }
    {
        let i = self.due(tag, buffer.len()).map_err(at_bottom)?;
        self.places[i].hand_over(buffer);
        let done = self.places.remove(i);
        Ok(done.mask)
    }

    /// How far the ticket of a tag has come.
    pub fn state(&self, tag: u32) -> State
        ensures { result ≡ state_place (place_of tag (places_of self.now)) }
    {
        self.place(tag).map_or(State::NotOpen, Place::state)
    }

    /// The bytes that a read of the tag gives, else 0.
    pub fn byte_count(&self, tag: u32) -> u32
        ensures { result ≡ count_place (place_of tag (places_of self.now)) }
    {
        self.place(tag).map_or(0, Place::byte_count) as u32
    }

    /// The home of a sector, which lies on the device itself, or nothing beyond the last.
    pub fn home(&self, sector: u32) -> Option<Home>
        ensures { result ≡ home_below self.now.size sector }
    {
        (sector < self.size).then_some(Home { height: 0, sector })
    }
}
