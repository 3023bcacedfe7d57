// The part of a device that takes requests and hands out answers: its shape and its open tickets.
ghost use Rattle.std.specs.Prelude.{◌≡◌, ◌≤◌, true, length, vec_capacity};
ghost use Rattle.device.specs.Sound.{most_sectors, most_tickets};
ghost use Rattle.sectors.specs.Memory.{names};
ghost use Rattle.tickets.specs.Meant.{apart, all_well, in_turn};

use crate::place::Place;

/// Tickets are kept in the order of acceptance, at most `capacity` of them; `named` are the numbers that name bad sectors.
#[derive(Drop)]
pub struct Front {
    pub size: u32,
    pub capacity: u32,
    // Eight numbers and no list, by a rule of the project: memory is fixed, and no call allocates.
    pub named: [u32; 8],
    pub places: Vec<Place>,
    ghost small: { size ≤ most_sectors },
    ghost most: { capacity ≤ most_tickets },
    ghost room: { capacity ≤ vec_capacity places },
    ghost within: { length places.items ≤ capacity },
    ghost apart: { apart places.items ≡ true },
    ghost well: { all_well size (names named) places.items ≡ true },
    ghost turns: { in_turn places.items ≡ true },
}
