// The requests in the card, at most 32, found by ticket.
ghost use Rattle.std.specs.Prelude.{◌≡◌, ◌≤◌, length};

use crate::records::Request;

mod methods;

// How many requests can be in the card.
pub(crate) const MOST: usize = 32;

// An array and a count, and no `ArrayVec`, with which a call of the board takes 6 instructions more (241 for 235).
#[derive(Drop)]
pub struct InCard {
    slots: [Request; MOST],
    count: usize,
    ghost sized: { length slots ≡ 32 },
    ghost within: { count ≤ 32 },
}
