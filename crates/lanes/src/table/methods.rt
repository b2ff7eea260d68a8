ghost use Rattle.std.specs.Prelude.{◌≡◌, ◌<◌, ◌≤◌, [], length, take, if◌then◌else◌, nat_lt, ◌==◌};
ghost use Rattle.std.specs.List.{position};
ghost use Rattle.heap.specs.Sorting.{insert};
ghost use Rattle.lanes.specs.Records.{by_ticket};
ghost use Rattle.lanes.specs.Table.{in_card_of, Removes};

use crate::records::Request;
use crate::table::{InCard, MOST};

impl InCard {
    pub fn new() -> InCard
        ensures { in_card_of result ≡ [] }
    {
        InCard {
            slots: [Request::default(); MOST],
            count: 0,
        }
    }

    // How many are in the card.
    pub fn len(&self) -> usize
        ensures count { result ≡ length (in_card_of self.now) }
        ensures within { result ≤ 32 }
    {
        self.count
    }

    // Takes a request in, and tells whether there was room, as a set's `insert` tells.
    pub fn push(&mut self, x: Request) -> bool
        ensures answer { result ≡ nat_lt (length (in_card_of self.old)) 32 }
        ensures after { in_card_of self.new ≡ (if result then insert by_ticket x (in_card_of self.old) else in_card_of self.old) }
    {
        if self.count >= MOST {
            return false;
        }
        self.slots[self.count] = x;
        self.count += 1;
        true
    }

    // The request with the ticket, which leaves; the last comes into its place.
    pub fn remove(&mut self, ticket: u32) -> Option<Request>
        ensures { Removes ticket (in_card_of self.old) result (in_card_of self.new) }
    {
        let i = self.place(ticket)?;
        let gone = self.slots[i];
        self.count -= 1;
        self.slots[i] = self.slots[self.count];
        Some(gone)
    }

    // The place of a request with the ticket.
    fn place(&self, ticket: u32) -> Option<usize>
        ensures { result ≡ position (λ x. x.ticket == ticket) (take self.now.count self.now.slots) }
    {
        self.slots[..self.count]
            .iter()
            .position(|request| request.ticket == ticket)
    }
}
