// What goes into the card, and what comes out of it.
ghost use Rattle.std.specs.Prelude.{◌≡◌, suc, length, MatchOption};
ghost use Rattle.books.specs.Model.{finished, found, move_rule};
ghost use Rattle.books.specs.Views.{state_of};

use crate::books::Books;
use lanes::records::Request;

impl Books {
    // The lead of a lane goes into the card, where a slot is free.
    pub fn move_lead(&mut self, lane: u32)
        ensures { state_of self.new ≡ move_rule (state_of self.old) lane }
    {
        if self.in_card.len() >= self.sheet.slots() as usize {
            return;
        }
        let Some(lead) = self.lanes.pop(lane as usize) else {
            return;
        };
        self.in_card.push(lead);
        self.flows[lead.flow as usize].send_one();
        self.time = self.lanes.least_start(self.time);
    }

    // The request with a ticket comes out of the card, where it is there.
    pub fn finish(&mut self, ticket: u32) -> Option<Request>
        ensures answer { result ≡ found ticket (state_of self.old).in_card }
        ensures fewer { MatchOption result (state_of self.new ≡ state_of self.old) (λ _. length (state_of self.old).in_card ≡ suc (length (state_of self.new).in_card)) }
        ensures state { state_of self.new ≡ finished (state_of self.old) ticket }
    {
        let request = self.in_card.remove(ticket)?;
        self.flows[request.flow as usize].finish_one();
        Some(request)
    }
}
