// Sending from a lane.
ghost use Rattle.books.specs.Views.{state_of};
ghost use Rattle.board.specs.Rules.{Done, send_rule};

use crate::answer::Sending;
use crate::board::Board;
use books::refusal::Refusal;
use card::Card;

impl<C: Card> Board<C> {
    pub fn send(&mut self, lane: u32) -> Result<Sending, Refusal>
        ensures { Done result (state_of self.new.books) (C.held self.old.card) (C.held self.new.card) (send_rule C.DEPTH (C.held self.old.card) (state_of self.old.books) lane) }
    {
        let Some(lead) = self.books.lead(lane)? else {
            return Ok(Sending::Empty);
        };
        let reach = self.books.reach();
        if lead.start > reach {
            return Ok(Sending::Throttled(lead.start - reach));
        }
        self.hand_lead(lane, lead)
    }
}
