// Sending from the nearest ready lane.
ghost use Rattle.books.specs.Views.{state_of};
ghost use Rattle.board.specs.Rules.{Done, kick_rule};

use crate::answer::Sending;
use crate::board::Board;
use books::refusal::Refusal;
use card::Card;

impl<C: Card> Board<C> {
    pub fn kick(&mut self, lane: u32) -> Result<Sending, Refusal>
        ensures { Done result (state_of self.new.books) (C.held self.old.card) (C.held self.new.card) (kick_rule C.DEPTH (C.held self.old.card) (state_of self.old.books) lane) }
    {
        if !self.books.has_lane(lane) {
            return Err(Refusal::NoLane);
        }
        if !self.books.waits() {
            return Ok(Sending::Empty);
        }
        let Some((near, lead)) = self.books.nearest_lead(lane) else {
            return self.hand_nothing();
        };
        self.hand_lead(near, lead)
    }
}
