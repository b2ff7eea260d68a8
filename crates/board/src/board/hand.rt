// Handing the lead of a lane to the card.
ghost use Rattle.std.specs.Prelude.{◌≡◌, ◌<◌, ◌≤◌, Some, Ok, length};
ghost use Rattle.lanes.specs.Lanes.{head_of};
ghost use Rattle.books.specs.Model.{lane_at};
ghost use Rattle.books.specs.Views.{state_of};
ghost use Rattle.board.specs.Rules.{Done, hand_first, stays};
ghost use Rattle.board.specs.declared.answer.Sending.TheVariants.{Empty, NoSlot};

use crate::answer::Sending;
use crate::board::Board;
use books::refusal::Refusal;
use card::{Card, Command};
use lanes::records::Request;
use slots::hand_over;

impl<C: Card> Board<C> {
    // Hands the lead of a lane to the card, where a slot is free.
    pub(crate) fn hand_lead(&mut self, lane: u32, lead: Request) -> Result<Sending, Refusal>
        requires { head_of (lane_at (state_of self.old.books) lane) ≡ Some lead }
        ensures full { (state_of self.old.books).sheet.slots ≤ length (state_of self.old.books).in_card → Done result (state_of self.new.books) (C.held self.old.card) (C.held self.new.card) (stays (state_of self.old.books) (Ok NoSlot)) }
        ensures room { length (state_of self.old.books).in_card < (state_of self.old.books).sheet.slots → Done result (state_of self.new.books) (C.held self.old.card) (C.held self.new.card) (hand_first C.DEPTH (C.held self.old.card) (state_of self.old.books) lane (lane_at (state_of self.old.books) lane)) }
    {
        let Some(grant) = self.slots.take() else {
            return Ok(Sending::NoSlot);
        };
        let command = Command {
            ticket: lead.ticket,
            sectors: lead.sectors,
        };
        hand_over(&mut self.card, &mut self.slots, grant, command)?;
        self.books.move_lead(lane);
        Ok(Sending::Sent {
            ticket: lead.ticket,
            flow: lead.flow,
            charge: lead.charge,
        })
    }

    // What is told where no lane is ready: a slot is asked for even then.
    pub(crate) fn hand_nothing(&mut self) -> Result<Sending, Refusal>
        ensures full { (state_of self.old.books).sheet.slots ≤ length (state_of self.old.books).in_card → Done result (state_of self.new.books) (C.held self.old.card) (C.held self.new.card) (stays (state_of self.old.books) (Ok NoSlot)) }
        ensures room { length (state_of self.old.books).in_card < (state_of self.old.books).sheet.slots → Done result (state_of self.new.books) (C.held self.old.card) (C.held self.new.card) (stays (state_of self.old.books) (Ok Empty)) }
    {
        let Some(grant) = self.slots.take() else {
            return Ok(Sending::NoSlot);
        };
        grant.give_back(&mut self.slots);
        Ok(Sending::Empty)
    }
}
