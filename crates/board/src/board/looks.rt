// Questions, which change nothing.
ghost use Rattle.std.specs.Prelude.{◌≡◌};
ghost use Rattle.books.specs.Model.{flow_rule, ready_rule};
ghost use Rattle.books.specs.Views.{state_of};

use crate::board::Board;
use books::flows::FlowState;
use books::refusal::Refusal;
use card::Card;
use near::how_many;

impl<C: Card> Board<C> {
    pub fn virtual_time(&self) -> u64
        ensures { result ≡ (state_of self.now.books).time }
    {
        self.books.virtual_time()
    }

    // The ready lanes, bit i for lane i, with their number.
    pub fn ready_lanes(&self) -> (u8, u32)
        ensures { (result.0, result.1) ≡ ready_rule (state_of self.now.books) }
    {
        let bits = self.books.ready();
        (bits, how_many(bits))
    }

    // What a flow has: its share, its end tag, and how many of its requests wait and are in the card.
    pub fn flow(&self, flow: u32) -> Result<FlowState, Refusal>
        ensures { result ≡ flow_rule (state_of self.now.books) flow }
    {
        self.books.flow(flow)
    }
}
