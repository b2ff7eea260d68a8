// The books. The ghost fields say of what the books mean what is true of every board. They are no invariant of a model, which would hide them: the laws of
// runs rest on them wherever a board stands.
ghost use Rattle.books.specs.States.{state_from};
ghost use Rattle.books.specs.Sound.{CountsInCard, CountsWaiting, Sound};

use crate::flows::FlowRecord;
use lanes::lanes::Lanes;
use lanes::table::InCard;
use sheet::shape::Sheet;

mod arrive;
mod looks;
mod moves;
mod ready;

#[derive(Drop)]
pub struct Books {
    sheet: Sheet,
    time: u64,
    flows: [FlowRecord; 16],
    lanes: Lanes,
    in_card: InCard,
    arrivals: u32,
    ghost counts_waiting: { CountsWaiting flows (state_from sheet time flows lanes in_card arrivals) },
    ghost counts_in_card: { CountsInCard flows (state_from sheet time flows lanes in_card arrivals) },
    ghost sound: { Sound (state_from sheet time flows lanes in_card arrivals) },
}
