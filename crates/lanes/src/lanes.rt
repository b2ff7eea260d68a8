// Eight lanes, with the heap of their leads.
ghost use Rattle.std.specs.Prelude.{◌≡◌, length};
ghost use Rattle.lanes.specs.Leads.{leads_of};
ghost use Rattle.lanes.specs.Waits.{lanes_in, Tied};

use crate::lane::Lane;
use crate::leads::Leads;

mod methods;

// How many lanes there are.
pub(crate) const LANES: usize = 8;

// What the lanes mean is told by `lanes_of`, and not by a model: `least_stands` and the laws of runs read of every `Lanes` what its fields keep,
// which a model would hide. So with `waits` of a lane, `leads_of` of the leads and `in_card_of` of what is in the card.
#[derive(Drop)]
pub struct Lanes {
    lanes: [Lane; LANES],
    leads: Leads,
    ghost eight: { length lanes ≡ 8 },
    ghost tied: { Tied (leads_of leads) (lanes_in lanes) },
}
