// A sheet. The ghost fields keep every range, and the lists their counts, for every value in being.
ghost use Rattle.std.specs.Prelude.{◌≡◌, ◌≤◌, true};
ghost use Rattle.sheet.specs.Listed.{items_of};
ghost use Rattle.sheet.specs.Ranges.{flow_fits, lane_fits, all_of};

use crate::flow::Flow;
use crate::list::FixedList;

// A lane is the queue of one processor core, and its number says how many requests may wait in it. `slots` is D, how many
// requests may be in the card, and `threshold` is T, how far ahead of virtual time a request that is sent may start. What a sheet
// says is told by `content_of`, and not by a model: a sheet is copied, and its view forgets the free places, from which no copy could be had.
#[derive(Clone, Copy)]
pub struct Sheet {
    pub(crate) flows: FixedList<Flow, 16>,
    pub(crate) lanes: FixedList<u8, 8>,
    pub(crate) slots: u8,
    pub(crate) threshold: u32,
    ghost flows_fit: { all_of flow_fits (items_of flows) ≡ true },
    ghost lanes_fit: { all_of lane_fits (items_of lanes) ≡ true },
    ghost some_slots: { 1 ≤ slots },
    ghost few_slots: { slots ≤ 32 },
    ghost near: { threshold ≤ 1000000000 },
}
