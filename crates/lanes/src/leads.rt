// The leads of the lanes, at most one of each, in a heap of their own.
ghost use Rattle.std.specs.Prelude.{◌≤◌, length};
ghost use Rattle.heap.specs.Heaps.{Heaped};
ghost use Rattle.lanes.specs.Records.{lead_upto};

use crate::lanes::LANES;
use crate::records::Lead;
use heap::fixed::FixedHeap;

mod methods;

#[derive(Drop)]
pub(crate) struct Leads {
    heap: FixedHeap<Lead, LANES>,
    ghost within: { length heap ≤ 8 },
    ghost ordered: { Heaped lead_upto heap },
}
