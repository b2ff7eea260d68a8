// A lane: the queue of one processor core, with at most 32 requests waiting in a heap.
// The struct has a file of its own, since the definitions that its methods cite name it.
ghost use Rattle.std.specs.Prelude.{◌≤◌, length};
ghost use Rattle.heap.specs.Heaps.{Heaped};
ghost use Rattle.lanes.specs.Records.{request_upto};

use crate::records::Request;
use heap::fixed::FixedHeap;

mod methods;

// How many requests can wait in a lane.
pub(crate) const CAPACITY: usize = 32;

#[derive(Drop)]
pub(crate) struct Lane {
    requests: FixedHeap<Request, CAPACITY>,
    ghost within: { length requests ≤ 32 },
    ghost ordered: { Heaped request_upto requests },
}
