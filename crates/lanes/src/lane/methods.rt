ghost use Rattle.std.specs.Prelude.{◌≡◌, ◌≤◌, [], length, if◌then◌else◌, nat_lt};
ghost use Rattle.heap.specs.Sorting.{insert, head_of, Pops};
ghost use Rattle.lanes.specs.Records.{by_start};
ghost use Rattle.lanes.specs.Waits.{waits};

use crate::lane::Lane;
use crate::records::Request;
use heap::fixed::FixedHeap;

impl Lane {
    pub(crate) fn new() -> Lane
        ensures { waits result ≡ [] }
    {
        Lane {
            requests: FixedHeap::new(),
        }
    }

    // How many wait.
    pub(crate) fn len(&self) -> usize
        ensures count { result ≡ length (waits self.now) }
        ensures within { result ≤ 32 }
    {
        self.requests.len()
    }

    // Takes a request in, and tells whether there was room.
    pub(crate) fn push(&mut self, x: Request) -> bool
        ensures answer { result ≡ nat_lt (length (waits self.old)) 32 }
        ensures after { waits self.new ≡ (if result then insert by_start x (waits self.old) else waits self.old) }
    {
        self.requests.push(x)
    }

    // The lead, which leaves.
    pub(crate) fn pop(&mut self) -> Option<Request>
        ensures { Pops (waits self.old) result (waits self.new) }
    {
        self.requests.pop()
    }

    // The lead, which stays.
    pub(crate) fn lead(&self) -> Option<Request>
        ensures { result ≡ head_of (waits self.now) }
    {
        self.requests.peek()
    }
}
