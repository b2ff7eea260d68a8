ghost use Rattle.std.specs.Prelude.{◌≡◌, ◌≤◌, [], length, replicate, if◌then◌else◌, nat_lt, slice_index_or, slice_set};
ghost use Rattle.heap.specs.Sorting.{insert, head_of};
ghost use Rattle.lanes.specs.Lanes.{has_room, lanes_of};
ghost use Rattle.lanes.specs.Records.{by_start};
ghost use Rattle.lanes.specs.Waits.{PopsAt, starts, least, lead_at, goes_first, start_of};
ghost use Rattle.std.specs.Option.{option_to_list};

use crate::lane::Lane;
use crate::lanes::{LANES, Lanes};
use crate::leads::Leads;
use crate::records::{Lead, Request};
use std::array;

impl Lanes {
    pub fn new() -> Lanes
        ensures { lanes_of result ≡ replicate 8 [] }
    {
        Lanes {
            lanes: array::from_fn(|_| Lane::new()),
            leads: Leads::new(),
        }
    }

    // Whether any request waits.
    pub fn any(&self) -> bool
        ensures { result ≡ nat_lt 0 (length (starts (lanes_of self.now))) }
    {
        self.leads.any()
    }

    // The least start tag of the requests that wait, or `kept` where none waits.
    pub fn least_start(&self, kept: u64) -> u64
        ensures { result ≡ least kept (starts (lanes_of self.now)) }
    {
        start_of(self.leads.first(), kept)
    }

    // How many wait in lane i; 0 where there is no such lane.
    pub fn len(&self, i: usize) -> usize
        ensures count { result ≡ length (slice_index_or (lanes_of self.now) i []) }
        ensures within { result ≤ 32 }
    {
        self.lanes.get(i).map_or(0, |lane| lane.len())
    }

    // The lead of lane i, which stays; `None` where there is no such lane.
    pub fn lead(&self, i: usize) -> Option<Request>
        ensures { result ≡ head_of (slice_index_or (lanes_of self.now) i []) }
    {
        self.lanes.get(i)?.lead()
    }

    // Takes a request into lane i, and tells whether there is such a lane and it had room, as a set's `insert` tells.
    pub fn push(&mut self, i: usize, x: Request) -> bool
        ensures answer { result ≡ has_room i (lanes_of self.old) }
        ensures after { lanes_of self.new ≡ (if result then slice_set (lanes_of self.old) i (insert by_start x (slice_index_or (lanes_of self.old) i [])) else lanes_of self.old) }
    {
        // tested, and not by `get_mut`, of which the check does not tell what it leaves in the array
        if i >= LANES {
            return false;
        }
        let lane = &mut self.lanes[i];
        let lead = lane.lead();
        if !lane.push(x) {
            return false;
        }
        if goes_first(x.start, lead) {
            self.leads.update(i, lead_of(i, Some(x)));
        }
        true
    }

    // The lead of lane i, which leaves; `None` where there is no such lane.
    pub fn pop(&mut self, i: usize) -> Option<Request>
        ensures { PopsAt i (lanes_of self.old) result (lanes_of self.new) }
    {
        // as in `push`
        if i >= LANES {
            return None;
        }
        let lane = &mut self.lanes[i];
        let gone = lane.pop()?;
        let next = lane.lead();
        self.leads.update(i, lead_of(i, next));
        Some(gone)
    }
}

// The start tag of a lead, or `kept` where there is none.
fn start_of(lead: Option<Lead>, kept: u64) -> u64
    ensures { result ≡ start_of lead kept }
{
    lead.map_or(kept, |lead| lead.start)
}

// Whether a request that starts at `start` starts before the lead of its lane, or comes alone.
fn goes_first(start: u64, lead: Option<Request>) -> bool
    ensures { result ≡ goes_first start lead }
{
    lead.is_none_or(|first| start < first.start)
}

// The entry of a lane among the leads, by the first that waits there.
fn lead_of(lane: usize, first: Option<Request>) -> Option<Lead>
    ensures { option_to_list result ≡ lead_at lane (option_to_list first) }
{
    first.map(|first| Lead {
        start: first.start,
        lane,
    })
}
