ghost use Rattle.std.specs.Prelude.{◌≡◌, ◌<◌, [], length, sum_by, nat_lt, ◌==◌};
ghost use Rattle.std.specs.List.{position};
ghost use Rattle.heap.specs.Fixed.{Leads as LeadsWith};
ghost use Rattle.lanes.specs.Leads.{leads_of, Updates};
ghost use Rattle.lanes.specs.Records.{lane_is, lead_upto};

use crate::leads::Leads;
use crate::records::Lead;
use heap::fixed::FixedHeap;

impl Leads {
    pub(crate) fn new() -> Leads
        ensures { leads_of result ≡ [] }
    {
        Leads {
            heap: FixedHeap::new(),
        }
    }

    // Whether any lane has a lead.
    pub(crate) fn any(&self) -> bool
        ensures { result ≡ nat_lt 0 (length (leads_of self.now)) }
    {
        self.heap.len() > 0
    }

    // The least lead.
    pub(crate) fn first(&self) -> Option<Lead>
        ensures { LeadsWith lead_upto (leads_of self.now) result }
    {
        self.heap.peek()
    }

    // The place of a lane's lead.
    fn place(&self, lane: usize) -> Option<usize>
        ensures { result ≡ position (λ x. x.lane == lane) (leads_of self.now) }
    {
        self.heap
            .as_slice()
            .iter()
            .position(|lead| lead.lane == lane)
    }

    // Takes the new lead of a lane, or `None` where nothing waits there any more, in place of its old one.
    pub(crate) fn update(&mut self, lane: usize, new: Option<Lead>)
        requires { sum_by (lane_is lane) (leads_of self.old) ≡ 0 → length (leads_of self.old) < 8 }
        ensures { Updates lane new (leads_of self.old) (leads_of self.new) }
    {
        match (self.place(lane), new) {
            (Some(at), Some(x)) => {
                self.heap.replace(at, x);
            }
            (Some(at), None) => {
                self.heap.remove(at);
            }
            (None, Some(x)) => {
                self.heap.push(x);
            }
            (None, None) => {}
        }
    }
}
