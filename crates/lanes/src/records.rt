// A request, and the lead of a lane, with their orders: those of their fields as they stand, the first field first.
ghost use Rattle.std.specs.Prelude.{◌≡◌};
ghost use Rattle.heap.specs.Order.{IsOrder, upto_by};
ghost use Rattle.lanes.specs.Records.{by_lead, by_start, lead_upto, request_upto};
ghost use Rattle.heap.proofs.Sorting.{upto_alike, upto_chain, upto_either};

use heap::order::TotalOrder;

// One request of a flow, from its arrival until it is finished. The start tag and the ticket decide which is first; the rest only
// decides where these are equal, which they never are on a board, since its tickets differ. With it two requests stand alike only if
// they are equal.
#[derive(Clone, Copy, Default, PartialEq, Eq, PartialOrd, Ord)]
pub struct Request {
    // the virtual time at which it may be served
    pub start: u64,
    // how many arrivals were accepted before it
    pub ticket: u32,
    // the number of the flow (one sensor's stream of requests) that it belongs to
    pub flow: u32,
    // its length, in sectors of 512 bytes
    pub sectors: u16,
    // what its length costs the flow, by the flow's weight
    pub charge: u32,
}

// The order by which the heaps keep them. The start tags decide at once where they differ, which costs less than the derived order alone.
impl TotalOrder for Request {
    ghost key = { by_start };

    ghost upto = { request_upto };

    ghost total = { λ x y. upto_either (by_start x) (by_start y) };

    ghost antisymmetric = { λ x y. upto_alike (by_start x) (by_start y) };

    ghost transitive = { λ x y z. upto_chain (by_start x) (by_start y) (by_start z) };

    fn at_or_before(&self, other: &Request) -> bool {
        self.start < other.start || self.start == other.start && self <= other
    }
}

impl Request {
    // The order as one answer, for who has not brought in the trait.
    pub fn at_or_before(&self, other: &Request) -> bool
        ensures { result ≡ request_upto self.now other.now }
    {
        TotalOrder::at_or_before(self, other)
    }
}

// The lead of a lane: the start tag of the request that goes next from it, and then the lane's number.
#[derive(Clone, Copy, Default, PartialEq, Eq, PartialOrd, Ord)]
pub struct Lead {
    pub start: u64,
    pub lane: usize,
}

// The same of leads.
impl TotalOrder for Lead {
    ghost key = { by_lead };

    ghost upto = { lead_upto };

    ghost total = { λ x y. upto_either (by_lead x) (by_lead y) };

    ghost antisymmetric = { λ x y. upto_alike (by_lead x) (by_lead y) };

    ghost transitive = { λ x y z. upto_chain (by_lead x) (by_lead y) (by_lead z) };

    fn at_or_before(&self, other: &Lead) -> bool {
        self.start < other.start || self.start == other.start && self.lane <= other.lane
    }
}

impl Lead {
    // As that of requests.
    pub fn at_or_before(&self, other: &Lead) -> bool
        ensures { result ≡ lead_upto self.now other.now }
    {
        TotalOrder::at_or_before(self, other)
    }
}

// The theorem on the two orders; the code does nothing.
pub fn orders_stand()
    ensures request { (x y : Request) → upto_by ⟦<Request as Ord>⟧.cmp x y ≡ request_upto x y }
    ensures request_order { IsOrder request_upto (λ x y. by_start x ≡ by_start y) }
    ensures lead { (x y : Lead) → upto_by ⟦<Lead as Ord>⟧.cmp x y ≡ lead_upto x y }
    ensures lead_order { IsOrder lead_upto (λ x y. by_lead x ≡ by_lead y) }
{}
