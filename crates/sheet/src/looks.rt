// What a sheet says.
ghost use Rattle.std.specs.Prelude.{◌≡◌, ◌≤◌, length, IfSome, if◌then◌else◌, None, MatchOption, nat_le};
ghost use Rattle.charge.specs.Charge.{charge_for};
ghost use Rattle.sheet.specs.Sheets.{Fits, FlowIn, LaneIn, content_of, flow_charge};

use crate::flow::Flow;
use crate::shape::Sheet;

impl Sheet {
    /// How many flows there are.
    pub fn flow_count(&self) -> u32
        ensures { (result ≡ length (content_of self.now).flows) × (result ≤ 16) }
    {
        self.flows.as_slice().len() as u32
    }

    /// How many lanes there are.
    pub fn lane_count(&self) -> u32
        ensures { (result ≡ length (content_of self.now).lanes) × (result ≤ 8) }
    {
        self.lanes.as_slice().len() as u32
    }

    /// The share of a flow, or `None` where there is no such flow.
    pub fn flow(&self, i: u32) -> Option<Flow>
        ensures { MatchOption result (length (content_of self.now).flows ≤ i) (FlowIn (content_of self.now) i) }
    {
        self.flows.as_slice().get(i as usize).copied()
    }

    /// How many requests may wait in a lane, or `None` where there is no such lane.
    pub fn lane(&self, i: u32) -> Option<u8>
        ensures { MatchOption result (length (content_of self.now).lanes ≤ i) (LaneIn (content_of self.now) i) }
    {
        self.lanes.as_slice().get(i as usize).copied()
    }

    /// D: how many requests may be in the card.
    pub fn slots(&self) -> u8
        ensures { (result ≡ (content_of self.now).slots) × (1 ≤ result) × (result ≤ 32) }
    {
        self.slots
    }

    /// T: how far ahead of virtual time a request that is sent may start.
    pub fn threshold(&self) -> u32
        ensures { (result ≡ (content_of self.now).threshold) × (result ≤ 1000000000) }
    {
        self.threshold
    }

    /// The counts and ranges that every sheet keeps.
    pub fn in_range(&self)
        ensures { Fits (content_of self.now) }
    {}
}

impl Flow {
    /// The charge of a request of that length, or `None` where the length is 0 or above the flow's longest. (A flow that is no sheet's may be out of range: then `None` too.)
    pub fn charge(&self, length: u32) -> Option<u32>
        ensures exact { result ≡ (if nat_le length self.now.longest then charge_for length self.now.weight else None) }
        ensures value { 1 ≤ self.now.weight → self.now.weight ≤ 100 → self.now.longest ≤ 2048 → result ≡ flow_charge self.now length }
        ensures bounds { IfSome result (λ c. (1 ≤ c) × (c ≤ 1720320)) }
    {
        if length > u32::from(self.longest) {
            return None;
        }
        charge::charge(length, u32::from(self.weight))
    }
}
