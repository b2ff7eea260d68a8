// Holds a flow's record while an arrival is entered, and puts it back on every way out unless the arrival is confirmed.
ghost use Rattle.std.specs.Prelude.{◌≡◌, ◌+◌, ◌^◌, ◌<◌, max};

use crate::flows::FlowRecord;

// Each clause `named` says which record is lent: the way out that puts it back is proved by that.
pub(crate) struct FlowGuard<'a> {
    flow: &'a mut FlowRecord,
    before: FlowRecord,
}

impl<'a> FlowGuard<'a> {
    pub(crate) fn new(flow: &'a mut FlowRecord) -> FlowGuard<'a>
        ensures named { result.flow.ghost_name ≡ flow.entry.ghost_name }
        ensures holds { (result.before ≡ flow.old) × (result.flow.now ≡ flow.old) }
    {
        let before = *flow;
        FlowGuard { flow, before }
    }

    // Tags a request that arrives at this time: one more waits, and the flow ends where the request does. Tells the start and the end tag.
    pub(crate) fn tag(&mut self, time: u64, charge: u32) -> (u64, u64)
        requires fits { max time self.old.flow.now.end + charge < 2 ^ 64 }
        requires few { self.old.flow.now.waiting < 2 ^ 31 }
        ensures named { self.new.flow.ghost_name ≡ self.old.flow.ghost_name }
        ensures kept { self.new.before ≡ self.old.before }
        ensures tags { (result.0 ≡ max time self.old.flow.now.end) × (result.1 ≡ result.0 + charge) }
        ensures flow { self.new.flow.now ≡ record { end = result.1; waiting = self.old.flow.now.waiting + 1; in_card = self.old.flow.now.in_card } }
    {
        let start = time.max(self.flow.end);
        let end = start + charge as u64;
        self.flow.end = end;
        self.flow.waiting += 1;
        (start, end)
    }

    // The request has entered its lane: the record stays as it is now.
    pub(crate) fn confirm(self)
        ensures { self.exit.0.now ≡ self.entry.flow.now }
    {
        let FlowGuard { flow: _, before: _ } = self;
    }
}

impl Drop for FlowGuard<'_> {
    fn drop(self)
        ensures { self.exit.0.now ≡ self.entry.before }
    {
        *self.flow = self.before;
        let FlowGuard { flow: _, before: _ } = self;
    }
}
