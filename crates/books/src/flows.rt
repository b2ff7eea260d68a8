// What the books keep of a flow, and what they tell of one.
ghost use Rattle.std.specs.Prelude.{◌≡◌, ◌+◌, ◌-◌, ◌^◌, ◌<◌, ◌≤◌};

// A flow is one sensor's stream of requests. Its weight and longest request stand in the sheet.
#[derive(Clone, Copy, Default)]
pub struct FlowRecord {
    // The end tag of its last arrival: the next one starts there, or at virtual time.
    pub(crate) end: u64,
    // How many of its requests wait, and how many are in the card.
    pub(crate) waiting: u32,
    pub(crate) in_card: u32,
}

impl FlowRecord {
    // One request goes from those that wait into the card.
    pub(crate) fn send_one(&mut self)
        requires { (1 ≤ self.old.waiting) × (self.old.in_card < 2 ^ 31) }
        ensures { self.new ≡ record { end = self.old.end; waiting = self.old.waiting - 1; in_card = self.old.in_card + 1 } }
    {
        self.waiting -= 1;
        self.in_card += 1;
    }

    // One request leaves the card.
    pub(crate) fn finish_one(&mut self)
        requires { 1 ≤ self.old.in_card }
        ensures { self.new ≡ record { end = self.old.end; waiting = self.old.waiting; in_card = self.old.in_card - 1 } }
    {
        self.in_card -= 1;
    }
}

// The answer to a question about a flow.
#[derive(Clone, Copy, Debug, PartialEq, Eq)]
pub struct FlowState {
    pub weight: u8,
    pub longest: u16,
    pub end: u64,
    pub waiting: u32,
    pub in_card: u32,
}
