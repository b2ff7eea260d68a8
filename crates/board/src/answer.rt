// What send and kick answer.
#[derive(Clone, Copy, Debug, PartialEq, Eq)]
pub enum Sending {
    Empty,
    Throttled(u64),
    NoSlot,
    Sent { ticket: u32, flow: u32, charge: u32 },
}

// What reap answers.
#[derive(Clone, Copy, Debug, PartialEq, Eq)]
pub enum Reaping {
    Finished {
        ticket: u32,
        flow: u32,
        charge: u32,
        status: u8,
    },
    NotYet,
    Idle,
}
