// The calls of a board and its questions as values, with their answers.
use board::answer::{Reaping, Sending};
use books::flows::FlowState;
use books::refusal::Refusal;
use sheet::shape::Sheet;

// A call's numbers are the arguments of the board's own method, in the order in which they are checked.
#[derive(Clone, Copy)]
pub enum Call {
    Load(Sheet),
    Arrive { flow: u32, lane: u32, length: u32 },
    Send(u32),
    Kick(u32),
    Reap,
    // The questions: virtual time, the ready lanes, and what a flow has.
    Time,
    Ready,
    Flow(u32),
}

// Each call's own answer.
#[derive(Clone, Copy)]
pub enum Answer {
    Loaded(Result<(), Refusal>),
    Arrived(Result<(u32, (u64, u64)), Refusal>),
    Moved(Result<Sending, Refusal>),
    Reaped(Result<Reaping, Refusal>),
    VirtualTime(u64),
    ReadyLanes(u8, u32),
    OfFlow(Result<FlowState, Refusal>),
}
