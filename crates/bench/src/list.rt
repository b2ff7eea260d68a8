// The list of calls: how it is made, and how it is run.
use crate::checksum::{add, arrived, moved, reaped};
use crate::numbers::XorShift;
use board::answer::{Reaping, Sending};
use board::board::Board;
use books::refusal::Refusal;
use card::Card;
use sheet::shape::Sheet;
use std::alloc::Global;

// Sixteen flows, eight lanes of 32, D 16 and T 6,000.
pub(crate) const TEXT: &[u8] =
    b"F 16\n1 24\n2 40\n3 64\n5 100\n8 160\n10 200\n10 64\n16 320\n20 256\n25 500\n32 512\n40 64\n50 1024\n64 1280\n100 2048\n100 256\nL 8\n32\n32\n32\n32\n32\n32\n32\n32\nP 2\nD 16\nT 6000\n";

// One call in a few bytes: fly's own holds a sheet, and a list of those would be some twenty times as long.
#[derive(Clone, Copy)]
pub(crate) enum Call {
    Arrive { flow: u8, lane: u8, length: u16 },
    Kick(u8),
    Send(u8),
    Reap,
}

impl Call {
    // Makes the call, and tells the word of its answer. The answers as one enum between the two took some 50 instructions a call.
    fn word<C: Card>(self, board: &mut Board<C>) -> u64 {
        match self {
            Call::Arrive { flow, lane, length } => {
                arrived(board.arrive(u32::from(flow), u32::from(lane), u32::from(length)))
            }
            Call::Kick(lane) => moved(board.kick(u32::from(lane))),
            Call::Send(lane) => moved(board.send(u32::from(lane))),
            Call::Reap => reaped(board.reap()),
        }
    }
}

// Makes the calls one after the other, by chance and by what the answers so far have told.
#[derive(Drop)]
pub(crate) struct Maker {
    sheet: Sheet,
    numbers: XorShift,
    // How many requests wait: of each flow, in each lane, and in all; and how many are in the card.
    by_flow: [u32; 16],
    by_lane: [u32; 8],
    waiting: u32,
    in_card: u32,
    // The lane of each ticket.
    lanes: Vec<u8>,
    draining: bool,
}

impl Maker {
    pub(crate) fn new(heap: Global, sheet: Sheet) -> Maker {
        Maker {
            sheet,
            numbers: XorShift::new(1),
            by_flow: [0; 16],
            by_lane: [0; 8],
            waiting: 0,
            in_card: 0,
            lanes: Vec::new(heap),
            draining: false,
        }
    }

    pub(crate) fn next_call(&mut self) -> Call {
        if self.waiting >= 128 {
            self.draining = true;
        } else if self.waiting <= 56 {
            self.draining = false;
        }
        let roll = self.numbers.below(100);
        let (arrive, kick, send) = if self.draining {
            (15, 45, 65)
        } else {
            (45, 62, 75)
        };
        if roll < arrive {
            return self.arrival();
        }
        if roll >= send {
            return Call::Reap;
        }
        let lane = self.numbers.below(8) as u8;
        if self.in_card == 16 && self.numbers.below(4) != 0 {
            return Call::Reap;
        }
        if roll < kick {
            Call::Kick(lane)
        } else {
            Call::Send(lane)
        }
    }

    // Of two flows that of which fewer wait, and likewise of two lanes.
    fn arrival(&mut self) -> Call {
        let flow = self.numbers.lesser_of_two(&self.by_flow);
        let lane = self.numbers.lesser_of_two(&self.by_lane);
        let longest = self
            .sheet
            .flow(flow)
            .map_or(0, |share| u32::from(share.longest));
        let length = self.numbers.below(longest).saturating_add(1);
        Call::Arrive {
            flow: flow as u8,
            lane: lane as u8,
            length: (length & 0xffff) as u16,
        }
    }

    // Makes the call, and notes what its answer tells.
    pub(crate) fn ask<C: Card>(&mut self, board: &mut Board<C>, call: Call) -> anyhow::Result<()> {
        match call {
            Call::Arrive { flow, lane, length } => {
                if board
                    .arrive(u32::from(flow), u32::from(lane), u32::from(length))
                    .is_ok()
                {
                    self.count(flow as usize, lane as usize, |n| n.saturating_add(1));
                    self.lanes.push(lane)?;
                }
            }
            Call::Kick(lane) => self.note_move(board.kick(u32::from(lane))),
            Call::Send(lane) => self.note_move(board.send(u32::from(lane))),
            Call::Reap => {
                if let Ok(Reaping::Finished { .. }) = board.reap() {
                    self.in_card = self.in_card.saturating_sub(1);
                }
            }
        }
        Ok(())
    }

    fn note_move(&mut self, answer: Result<Sending, Refusal>) {
        if let Ok(Sending::Sent { ticket, flow, .. }) = answer {
            let lane = self.lanes.get(ticket as usize).copied().unwrap_or(0);
            self.count(flow as usize, lane as usize, |n| n.saturating_sub(1));
            self.in_card = self.in_card.saturating_add(1);
        }
    }

    // Changes the counts of what waits: of the flow, in the lane, and in all.
    fn count<F: Fn(u32) -> u32>(&mut self, flow: usize, lane: usize, change: F)
        requires { F.IsAlwaysCallable change }
    {
        let (f, l) = (flow % 16, lane % 8);
        self.by_flow[f] = change(self.by_flow[f]);
        self.by_lane[l] = change(self.by_lane[l]);
        self.waiting = change(self.waiting);
    }
}

// Makes the calls in their order, and tells the checksum of the answers.
pub(crate) fn run_list<C: Card>(board: &mut Board<C>, calls: &[Call]) -> u64 {
    calls.iter().fold(0, |sum, call| add(sum, call.word(board)))
}
