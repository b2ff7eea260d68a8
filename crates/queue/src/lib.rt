//! The queue card: depth 16, first in, first out.
#![tactic(auto)]

ghost use Rattle.std.specs.Prelude.{◌≡◌, ◌≤◌, [], length};
ghost use Rattle.card.specs.Commands.{Finished, Submitted};
ghost use Rattle.queue.specs.Fifo.{Fifo};
ghost use Rattle.queue.specs.Queues.{finish_rule, submit_rule};

use card::{Card, CardFault, Command};
use ring::Ring;

/// A card that finishes the oldest command each time it is asked, with status 0.
#[derive(Drop)]
pub struct QueueCard {
    commands: Ring<16>,
    ghost few: { length commands ≤ 16 },
}

impl QueueCard {
    /// A card that holds no command.
    pub fn new() -> QueueCard
        ensures { result.commands ≡ [] }
    {
        QueueCard {
            commands: Ring::new(),
        }
    }
}

impl Card for QueueCard {
    const DEPTH: usize = 16;

    ghost DEPTH = { 16 };

    ghost held = { λ q. q.commands };

    ghost finishes = { λ q r after. (r ≡ (finish_rule q.commands).0) × (after.commands ≡ (finish_rule q.commands).1) };

    fn submit(&mut self, command: Command) -> Result<(), CardFault>
        ensures card { Submitted 16 self.old.commands command result self.new.commands }
        ensures answer { result ≡ (submit_rule self.old.commands command).0 }
        ensures queue { self.new.commands ≡ (submit_rule self.old.commands command).1 }
    {
        if self.commands.len() >= Self::DEPTH {
            return Err(CardFault::Full);
        }
        if self.commands.contains(command.ticket) {
            return Err(CardFault::HeldAlready);
        }
        self.commands.push(command)
    }

    fn finish(&mut self) -> Option<(u32, u8)>
        ensures one { Finished self.old.commands result self.new.commands }
        ensures answer { result ≡ (finish_rule self.old.commands).0 }
        ensures queue { self.new.commands ≡ (finish_rule self.old.commands).1 }
    {
        let oldest = self.commands.pop()?;
        Some((oldest.ticket, 0))
    }

    fn count(&self) -> usize
        ensures held { result ≡ length self.now.commands }
        ensures within { result ≤ 16 }
    {
        self.commands.len()
    }
}

/// What the rules of the calls come to, over any calls: first in, first out.
pub fn queue_law()
    ensures { Fifo }
{}
