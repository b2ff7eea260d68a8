// A card that finishes the newest command first.
ghost use Rattle.std.specs.Prelude.{◌≡◌, ◌≤◌, [], ◌∷◌, ◌++◌, length, take, is_ok, if◌then◌else◌};
ghost use Rattle.card.specs.Commands.{Submitted};
ghost use Rattle.cards_for_tests.specs.Choices.{Newest};

use card::{Card, CardFault, Command, has_ticket};

/// Depth 32; finish answers the newest command, with its ticket's lowest byte for a status.
#[derive(Drop)]
pub struct NewestCard {
    commands: [Command; 32],
    len: usize,
    ghost sized: { length commands ≡ 32 },
    ghost within: { len ≤ 32 },
}

impl NewestCard {
    /// A card that holds no command.
    pub fn new() -> NewestCard
        ensures { take result.len result.commands ≡ [] }
    {
        NewestCard {
            commands: [Command::default(); 32],
            len: 0,
        }
    }
}

impl Card for NewestCard {
    const DEPTH: usize = 32;

    ghost DEPTH = { 32 };

    ghost held = { λ c. take c.len c.commands };

    ghost finishes = { λ c r after. Newest (take c.len c.commands) r (take after.len after.commands) };

    fn submit(&mut self, command: Command) -> Result<(), CardFault>
        ensures card { Submitted 32 (take self.old.len self.old.commands) command result (take self.new.len self.new.commands) }
        ensures order { take self.new.len self.new.commands ≡ take self.old.len self.old.commands ++ (if is_ok result then command ∷ [] else []) }
    {
        if self.len >= Self::DEPTH {
            return Err(CardFault::Full);
        }
        if has_ticket(&self.commands[..self.len], command.ticket) {
            return Err(CardFault::HeldAlready);
        }
        self.commands[self.len] = command;
        self.len += 1;
        Ok(())
    }

    fn finish(&mut self) -> Option<(u32, u8)> {
        if self.len == 0 {
            return None;
        }
        self.len -= 1;
        let newest = self.commands[self.len];
        Some((newest.ticket, newest.ticket.to_le_bytes()[0]))
    }

    fn count(&self) -> usize
        ensures held { result ≡ length (take self.now.len self.now.commands) }
        ensures within { result ≤ 32 }
    {
        self.len
    }
}
