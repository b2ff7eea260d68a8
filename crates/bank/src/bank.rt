// One bank: its commands oldest first, with the work left on the oldest.
ghost use Rattle.std.specs.Prelude.{◌≡◌, [], ◌∷◌, ◌++◌, ◌<◌, ◌≤◌, length, MatchResult};
ghost use Rattle.card.specs.Commands.{among};
ghost use Rattle.card.specs.declared.CardFault.TheVariants.{Full};
ghost use Rattle.ring.specs.Rings.{head_of, tail_of};
ghost use Rattle.bank.specs.Jobs.{commands_in, fresh, lowered, ready, work_of};
ghost use Rattle.bank.specs.Rules.{answer_of};

use card::{CardFault, Command};
use ring::Ring;
use std::marker::Model;

#[derive(Drop)]
pub(crate) struct Bank {
    commands: Ring<32>,
    /// The work left on the oldest command; 0 where there is none.
    left: u16,
}

// Clauses see each command with the work left on it, oldest first.
impl Model for Bank {
    ghost use Rattle.std.specs.Prelude.{List};
    ghost use Rattle.bank.specs.Jobs.{Job, jobs_from};

    ghost Value = { List Job };

    ghost view = { λ b. jobs_from b.left b.commands };
}

impl Bank {
    pub(crate) fn new() -> Bank
        ensures { result ≡ [] }
    {
        Bank {
            commands: Ring::new(),
            left: 0,
        }
    }

    /// Whether a command with this ticket is in the bank.
    pub(crate) fn contains(&self, ticket: u32) -> bool
        ensures { result ≡ among ticket (commands_in self.now) }
    {
        self.commands.contains(ticket)
    }

    /// Puts a command behind the others. Where there is no place it is `Full`, and nothing changes.
    pub(crate) fn push(&mut self, command: Command) -> Result<(), CardFault>
        ensures { MatchResult result (λ _. (length self.old < 32) × (self.new ≡ self.old ++ fresh command ∷ [])) (λ fault. (fault ≡ Full) × (32 ≤ length self.old) × (self.new ≡ self.old)) }
    {
        if self.commands.len() == 0 {
            self.left = work(command.sectors);
        }
        self.commands.push(command)
    }

    /// Does one piece of the oldest command's work.
    pub(crate) fn lower(&mut self)
        ensures { self.new ≡ lowered self.old }
    {
        self.left = self.left.saturating_sub(1);
    }

    /// Whether there is an oldest command, and nothing is left of it.
    pub(crate) fn is_ready(&self) -> bool
        ensures { result ≡ ready self.now }
    {
        self.left == 0 && self.commands.len() > 0
    }

    /// Takes the oldest command out, and answers its ticket with status 0.
    pub(crate) fn pop(&mut self) -> Option<(u32, u8)>
        ensures oldest { result ≡ answer_of (head_of self.old) }
        ensures rest { self.new ≡ tail_of self.old }
    {
        let done = self.commands.pop()?;
        self.left = self.commands.oldest().map_or(0, |next| work(next.sectors));
        Some((done.ticket, 0))
    }
}

/// The work of a command: one for each 64 sectors, rounded up.
fn work(sectors: u16) -> u16
    ensures { result ≡ work_of sectors }
{
    sectors.div_ceil(64)
}
