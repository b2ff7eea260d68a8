//! A card by its meaning: its depth, and the commands that it holds.
#![tactic(auto)]

ghost use Rattle.std.specs.Prelude.{◌≡◌, ℕ, ◌+◌, List, length, Option};
ghost use Rattle.card.specs.declared.Command.{Command};
ghost use Rattle.card.specs.Asking.{Asked};
ghost use Rattle.card.specs.Commands.{Finished, Submitted, among};

/// What a card is asked to do: a request's ticket, and its length in sectors.
#[derive(Clone, Copy, Default, PartialEq, Eq, Debug)]
pub struct Command {
    pub ticket: u32,
    pub sectors: u16,
}

/// Why a card does not take a command.
#[derive(Clone, Copy, PartialEq, Eq, Debug)]
pub enum CardFault {
    /// As many commands as its depth are held.
    Full,
    /// A command with this ticket is held.
    HeldAlready,
}

/// A flash card. It holds commands, in any order, and finishes them when and in what order it likes.
pub trait Card {
    /// How many commands this kind of card can hold.
    const DEPTH: usize;

    /// The same number, for contracts.
    ghost DEPTH: { ℕ };

    /// The commands held, with repeats; their order in the list means nothing.
    ghost held: { Self → List Command };

    /// What `finish` may answer, and how it leaves the card: the card's own choice.
    ghost finishes: { Self → Option (ℕ × ℕ) → Self → Type 0 };

    /// Takes a command, unless the card is full (asked first) or holds its ticket. Each card asks this of its own store, and
    /// promises besides where the command goes, so that no body is given here.
    fn submit(&mut self, command: Command) -> Result<(), CardFault>
        ensures { Submitted DEPTH (held self.old) command result (held self.new) };

    /// Answers nothing, or the ticket of a command that was held with a status byte; that command is then gone.
    fn finish(&mut self) -> Option<(u32, u8)>
        ensures one { Finished (held self.old) result (held self.new) }
        ensures choice { finishes self.old result self.new };

    /// How many commands are held.
    fn count(&self) -> usize
        ensures { result ≡ length (held self.now) };

    /// Answers `DEPTH`.
    fn capacity() -> usize
        ensures { result ≡ DEPTH }
    {
        Self::DEPTH
    }
}

/// Whether a command with this ticket is among these.
pub fn has_ticket(commands: &[Command], ticket: u32) -> bool
    ensures { result ≡ among ticket commands.now }
{
    commands.iter().any(|c| c.ticket == ticket)
}

/// Asks a card `times` times to finish, and answers how many commands it finished.
pub fn drain<C: Card>(card: &mut C, times: usize) -> usize
    ensures asked { Asked C.finishes card.old times result card.new }
    ensures gone { length (C.held card.old) ≡ length (C.held card.new) + result }
{
    // A loop: no clause of an iterator chain says how it leaves a card that its closure asked.
    let mut finished = 0;
    for _turn in 0..times {
        if card.finish().is_some() {
            finished += 1;
        }
    }
    finished
}
