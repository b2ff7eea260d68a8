// What the bank card does when it is called.
ghost use Rattle.std.specs.Prelude.{◌≡◌, ◌%◌, ◌<◌, ◌≤◌, [], map, length, replicate, IfSome};
ghost use Rattle.card.specs.Commands.{Finished, Submitted};
ghost use Rattle.bank.specs.Jobs.{commands_all, lowered};
ghost use Rattle.bank.specs.Laws.{Laws};
ghost use Rattle.bank.specs.Rules.{Placed, finish_rule, first_ready, submit_rule};

use crate::BankCard;
use crate::bank::Bank;
use card::{Card, CardFault, Command};
use std::array;

impl BankCard {
    /// A card that holds no command.
    pub fn new() -> BankCard
        ensures { result.banks ≡ replicate 4 [] }
    {
        BankCard {
            banks: array::from_fn(|_| Bank::new()),
            count: 0,
        }
    }

    /// What every bank card keeps: four banks, in each only tickets of its own, and in all at most 32 commands. The code does nothing.
    pub fn in_order(&self)
        ensures four { length self.now.banks ≡ 4 }
        ensures placed { Placed self.now.banks }
        ensures few { length (commands_all self.now.banks) ≤ 32 }
    {}
}

impl Card for BankCard {
    const DEPTH: usize = 32;

    ghost DEPTH = { 32 };

    ghost held = { λ c. commands_all c.banks };

    ghost finishes = { λ c r after. (r ≡ (finish_rule c.banks).0) × (after.banks ≡ (finish_rule c.banks).1) };

    fn submit(&mut self, command: Command) -> Result<(), CardFault>
        ensures card { Submitted 32 (commands_all self.old.banks) command result (commands_all self.new.banks) }
        ensures answer { result ≡ (submit_rule self.old.banks command).0 }
        ensures banks { self.new.banks ≡ (submit_rule self.old.banks command).1 }
    {
        if self.count >= Self::DEPTH {
            return Err(CardFault::Full);
        }
        let bank = &mut self.banks[bank_of(command.ticket)];
        if bank.contains(command.ticket) {
            return Err(CardFault::HeldAlready);
        }
        bank.push(command)?;
        self.count += 1;
        Ok(())
    }

    fn finish(&mut self) -> Option<(u32, u8)>
        ensures one { Finished (commands_all self.old.banks) result (commands_all self.new.banks) }
        ensures answer { result ≡ (finish_rule self.old.banks).0 }
        ensures banks { self.new.banks ≡ (finish_rule self.old.banks).1 }
    {
        // Lent whole: a bank that is lent through `self` asks for the card's facts at once, before the command is gone.
        let banks = &mut self.banks;
        lower(banks);
        let first = ready_bank(banks)?;
        self.count -= 1;
        banks[first].pop()
    }

    fn count(&self) -> usize {
        self.count
    }
}

/// Does one piece of the work of each bank's oldest command.
fn lower(banks: &mut [Bank])
    ensures { banks.new ≡ map lowered banks.old }
{
    for bank in banks.iter_mut() {
        bank.lower();
    }
}

/// The first bank whose oldest command has nothing left to do.
fn ready_bank(banks: &[Bank]) -> Option<usize>
    ensures first { result ≡ first_ready 0 banks.now }
    ensures there { IfSome result (λ b. b < length banks.now) }
{
    banks.iter().position(|bank| bank.is_ready())
}

/// The bank of a ticket.
fn bank_of(ticket: u32) -> usize
    ensures { result ≡ ticket % 4 }
{
    (ticket % 4) as usize
}

/// What the rules of the calls come to: which bank answers and when none does, and how much work a command is.
pub fn bank_laws()
    ensures { Laws }
{}
