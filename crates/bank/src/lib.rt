//! The bank card: depth 32, four banks that work side by side.
#![tactic(auto)]

ghost use Rattle.std.specs.Prelude.{◌≡◌, ◌≤◌, length};
ghost use Rattle.bank.specs.Jobs.{commands_all};
ghost use Rattle.bank.specs.Rules.{Placed};

use crate::bank::Bank;

mod bank;
mod calls;

pub use crate::calls::bank_laws;

/// A card with four banks. A command goes to the bank of its ticket mod 4, with one piece of work for each 64 sectors, rounded up.
/// Each finish does one piece of the work of every bank's oldest command, and answers one that has nothing left to do.
#[derive(Drop)]
pub struct BankCard {
    banks: [Bank; 4],
    count: usize,
    // Facts of every card. They are no invariant of a model, which would hide them from a proof that has no `&` to the card.
    ghost four: { length banks ≡ 4 },
    ghost counted: { count ≡ length (commands_all banks) },
    ghost placed: { Placed banks },
    ghost few: { count ≤ 32 },
}
