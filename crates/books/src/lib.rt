// The books of a board: virtual time, what each flow has, what waits, and what is in the card.
#![tactic(auto)]

pub mod books;
pub mod flows;
mod guard;
pub mod refusal;
