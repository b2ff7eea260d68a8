// The reader of flight scripts: a card, and calls to be made on a board around it.
#![tactic(auto)]

mod cursor;
pub mod fault;
pub mod law;
pub mod line;
mod number;
pub mod reading;
pub mod script;
mod walk;
