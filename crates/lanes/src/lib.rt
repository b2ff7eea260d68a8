// The requests of a board: those that wait in its lanes, with the heap of the lanes' leads, and those in the card.
#![tactic(auto)]

pub mod clock;
mod lane;
pub mod lanes;
mod leads;
pub mod records;
pub mod table;
#[cfg(test)]
mod tests;
