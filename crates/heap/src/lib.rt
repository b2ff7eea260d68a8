// A binary heap over lent memory, for every kind of record that has a total order, and lists of records in order.
#![tactic(auto)]

mod edits;
pub mod fixed;
pub mod heap;
pub mod lists;
pub mod order;
mod sifts;
