// A whole flight: calls on one new board around a card, with their answers.
#![tactic(auto)]

pub mod call;
pub mod flight;
