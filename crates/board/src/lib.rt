// A board of fair shares around a card.
#![tactic(auto)]

pub mod answer;
pub mod board;
