// What a flight prints: one line for each step of a script.
#![tactic(auto)]

pub mod answer;
pub mod pieces;
pub mod report;
#[cfg(test)]
mod tests;
