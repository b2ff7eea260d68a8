//! Cards that are hard on the layers above: one that finishes the newest command first, and one that keeps them waiting.
#![tactic(auto)]

pub mod late;
pub mod newest;
