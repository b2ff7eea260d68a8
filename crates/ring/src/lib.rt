//! Commands in the order in which they came, in a circle of places.
#![tactic(auto)]

mod methods;

use card::Command;
use std::marker::Model;

/// At most `N` commands, oldest first. They lie in a circle, so that none is moved when the oldest goes.
#[derive(Drop)]
pub struct Ring<const N: usize> {
    places: [Command; N],
    /// The place of the oldest.
    first: usize,
    len: usize,
}

// Clauses see the commands, oldest first.
impl<const N: usize> Model for Ring<N> {
    ghost use Rattle.std.specs.Prelude.{List, ◌-◌, ◌≤◌};
    ghost use Rattle.card.specs.declared.Command.{Command};
    ghost use Rattle.ring.specs.Circle.{window};

    ghost Value = { List Command };

    ghost view = { λ r. window r.first r.len r.places };

    ghost invariant = { λ r. (r.first ≤ N - 1) × (r.len ≤ N) };
}
