//! The slots of a board: how many requests may be in the card at once; and sending, which spends a grant of one.
//!
//! Taking a slot gives a grant. A grant ends by being spent on one request that is sent, or by being given back.
#![tactic(auto)]

ghost use Rattle.std.specs.Prelude.{◌≡◌, ◌+◌, ◌<◌, ◌≤◌, MatchOption, MatchResult};
ghost use Rattle.card.specs.Commands.{Submitted};
ghost use Rattle.slots.specs.Counts.{Counts, all_in, freed, given_back, out, spent, taken};

use card::{Card, CardFault, Command};
use std::marker::Model;

/// A slot is out while its grant is held, or until the request that was sent for it has finished.
#[derive(Drop)]
pub struct Slots {
    /// Grants that are neither spent nor given back.
    granted: usize,
    /// Requests that were sent and have not finished.
    sent: usize,
    /// How many slots there are.
    limit: usize,
}

impl Model for Slots {
    ghost Value = { Counts };

    ghost view = { λ s. record { granted = s.granted; sent = s.sent; limit = s.limit } };

    ghost invariant = { λ s. s.granted + s.sent ≤ s.limit };
}

/// One slot that was taken. It is neither `Drop` nor `Copy`: whoever holds it spends it once or gives it back.
pub struct Grant {
    // Keeps other crates from making a grant, or taking one apart.
    sealed: (),
}

impl Slots {
    /// Slots of which none is out.
    pub fn new(limit: usize) -> Slots
        ensures { result ≡ all_in limit }
    {
        Slots {
            granted: 0,
            sent: 0,
            limit,
        }
    }

    /// A grant, or nothing where all slots are out.
    pub fn take(&mut self) -> Option<Grant>
        ensures { MatchOption result ((out self.old ≡ self.old.limit) × (self.new ≡ self.old)) (λ _. (out self.old < self.old.limit) × (self.new ≡ taken self.old)) }
    {
        if self.granted + self.sent >= self.limit {
            return None;
        }
        self.granted += 1;
        Some(Grant { sealed: () })
    }

    /// Frees the slot of a request that has finished. Where no sent request is counted nothing changes.
    pub fn free(&mut self)
        ensures { self.new ≡ freed self.old }
    {
        self.sent = self.sent.saturating_sub(1);
    }
}

impl Slots {
    /// What slots keep at all times: no more are out than there are. The code does nothing.
    pub fn in_limit(&self)
        ensures { out self.now ≤ self.now.limit }
    {
        let _ = &self.limit;
    }
}

impl Grant {
    /// Turns the slot into that of a request that was sent: as many are out as before. Where no grant is out nothing changes.
    pub fn spend(self, slots: &mut Slots)
        ensures { slots.new ≡ spent slots.old }
    {
        let Grant { sealed: () } = self;
        if slots.granted > 0 {
            slots.granted -= 1;
            slots.sent += 1;
        }
    }

    /// Makes the slot free again. Where no grant is out nothing changes.
    pub fn give_back(self, slots: &mut Slots)
        ensures { slots.new ≡ given_back slots.old }
    {
        let Grant { sealed: () } = self;
        slots.granted = slots.granted.saturating_sub(1);
    }
}

/// Submits one command for one grant. The grant is spent on it, or given back where the card refuses.
pub fn hand_over<C: Card>(
    card: &mut C,
    slots: &mut Slots,
    grant: Grant,
    command: Command,
) -> Result<(), CardFault>
    ensures submitted { Submitted C.DEPTH (C.held card.old) command result (C.held card.new) }
    ensures slots { MatchResult result (λ _. slots.new ≡ spent slots.old) (λ _. slots.new ≡ given_back slots.old) }
{
    // The grant is used up on either path, by one of two calls: a `match` is the plainest form of that.
    match card.submit(command) {
        Ok(()) => {
            grant.spend(slots);
            Ok(())
        }
        Err(fault) => {
            grant.give_back(slots);
            Err(fault)
        }
    }
}
