// What a ring can be asked and told.
ghost use Rattle.std.specs.Prelude.{◌≡◌, ◌+◌, ◌-◌, ◌<◌, ◌≤◌, [], ◌∷◌, ◌++◌, length, MatchResult};
ghost use Rattle.card.specs.Commands.{among};
ghost use Rattle.card.specs.declared.CardFault.TheVariants.{Full};
ghost use Rattle.ring.specs.Circle.{wrap};
ghost use Rattle.ring.specs.Rings.{head_of, tail_of};

use crate::Ring;
use card::{CardFault, Command, has_ticket};

impl<const N: usize> Ring<N> {
    /// A ring that holds no command.
    pub fn new() -> Ring<N>
        ensures { result ≡ [] }
    {
        Ring {
            places: [Command::default(); N],
            first: 0,
            len: 0,
        }
    }

    /// How many commands are held.
    pub fn len(&self) -> usize
        ensures count { result ≡ length self.now }
        ensures within { result ≤ N }
    {
        // The check needs the type of the places, which `len` alone does not name.
        let _ = &self.places;
        self.len
    }

    /// The oldest command.
    pub fn oldest(&self) -> Option<Command>
        ensures { result ≡ head_of self.now }
    {
        if self.len == 0 {
            return None;
        }
        Some(self.places[self.first])
    }

    /// Takes the oldest command out.
    pub fn pop(&mut self) -> Option<Command>
        ensures oldest { result ≡ head_of self.old }
        ensures rest { self.new ≡ tail_of self.old }
    {
        let oldest = self.oldest()?;
        self.first = next::<N>(self.first);
        self.len -= 1;
        Some(oldest)
    }

    /// Puts a command behind the others. Where there is no place it is `Full`, and nothing changes.
    pub fn push(&mut self, command: Command) -> Result<(), CardFault>
        ensures { MatchResult result (λ _. (length self.old < N) × (self.new ≡ self.old ++ command ∷ [])) (λ fault. (fault ≡ Full) × (N ≤ length self.old) × (self.new ≡ self.old)) }
    {
        if self.len >= N {
            return Err(CardFault::Full);
        }
        let free = free_place::<N>(self.first, self.len);
        self.places[free] = command;
        self.len += 1;
        Ok(())
    }

    /// Whether a command with this ticket is held.
    pub fn contains(&self, ticket: u32) -> bool
        ensures { result ≡ among ticket self.now }
    {
        // Mostly no place has the ticket, and `seen` tells it soon: a call of the bench takes 237 instructions, and 247 without
        // it. The places hold old commands too, so where one has the ticket those held are looked at.
        if !seen(&self.places, ticket) {
            return false;
        }
        let (older, newer) = self.runs();
        has_ticket(older, ticket) || has_ticket(newer, ticket)
    }

    /// The commands in two runs, oldest first: up to the last place, and on from place 0.
    fn runs(&self) -> (&[Command], &[Command])
        ensures { result.0.now ++ result.1.now ≡ self.now }
    {
        let (low, high) = self.places.split_at(self.first);
        let round = self.len.saturating_sub(high.len());
        (&high[..self.len - round], &low[..round])
    }
}

/// The place behind the newest of `len` commands, in a circle of `N`.
fn free_place<const N: usize>(first: usize, len: usize) -> usize
    requires starts { first < N }
    requires room { len < N }
    ensures { (result ≡ wrap N (first + len)) × (result < N) }
{
    let to_end = N - first;
    if len < to_end {
        first + len
    } else {
        len - to_end
    }
}

/// The place after this one, in a circle of `N`.
fn next<const N: usize>(place: usize) -> usize
    requires { place < N }
    ensures { result ≡ wrap N (place + 1) }
{
    if place + 1 < N { place + 1 } else { 0 }
}

/// Whether a ticket lies at any place, as `has_ticket`, but without a branch: it looks at all of them.
fn seen(places: &[Command], ticket: u32) -> bool
    ensures { result ≡ among ticket places.now }
{
    places
        .iter()
        .fold(false, |any, c| any | (c.ticket == ticket))
}
