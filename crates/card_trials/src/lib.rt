//! Short runs of slots and cards, with what the rules give for them worked out by hand.
#![tactic(auto)]

#[cfg(test)]
mod banks;
#[cfg(test)]
mod grants;
#[cfg(test)]
mod queues;
#[cfg(test)]
mod trials;

#[cfg(test)]
fn command(ticket: u32, sectors: u16) -> card::Command {
    card::Command { ticket, sectors }
}
