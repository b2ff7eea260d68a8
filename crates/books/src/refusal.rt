// Why a call is refused.
ghost use Rattle.std.specs.Prelude.{◌≡◌, ◌≤◌};
ghost use Rattle.books.specs.Refusals.{number_of};
ghost use Rattle.books.specs.declared.refusal.Refusal.TheVariants.{ByCard};

use card::CardFault;

#[derive(Clone, Copy, Debug, PartialEq, Eq)]
pub enum Refusal {
    // 6: a request waits or is in the card, or the card holds a command
    Busy,
    // 7: the sheet has more slots than the card is deep
    TooDeep,
    // 8
    NoFlow,
    // 9
    NoLane,
    // 10: the length is 0 or above the flow's longest
    BadLength,
    // 11: as many requests wait in the lane as may
    LaneFull,
    // 12: all arrivals of the load are used up
    NoTicket,
    // 13: the card refused the command
    ByCard(CardFault),
    // 14: the card finished a ticket that is not in the card by the books
    Stray(u32),
}

impl Refusal {
    // The refusal's number. Two refusals carry values, so no cast tells it.
    pub fn number(&self) -> u8
        ensures { result ≡ number_of self.now }
    {
        match self {
            Refusal::Busy => 6,
            Refusal::TooDeep => 7,
            Refusal::NoFlow => 8,
            Refusal::NoLane => 9,
            Refusal::BadLength => 10,
            Refusal::LaneFull => 11,
            Refusal::NoTicket => 12,
            Refusal::ByCard(_) => 13,
            Refusal::Stray(_) => 14,
        }
    }
}

// The card's own refusal is inside the board's.
impl From<CardFault> for Refusal {
    ghost from_gives = { λ fault r. r ≡ ByCard fault };

    fn from(fault: CardFault) -> Refusal {
        Refusal::ByCard(fault)
    }
}
