// A card that answers nothing many times.
ghost use Rattle.std.specs.Prelude.{◌≡◌};
ghost use Rattle.card.specs.Commands.{Submitted};
ghost use Rattle.cards_for_tests.specs.Choices.{Late};

use card::{Card, CardFault, Command};

/// Any card, which is asked to finish only each time after it has answered nothing `pause` times.
#[derive(Drop)]
pub struct LateCard<C: Card> {
    card: C,
    /// How many times it answers nothing before each time that the card is asked.
    pause: u32,
    /// How many of them are left of this pause.
    left: u32,
}

impl<C: Card> LateCard<C> {
    /// A late card over `card`; it begins with a pause.
    pub fn new(card: C, pause: u32) -> LateCard<C>
        ensures { (result.card ≡ card) × (result.pause ≡ pause) × (result.left ≡ pause) }
    {
        LateCard {
            card,
            pause,
            left: pause,
        }
    }
}

impl<C: Card> Card for LateCard<C> {
    const DEPTH: usize = C::DEPTH;

    ghost DEPTH = { C.Card.DEPTH };

    ghost held = { λ l. C.Card.held l.card };

    ghost finishes = { λ l r after. Late C.Card.finishes l.left l.pause l.card r after.card after.left × (after.pause ≡ l.pause) };

    fn submit(&mut self, command: Command) -> Result<(), CardFault>
        ensures card { Submitted C.Card.DEPTH (C.Card.held self.old.card) command result (C.Card.held self.new.card) }
        ensures pause { (self.new.pause ≡ self.old.pause) × (self.new.left ≡ self.old.left) }
    {
        self.card.submit(command)
    }

    fn finish(&mut self) -> Option<(u32, u8)> {
        if self.left > 0 {
            self.left -= 1;
            return None;
        }
        self.left = self.pause;
        self.card.finish()
    }

    fn count(&self) -> usize {
        self.card.count()
    }
}
