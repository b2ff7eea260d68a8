// A board: the books, the slots, and the card. No model stands for it, since the laws of runs read the card's own meaning, and of the books what is true of all.
ghost use Rattle.std.specs.Prelude.{◌≡◌, length};
ghost use Rattle.books.specs.Views.{state_of};

use books::books::Books;
use card::Card;
use slots::Slots;

mod calls;
mod hand;
mod kick;
mod looks;
mod send;

#[derive(Drop)]
pub struct Board<C: Card> {
    books: Books,
    slots: Slots,
    card: C,
    ghost settled: { slots.granted ≡ 0 },
    ghost matched: { slots.sent ≡ length (state_of books).in_card },
    ghost limited: { slots.limit ≡ (state_of books).sheet.slots },
}
