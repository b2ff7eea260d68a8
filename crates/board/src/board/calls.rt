// Making, loading, arriving and reaping.
ghost use Rattle.std.specs.Prelude.{◌≡◌};
ghost use Rattle.sheet.specs.Sheets.{blank, content_of};
ghost use Rattle.books.specs.Model.{arrive_rule, empty};
ghost use Rattle.books.specs.Views.{state_of};
ghost use Rattle.board.specs.Answers.{arrival_of, loading_of};
ghost use Rattle.board.specs.Rules.{Answers, Reaps, load_rule};

use crate::answer::Reaping;
use crate::board::Board;
use books::books::Books;
use books::refusal::Refusal;
use card::Card;
use sheet::shape::Sheet;
use slots::Slots;

impl<C: Card> Board<C> {
    // No flows, no lanes, D 1 and T 0.
    pub fn new(card: C) -> Board<C>
        ensures { (state_of result.books ≡ empty blank) × (result.card ≡ card) }
    {
        Board {
            books: Books::new(Sheet::new()),
            slots: Slots::new(1),
            card,
        }
    }

    pub fn load(&mut self, sheet: Sheet) -> Result<(), Refusal>
        ensures rule { Answers loading_of result (state_of self.new.books) (load_rule C.DEPTH (C.held self.old.card) (state_of self.old.books) (content_of sheet)) }
        ensures card { self.new.card ≡ self.old.card }
    {
        if self.books.waits() || self.books.in_card() > 0 || self.card.count() > 0 {
            return Err(Refusal::Busy);
        }
        if sheet.slots() as usize > C::DEPTH {
            return Err(Refusal::TooDeep);
        }
        self.slots = Slots::new(sheet.slots() as usize);
        self.books = Books::new(sheet);
        Ok(())
    }

    // The ticket, with the start and the end tag. The three numbers are checked in their order; a struct of them would be made for this call alone.
    pub fn arrive(
        &mut self,
        flow: u32,
        lane: u32,
        length: u32,
    ) -> Result<(u32, (u64, u64)), Refusal>
        ensures rule { Answers arrival_of result (state_of self.new.books) (arrive_rule (state_of self.old.books) flow lane length) }
        ensures card { self.new.card ≡ self.old.card }
    {
        self.books.arrive(flow, lane, length)
    }

    pub fn reap(&mut self) -> Result<Reaping, Refusal>
        ensures rule { Reaps C.held C.finishes self.old.card self.new.card result (state_of self.old.books) (state_of self.new.books) }
    {
        let Some((ticket, status)) = self.card.finish() else {
            if self.books.in_card() == 0 {
                return Ok(Reaping::Idle);
            }
            return Ok(Reaping::NotYet);
        };
        let request = self.books.finish(ticket).ok_or(Refusal::Stray(ticket))?;
        self.slots.free();
        Ok(Reaping::Finished {
            ticket,
            flow: request.flow,
            charge: request.charge,
            status,
        })
    }
}
