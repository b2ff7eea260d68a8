// Flying: a list of calls on one new board.
ghost use Rattle.std.specs.Prelude.{◌≡◌, MatchResult};
ghost use Rattle.fly.specs.Flights.{Did};
ghost use Rattle.fly.specs.Promise.{Promise};

use crate::call::{Answer, Call};
use board::board::Board;
use card::Card;
use std::alloc::Global;

#[derive(Drop)]
pub struct Flight<C: Card> {
    pub board: Board<C>,
    pub answers: Vec<Answer>,
}

// There was no memory for the answers: the card comes back as it was.
pub struct Grounded<C> {
    pub card: C,
}

// Makes one call. A list of calls is a value that a script is read into and a promise speaks of, so its entries are data and no closures.
fn perform<C: Card>(board: &mut Board<C>, call: Call) -> Answer
    ensures { Did C.Card board.old call result board.new }
{
    match call {
        Call::Load(sheet) => Answer::Loaded(board.load(sheet)),
        Call::Arrive { flow, lane, length } => Answer::Arrived(board.arrive(flow, lane, length)),
        Call::Send(lane) => Answer::Moved(board.send(lane)),
        Call::Kick(lane) => Answer::Moved(board.kick(lane)),
        Call::Reap => Answer::Reaped(board.reap()),
        Call::Time => Answer::VirtualTime(board.virtual_time()),
        Call::Ready => {
            let (bits, number) = board.ready_lanes();
            Answer::ReadyLanes(bits, number)
        }
        Call::Flow(flow) => Answer::OfFlow(board.flow(flow)),
    }
}

// Makes the calls in order on a new board around the card. Room for all answers is taken before the first call.
pub fn fly<C: Card>(heap: Global, card: C, calls: &[Call]) -> Result<Flight<C>, Grounded<C>>
    ensures { MatchResult result (λ f. Promise C.Card card calls.now f.answers.items f.board.card) (λ g. g.card ≡ card) }
{
    // No `map_err`: its closure would take the card, which flies where there is memory.
    let Ok(mut answers) = Vec::with_capacity(heap, calls.len()) else {
        return Err(Grounded { card });
    };
    let mut board = Board::new(card);
    for call in calls {
        let answer = perform(&mut board, *call);
        answers.push_reserved(answer);
    }
    Ok(Flight { board, answers })
}
