// bench CARD CALLS PASSES: makes a list of calls, runs it on fresh boards, and prints the checksum of all answers.
//
// CARD is `queue`, `bank` or `both`. The list and the checksum are those of docs/PERFORMANCE.md; the time of each pass goes to the standard error.
#![tactic(auto)]

mod checksum;
mod list;
mod numbers;

use anyhow::anyhow;
use bank::BankCard;
use board::board::Board;
use card::Card;
use list::{Call, Maker, TEXT, run_list};
use queue::QueueCard;
use sheet::shape::Sheet;
use std::env;
use std::time::Instant;

// Calls made by chance on a sheet, run so many times over.
#[derive(Drop)]
struct Bench {
    sheet: Sheet,
    calls: u64,
    passes: u64,
}

impl Bench {
    // A new board around the card, with the sheet loaded.
    fn board<C: Card + Drop>(&self, card: C) -> anyhow::Result<Board<C>> {
        let mut board = Board::new(card);
        board
            .load(self.sheet)
            .map_err(|_| anyhow!("the sheet was not loaded"))?;
        Ok(board)
    }

    // The list of calls that the generator makes with a board around this card.
    fn list<C: Card + Drop>(&self, rt: &HostRuntime, card: C) -> anyhow::Result<Vec<Call>> {
        let mut board = self.board(card)?;
        let mut maker = Maker::new(rt.alloc(), self.sheet);
        let mut made = Vec::new(rt.alloc());
        for _ in 0..self.calls {
            let call = maker.next_call();
            maker.ask(&mut board, call)?;
            made.push(call)?;
        }
        Ok(made)
    }

    // One pass over the list, on a fresh board.
    fn pass<C: Card + Drop>(
        &self,
        rt: &HostRuntime,
        card: C,
        calls: &[Call],
    ) -> anyhow::Result<u64> {
        let mut board = self.board(card)?;
        let began = Instant::now(rt)?;
        let sum = run_list(&mut board, calls);
        let took = began.elapsed(rt)?.as_nanos();
        let each = took / (calls.len() as u128).max(1);
        eprintln!(rt; "{each} ns a call")?;
        Ok(sum)
    }

    // Makes the list with one card, and runs it on boards around others of the kind.
    fn run<C: Card + Drop, F: Fn() -> C>(
        &self,
        rt: &HostRuntime,
        name: &str,
        new_card: F,
    ) -> anyhow::Result<()>
        requires { F.IsAlwaysCallable new_card }
    {
        let list = self.list(rt, new_card())?;
        let mut sum = 0;
        for _ in 0..self.passes {
            sum = self.pass(rt, new_card(), &list)?;
        }
        println!(rt; "{name} {sum:016x}")?;
        Ok(())
    }
}

fn run(rt: &HostRuntime) -> anyhow::Result<()> {
    let mut words = env::args(rt)?.skip(1);
    let (Some(card), Some(calls), Some(passes)) = (words.next(), words.next(), words.next()) else {
        return Err(anyhow!("usage: bench queue|bank|both CALLS PASSES"));
    };
    let mut bench = Bench {
        sheet: Sheet::new(),
        calls: calls.as_str().parse::<u64>()?,
        passes: passes.as_str().parse::<u64>()?,
    };
    reader::read(TEXT, &mut bench.sheet).map_err(|_| anyhow!("the sheet was refused"))?;
    // A name stands for a type here, so it picks the call.
    match card.as_str() {
        "queue" => bench.run(rt, "queue", QueueCard::new),
        "bank" => bench.run(rt, "bank", BankCard::new),
        _ => {
            bench.run(rt, "queue", QueueCard::new)?;
            bench.run(rt, "bank", BankCard::new)
        }
    }
}

fn main(rt: HostRuntime) -> anyhow::Result<()> {
    run(&rt)
}
