// Rehearses a flight: reads a script from the standard input, and prints one line for each of its calls.
#![tactic(auto)]

use anyhow::anyhow;
use bank::BankCard;
use card::Card;
use fly::call::Answer;
use fly::flight::{Grounded, fly};
use queue::QueueCard;
use report::report::Report;
use script::line::CardKind;
use script::reading::read_script;
use script::script::{Script, Step};
use std::io;
use std::io::{Read, Write};
use std::process::ExitCode;

// Prints the line of each step.
fn print_report<'a>(rt: &HostRuntime, steps: &'a [Step], answers: &'a [Answer]) -> io::Result<()> {
    let mut report = Report::new(steps, answers);
    let mut piece = Vec::new(rt.alloc());
    while report.fill(&mut piece)? {
        rt.stdout().write_all(&piece)?;
    }
    rt.stdout().write_all(&piece)
}

// Makes the calls of a script on a new board around the card, and prints the answers.
fn rehearse<C: Card + Drop>(rt: &HostRuntime, card: C, script: &Script) -> anyhow::Result<()> {
    let flight = fly(rt.alloc(), card, &script.calls).map_err(|Grounded { card: _card }| anyhow!(
        "no memory for the answers"
    ))?;
    print_report(rt, &script.steps, &flight.answers)?;
    Ok(())
}

// Reads the script, and makes its calls if it is one.
fn run(rt: &HostRuntime) -> anyhow::Result<()> {
    let mut text = Vec::new(rt.alloc());
    rt.stdin().read_to_end(&mut text)?;
    let script = read_script(rt.alloc(), &text)?;
    // Each kind of card is a type of its own.
    match script.card {
        CardKind::Queue => rehearse(rt, QueueCard::new(), &script),
        CardKind::Bank => rehearse(rt, BankCard::new(), &script),
    }
}

// What was wrong is told in one line of its own, and the status is 1.
fn main(rt: HostRuntime) -> anyhow::Result<ExitCode> {
    match run(&rt) {
        Ok(()) => Ok(ExitCode::SUCCESS),
        Err(error) => {
            eprintln!(rt; "flight: {error}")?;
            Ok(ExitCode::FAILURE)
        }
    }
}
