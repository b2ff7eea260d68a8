// The lines of answers.
ghost use Rattle.std.specs.Prelude.{◌≡◌, ◌++◌, OnOk, Some};
ghost use Rattle.std.specs.Fmt.{AppendsText};
ghost use Rattle.report.specs.Answers.{answer_line, card_line, flow_line, reaping_line, refused_line, sending_line, step_line, unread_line};

use board::answer::{Reaping, Sending};
use books::flows::FlowState;
use books::refusal::Refusal;
use card::CardFault;
use fly::call::Answer;
use reader::fault::SheetFault;
use std::alloc::AllocError;
use std::fmt;

/// Shown as the line that tells of a value, with its line feed.
#[derive(Clone, Copy)]
pub struct Line<T>(pub T);

impl fmt::Display for Line<CardFault> {
    ghost output = { λ line. Some (card_line line.0) };

    fn fmt<W: fmt::Write>(&self, f: &mut fmt::Formatter<W>) -> fmt::Result {
        f.write_str(match self.0 {
            CardFault::Full => "refused 13 full\n",
            CardFault::HeldAlready => "refused 13 held already\n",
        })
    }
}

impl fmt::Display for Line<Refusal> {
    ghost output = { λ line. Some (refused_line line.0) };

    fn fmt<W: fmt::Write>(&self, f: &mut fmt::Formatter<W>) -> fmt::Result {
        match self.0 {
            Refusal::ByCard(fault) => write!(f, "{}", Line(fault)),
            Refusal::Stray(ticket) => writeln!(f, "refused {} {ticket}", self.0.number()),
            _ => writeln!(f, "refused {}", self.0.number()),
        }
    }
}

impl fmt::Display for Line<Sending> {
    ghost output = { λ line. Some (sending_line line.0) };

    fn fmt<W: fmt::Write>(&self, f: &mut fmt::Formatter<W>) -> fmt::Result {
        match self.0 {
            Sending::Empty => f.write_str("empty\n"),
            Sending::Throttled(excess) => writeln!(f, "throttled {excess}"),
            Sending::NoSlot => f.write_str("no slot\n"),
            Sending::Sent {
                ticket,
                flow,
                charge,
            } => writeln!(f, "sent {ticket} {flow} {charge}"),
        }
    }
}

impl fmt::Display for Line<Reaping> {
    ghost output = { λ line. Some (reaping_line line.0) };

    fn fmt<W: fmt::Write>(&self, f: &mut fmt::Formatter<W>) -> fmt::Result {
        match self.0 {
            Reaping::Finished {
                ticket,
                flow,
                charge,
                status,
            } => writeln!(f, "finished {ticket} {flow} {charge} {status}"),
            Reaping::NotYet => f.write_str("not yet\n"),
            Reaping::Idle => f.write_str("idle\n"),
        }
    }
}

impl fmt::Display for Line<FlowState> {
    ghost output = { λ line. Some (flow_line line.0) };

    fn fmt<W: fmt::Write>(&self, f: &mut fmt::Formatter<W>) -> fmt::Result {
        let FlowState {
            weight,
            longest,
            end,
            waiting,
            in_card,
        } = self.0;
        writeln!(f, "flow {weight} {longest} {end} {waiting} {in_card}")
    }
}

impl fmt::Display for Line<Answer> {
    ghost output = { λ line. Some (answer_line line.0) };

    fn fmt<W: fmt::Write>(&self, f: &mut fmt::Formatter<W>) -> fmt::Result {
        match self.0 {
            Answer::Loaded(Ok(())) => f.write_str("loaded\n"),
            Answer::Arrived(Ok((ticket, (start, end)))) => writeln!(
                f,
                "arrived {ticket} {start} {end}"
            ),
            Answer::Moved(Ok(sending)) => write!(f, "{}", Line(sending)),
            Answer::Reaped(Ok(reaping)) => write!(f, "{}", Line(reaping)),
            Answer::VirtualTime(time) => writeln!(f, "time {time}"),
            Answer::ReadyLanes(mask, count) => writeln!(f, "ready {mask} {count}"),
            Answer::OfFlow(Ok(state)) => write!(f, "{}", Line(state)),
            Answer::Loaded(Err(refusal))
            | Answer::Arrived(Err(refusal))
            | Answer::Moved(Err(refusal))
            | Answer::Reaped(Err(refusal))
            | Answer::OfFlow(Err(refusal)) => write!(f, "{}", Line(refusal)),
        }
    }
}

impl fmt::Display for Line<SheetFault> {
    ghost output = { λ line. Some (unread_line line.0) };

    fn fmt<W: fmt::Write>(&self, f: &mut fmt::Formatter<W>) -> fmt::Result {
        writeln!(f, "{}", self.0)
    }
}

// Of a step: the answer of its call, or the fault of its sheet.
impl fmt::Display for Line<Result<Answer, SheetFault>> {
    ghost output = { λ line. Some (step_line line.0) };

    fn fmt<W: fmt::Write>(&self, f: &mut fmt::Formatter<W>) -> fmt::Result {
        match self.0 {
            Ok(answer) => write!(f, "{}", Line(answer)),
            Err(fault) => write!(f, "{}", Line(fault)),
        }
    }
}

// Bytes as a place that text is written to. `io::Write` of them would do too, but asks more of each part of a line: a flow's took 1.5 times the instructions.
struct Bytes<'a>(&'a mut Vec<u8>);

impl fmt::Write for Bytes<'_> {
    ghost write_str_gives = { λ s bs t. (t.0.ghost_name ≡ s.0.ghost_name) × (t.0.now.items ≡ s.0.now.items ++ bs) };

    fn write_str(&mut self, s: &str) -> fmt::Result {
        self.0.extend_from_slice(s.as_bytes())?;
        Ok(())
    }
}

// Appends a line, into the room that `out` has; want of memory is all that can fail.
pub(crate) fn put_line<D: fmt::Display + Drop>(out: &mut Vec<u8>, line: D) -> Result<(), AllocError>
    ensures { OnOk result (AppendsText out.old.items out.new.items (D.output line)) }
{
    let mut f = fmt::Formatter::new(Bytes(out));
    let written = f.write(line);
    let Bytes(inner) = f.into_inner();
    // No effect at run time. The proof reads what `out` holds from this use of `inner`.
    let _ = &*inner;
    written.map_err(|_error| AllocError)
}

/// Appends the line of an answer.
pub fn put_answer(out: &mut Vec<u8>, answer: Answer) -> Result<(), AllocError>
    ensures { OnOk result (out.new.items ≡ out.old.items ++ answer_line answer) }
{
    put_line(out, Line(answer))
}

/// Appends the line of a sheet that was refused.
pub fn put_unread(out: &mut Vec<u8>, fault: SheetFault) -> Result<(), AllocError>
    ensures { OnOk result (out.new.items ≡ out.old.items ++ unread_line fault) }
{
    put_line(out, Line(fault))
}
