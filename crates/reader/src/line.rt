// What one line says.
ghost use Rattle.std.specs.Prelude.{◌≡◌, ◌≤◌, IfOk, ◌==◌};
ghost use Rattle.reader.specs.Lines.{count_of, lettered_of, line_into, most_of, number_of, pair_of};
ghost use Rattle.reader.specs.Views.{Adds, draft_of};

use crate::cut::cut;
use crate::digits::value;
use crate::draft::{Draft, Parameter, Section};
use crate::fault::Refusal;

// A number: 1 to 10 decimal digits, the first of several not 0.
fn number(s: &[u8]) -> Option<u64>
    ensures { result ≡ number_of s.now }
{
    if s.is_empty() || s.len() > 10 {
        return None;
    }
    if s.len() > 1 && s[0] == b'0' {
        return None;
    }
    value(s, 10_000_000_000)
}

// `w m`: two numbers.
fn pair(line: &[u8]) -> Option<(u64, u64)>
    ensures { result ≡ pair_of line.now }
{
    let (left, right) = cut(line, b' ')?;
    Some((number(left)?, number(right)?))
}

// `X n`: a byte, a space and a number.
fn lettered(line: &[u8]) -> Option<(u8, u64)>
    ensures { result ≡ lettered_of line.now }
{
    match line {
        [letter, b' ', digits @ ..] => Some((*letter, number(digits)?)),
        _ => None,
    }
}

// A section's first line: how many lines follow.
pub(crate) fn count_of(line: &[u8], due: Section) -> Result<usize, Refusal>
    ensures value { result ≡ count_of due line.now }
    ensures fits { IfOk result (λ n. n ≤ most_of due) }
{
    let (letter, n) = lettered(line).ok_or(Refusal::Form)?;
    if Section::try_from(letter)? != due {
        return Err(Refusal::Form);
    }
    if n > due.most() {
        return Err(Refusal::Range);
    }
    Ok(n as usize)
}

fn add_flow(line: &[u8], draft: &mut Draft) -> Result<(), Refusal>
    ensures { Adds result draft.new (line_into Section.Flows (draft_of draft.old) line.now) }
{
    let (weight, longest) = pair(line).ok_or(Refusal::Form)?;
    draft.sheet.push_flow(weight, longest)?;
    Ok(())
}

fn add_lane(line: &[u8], draft: &mut Draft) -> Result<(), Refusal>
    ensures { Adds result draft.new (line_into Section.Lanes (draft_of draft.old) line.now) }
{
    let capacity = number(line).ok_or(Refusal::Form)?;
    draft.sheet.push_lane(capacity)?;
    Ok(())
}

fn add_param(line: &[u8], draft: &mut Draft) -> Result<(), Refusal>
    ensures { Adds result draft.new (line_into Section.Params (draft_of draft.old) line.now) }
{
    let (letter, n) = lettered(line).ok_or(Refusal::Form)?;
    let next = Parameter::try_from(letter)?;
    if !draft.last.is_none_or(|last| last < next) {
        return Err(Refusal::Order);
    }
    // Each parameter has its own range, which its setter asks.
    match next {
        Parameter::Slots => draft.sheet.set_slots(n)?,
        Parameter::Threshold => draft.sheet.set_threshold(n)?,
    }
    draft.last = Some(next);
    Ok(())
}

// A line of a section after its first, added to what the lines before it say. The section is a value, since its letter and its count are asked of it too.
pub(crate) fn add_line(line: &[u8], due: Section, draft: &mut Draft) -> Result<(), Refusal>
    ensures { Adds result draft.new (line_into due (draft_of draft.old) line.now) }
{
    match due {
        Section::Flows => add_flow(line, draft),
        Section::Lanes => add_lane(line, draft),
        Section::Params => add_param(line, draft),
    }
}
