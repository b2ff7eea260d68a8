// What one line of a script says.
ghost use Rattle.std.specs.Prelude.{◌≡◌};
ghost use Rattle.std.specs.Option.{ok_or, option_map};
ghost use Rattle.script.specs.Lines.{arrival_of, bare_of, card_of, is_blank, line_of, numbered_of, parts_of};
ghost use Rattle.script.specs.Words.{word_of};
ghost use Rattle.script.specs.declared.fault.Expected.TheVariants.{AnyCall, Card};

use crate::fault::{Expected, Word};
use crate::number::number;
use fly::call::Call;
use reader::cut::cut;

/// The kinds of card that a script can name.
#[derive(Clone, Copy, Debug, PartialEq, Eq)]
pub enum CardKind {
    Queue,
    Bank,
}

/// A line after the card's.
#[derive(Clone, Copy)]
pub enum Line {
    /// An empty line, or a comment.
    Blank,
    /// The text of a sheet follows, so many lines.
    Sheet(u32),
    Call(Call),
}

// Whether a line is empty or a comment.
pub(crate) fn is_blank(line: &[u8]) -> bool
    ensures { result ≡ is_blank line.now }
{
    line.first().is_none_or(|b| *b == b'#')
}

// The card that a line names.
impl TryFrom<&[u8]> for CardKind {
    type Error = Expected;

    ghost try_from_gives = { λ line r. r ≡ ok_or (card_of line.now) Card };

    fn try_from(line: &[u8]) -> Result<CardKind, Expected> {
        match line {
            b"card queue" => Ok(CardKind::Queue),
            b"card bank" => Ok(CardKind::Bank),
            _ => Err(Expected::Card),
        }
    }
}

// The word with which a line begins.
impl TryFrom<&[u8]> for Word {
    type Error = Expected;

    ghost try_from_gives = { λ name r. r ≡ ok_or (word_of name.now) AnyCall };

    fn try_from(name: &[u8]) -> Result<Word, Expected> {
        match name {
            b"sheet" => Ok(Word::Sheet),
            b"arrive" => Ok(Word::Arrive),
            b"send" => Ok(Word::Send),
            b"kick" => Ok(Word::Kick),
            b"reap" => Ok(Word::Reap),
            b"time" => Ok(Word::Time),
            b"ready" => Ok(Word::Ready),
            b"flow" => Ok(Word::Flow),
            _ => Err(Expected::AnyCall),
        }
    }
}

// `FLOW LANE LENGTH`
fn arrival(numbers: &[u8]) -> Option<Call>
    ensures { result ≡ arrival_of numbers.now }
{
    let (flow, rest) = cut(numbers, b' ')?;
    let (lane, length) = cut(rest, b' ')?;
    let flow = number(flow)?;
    let lane = number(lane)?;
    let length = number(length)?;
    Some(Call::Arrive { flow, lane, length })
}

// What a word alone says. Each word makes another call, so a table of closures would be longer.
fn bare(word: Word) -> Option<Line>
    ensures { result ≡ bare_of word }
{
    match word {
        Word::Reap => Some(Line::Call(Call::Reap)),
        Word::Time => Some(Line::Call(Call::Time)),
        Word::Ready => Some(Line::Call(Call::Ready)),
        _ => None,
    }
}

// What a word says with numbers behind it, likewise.
fn numbered(word: Word, numbers: &[u8]) -> Option<Line>
    ensures { result ≡ numbered_of word numbers.now }
{
    match word {
        Word::Sheet => Some(Line::Sheet(number(numbers)?)),
        Word::Arrive => Some(Line::Call(arrival(numbers)?)),
        Word::Send => Some(Line::Call(Call::Send(number(numbers)?))),
        Word::Kick => Some(Line::Call(Call::Kick(number(numbers)?))),
        Word::Flow => Some(Line::Call(Call::Flow(number(numbers)?))),
        Word::Reap | Word::Time | Word::Ready => None,
    }
}

// The word of a line, and what stands behind it.
fn parts(line: &[u8]) -> (&[u8], Option<&[u8]>)
    ensures { (result.0.now, option_map (λ x. x.now) result.1) ≡ parts_of line.now }
{
    cut(line, b' ').map_or((line, None), |(name, numbers)| (name, Some(numbers)))
}

/// What a line after the card's says, or what was expected in its place.
pub fn read_line(line: &[u8]) -> Result<Line, Expected>
    ensures { result ≡ line_of line.now }
{
    if is_blank(line) {
        return Ok(Line::Blank);
    }
    let (name, numbers) = parts(line);
    let word = Word::try_from(name)?;
    let said = match numbers {
        Some(numbers) => numbered(word, numbers),
        None => bare(word),
    };
    said.ok_or(Expected::Form(word))
}
