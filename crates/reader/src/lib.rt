// The reader of share sheets.
#![tactic(auto)]

ghost use Rattle.std.specs.Prelude.{◌≡◌, ◌≤◌, IfErr, MatchResult};
ghost use Rattle.sheet.specs.Sheets.{content_of};
ghost use Rattle.reader.specs.Account.{Account};
ghost use Rattle.reader.specs.Grammar.{GrammarLaws, NoText, TextOnlyOf};
ghost use Rattle.reader.specs.Views.{Reads};

mod cursor;
pub mod cut;
pub mod digits;
mod draft;
pub mod fault;
mod line;
pub mod verdict;
mod walk;

use cursor::Cursor;
use fault::{Refusal, SheetFault};
use sheet::shape::Sheet;

// The reading by the rules of the format.
fn read_by_rules(bytes: &[u8], place: &mut Sheet) -> Result<(), SheetFault>
    ensures { Reads bytes.now place.old place.new result }
{
    if bytes.len() > 256 {
        return Err(SheetFault {
            refusal: Refusal::TooLong,
            line: 0,
        });
    }
    let mut cursor = Cursor::new(bytes);
    let sheet = cursor.sheet()?;
    *place = sheet;
    Ok(())
}

/// Writes an accepted sheet into `place`, which is the caller's, and no value of its own; a refusal leaves it as it was.
///
/// Accepted is exactly what is a text of a sheet, and then it is that sheet; a refusal comes with the account of its number and line.
pub fn read(bytes: &[u8], place: &mut Sheet) -> Result<(), SheetFault>
    ensures value { Reads bytes.now place.old place.new result }
    ensures text { MatchResult result (λ _. TextOnlyOf (content_of place.new) bytes.now) (λ _. NoText bytes.now) }
    ensures account { IfErr result (λ f. Account bytes.now f) }
    ensures small { IfErr result (λ f. f.line ≤ 30) }
{
    read_by_rules(bytes, place)
}

/// The laws of the grammar.
pub fn grammar_laws()
    ensures { GrammarLaws }
{}
