// A cursor's walk through the lines of a script. Clauses name the bytes that are left and the line's number apart, as the definitions do, which speak of no cursor.
ghost use Rattle.std.specs.Prelude.{◌≡◌, ◌+◌, ◌<◌, ◌++◌, length, IfOk, Some, None, Ok, Err, MatchOption, MatchResult, OnSome};
ghost use Rattle.script.specs.Scripts.{CardSaid, fault, line_at, next_line, skipped};
ghost use Rattle.script.specs.Views.{rest_of};
ghost use Rattle.script.specs.declared.fault.Expected.TheVariants.{SheetLine};

use crate::cursor::Cursor;
use crate::fault::{Expected, ScriptFault};
use crate::line::{CardKind, is_blank};
use reader::cut::cut;

// The first line, without its line feed, and what follows.
fn first_line(text: &[u8]) -> (&[u8], &[u8])
    ensures { (result.0.now, result.1.now) ≡ line_at text.now }
{
    cut(text, b'\n').unwrap_or((text, &[]))
}

impl<'a> Cursor<'a> {
    pub(crate) fn new(text: &'a [u8]) -> Cursor<'a>
        ensures { (rest_of result ≡ text.now) × (result.line ≡ 1) }
    {
        Cursor {
            rest: text,
            line: 1,
        }
    }

    // That something else was expected at the next line.
    fn fault(&self, expected: Expected) -> ScriptFault
        ensures { result ≡ fault self.now.line expected }
    {
        ScriptFault {
            line: self.line,
            expected,
        }
    }

    // Takes a line, without its line feed, and its number, if there is one. The last line may have no line feed.
    pub(crate) fn take_line(&mut self) -> Option<(usize, &'a [u8])>
        ensures value { MatchOption result ((next_line (rest_of self.old) ≡ None) × (rest_of self.new ≡ rest_of self.old) × (self.new.line ≡ self.old.line)) (λ l. (next_line (rest_of self.old) ≡ Some (l.1.now, rest_of self.new)) × (l.0 ≡ self.old.line) × (self.new.line ≡ self.old.line + 1)) }
        ensures less { OnSome result (length (rest_of self.new) < length (rest_of self.old)) }
    {
        if self.rest.is_empty() {
            return None;
        }
        let number = self.line;
        let (line, rest) = first_line(self.rest);
        self.rest = rest;
        self.line += 1;
        Some((number, line))
    }

    // Takes the lines up to the one that names the card. (A search by `find` would lose the number of the line after the last.)
    pub(crate) fn take_card(&mut self) -> Result<CardKind, ScriptFault>
        ensures { CardSaid (rest_of self.old) self.old.line result (rest_of self.new) self.new.line }
    {
        while let Some((number, line)) = self.take_line() {
            if !is_blank(line) {
                return CardKind::try_from(line).map_err(|expected| ScriptFault {
                    line: number,
                    expected,
                });
            }
        }
        Err(self.fault(Expected::Card))
    }

    // Takes so many lines, with their line feeds.
    pub(crate) fn take_lines(&mut self, count: u32) -> Result<&'a [u8], ScriptFault>
        ensures value { MatchResult result (λ text. skipped count (rest_of self.old) self.old.line ≡ Ok (rest_of self.new, self.new.line)) (λ f. (skipped count (rest_of self.old) self.old.line ≡ Err f.line) × (f.expected ≡ SheetLine)) }
        ensures text { IfOk result (λ text. text.now ++ rest_of self.new ≡ rest_of self.old) }
    {
        let from = self.rest;
        for _i in 0..count {
            let missing = self.fault(Expected::SheetLine);
            self.take_line().ok_or(missing)?;
        }
        Ok(&from[..from.len() - self.rest.len()])
    }
}
