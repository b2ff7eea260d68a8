// A cursor's walk through the lines of a sheet. Clauses name the bytes that are left and the line's number apart, as the format's definitions do, which speak
// of no cursor.
ghost use Rattle.std.specs.Prelude.{◌≡◌, ◌≤◌, length, IfOk, ok_or};
ghost use Rattle.std.specs.Result.{result_map_both};
ghost use Rattle.sheet.specs.Sheets.{content_of};
ghost use Rattle.reader.specs.Lines.{count_of, line_into, most_of};
ghost use Rattle.reader.specs.declared.fault.Refusal.TheVariants.{Form};
ghost use Rattle.reader.specs.Format.{fault, line_as, section, sheet_from};
ghost use Rattle.reader.specs.Views.{Gives, Takes, draft_of, rest_of};

use crate::cursor::Cursor;
use crate::cut::cut;
use crate::draft::{Draft, Section};
use crate::fault::{Refusal, SheetFault};
use crate::line::{add_line, count_of};
use sheet::shape::Sheet;

impl<'a> Cursor<'a> {
    pub(crate) fn new(bytes: &'a [u8]) -> Cursor<'a>
        requires { length bytes.now ≤ 256 }
        ensures { (rest_of result ≡ bytes.now) × (result.line ≡ 1) }
    {
        Cursor {
            bytes,
            at: 0,
            line: 1,
        }
    }

    // Takes a line, without its line feed. Who takes it makes the refusal: with a `Result` of a slice or a `SheetFault` here, a check took a third more time.
    fn take_line(&mut self) -> Option<&'a [u8]>
        ensures { Takes (ok_or result (fault Form self.old.line)) self.old self.new }
    {
        let rest = &self.bytes[self.at..];
        let (line, _) = cut(rest, b'\n')?;
        self.at += line.len() + 1;
        self.line += 1;
        Some(line)
    }

    // Takes a section's first line. This and `entry` each take a line and place its refusal; a closure for what is between would need a contract of its own
    // for each of the two.
    fn count(&mut self, due: Section) -> Result<usize, SheetFault>
        ensures value { Gives (λ n. n) result self.new (line_as (count_of due) (rest_of self.old) self.old.line) }
        ensures fits { IfOk result (λ n. n ≤ most_of due) }
    {
        let line = self.line;
        self.take_line()
            .ok_or(Refusal::Form)
            .and_then(|text| count_of(text, due))
            .map_err(|refusal| SheetFault { refusal, line })
    }

    // Takes one of a section's further lines. In two steps, since nothing is known of a draft that a closure in `and_then` changed.
    fn entry(&mut self, due: Section, draft: &mut Draft) -> Result<(), SheetFault>
        ensures { Gives (λ _. draft_of draft.new) result self.new (line_as (line_into due (draft_of draft.old)) (rest_of self.old) self.old.line) }
    {
        let line = self.line;
        let refusal = Refusal::Form;
        let text = self.take_line().ok_or(SheetFault { refusal, line })?;
        add_line(text, due, draft).map_err(|refusal| SheetFault { refusal, line })
    }

    // Takes a section.
    fn section(&mut self, due: Section, draft: &mut Draft) -> Result<(), SheetFault>
        ensures { Gives (λ _. draft_of draft.new) result self.new (section due (draft_of draft.old) (rest_of self.old) self.old.line) }
    {
        let n = self.count(due)?;
        for _i in 0..n {
            self.entry(due, draft)?;
        }
        Ok(())
    }

    // Takes a whole sheet.
    pub(crate) fn sheet(&mut self) -> Result<Sheet, SheetFault>
        ensures { result_map_both content_of (λ f. f) result ≡ sheet_from (rest_of self.old) self.old.line }
    {
        let mut draft = Draft {
            sheet: Sheet::new(),
            last: None,
        };
        self.section(Section::Flows, &mut draft)?;
        self.section(Section::Lanes, &mut draft)?;
        self.section(Section::Params, &mut draft)?;
        if self.at < self.bytes.len() {
            return Err(SheetFault {
                refusal: Refusal::Extra,
                line: self.line,
            });
        }
        Ok(draft.sheet)
    }
}
