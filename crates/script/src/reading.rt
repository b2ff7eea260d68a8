// Reading a script.
ghost use Rattle.std.specs.Prelude.{◌≡◌, ◌≤◌, [], ◌∷◌, length, OnOk};
ghost use Rattle.reader.specs.Format.{read_sheet};
ghost use Rattle.script.specs.Scripts.{Adds, LineAdded, Read, deed_of, feeds_in, sheet_deed};
ghost use Rattle.script.specs.Views.{rest_of};

use crate::cursor::Cursor;
use crate::fault::{NoScript, ScriptFault};
use crate::line::{Line, read_line};
use crate::script::{Script, Step};
use fly::call::Call;
use sheet::shape::Sheet;
use std::alloc::{AllocError, Global};

impl Script {
    fn add_call(&mut self, call: Call) -> Result<(), AllocError>
        ensures { OnOk result (Adds self.old (deed_of call ∷ []) self.new) }
    {
        self.calls.push(call)?;
        self.steps.push(Step::Made)?;
        Ok(())
    }

    // Reads the text of a sheet, which is loaded where it is accepted.
    fn add_sheet(&mut self, text: &[u8]) -> Result<(), AllocError>
        ensures { OnOk result (Adds self.old (sheet_deed (read_sheet text.now) ∷ []) self.new) }
    {
        let mut sheet = Sheet::new();
        match reader::read(text, &mut sheet) {
            Ok(()) => self.add_call(Call::Load(sheet))?,
            Err(fault) => self.steps.push(Step::Unread(fault))?,
        }
        Ok(())
    }

    // Adds what a line says, which for a sheet is in the lines after it too.
    fn add_line(&mut self, number: usize, line: &[u8], cursor: &mut Cursor) -> Result<(), NoScript>
        ensures { LineAdded number line.now (rest_of cursor.old) cursor.old.line (rest_of cursor.new) cursor.new.line self.old self.new result }
    {
        let said = read_line(line).map_err(|expected| ScriptFault {
            line: number,
            expected,
        })?;
        match said {
            Line::Blank => {}
            Line::Sheet(count) => self.add_sheet(cursor.take_lines(count)?)?,
            Line::Call(call) => self.add_call(call)?,
        }
        Ok(())
    }
}

// How many line feeds a text has. A sum is computed on many bytes at once, which `filter` and `count` are not.
fn feeds(text: &[u8]) -> usize
    ensures value { result ≡ feeds_in text.now }
    ensures bound { result ≤ length text.now }
{
    text.iter().map(|b| usize::from(*b == b'\n')).sum()
}

/// Reads a script. No call is made here, and none of a text that is at fault.
pub fn read_script(heap: Global, text: &[u8]) -> Result<Script, NoScript>
    ensures { Read text.now result }
{
    let mut cursor = Cursor::new(text);
    let card = cursor.take_card()?;
    // There are no more steps than lines.
    let most = feeds(text) + 1;
    let mut script = Script {
        card,
        calls: Vec::with_capacity(heap, most)?,
        steps: Vec::with_capacity(heap, most)?,
    };
    while let Some((number, line)) = cursor.take_line() {
        script.add_line(number, line, &mut cursor)?;
    }
    Ok(script)
}
