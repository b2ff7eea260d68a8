// A report is printed piece by piece, so that little memory is taken for it.
ghost use Rattle.std.specs.Prelude.{◌≡◌, IfOk};
ghost use Rattle.report.specs.Answers.{report};
ghost use Rattle.report.specs.Pieces.{Filled, Told, text_of};

use crate::answer::{Line, put_line};
use crate::report::Report;
use fly::call::Answer;
use reader::fault::SheetFault;
use script::script::Step;
use std::alloc::AllocError;

// A piece ends with the line that fills so many bytes.
const PIECE: usize = 65_536;

impl<'a> Report<'a> {
    /// All lines: one for each step, which is that of the next answer or of the sheet that was refused.
    pub fn new(steps: &'a [Step], answers: &'a [Answer]) -> Report<'a>
        ensures { text_of result ≡ report steps.now answers.now }
    {
        Report {
            steps: steps.iter(),
            answers: answers.iter(),
        }
    }

    /// Puts the next lines into `out`, in place of what it holds and in its memory. True where there may be more, which is all that its caller asks beside want of memory.
    /// A piece is a value of which the contract tells every byte, as it would not of what a buffered writer has written.
    pub fn fill(&mut self, out: &mut Vec<u8>) -> Result<bool, AllocError>
        ensures { IfOk result (λ more. Filled more self.old self.new out.new.items) }
    {
        out.clear();
        while out.len() < PIECE {
            let Some(line) = self.next() else {
                return Ok(false);
            };
            put_line(out, line)?;
        }
        Ok(true)
    }
}

/// Gives a line for each step, for as long as there are answers.
impl<'a> Iterator for Report<'a> {
    type Item = Line<Result<Answer, SheetFault>>;

    ghost next_gives = { Told };

    fn next(&mut self) -> Option<Line<Result<Answer, SheetFault>>> {
        match self.steps.next()? {
            Step::Made => self.answers.next().map(|answer| Line(Ok(*answer))),
            Step::Unread(fault) => Some(Line(Err(*fault))),
        }
    }
}
