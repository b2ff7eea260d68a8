// Why a sheet is refused, and at which line.
ghost use Rattle.std.specs.Prelude.{◌≡◌, ◌≤◌, Some};
ghost use Rattle.reader.specs.declared.fault.Refusal.TheVariants.{Range};
ghost use Rattle.reader.specs.Verdict.{fault_text, refusal_number};

use sheet::build::OutOfRange;
use std::fmt;

#[derive(Clone, Copy, Debug, PartialEq, Eq)]
pub enum Refusal {
    // More than 256 bytes.
    TooLong = 1,
    // A line that is not of the form that is due there, or has no line feed.
    Form = 2,
    // A count or a number out of its range.
    Range = 3,
    // Bytes after the last section.
    Extra = 4,
    // A parameter's letter out of order, or repeated.
    Order = 5,
}

// Lines count from 1. A sheet that is too long is refused at line 0, since none of its lines is looked at.
#[derive(Clone, Copy, Debug, PartialEq, Eq)]
pub struct SheetFault {
    pub refusal: Refusal,
    pub line: u32,
}

impl Refusal {
    /// The number by which users and C programs know a refusal.
    pub fn number(self) -> u32
        ensures { (result ≡ refusal_number self) × (1 ≤ result) × (result ≤ 5) }
    {
        self as u32
    }
}

impl From<OutOfRange> for Refusal {
    ghost from_gives = { λ _ r. r ≡ Range };

    fn from(_why: OutOfRange) -> Refusal {
        Refusal::Range
    }
}

// The refusal by its number, and its line.
impl fmt::Display for SheetFault {
    ghost output = { λ f. Some (fault_text f) };

    fn fmt<W: fmt::Write>(&self, f: &mut fmt::Formatter<W>) -> fmt::Result {
        let refusal = self.refusal.number();
        let line = self.line;
        write!(f, "refused {refusal} {line}")
    }
}
