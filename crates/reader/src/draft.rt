// A sheet in the making.
ghost use Rattle.std.specs.Prelude.{◌≡◌, ok_or};
ghost use Rattle.reader.specs.Lines.{most_of, parameter_of};
ghost use Rattle.reader.specs.Letters.{HeadsSection};
ghost use Rattle.reader.specs.declared.fault.Refusal.TheVariants.{Form};

use crate::fault::Refusal;
use sheet::shape::Sheet;

// The sections of a sheet's text, in their order. Their letters are cases of a `match`, and so are the lines that each may have: a section
// is passed as a value and not as a function, and one loop reads all three.
#[derive(Clone, Copy, PartialEq, Eq)]
pub enum Section {
    Flows,
    Lanes,
    Params,
}

// The parameters D and T, in their order.
#[derive(Clone, Copy, PartialEq, Eq, PartialOrd, Ord)]
pub enum Parameter {
    Slots,
    Threshold,
}

// What the lines so far say, and the last parameter among them. `draft_of` tells it, since a sheet has no model.
#[derive(Clone, Copy)]
pub struct Draft {
    pub(crate) sheet: Sheet,
    pub(crate) last: Option<Parameter>,
}

impl Section {
    // How many lines it may have after its first.
    pub(crate) fn most(self) -> u64
        ensures { result ≡ most_of self }
    {
        match self {
            Section::Flows => 16,
            Section::Lanes => 8,
            Section::Params => 2,
        }
    }
}

// The section whose first line has that letter.
impl TryFrom<u8> for Section {
    type Error = Refusal;

    ghost try_from_gives = { HeadsSection };

    fn try_from(letter: u8) -> Result<Section, Refusal> {
        match char::from(letter) {
            'F' => Ok(Section::Flows),
            'L' => Ok(Section::Lanes),
            'P' => Ok(Section::Params),
            _ => Err(Refusal::Form),
        }
    }
}

// The parameter that a letter stands for.
impl TryFrom<u8> for Parameter {
    type Error = Refusal;

    ghost try_from_gives = { λ letter r. r ≡ ok_or (parameter_of letter) Form };

    fn try_from(letter: u8) -> Result<Parameter, Refusal> {
        match char::from(letter) {
            'D' => Ok(Parameter::Slots),
            'T' => Ok(Parameter::Threshold),
            _ => Err(Refusal::Form),
        }
    }
}
