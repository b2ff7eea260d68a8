// Why a text is no flight script, and at which line.
ghost use Rattle.std.specs.Prelude.{◌≡◌, Some};
ghost use Rattle.script.specs.Messages.{expected_text, fault_text, form_text, no_script_text};
ghost use Rattle.script.specs.declared.fault.NoScript.TheVariants.{Fault, Memory};

use std::alloc::AllocError;
use std::error::Error;
use std::fmt;

/// The words with which a line after the card's begins.
#[derive(Clone, Copy, Debug, PartialEq, Eq)]
pub enum Word {
    Sheet,
    Arrive,
    Send,
    Kick,
    Reap,
    Time,
    Ready,
    Flow,
}

/// What was expected in place of a line.
#[derive(Clone, Copy, Debug, PartialEq, Eq)]
pub enum Expected {
    /// The line that names the card.
    Card,
    /// A line that begins with one of the words.
    AnyCall,
    /// That word with the numbers that belong to it.
    Form(Word),
    /// One more line of a sheet.
    SheetLine,
}

/// Lines count from 1. Where the text ends too early, the line is the one after its last.
#[derive(Clone, Copy, Debug, PartialEq, Eq)]
pub struct ScriptFault {
    pub line: usize,
    pub expected: Expected,
}

/// Why there is no script: the text is at fault, or there was no memory.
#[derive(Clone, Copy, Debug, PartialEq, Eq)]
pub enum NoScript {
    Fault(ScriptFault),
    Memory,
}

// Contracts name the variant that `?` makes, of which a derived `From` says nothing.
impl From<ScriptFault> for NoScript {
    ghost from_gives = { λ fault r. r ≡ Fault fault };

    fn from(fault: ScriptFault) -> NoScript {
        NoScript::Fault(fault)
    }
}

impl From<AllocError> for NoScript {
    ghost from_gives = { λ _ r. r ≡ Memory };

    fn from(_error: AllocError) -> NoScript {
        NoScript::Memory
    }
}

impl Word {
    // A line that begins with the word: the text itself, which `Display` of `Expected` prints.
    fn form(self) -> &'static str
        ensures { result.now ≡ form_text self }
    {
        match self {
            Word::Sheet => "`sheet LINES`, a number below 4294967296",
            Word::Arrive => "`arrive FLOW LANE LENGTH`, numbers below 4294967296",
            Word::Send => "`send LANE`, a number below 4294967296",
            Word::Kick => "`kick LANE`, a number below 4294967296",
            Word::Reap => "`reap` alone",
            Word::Time => "`time` alone",
            Word::Ready => "`ready` alone",
            Word::Flow => "`flow FLOW`, a number below 4294967296",
        }
    }
}

impl Expected {
    /// What was expected, in words, for who asks without a formatter.
    pub fn text(self) -> &'static str
        ensures { result.now ≡ expected_text self }
    {
        match self {
            Expected::Card => "`card queue` or `card bank`",
            Expected::AnyCall =>
                "`sheet`, `arrive`, `send`, `kick`, `reap`, `time`, `ready` or `flow`",
            Expected::Form(word) => word.form(),
            Expected::SheetLine => "a line of the sheet",
        }
    }
}

impl fmt::Display for Expected {
    ghost output = { λ expected. Some (expected_text expected) };

    fn fmt<W: fmt::Write>(&self, f: &mut fmt::Formatter<W>) -> fmt::Result {
        f.write_str(self.text())
    }
}

impl fmt::Display for ScriptFault {
    ghost output = { λ fault. Some (fault_text fault) };

    fn fmt<W: fmt::Write>(&self, f: &mut fmt::Formatter<W>) -> fmt::Result {
        write!(f, "line {}: expected {}", self.line, self.expected)
    }
}

impl fmt::Display for NoScript {
    ghost output = { λ none. Some (no_script_text none) };

    fn fmt<W: fmt::Write>(&self, f: &mut fmt::Formatter<W>) -> fmt::Result {
        match self {
            NoScript::Fault(fault) => write!(f, "{fault}"),
            NoScript::Memory => f.write_str("no memory for the script"),
        }
    }
}

impl Error for NoScript {}
