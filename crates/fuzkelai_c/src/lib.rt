// The static library for C: the exports of the crate fuzkelai, each with the clauses of the function that it calls. A crate is a library or a static
// library, so each export stands in both. A C program gets one number.
#![tactic(auto)]

ghost use Rattle.std.specs.Prelude.{◌≡◌, true, ◌&&◌, Decides, ◌==◌, ◌≢◌};
ghost use Rattle.charge.specs.Charge.{within};
ghost use Rattle.reader.specs.Format.{read_sheet};
ghost use Rattle.reader.specs.Grammar.{IsText};
ghost use Rattle.reader.specs.Verdict.{number_for};
ghost use Rattle.fuzkelai.specs.Charges.{charge_or_zero};

/// 0 for an accepted sheet, else the refusal times 1,000, and its line. So 0 is exactly for a text of a sheet.
#[unsafe(no_mangle)]
pub extern "C" fn fuzkelai_sheet_check(bytes: &[u8]) -> u32
    ensures value { result ≡ number_for (read_sheet bytes.now) }
    ensures text { Decides (result == 0) (IsText bytes.now) }
{
    fuzkelai::fuzkelai_sheet_check(bytes)
}

/// The charge of a request of that length for a flow of that weight, or 0 when either is out of range.
#[unsafe(no_mangle)]
pub extern "C" fn fuzkelai_charge(length: u32, weight: u32) -> u32
    ensures value { result ≡ charge_or_zero length weight }
    ensures zero { (within 1 2048 length && within 1 100 weight) ≡ true → result ≢ 0 }
{
    fuzkelai::fuzkelai_charge(length, weight)
}
