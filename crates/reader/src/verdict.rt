// The verdict on a sheet, as a line of text.
ghost use Rattle.std.specs.Prelude.{◌≡◌, ℕ, List, take, IfOk, Ok, Err, string_bytes};
ghost use Rattle.sheet.specs.Sheets.{content_of};
ghost use Rattle.reader.specs.Format.{read_sheet};
ghost use Rattle.reader.specs.Verdict.{line_for};

use crate::fault::SheetFault;
use crate::read;
use sheet::shape::Sheet;
use std::alloc::{AllocError, Global};

/// How many bytes of an input decide the verdict: one more than a sheet may have.
pub const ENOUGH: u64 = 257;

// The counts and not the sheet are printed, so this is no `Display` of a sheet.
fn accepted(heap: Global, sheet: &Sheet) -> Result<String, AllocError>
    ensures { IfOk result (λ s. string_bytes s ≡ line_for (Ok (content_of sheet.now))) }
{
    let flows = sheet.flow_count();
    let lanes = sheet.lane_count();
    let slots = sheet.slots();
    let threshold = sheet.threshold();
    format!(in heap; "accepted {flows} {lanes} {slots} {threshold}\n")
}

// The lemma says that a fault's text and a line feed are the line of a refusal.
#[tactic(auto, using(crate::proofs::Fronts::fault_line))]
fn refused(heap: Global, fault: SheetFault) -> Result<String, AllocError>
    ensures { IfOk result (λ s. string_bytes s ≡ line_for (Err fault)) }
{
    format!(in heap; "{fault}\n")
}

fn verdict_on(heap: Global, bytes: &[u8]) -> Result<String, AllocError>
    ensures { IfOk result (λ s. string_bytes s ≡ line_for (read_sheet bytes.now)) }
{
    let mut sheet = Sheet::new();
    match read(bytes, &mut sheet) {
        Ok(()) => accepted(heap, &sheet),
        Err(fault) => refused(heap, fault),
    }
}

/// One line, with its line feed: `accepted` with the number of flows, that of lanes, D and T, or `refused` with the refusal and its line.
/// The first 257 bytes of a longer input are enough: their verdict is that of the whole.
pub fn verdict(heap: Global, bytes: &[u8]) -> Result<String, AllocError>
    ensures value { IfOk result (λ s. string_bytes s ≡ line_for (read_sheet bytes.now)) }
    ensures enough { IfOk result (λ s. (input : List ℕ) → take 257 input ≡ bytes.now → string_bytes s ≡ line_for (read_sheet input)) }
{
    verdict_on(heap, bytes)
}
