// What C programs call: the check of a share sheet, and the charge of a request. The crate fuzkelai_c exports both from the static library.
#![tactic(auto)]

ghost use Rattle.std.specs.Prelude.{◌≡◌, true, ◌&&◌, Decides, ◌==◌, ◌≢◌};
ghost use Rattle.charge.specs.Charge.{within};
ghost use Rattle.reader.specs.Format.{read_sheet};
ghost use Rattle.reader.specs.Grammar.{IsText};
ghost use Rattle.reader.specs.Verdict.{number_for};
ghost use Rattle.fuzkelai.specs.Charges.{charge_or_zero};

use reader::read;
use sheet::shape::Sheet;

fn answer_for(bytes: &[u8]) -> u32
    ensures { result ≡ number_for (read_sheet bytes.now) }
{
    let mut sheet = Sheet::new();
    match read(bytes, &mut sheet) {
        Ok(()) => 0,
        // One number for both, since a C program gets no more.
        Err(fault) => fault.refusal.number() * 1000 + fault.line,
    }
}

/// 0 for an accepted sheet, else the refusal times 1,000, and its line. So 0 is exactly for a text of a sheet.
#[unsafe(no_mangle)]
pub extern "C" fn fuzkelai_sheet_check(bytes: &[u8]) -> u32
    ensures value { result ≡ number_for (read_sheet bytes.now) }
    ensures text { Decides (result == 0) (IsText bytes.now) }
{
    answer_for(bytes)
}

/// The charge of a request of that length for a flow of that weight, or 0 when either is out of range.
#[unsafe(no_mangle)]
pub extern "C" fn fuzkelai_charge(length: u32, weight: u32) -> u32
    ensures value { result ≡ charge_or_zero length weight }
    ensures zero { (within 1 2048 length && within 1 100 weight) ≡ true → result ≢ 0 }
{
    charge::charge(length, weight).unwrap_or(0)
}

#[cfg(test)]
mod tests {
    use super::{fuzkelai_charge, fuzkelai_sheet_check};
    use reader::fault::{Refusal, SheetFault};
    use reader::read;
    use sheet::shape::Sheet;
    use std::test::Fail;

    #[test]
    fn answers_for_c(rt: HostRuntime) {
        assert_eq!(rt; fuzkelai_sheet_check(b"F 0\nL 0\nP 0\n"), 0);
        assert_eq!(rt; fuzkelai_sheet_check(b"F 17\n"), 3001);
        assert_eq!(rt; fuzkelai_sheet_check(b"F 0\nL 0\nP 0\n."), 4004);
        assert_eq!(rt; fuzkelai_sheet_check(&[b'F'; 257]), 1000);
        assert_eq!(rt; fuzkelai_charge(1, 100), 9);
        assert_eq!(rt; fuzkelai_charge(2049, 1), 0);
    }

    #[test]
    fn a_refusal_leaves_the_place(rt: HostRuntime) -> Result<(), Fail> {
        let mut place = Sheet::new();
        read(b"F 1\n50 64\nL 0\nP 1\nD 2\n", &mut place)?;
        let before = place;
        let fault = SheetFault {
            refusal: Refusal::Range,
            line: 1,
        };
        assert_eq!(rt; read(b"F 17\n", &mut place), Err(fault));
        assert!(rt; place == before);
        assert_eq!(rt; place.slots(), 2);
        read(b"F 0\nL 0\nP 0\n", &mut place)?;
        assert!(rt; place == Sheet::new());
        Ok(())
    }
}
