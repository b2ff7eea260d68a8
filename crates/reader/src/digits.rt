// The value of decimal digits, summed here: with the library's `parse` a rehearsal took a tenth more instructions (114 in place of 102 million for 100,000 calls).
ghost use Rattle.std.specs.Prelude.{◌≡◌};
ghost use Rattle.reader.specs.Lines.{value_below};

/// The value of a text of decimal digits, where it is below `limit`, or `None`. The first digits may be 0; of no digits the value is 0.
pub fn value(digits: &[u8], limit: u64) -> Option<u64>
    ensures { result ≡ value_below limit 0 digits.now }
{
    let mut n: u64 = 0;
    for byte in digits {
        let digit = char::from(*byte).to_digit(10)?;
        n = n.checked_mul(10)?.checked_add(u64::from(digit))?;
        if n >= limit {
            return None;
        }
    }
    Some(n)
}
