// The numbers of a script.
ghost use Rattle.std.specs.Prelude.{◌≡◌};
ghost use Rattle.script.specs.Words.{number_of};

use reader::digits::value;

// The value of decimal digits, at least one, where it is below 2^32. The first digits may be 0.
pub(crate) fn number(digits: &[u8]) -> Option<u32>
    ensures { result ≡ number_of digits.now }
{
    if digits.is_empty() {
        return None;
    }
    let n = value(digits, 4_294_967_296)?;
    Some(n as u32)
}
