// The charge of a request: what its flow pays for it.
#![tactic(auto)]

ghost use Rattle.std.specs.Prelude.{◌≡◌, ◌≤◌, true, IfSome};
ghost use Rattle.charge.specs.Charge.{Laws, all_right, charge_for, examples};

// A length counts sectors of 512 bytes.
const LONGEST: u32 = 2048;

const HEAVIEST: u32 = 100;
// Divided by each weight from 1 to 8 with no rest.
const SCALE: u32 = 840;

/// The charge of a request of that length for a flow of that weight, or `None` unless the length is 1 to 2,048 and the weight 1 to 100.
pub fn charge(length: u32, weight: u32) -> Option<u32>
    ensures value { result ≡ charge_for length weight }
    ensures bounds { IfSome result (λ c. (1 ≤ c) × (c ≤ 1720320)) }
{
    if !(1..=LONGEST).contains(&length) || !(1..=HEAVIEST).contains(&weight) {
        return None;
    }
    Some((SCALE * length).div_ceil(weight))
}

/// The laws that users of the charge cite in place of its definition.
pub fn charge_laws()
    ensures { Laws }
{}

/// The worked examples of the charge.
pub fn charge_examples()
    ensures { all_right examples ≡ true }
{}

#[cfg(test)]
mod tests {
    use super::charge;

    #[test]
    fn charges_at_the_boundaries(rt: HostRuntime) {
        assert_eq!(rt; charge(1, 100), Some(9));
        assert_eq!(rt; charge(2048, 1), Some(1_720_320));
        assert_eq!(rt; charge(2048, 100), Some(17_204));
        assert_eq!(rt; charge(0, 1), None);
        assert_eq!(rt; charge(2049, 1), None);
        assert_eq!(rt; charge(1, 0), None);
        assert_eq!(rt; charge(1, 101), None);
        assert_eq!(rt; charge(4_294_967_295, 4_294_967_295), None);
    }
}
