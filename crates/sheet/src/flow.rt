// A flow is one sensor's stream of requests.
ghost use Rattle.std.specs.Prelude.{◌≡◌, Decides};
ghost use Rattle.sheet.specs.Same.{same_flow};
ghost use Rattle.std.specs.Cmp.Rules.{comparing};
ghost use Rattle.std.proofs.Common.{rules};
ghost use Rattle.std.specs.Cmp as Keys;

// A flow's share: its weight, and the length of the longest request that it may make, in sectors.
#[derive(Clone, Copy, Debug, Default)]
pub struct Flow {
    pub weight: u8,
    pub longest: u16,
}

// It is the derived `==`, written out so that who calls `eq` is told what it decides.
impl PartialEq for Flow {
    ghost eq = { same_flow };

    ghost laws = { Keys.partial_equiv_from_equiv (Prim.search (comparing, rules)) };

    fn eq(&self, other: &Flow) -> bool
        ensures value { result ≡ same_flow self.now other.now }
        ensures decides { Decides result (self.now ≡ other.now) }
    {
        self.weight == other.weight && self.longest == other.longest
    }
}

impl Eq for Flow {
    ghost laws = { Prim.search (comparing, rules) };
}
