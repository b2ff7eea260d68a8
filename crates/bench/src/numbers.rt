// Pseudo-random numbers: a 64-bit xorshift.
ghost use Rattle.std.specs.Prelude.{◌^◌, ◌<◌};

#[derive(Drop)]
pub(crate) struct XorShift {
    state: u64,
}

impl XorShift {
    pub(crate) fn new(seed: u64) -> XorShift {
        XorShift {
            state: seed.wrapping_mul(0x9e37_79b9_7f4a_7c15) | 1,
        }
    }

    // A number below `limit`; 0 where the limit is 0.
    pub(crate) fn below(&mut self, limit: u32) -> u32
        ensures { 0 < limit → result < limit }
    {
        let mut x = self.state;
        x ^= x << 13;
        x ^= x >> 7;
        x ^= x << 17;
        self.state = x;
        if limit == 0 {
            return 0;
        }
        ((x >> 33) % u64::from(limit)) as u32
    }

    // Of two places below `N` that at which less is counted: the first, if as much is counted at both.
    pub(crate) fn lesser_of_two<const N: usize>(&mut self, counts: &[u32; N]) -> u32
        requires { (0 < N) × (N < 2 ^ 32) }
        ensures { result < N }
    {
        let a = self.below(N as u32);
        let b = self.below(N as u32);
        if counts[b as usize] < counts[a as usize] {
            b
        } else {
            a
        }
    }
}
