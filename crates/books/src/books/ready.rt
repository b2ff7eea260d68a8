// The ready lanes, and the nearest of them.
ghost use Rattle.std.specs.Prelude.{◌≡◌, ℕ, ◌/◌, ◌%◌, ◌^◌, ◌<◌, [], Some, MatchOption, ◌==◌};
ghost use Rattle.lanes.specs.Lanes.{head_of};
ghost use Rattle.books.specs.Model.{lane_at, ready, ready_lanes};
ghost use Rattle.books.specs.Views.{state_of};

use crate::books::Books;
use lanes::records::Request;
use near::nearest;

impl Books {
    fn is_ready(&self, lane: usize) -> bool
        ensures { result ≡ ready (state_of self.now) lane }
    {
        self.lanes
            .lead(lane)
            .is_some_and(|lead| lead.start <= self.reach())
    }

    // Bit k for lane k: a lane's number is also the place of its bit.
    pub fn ready(&self) -> u8
        ensures { (k : ℕ) → k < 8 → (result / 2 ^ k % 2 == 1) ≡ ready (state_of self.now) k }
    {
        let mut bits: u8 = 0;
        for k in 0..8 {
            if self.is_ready(k) {
                bits |= 1 << k;
            }
        }
        bits
    }

    // The nearest ready lane to a lane, and its lead.
    pub fn nearest_lead(&self, lane: u32) -> Option<(u32, Request)>
        ensures { MatchOption result (lane < 8 → ready_lanes (state_of self.now) lane ≡ []) (λ p. (lane < 8) × (p.0 < 8) × (head_of (ready_lanes (state_of self.now) lane) ≡ Some p.0) × (head_of (lane_at (state_of self.now) p.0) ≡ Some p.1)) }
    {
        let k = nearest(lane, self.ready())?;
        let lead = self.lanes.lead(k as usize)?;
        Some((k, lead))
    }
}
