// What `Lanes::least_start` tells.
ghost use Rattle.std.specs.Prelude.{ℕ};
ghost use Rattle.lanes.specs.Lanes.{lanes_of};
ghost use Rattle.lanes.specs.Waits.{all_starts, IsLeast, least, starts};

use crate::lanes::Lanes;

// A theorem: the least start tag of the leads is that of all requests that wait. The code does nothing.
pub fn least_stands()
    ensures { (v : ℕ) (l : Lanes) → IsLeast v (all_starts (lanes_of l)) (least v (starts (lanes_of l))) }
{}
