// The lanes of a board: how far apart they are, sets of them, and the nearest of a set.
//
// A lane is the queue of one processor core, of eight. A set of lanes is a byte, with bit k for lane k.
#![tactic(auto)]

ghost use Rattle.std.specs.Prelude.{◌≡◌, ◌/◌, ◌%◌, ◌^◌, ◌<◌, [], MatchOption, ◌==◌, slice_index_or};
ghost use Rattle.near.specs.Lanes.{Distances, Nearest, members, table};

// Lanes 0 to 3 are near each other, and so are lanes 4 to 7.
const DISTANCE: [[u8; 8]; 8] = [
    [0, 1, 1, 1, 2, 2, 2, 2],
    [1, 0, 1, 1, 2, 2, 2, 2],
    [1, 1, 0, 1, 2, 2, 2, 2],
    [1, 1, 1, 0, 2, 2, 2, 2],
    [2, 2, 2, 2, 0, 1, 1, 1],
    [2, 2, 2, 2, 1, 0, 1, 1],
    [2, 2, 2, 2, 1, 1, 0, 1],
    [2, 2, 2, 2, 1, 1, 1, 0],
];

/// How many lanes are in the set.
pub fn how_many(ready: u8) -> u32
    ensures { result ≡ members ready 8 }
{
    ready.count_ones()
}

// The nearest lane of the set by the row, and of several as near the lowest. The lowest set bit is the lane that is visited, so a later one has to be nearer; a range
// of all eight lanes with a filter would visit the others too.
fn choose(row: [u8; 8], ready: u8) -> Option<u32>
    ensures { MatchOption result (ready ≡ 0) (λ k. Nearest row ready k) }
{
    let mut nearest: Option<(u32, u8)> = None;
    let mut rest = ready;
    while rest != 0 {
        let k = rest.trailing_zeros();
        let far = row[k as usize];
        if nearest.is_none_or(|(_, best)| far < best) {
            nearest = Some((k, far));
        }
        rest &= !(1 << k);
    }
    nearest.map(|(k, _)| k)
}

/// The ready lane that is nearest to `lane`, and of several as near the one with the lowest number; `None` where none is ready, or there is no such lane.
pub fn nearest(lane: u32, ready: u8) -> Option<u32>
    ensures { MatchOption result (lane < 8 → ready ≡ 0) (λ k. (lane < 8) × Nearest (slice_index_or table lane []) ready k) }
{
    let row = DISTANCE.get(lane as usize)?;
    choose(*row, ready)
}

/// The table, which is the code's, is the rule: 0 for the lane itself, 1 within the same four lanes, and else 2.
pub fn distances_stand()
    ensures rule { Distances }
    ensures code { DISTANCE ≡ table }
{}
