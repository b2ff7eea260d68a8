// The steps of a binary heap, on the whole of a slice. The children of the place i are at 2i + 1 and 2i + 2.
//
// A record is not swapped down or up: its place is left free (a hole, whatever it may still hold), other records move over it,
// and the record is written once, where the hole ends. The clauses speak of the slice with the record in the hole.
// A hole goes from parent to child or back, and not over the items in turn, so its steps are `while` loops.
ghost use Rattle.std.specs.Prelude.{◌+◌, ◌*◌, ◌<◌, ◌≤◌, length, slice_set};
ghost use Rattle.std.specs.List.Sorted.{IsPermutation};
ghost use Rattle.heap.specs.Heaps.{Child, Free, Heaped, LeastChild, Lifted, Rising};

use crate::order::TotalOrder;

// Puts `x` into the place `at`, and restores the order.
pub(crate) fn settle<T: TotalOrder + Copy>(s: &mut [T], at: usize, x: T)
    requires { at < length s.old }
    ensures shuffled { IsPermutation (slice_set s.old at x) s.new }
    ensures heaped { Free T.TotalOrder.upto (slice_set s.old at x) at → Heaped T.TotalOrder.upto s.new }
{
    let leaf = sink(s, at);
    rise(s, leaf, x);
}

// Moves the hole at `at` down to a leaf, which is the answer. Each time the lesser child fills it, whatever is to come into it:
// so a level costs one comparison, and a record from the end of the heap, which mostly belongs far down, then rises little.
fn sink<T: TotalOrder + Copy>(s: &mut [T], at: usize) -> usize
    requires { at < length s.old }
    ensures within { result < length s.old }
    ensures shuffled { (x : T) → IsPermutation (slice_set s.old at x) (slice_set s.new result x) }
    ensures rising { (x : T) → Free T.TotalOrder.upto (slice_set s.old at x) at → Rising T.TotalOrder.upto (slice_set s.new result x) result }
{
    let mut hole = at;
    while hole < s.len() / 2 {
        let child = lesser_child(s, hole);
        pull(s, hole, child);
        hole = child;
    }
    hole
}

// Moves the hole at `at` up, while `x` comes before the parent, and puts `x` there.
pub(crate) fn rise<T: TotalOrder + Copy>(s: &mut [T], at: usize, x: T)
    requires { at < length s.old }
    ensures shuffled { IsPermutation (slice_set s.old at x) s.new }
    ensures heaped { Rising T.TotalOrder.upto (slice_set s.old at x) at → Heaped T.TotalOrder.upto s.new }
{
    let mut hole = at;
    while 0 < hole {
        let parent = (hole - 1) / 2;
        if !lift(s, hole, parent, &x) {
            break;
        }
        hole = parent;
    }
    s[hole] = x;
}

// The child that is at or before the other.
fn lesser_child<T: TotalOrder>(s: &[T], i: usize) -> usize
    requires { i * 2 + 1 < length s.now }
    ensures child { Child i result × (result < length s.now) }
    ensures least { LeastChild T.TotalOrder.upto s.now i result }
{
    let left = i * 2 + 1;
    if left + 1 < s.len() && !s[left].at_or_before(&s[left + 1]) {
        left + 1
    } else {
        left
    }
}

// Fills the hole with the record of its lesser child, where the hole then is.
fn pull<T: TotalOrder + Copy>(s: &mut [T], hole: usize, child: usize)
    requires child { Child hole child × (child < length s.old) }
    requires least { LeastChild T.TotalOrder.upto s.old hole child }
    ensures shuffled { (x : T) → IsPermutation (slice_set s.old hole x) (slice_set s.new child x) }
    ensures free { (x : T) → Free T.TotalOrder.upto (slice_set s.old hole x) hole → Free T.TotalOrder.upto (slice_set s.new child x) child }
{
    s[hole] = s[child];
}

// Fills the hole with the record of its parent, where the hole then is, if `x` comes before that record; and tells whether.
fn lift<T: TotalOrder + Copy>(s: &mut [T], hole: usize, parent: usize, x: &T) -> bool
    requires { Child parent hole × (hole < length s.old) }
    ensures { Lifted T.TotalOrder.upto s.old hole parent x.now result s.new }
{
    if s[parent].at_or_before(x) {
        return false;
    }
    s[hole] = s[parent];
    true
}
