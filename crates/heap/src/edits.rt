// What a heap does to its memory: the first `len` of the items are held, or all of them where `len` is more.
//
// The memory and the count come apart, since a `Heap` lends both whole: of what a call behind a field lends on in part, the check tells the length alone.
ghost use Rattle.std.specs.Prelude.{◌≡◌, ◌-◌, ◌<◌, ◌∷◌, length, take, slice_index_or};
ghost use Rattle.std.specs.List.Sorted.{IsPermutation};
ghost use Rattle.heap.specs.Heaps.{Heaped, Pushed, Removed, Replaced};

use crate::order::TotalOrder;
use crate::sifts::{rise, settle};

// Takes `x` in, and tells whether there was room.
pub(crate) fn push<T: TotalOrder + Copy>(items: &mut [T], len: &mut usize, x: T) -> bool
    ensures { Pushed T.TotalOrder.upto items.old len.old x result items.new len.new }
{
    let at = *len;
    if at >= items.len() {
        return false;
    }
    rise(&mut items[..at + 1], at, x);
    *len = at + 1;
    true
}

// Gives out the record in the place `at`. The bound is asked first, since the place is of use only where the removal goes on.
pub(crate) fn remove<T: TotalOrder + Copy>(items: &mut [T], len: &mut usize, at: usize) -> Option<T>
    ensures { Removed T.TotalOrder.upto items.old len.old at result items.new len.new }
{
    let held = (*len).min(items.len());
    if at >= held {
        return None;
    }
    let gone = delete(&mut items[..held], at);
    *len = held - 1;
    Some(gone)
}

// Puts `x` in for the record in the place `at`, which is given out. The place is written after, so its bound is asked once for both.
pub(crate) fn replace<T: TotalOrder + Copy>(
    items: &mut [T],
    len: usize,
    at: usize,
    x: T,
) -> Option<T>
    ensures { Replaced T.TotalOrder.upto items.old len at x result items.new len }
{
    let held = len.min(items.len());
    if at >= held {
        return None;
    }
    let gone = items[at];
    settle(&mut items[..held], at, x);
    Some(gone)
}

// Gives out the record in the place `at` of those that are held, for which the last comes in. The last place is free then.
fn delete<T: TotalOrder + Copy>(held: &mut [T], at: usize) -> T
    requires { at < length held.old }
    ensures is { (d : T) → result ≡ slice_index_or held.old at d }
    ensures long { length held.new ≡ length held.old }
    ensures shuffled { IsPermutation held.old (result ∷ take (length held.old - 1) held.new) }
    ensures heaped { Heaped T.TotalOrder.upto held.old → Heaped T.TotalOrder.upto (take (length held.old - 1) held.new) }
{
    let last = held.len() - 1;
    let gone = held[at];
    if at < last {
        let moved = held[last];
        settle(&mut held[..last], at, moved);
    }
    gone
}
