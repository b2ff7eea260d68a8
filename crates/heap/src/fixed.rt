// A heap that owns its memory.
ghost use Rattle.std.specs.Prelude.{◌≡◌, ◌≤◌, [], length};
ghost use Rattle.heap.specs.Fixed.{Enters, Leads, Leaves, Swaps};
ghost use Rattle.heap.specs.Heaps.{Heaped, Pushed, Removed, Replaced};

use crate::heap::{Heap, least};
use crate::order::TotalOrder;
use std::marker::Model;

// At most `N` records, heaped at all times. A contract sees those that are held, as they lie, the least first. The memory is an array
// with a count, since it is what `Heap` borrows: a slice to its full length, of which a vector would lend the held part alone.
#[derive(Drop)]
pub struct FixedHeap<T: TotalOrder, const N: usize> {
    slots: [T; N],
    count: usize,
}

impl<T: TotalOrder, const N: usize> Model for FixedHeap<T, N> {
    ghost use Rattle.std.specs.Prelude.{◌≡◌, ◌≤◌, List, length, take};
    ghost use Rattle.heap.specs.Heaps.{Heaped};

    ghost Value = { List T };

    ghost view = { λ h. take h.count h.slots };

    ghost invariant = { λ h. (length h.slots ≡ N) × (h.count ≤ N) × Heaped T.TotalOrder.upto (take h.count h.slots) };
}

impl<T: TotalOrder + Copy, const N: usize> FixedHeap<T, N> {
    pub fn new() -> FixedHeap<T, N>
    where
        T: Default,
        ensures { result ≡ [] }
    {
        FixedHeap {
            slots: [T::default(); N],
            count: 0,
        }
    }

    // How many are held.
    pub fn len(&self) -> usize
        ensures count { result ≡ length self.now }
        ensures within { result ≤ N }
    {
        self.count
    }

    // Those that are held, the least first.
    pub fn as_slice(&self) -> &[T]
        ensures items { result.now ≡ self.now }
        ensures heaped { Heaped T.TotalOrder.upto self.now }
    {
        &self.slots[..self.count]
    }

    // The least, which stays, or `None` where none is held.
    pub fn peek(&self) -> Option<T>
        ensures { Leads T.TotalOrder.upto self.now result }
    {
        least(&self.slots, self.count)
    }

    // Takes `x` in, and tells whether there was room, as a set's `insert` tells: a record is `Copy`, so a refusal has nothing to give back.
    pub fn push(&mut self, x: T) -> bool
        ensures entered { Enters N self.old x result self.new }
        ensures within { length self.new ≤ N }
        ensures heaped { Heaped T.TotalOrder.upto self.new }
    {
        push_into(&mut self.slots, &mut self.count, x)
    }

    // Gives the least out, or `None` where none is held. It is the one that `peek` gives.
    pub fn pop(&mut self) -> Option<T>
        ensures left { Leaves T.TotalOrder.upto self.old 0 result self.new }
        ensures within { length self.new ≤ N }
        ensures heaped { Heaped T.TotalOrder.upto self.new }
    {
        self.remove(0)
    }

    // Gives out the record in the place `at`, or `None` where none is held there.
    pub fn remove(&mut self, at: usize) -> Option<T>
        ensures left { Leaves T.TotalOrder.upto self.old at result self.new }
        ensures within { length self.new ≤ N }
        ensures heaped { Heaped T.TotalOrder.upto self.new }
    {
        remove_from(&mut self.slots, &mut self.count, at)
    }

    // Puts `x` in for the record in the place `at`, which is given out, or `None` where none is held there.
    pub fn replace(&mut self, at: usize, x: T) -> Option<T>
        ensures swapped { Swaps self.old at x result self.new }
        ensures within { length self.new ≤ N }
        ensures heaped { Heaped T.TotalOrder.upto self.new }
    {
        replace_in(&mut self.slots, &mut self.count, at, x)
    }
}

// The heap over memory that is lent to it, by which waiting requests and leads are kept. The memory and the count come apart: where the length
// of a lent array is a parameter, the check does not tell what a struct around it leaves there.

fn push_into<T: TotalOrder + Copy>(items: &mut [T], len: &mut usize, x: T) -> bool
    ensures { Pushed T.TotalOrder.upto items.old len.old x result items.new len.new }
{
    Heap::new(items, len).push(x)
}

fn remove_from<T: TotalOrder + Copy>(items: &mut [T], len: &mut usize, at: usize) -> Option<T>
    ensures { Removed T.TotalOrder.upto items.old len.old at result items.new len.new }
{
    Heap::new(items, len).remove(at)
}

fn replace_in<T: TotalOrder + Copy>(items: &mut [T], len: &mut usize, at: usize, x: T) -> Option<T>
    ensures { Replaced T.TotalOrder.upto items.old len.old at x result items.new len.new }
{
    Heap::new(items, len).replace(at, x)
}
