// A binary heap over memory that its owner lends.
ghost use Rattle.std.specs.Prelude.{◌≡◌, min, length};
ghost use Rattle.heap.specs.Heaps.{Peeked, Popped, Pushed, Removed, Replaced};
ghost use Rattle.heap.specs.Lent.{SameLoan};

use crate::edits;
use crate::order::TotalOrder;

// The memory and its count are the owner's, who lends both. The first `len` of the items are held, or all of them where `len` is more. Each method keeps them heaped, so that the first is the
// least. That they are heaped is no fact of this type, since a ghost field beside a `&mut` is not covered, and since any memory may
// be lent; it is one of `FixedHeap`.
#[derive(Drop)]
pub struct Heap<'a, T> {
    items: &'a mut [T],
    len: &'a mut usize,
}

impl<'a, T: TotalOrder + Copy> Heap<'a, T> {
    pub fn new(items: &'a mut [T], len: &'a mut usize) -> Heap<'a, T>
        ensures lender { result.items.ghost_name ≡ items.entry.ghost_name }
        ensures items { result.items.now ≡ items.old }
        ensures len { (result.len.ghost_name ≡ len.entry.ghost_name) × (result.len.now ≡ len.old) }
    {
        Heap { items, len }
    }

    // How many are held.
    pub fn len(&self) -> usize
        ensures { result ≡ min self.now.len.now (length self.now.items.now) }
    {
        (*self.len).min(self.items.len())
    }

    // Takes `x` in, and tells whether there was room, as a set's `insert` tells: a record is `Copy`, so a refusal has nothing to give back.
    pub fn push(&mut self, x: T) -> bool
        ensures lender { SameLoan self.old self.new }
        ensures pushed { Pushed T.TotalOrder.upto self.old.items.now self.old.len.now x result self.new.items.now self.new.len.now }
    {
        edits::push(self.items, self.len, x)
    }

    // Gives the least out, or `None` where none is held. It is the one that `peek` gives.
    pub fn pop(&mut self) -> Option<T>
        ensures lender { SameLoan self.old self.new }
        ensures popped { Popped T.TotalOrder.upto self.old.items.now self.old.len.now result self.new.items.now self.new.len.now }
    {
        self.remove(0)
    }

    // Gives out the record in the place `at`, or `None` where none is held there.
    pub fn remove(&mut self, at: usize) -> Option<T>
        ensures lender { SameLoan self.old self.new }
        ensures removed { Removed T.TotalOrder.upto self.old.items.now self.old.len.now at result self.new.items.now self.new.len.now }
    {
        edits::remove(self.items, self.len, at)
    }

    // Puts `x` in for the record in the place `at`, which is given out, or `None` where none is held there.
    pub fn replace(&mut self, at: usize, x: T) -> Option<T>
        ensures lender { SameLoan self.old self.new }
        ensures replaced { Replaced T.TotalOrder.upto self.old.items.now self.old.len.now at x result self.new.items.now self.new.len.now }
    {
        edits::replace(self.items, *self.len, at, x)
    }

    // The least, which stays, or `None` where none is held.
    pub fn peek(&self) -> Option<T>
        ensures peeked { Peeked T.TotalOrder.upto self.now.items.now self.now.len.now result }
    {
        least(&*self.items, *self.len)
    }
}

// `peek`, of memory that is lent to be read.
pub fn least<T: TotalOrder + Copy>(items: &[T], len: usize) -> Option<T>
    ensures peeked { Peeked T.TotalOrder.upto items.now len result }
{
    items[..len.min(items.len())].first().copied()
}
