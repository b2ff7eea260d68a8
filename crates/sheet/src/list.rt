// A list with room for a fixed number of elements, kept in place: it allocates nothing and, unlike `ArrayVec`, is copied freely, as a sheet is.
ghost use Rattle.std.specs.Prelude.{◌≡◌, ◌≤◌, ◌<◌, [], ◌∷◌, ◌++◌, length, MatchResult};

use crate::build::OutOfRange;
use std::alloc::AllocError;

// The first `len` elements count, and `items_of` tells them; a model would have to give the free places back, since the list is copied.
#[derive(Copy)]
pub struct FixedList<T, const N: usize> {
    elements: [T; N],
    len: usize,
    ghost sized: { length elements ≡ N },
    ghost few: { len ≤ N },
}

// A copy is a clone. It cannot be derived for a generic struct with a ghost field.
impl<T: Copy, const N: usize> Clone for FixedList<T, N> {
    ghost use Rattle.std.specs.Prelude.{⊤};

    ghost is_clone = { λ x y. y ≡ x };

    ghost is_infallible = { λ _. ⊤ };

    fn clone(&self) -> Result<FixedList<T, N>, AllocError> {
        Ok(*self)
    }
}

impl<T, const N: usize> FixedList<T, N> {
    ghost use Rattle.sheet.specs.Listed.{items_of};

    // The elements in their order.
    pub(crate) fn as_slice(&self) -> &[T]
        ensures value { result.now ≡ items_of self.now }
        ensures few { length result.now ≤ N }
    {
        &self.elements[..self.len]
    }
}

impl<T: Copy + Default, const N: usize> FixedList<T, N> {
    ghost use Rattle.sheet.specs.Listed.{items_of};

    // No elements.
    pub(crate) fn new() -> FixedList<T, N>
        ensures { items_of result ≡ [] }
    {
        FixedList {
            elements: [T::default(); N],
            len: 0,
        }
    }

    // Adds an element at the end, where there is room.
    pub(crate) fn push(&mut self, element: T) -> Result<(), OutOfRange>
        ensures { MatchResult result (λ _. (length (items_of self.old) < N) × (items_of self.new ≡ items_of self.old ++ element ∷ [])) (λ _. (length (items_of self.old) ≡ N) × (self.new ≡ self.old)) }
    {
        if self.len == N {
            return Err(OutOfRange);
        }
        self.elements[self.len] = element;
        self.len += 1;
        Ok(())
    }
}

// What stands in the places past the count is not compared, so this is not the derived `==` of the fields.
impl<T: PartialEq, const N: usize> PartialEq for FixedList<T, N> {
    ghost use Rattle.sheet.specs.Listed.{items_of};
    ghost use Rattle.std.specs.Cmp.Lexicographic.{pointwise};
    ghost use Rattle.std.specs.Ordering.{on};
    ghost use Rattle.std.specs.Cmp.Rules.{comparing};
    ghost use Rattle.std.proofs.Common.{rules};

    ghost eq = { on items_of (pointwise T.eq) };

    ghost laws = { Prim.search (comparing, rules) };

    fn eq(&self, other: &FixedList<T, N>) -> bool {
        self.as_slice() == other.as_slice()
    }
}

impl<T: Eq, const N: usize> Eq for FixedList<T, N> {
    ghost use Rattle.std.specs.Cmp.Rules.{comparing};
    ghost use Rattle.std.proofs.Common.{rules};

    ghost laws = { Prim.search (comparing, rules) };
}
