// Records in a total order.
ghost use Rattle.std.specs.Prelude.{◌≡◌, ℕ, Bool, true, false, List, []};
ghost use Rattle.heap.specs.Laws.{total as either_way, transitive as chains};
ghost use Rattle.heap.specs.Order.{IsOrder, upto_by};
ghost use Rattle.std.proofs.Common.{refl};

// A total order by a key. Its three laws are owed by each implementation, and code under the bound may use them. Of `==` nothing is
// asked, so that records may be told apart which the order takes as alike: this is what std's `Ord` does not allow.
pub trait TotalOrder {
    // What the order compares, the most important number first.
    ghost key: { Self → List ℕ };

    // Whether the first record is at or before the second.
    ghost upto: { Self → Self → Bool };

    fn at_or_before(&self, other: &Self) -> bool
        ensures { result ≡ upto self.now other.now };

    // Of two records one is at or before the other.
    ghost total: { (x y : Self) → upto x y ≡ false → upto y x ≡ true };

    // Both ways only where the keys are equal.
    ghost antisymmetric: { (x y : Self) → upto x y ≡ true → upto y x ≡ true → key x ≡ key y };

    // The relation chains.
    ghost transitive: { (x y z : Self) → upto x y ≡ true → upto y z ≡ true → upto x z ≡ true };
}

// A record in the order of std's `Ord`. A type of its own, since an impl for every `Ord` would keep an `Ord` from having another order here.
#[derive(Clone, Copy, Default, PartialEq, Eq, PartialOrd, Ord)]
pub struct ByOrd<T>(pub T);

// What is alike in this order is told by `order_stands`, and by no numbers.
impl<T: Ord> TotalOrder for ByOrd<T> {
    ghost key = { λ _. [] };

    ghost upto = { λ x y. upto_by T.cmp x.0 y.0 };

    ghost total = { λ x y. either_way T.Ord.total x.0 y.0 };

    ghost antisymmetric = { λ _ _ _ _. refl };

    ghost transitive = { λ x y z. chains T.Ord.total x.0 y.0 z.0 };

    fn at_or_before(&self, other: &ByOrd<T>) -> bool {
        self.0.cmp(&other.0).is_le()
    }
}

// The theorem on every `Ord`: of two records one is at or before the other, both ways only where they are equal, and the relation
// chains. The code does nothing.
pub fn order_stands<T: Ord>()
    ensures { IsOrder (upto_by T.cmp) (λ x y. T.eq x y ≡ true) }
{}
