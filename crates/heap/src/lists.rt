// What lists of records in order are, for the contracts that speak of them.
ghost use Rattle.std.specs.Prelude.{ℕ, List};
ghost use Rattle.heap.specs.Sorting.{SortingStands};

// The theorem on `sorted` and `insert`, for records of any type and any list of their numbers; the code does nothing.
pub fn sorting_stands<T>()
    ensures { (by : T → List ℕ) → SortingStands T by }
{}
