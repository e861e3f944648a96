//! Lists in which each number comes once.

ghost use Rattle.std.specs.Prelude.{◌≤◌, vec_len};
ghost use Rattle.call_effects.specs.Distinct.{SortsDistinct};

/// Sorts the numbers, and drops those that come again.
pub(crate) fn sort_distinct<T: Ord + Drop>(numbers: &mut Vec<T>)
    ensures sorts { SortsDistinct T.cmp T.eq numbers.old.items numbers.new.items }
    ensures few { vec_len numbers.new ≤ vec_len numbers.old }
{
    numbers.sort_unstable();
    numbers.dedup();
}
