//! Pairs in the order of the nested loop.
ghost use Rattle.std.specs.Prelude.{◌≡◌};
ghost use Rattle.std.specs.List.Sorted.{IsNonDecreasingBy, IsPermutation};
ghost use Rattle.row_model.specs.Table.{nested_loop};
ghost use Rattle.join_end.specs.Pairs.{SamePairs, code};

use row_model::{Pair, Rows};

// A pair's place among all that there can be: by its outer row, and among those of one outer row by its inner row.
fn place_of(pair: &Pair) -> u64
    ensures { result ≡ code pair.now }
{
    u64::from(pair.outer) * 4_294_967_296 + u64::from(pair.inner)
}

// Pairs by their places. The stable sort takes those that stand in order already as one run, but it needs memory;
// where there is none the other one sorts them in place.
pub(crate) fn sort(pairs: &mut Vec<Pair>)
    ensures same { IsPermutation pairs.old.items pairs.new.items }
    ensures sorted { IsNonDecreasingBy code pairs.new.items }
{
    match pairs.sort_by_key(place_of) {
        Ok(()) => (),
        Err(_) => pairs.sort_unstable_by_key(place_of),
    }
}

/// The pairs of the nested loop, in any order, are put into its order.
pub fn put_in_order(pairs: &mut Vec<Pair>, outer: &Rows, inner: &Rows)
    requires { SamePairs pairs.old.items (nested_loop outer.now inner.now) }
    ensures { pairs.new.items ≡ nested_loop outer.now inner.now }
{
    // A table tells by its length that it is within its limits.
    let _few = inner.len();
    sort(pairs);
}
