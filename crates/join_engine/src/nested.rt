//! The join of the definition, by two nested loops: what `hashed` is compared with.

ghost use Rattle.std.specs.Prelude.{◌≡◌, ◌++◌, ◌<◌, ℕ, length, IfOk, OnOk};
ghost use Rattle.row_model.specs.Table.{nested_loop, pairs_of};

use proc_table::{NoMemory, Steps};
use row_model::{Pair, Rows, same};
use std::alloc::Global;
use std::sync::ledger::Ledger;

// Adds the pairs of an outer row.
#[tactic(auto, using(crate::proofs::PairFacts::steps))]
fn pair_row<L: Ledger>(
    outer: &Rows,
    o: u32,
    inner: &Rows,
    pairs: &mut Vec<Pair>,
    steps: &mut Steps<L>,
) -> Result<(), NoMemory>
    requires { o < length outer.now.rows }
    ensures { OnOk result (pairs.new.items ≡ pairs.old.items ++ pairs_of outer.now inner.now o) }
{
    'inner: for i in 0..inner.len() {
        if same(outer, o, inner, i, steps) {
            pairs.push(Pair { outer: o, inner: i })?;
        }
    }
    Ok(())
}

// Each outer row with each inner row that it meets, in order.
#[tactic(auto, using(crate::proofs::PairFacts::steps), unfolding(row_model::specs::Table::nested_loop))]
pub(crate) fn nested_pairs<L: Ledger>(
    alloc: Global,
    outer: &Rows,
    inner: &Rows,
    steps: &mut Steps<L>,
) -> Result<Vec<Pair>, NoMemory>
    ensures { IfOk result (λ v. v.items ≡ nested_loop outer.now inner.now) }
{
    let mut pairs = Vec::new(alloc);
    'outer: for o in 0..outer.len() {
        pair_row(outer, o, inner, &mut pairs, steps)?;
    }
    Ok(pairs)
}
