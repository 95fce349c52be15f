//! The join by a hash table of the inner rows, which each outer row probes.

ghost use Rattle.std.specs.Prelude.{◌≡◌, ◌++◌, ◌∷◌, ◌+◌, ◌<◌, ◌≤◌, [], Some, length, IfOk, IfErr, OnOk, if◌then◌else◌};
ghost use Rattle.row_model.specs.Hash.{hash_of_key};
ghost use Rattle.row_model.specs.Table.{key_of, meets, nested_loop, pairs_of};
ghost use Rattle.join_engine.specs.Chains.{IsChained};
ghost use Rattle.join_engine.specs.Limit.{PairsShow, pair_limit};
ghost use Rattle.join_engine.specs.Looks.{candidates, hashed_look_bound};

use crate::chains::Chains;
use crate::{JoinFault, PAIR_LIMIT};
use proc_table::Steps;
use row_model::{Pair, Rows, same};
use std::alloc::Global;
use std::sync::ledger::Ledger;

// Adds a pair, unless there are as many as a join may have.
fn push_pair(pairs: &mut Vec<Pair>, pair: Pair) -> Result<(), JoinFault>
    requires { length pairs.old.items ≤ pair_limit }
    ensures pairs { OnOk result (pairs.new.items ≡ pairs.old.items ++ pair ∷ []) }
    ensures few { OnOk result (length pairs.new.items ≤ pair_limit) }
    ensures too_many { IfErr result (PairsShow (length pairs.old.items + 1)) }
{
    let count = pairs.len();
    if count >= PAIR_LIMIT {
        let counted = count as u64 + 1;
        return Err(JoinFault::TooMany { counted });
    }
    match pairs.push(pair) {
        Ok(()) => Ok(()),
        Err(_) => Err(JoinFault::NoMemory),
    }
}

// Adds the pair of an outer row and a candidate, if they meet.
fn confirm<L: Ledger>(
    outer: &Rows,
    o: u32,
    inner: &Rows,
    i: u32,
    pairs: &mut Vec<Pair>,
    steps: &mut Steps<L>,
) -> Result<(), JoinFault>
    requires outer { o < length outer.now.rows }
    requires inner { i < length inner.now.rows }
    requires few { length pairs.old.items ≤ pair_limit }
    ensures pairs { OnOk result (pairs.new.items ≡ pairs.old.items ++ (if meets (key_of outer.now o) (key_of inner.now i) then record { outer = o; inner = i } ∷ [] else [])) }
    ensures few { OnOk result (length pairs.new.items ≤ pair_limit) }
    ensures too_many { IfErr result (PairsShow (length pairs.old.items + (if meets (key_of outer.now o) (key_of inner.now i) then 1 else 0))) }
    ensures look { steps.new ≡ steps.old + 1 }
{
    if same(outer, o, inner, i, steps) {
        push_pair(pairs, Pair { outer: o, inner: i })?;
    }
    Ok(())
}

// Adds the pairs of an outer row whose key has this hash.
fn probe_chain<L: Ledger>(
    chains: &Chains,
    hash: u32,
    outer: &Rows,
    o: u32,
    inner: &Rows,
    pairs: &mut Vec<Pair>,
    steps: &mut Steps<L>,
) -> Result<(), JoinFault>
    requires chained { IsChained inner.now chains.now }
    requires outer { o < length outer.now.rows }
    requires hash { hash_of_key (key_of outer.now o) ≡ Some hash }
    requires few { length pairs.old.items ≤ pair_limit }
    ensures pairs { OnOk result (pairs.new.items ≡ pairs.old.items ++ pairs_of outer.now inner.now o) }
    ensures few { OnOk result (length pairs.new.items ≤ pair_limit) }
    ensures too_many { IfErr result (PairsShow (length pairs.old.items + length (pairs_of outer.now inner.now o))) }
    ensures looks { steps.new ≤ steps.old + candidates inner.now (Some hash) }
{
    let mut candidate = chains.first(hash);
    'chain: while let Some(i) = candidate {
        confirm(outer, o, inner, i, pairs, steps)?;
        candidate = chains.after(i);
    }
    Ok(())
}

// Adds the pairs of an outer row.
fn probe_row<L: Ledger>(
    chains: &Chains,
    outer: &Rows,
    o: u32,
    inner: &Rows,
    pairs: &mut Vec<Pair>,
    steps: &mut Steps<L>,
) -> Result<(), JoinFault>
    requires chained { IsChained inner.now chains.now }
    requires outer { o < length outer.now.rows }
    requires few { length pairs.old.items ≤ pair_limit }
    ensures pairs { OnOk result (pairs.new.items ≡ pairs.old.items ++ pairs_of outer.now inner.now o) }
    ensures few { OnOk result (length pairs.new.items ≤ pair_limit) }
    ensures too_many { IfErr result (PairsShow (length pairs.old.items + length (pairs_of outer.now inner.now o))) }
    ensures looks { steps.new ≤ steps.old + 1 + candidates inner.now (hash_of_key (key_of outer.now o)) }
{
    match outer.hash_of(o, steps) {
        None => Ok(()),
        Some(hash) => probe_chain(chains, hash, outer, o, inner, pairs, steps),
    }
}

/// The join of two tables by one thread: each outer row with each inner row that it meets, in
/// order. Past `PAIR_LIMIT` pairs it counts one pair more and stops.
pub fn hashed_pairs<L: Ledger>(
    alloc: Global,
    outer: &Rows,
    inner: &Rows,
    steps: &mut Steps<L>,
) -> Result<Vec<Pair>, JoinFault>
    ensures pairs { IfOk result (λ v. v.items ≡ nested_loop outer.now inner.now) }
    ensures few { OnOk result (length (nested_loop outer.now inner.now) ≤ pair_limit) }
    ensures too_many { IfErr result (PairsShow (length (nested_loop outer.now inner.now))) }
    ensures looks { steps.new ≤ steps.old + hashed_look_bound outer.now inner.now }
{
    let chains = Chains::of(alloc, inner, steps)?;
    let mut pairs = Vec::new(alloc);
    'outer: for o in 0..outer.len() {
        probe_row(&chains, outer, o, inner, &mut pairs, steps)?;
    }
    Ok(pairs)
}
