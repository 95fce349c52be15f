//! The pairs of rows that meet: by workers that build and probe a shared hash table together, and by one
//! thread with a hash table of its own.
#![tactic(auto)]

ghost use Rattle.std.specs.Prelude.{◌≡◌, ◌+◌, ◌<◌, ◌≤◌, length, sum, IfOk, IfErr, OnOk};
ghost use Rattle.std.specs.Int.{IsPowerOfTwo};
ghost use Rattle.row_model.specs.Table.{nested_loop};
ghost use Rattle.join_end.specs.Looks.{look_bound};
ghost use Rattle.join_engine.specs.Joins.{IsJoined, IsOf};
ghost use Rattle.join_engine.specs.Limit.{PairsShow, pair_limit};

mod chains;
mod hashed;
mod joined;
#[cfg(test)]
mod nested;
mod tally;
mod workers;

pub use hashed::hashed_pairs;
pub use join_end::JoinFault;
use join_end::{finish, look_last};
use join_party::open_tables;
pub use joined::Joined;
use joined::close;
use proc_table::{Gate, Steps};
use row_model::{Plan, Rows};
use std::alloc::Global;
use std::marker::{Send, Sync};
use std::sync::Wait;
use std::sync::ledger::Ledger;
use std::thread::Threads;
pub use tally::{JoinSizes, LastJoin, Tally};
use workers::{Shared, run_last};

/// The most pairs of a join.
pub const PAIR_LIMIT: usize = 4_194_304;

/// Joins two tables by the plan's number of workers, each in a thread of its own where one can be made: the
/// pairs of two nested loops, in their order, which is by the outer row and then by the inner row.
/// `TooMany` exactly where there are more than `PAIR_LIMIT` pairs. One counter a worker counts the looks at
/// keys, also where it fails (PostgreSQL's `ExecParallelHashJoin`).
pub fn join_rows<'r, R: Threads + Wait + Sync, G: Gate, L: Ledger + Send>(
    rt: &R,
    alloc: Global,
    inner: &'r Rows,
    outer: &'r Rows,
    plan: Plan,
    gate: &G,
    steps: &mut [Steps<L>],
) -> Result<Joined<'r>, JoinFault>
    requires workers { (0 < plan.workers) × (plan.workers ≤ 16) }
    requires buckets { IsPowerOfTwo plan.buckets × (plan.buckets ≤ 262144) }
    requires counters { length steps.old ≡ plan.workers }
    ensures joined { IfOk result IsJoined }
    ensures tables { IfOk result (IsOf inner.entry outer.entry plan) }
    ensures few { OnOk result (length (nested_loop outer.now inner.now) ≤ pair_limit) }
    ensures too_many { IfErr result (PairsShow (length (nested_loop outer.now inner.now))) }
    ensures looks { sum steps.new ≤ sum steps.old + look_bound outer.now inner.now plan.buckets }
{
    let (tables, mut leader) = open_tables(alloc, inner, outer, plan)?;
    let mut pairs = Vec::new(alloc);
    let shared = Shared {
        rt,
        tables: &tables,
        gate,
    };
    let said = run_last(&shared, alloc, &mut leader, &mut pairs, steps);
    look_last(&tables, &mut leader);
    match finish(pairs, said.over, said.short, outer, inner) {
        Ok(pairs) => Ok(Joined {
            pairs,
            tables,
            seats: leader,
        }),
        Err(fault) => {
            close(tables, leader);
            Err(fault)
        }
    }
}

#[cfg(test)]
mod tests;
