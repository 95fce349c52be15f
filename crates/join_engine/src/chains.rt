//! A hash table of rows: those of one hash in a chain, in their order.

ghost use Rattle.std.specs.Prelude.{◌≡◌, ◌+◌, ◌<◌, ◌≤◌, length, get_or, nat_eq, IfOk};
ghost use Rattle.std.specs.HashMap.{get};
ghost use Rattle.join_engine.specs.Chains.{row_at, IsChained};

use proc_table::{NoMemory, Steps};
use row_model::Rows;
use std::alloc::Global;
use std::collections::HashMap;
use std::sync::ledger::Ledger;

// The rows of a table with a key, each linked to the next one of its hash (PostgreSQL's
// `HashJoinTable`, whose tuples are linked in the same way).
#[derive(Drop)]
pub(crate) struct Chains {
    // The first row of each hash.
    heads: HashMap<u32, u32>,
    // For each row the next one of its hash. The number of rows stands where there is none.
    next: Vec<u32>,
}

impl Chains {
    // The chains of a table's rows. They are built from the last row to the first.
    pub(crate) fn of<L: Ledger>(
        alloc: Global,
        rows: &Rows,
        steps: &mut Steps<L>,
    ) -> Result<Chains, NoMemory>
        ensures chained { IfOk result (IsChained rows.now) }
        ensures looks { steps.new ≤ steps.old + length rows.now.rows }
    {
        let count = rows.len();
        let mut heads = HashMap::new(alloc);
        let mut next = vec![in alloc; count; count as usize]?;
        'rows: for row in (0..count).rev() {
            if let Some(hash) = rows.hash_of(row, steps) {
                let after = heads.insert(hash, row)?;
                next[row as usize] = after.unwrap_or(count);
            }
        }
        Ok(Chains { heads, next })
    }

    // The first row of a hash.
    pub(crate) fn first(&self, hash: u32) -> Option<u32>
        ensures { result ≡ get nat_eq self.now.heads hash }
    {
        self.heads.get(&hash).copied()
    }

    // The next row of a row's hash.
    pub(crate) fn after(&self, row: u32) -> Option<u32>
        requires { row < length self.now.next.items }
        ensures { result ≡ row_at (length self.now.next.items) (get_or self.now.next.items row 0) }
    {
        let next = self.next[row as usize];
        if (next as usize) < self.next.len() {
            Some(next)
        } else {
            None
        }
    }
}
