//! Counters of looks, one for each worker of a join.

ghost use Rattle.std.specs.Prelude.{◌≡◌, ◌<◌, length, IfOk};

use proc_table::{NoMemory, Steps};
use std::alloc::Global;
use std::sync::ledger::{Blank, Ledger};

/// So many counters of one ledger, each at 0.
pub(crate) fn counters<L: Ledger>(
    blank: Blank,
    alloc: Global,
    count: u32,
) -> Result<Vec<Steps<L>>, NoMemory>
    requires name { blank.name ≡ L.name }
    requires parts { blank.parts ≡ L.parts }
    requires some { 0 < blank.parts }
    ensures count { IfOk result (λ v. length v.items ≡ count) }
{
    let first = Steps::<L>::new(blank);
    let mut counters = Vec::new(alloc);
    'counters: for made in 0..count {
        counters.push(first.beside())?;
    }
    Ok(counters)
}
