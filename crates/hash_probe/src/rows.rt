//! How an outer row is probed: its chain is walked, and the number of its pairs is added to the result
//! count.
ghost use Rattle.std.specs.Prelude.{◌≡◌, ◌≤◌, ◌+◌, ◌++◌, [], IfOk, OnErr, Some, length};
ghost use Rattle.row_model.specs.Table.{nested_loop};
ghost use Rattle.wait_core.specs.Seating.{client_moved, party_of};
ghost use Rattle.join_party.specs.Joins.{join};
ghost use Rattle.hash_probe.specs.Looks.{walk_of};
ghost use Rattle.hash_probe.specs.Probing.{GivesUpRow, MayProbe, ProbesRow};

use crate::walks::walk;
use join_party::{HashParty, HashStep, Look};
use proc_table::{NoMemory, Steps};
use row_model::Pair;
use shared_tuples::chain_of;
use std::sync::Wait;
use std::sync::ledger::Ledger;
use wait_core::{WaitSeat, WaitTable};

// Probes an outer row in hand of this hash (`ExecScanHashBucket`): its pairs go behind those that `pairs` has, and
// their number is added to the result count. Answers the count then, at most the number of all pairs. Where
// memory runs out the row is given up, and none of its pairs is kept. At most one look for each inner row whose
// hash agrees with the row's modulo the opening buckets.
pub(crate) fn probe_row<'r, R: Wait, L: Ledger>(
    rt: &R,
    waits: &WaitTable<HashParty<'r>>,
    seat: &mut WaitSeat<HashParty<'r>>,
    row: u32,
    hash: u32,
    pairs: &mut Vec<Pair>,
    steps: &mut Steps<L>,
) -> Result<u64, NoMemory>
    requires table { seat.old.table_id ≡ waits.now.table_id }
    requires idle { seat.old.view.place ≡ [] }
    requires row { MayProbe (join waits.now.party) (party_of seat.old.view) row }
    requires hash { (join waits.now.party).hash row ≡ Some hash }
    ensures table { (seat.new.table_id ≡ seat.old.table_id) × (seat.new.id ≡ seat.old.id) }
    ensures probed { IfOk result (ProbesRow (join waits.now.party) seat.old.view seat.new.view row pairs.old.items pairs.new.items) }
    ensures few { IfOk result (λ count. count ≤ length (nested_loop waits.now.party.outer.now waits.now.party.inner.now)) }
    ensures given { OnErr result (GivesUpRow seat.old.view seat.new.view row pairs.old.items pairs.new.items) }
    ensures looks { steps.new ≤ steps.old + walk_of waits.now.party.outer.now waits.now.party.inner.now waits.now.party.buckets row }
{
    let head = chain_of(waits, seat, hash);
    let before = pairs.len();
    match walk(rt, waits, seat, row, hash, head, pairs, steps) {
        Ok(()) => {
            let count = (pairs.len() - before) as u64;
            let results = waits
                .client(seat, HashStep::AddResults { row, pairs: count })
                .old;
            Ok(results + count)
        }
        Err(refused) => {
            pairs.truncate(before);
            waits.client(seat, HashStep::Load(Look::GiveUp { row }));
            Err(refused)
        }
    }
}
