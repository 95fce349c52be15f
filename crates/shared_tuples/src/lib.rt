//! The lists of a parallel hash join's rows, which its workers fill and empty together: the stores of
//! batches (PostgreSQL's `sharedtuplestore.c`) and the chains of the hash table (`nodeHash.c`).
#![tactic(auto)]

ghost use Rattle.std.specs.Prelude.{◌≡◌, ◌<◌, [], MatchOption};
ghost use Rattle.wait_core.specs.Seating.{client_moved, party_of};
ghost use Rattle.join_law.specs.Views.{dropped};
ghost use Rattle.join_law.specs.Machine.{took};
ghost use Rattle.join_party.specs.Joins.{join};
ghost use Rattle.shared_tuples.specs.Growing.{MayTakeOld, found_swept};
ghost use Rattle.shared_tuples.specs.Tuples.{MayPut, MayInsert, MayTakeOut, IsRowOf, found_empty};

mod heads;
mod lists;
mod sizes;

pub use heads::chain_of;
use heads::{chain_head, old_source, source_of, store_head};
use join_party::{JoinSeats, JoinTables};
pub use lists::hash_word;
use lists::{push, take_first};
use row_model::{Route, Side};
pub use sizes::{Growth, Sizes};
use std::sync::Wait;

/// The store of a side's rows of a batch.
#[derive(Debug, Clone, Copy, PartialEq, Eq)]
pub struct StoreNo {
    pub side: Side,
    pub batch: u32,
}

/// Puts a row in hand, whose hash is stored, into the store of its side and its batch
/// (`sts_puttuple`).
pub fn put<'r, R: Wait>(
    rt: &R,
    tables: &JoinTables<'r>,
    seats: &mut JoinSeats<'r>,
    store: StoreNo,
    row: u32,
)
    requires table { seats.old.wait.table_id ≡ tables.now.waits.table_id }
    requires idle { seats.old.wait.view.place ≡ [] }
    requires row { MayPut (join tables.now.waits.party) (party_of seats.old.wait.view) store.side store.batch row }
    ensures table { (seats.new.wait.table_id ≡ seats.old.wait.table_id) × (seats.new.wait.id ≡ seats.old.wait.id) }
    ensures others { (seats.new.lock ≡ seats.old.lock) × (seats.new.signal ≡ seats.old.signal) }
    ensures put { seats.new.wait.view ≡ client_moved seats.old.wait.view (dropped seats.old.wait.view.client row) }
{
    let head = store_head(&tables.waits, &mut seats.wait, store);
    push(rt, &tables.waits, &mut seats.wait, head, row);
}

/// Inserts an inner row in hand, whose hash is stored, into the chain of its route
/// (`ExecParallelHashPushTuple`).
pub fn insert<'r, R: Wait>(
    rt: &R,
    tables: &JoinTables<'r>,
    seats: &mut JoinSeats<'r>,
    route: Route,
    row: u32,
)
    requires table { seats.old.wait.table_id ≡ tables.now.waits.table_id }
    requires idle { seats.old.wait.view.place ≡ [] }
    requires row { MayInsert (join tables.now.waits.party) (party_of seats.old.wait.view) route row }
    ensures table { (seats.new.wait.table_id ≡ seats.old.wait.table_id) × (seats.new.wait.id ≡ seats.old.wait.id) }
    ensures others { (seats.new.lock ≡ seats.old.lock) × (seats.new.signal ≡ seats.old.signal) }
    ensures inserted { seats.new.wait.view ≡ client_moved seats.old.wait.view (dropped seats.old.wait.view.client row) }
{
    let head = chain_head(&tables.waits, &mut seats.wait, route);
    push(rt, &tables.waits, &mut seats.wait, head, row);
}

/// Takes a row out of a store that isn't filled any more: an inner store in LOAD of its batch, an
/// outer store in PROBE. None only where the store was found empty (`sts_parallel_scan_next`).
pub fn take<'r, R: Wait>(
    rt: &R,
    tables: &JoinTables<'r>,
    seats: &mut JoinSeats<'r>,
    store: StoreNo,
) -> Option<u32>
    requires table { seats.old.wait.table_id ≡ tables.now.waits.table_id }
    requires idle { seats.old.wait.view.place ≡ [] }
    requires store { MayTakeOut (party_of seats.old.wait.view) store.side store.batch }
    ensures table { (seats.new.wait.table_id ≡ seats.old.wait.table_id) × (seats.new.wait.id ≡ seats.old.wait.id) }
    ensures others { (seats.new.lock ≡ seats.old.lock) × (seats.new.signal ≡ seats.old.signal) }
    ensures taken { MatchOption result (seats.new.wait.view ≡ client_moved seats.old.wait.view (found_empty store.side store.batch seats.old.wait.view.client)) (λ row. seats.new.wait.view ≡ client_moved seats.old.wait.view (took seats.old.wait.view.client row)) }
    ensures row { MatchOption result (Unit {0}) (λ row. IsRowOf (join tables.now.waits.party) (party_of seats.old.wait.view) store.side store.batch row) }
{
    let source = source_of(&tables.waits, &mut seats.wait, store);
    take_first(rt, &tables.waits, &mut seats.wait, source)
}

/// Takes an inner row out of the half that a growth moves rows out of, at the head of this turn: the chains of
/// batch 0 come first, then the stores of the other batches. None only where the head was found empty
/// (`ExecParallelHashRepartitionFirst` and `ExecParallelHashRepartitionRest`, `ExecParallelHashIncreaseNumBuckets`).
pub fn take_old<'r, R: Wait>(
    rt: &R,
    tables: &JoinTables<'r>,
    seats: &mut JoinSeats<'r>,
    growth: Growth,
    turn: u32,
) -> Option<u32>
    requires table { seats.old.wait.table_id ≡ tables.now.waits.table_id }
    requires idle { seats.old.wait.view.place ≡ [] }
    requires turn { MayTakeOld (join tables.now.waits.party) (party_of seats.old.wait.view) growth turn }
    ensures table { (seats.new.wait.table_id ≡ seats.old.wait.table_id) × (seats.new.wait.id ≡ seats.old.wait.id) }
    ensures others { (seats.new.lock ≡ seats.old.lock) × (seats.new.signal ≡ seats.old.signal) }
    ensures taken { MatchOption result (seats.new.wait.view ≡ client_moved seats.old.wait.view (found_swept growth turn (party_of seats.old.wait.view))) (λ row. seats.new.wait.view ≡ client_moved seats.old.wait.view (took seats.old.wait.view.client row)) }
    ensures row { MatchOption result (Unit {0}) (λ row. row < (join tables.now.waits.party).inner) }
{
    let source = old_source(&tables.waits, &mut seats.wait, growth, turn);
    take_first(rt, &tables.waits, &mut seats.wait, source)
}
