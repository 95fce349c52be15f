//! How a claimed row is hashed: it goes where the hash of its key leads, or is set aside.
ghost use Rattle.std.specs.Prelude.{◌≡◌, ◌<◌, ◌+◌, [], MatchOption, Some, ⊤};
ghost use Rattle.wait_core.specs.Seating.{client_moved, party_of};
ghost use Rattle.join_law.specs.Machine.{InHand};
ghost use Rattle.join_law.specs.Views.{dropped, without};
ghost use Rattle.join_party.specs.Joins.{join};
ghost use Rattle.shared_tuples.specs.Tuples.{IsReady};
ghost use Rattle.hash_build.specs.Hashing.{ClaimsNone, HashesAt, HashesOnly, IsRow, KeepsSizes, KnowsThese, MayPlace};

use join_party::{HashStep, JoinSeats, JoinTables, Look};
use proc_table::Steps;
use row_model::{Route, Side};
use shared_tuples::{Sizes, StoreNo, insert, put};
use std::sync::Wait;
use std::sync::ledger::Ledger;

// The hash of a row's key, None where the key is empty. One look.
fn hash_of<'r, L: Ledger>(
    tables: &JoinTables<'r>,
    side: Side,
    row: u32,
    steps: &mut Steps<L>,
) -> Option<u32>
    requires row { IsRow (join tables.now.waits.party) side row }
    ensures hash { result ≡ (join tables.now.waits.party).hash row }
    ensures look { steps.new ≡ steps.old + 1 }
{
    match side {
        Side::Inner => tables.inner().hash_of(row, steps),
        Side::Outer => {
            let inner = tables.inner().len();
            tables.outer().hash_of(row - inner, steps)
        }
    }
}

// Puts a row, whose hash is stored, where its route leads: an inner row of batch 0 into its chain, any
// other row into the store of its batch.
fn place<'r, R: Wait>(
    rt: &R,
    tables: &JoinTables<'r>,
    seats: &mut JoinSeats<'r>,
    side: Side,
    route: Route,
    row: u32,
)
    requires table { seats.old.wait.table_id ≡ tables.now.waits.table_id }
    requires idle { seats.old.wait.view.place ≡ [] }
    requires row { MayPlace (join tables.now.waits.party) (party_of seats.old.wait.view) side route row }
    ensures table { (seats.new.wait.table_id ≡ seats.old.wait.table_id) × (seats.new.wait.id ≡ seats.old.wait.id) }
    ensures others { (seats.new.lock ≡ seats.old.lock) × (seats.new.signal ≡ seats.old.signal) }
    ensures placed { seats.new.wait.view ≡ client_moved seats.old.wait.view (dropped seats.old.wait.view.client row) }
{
    match side {
        Side::Inner if route.batch == 0 => insert(rt, tables, seats, route, row),
        _ => {
            let store = StoreNo {
                side,
                batch: route.batch,
            };
            put(rt, tables, seats, store, row);
        }
    }
}

// Puts a row of this hash, which is stored, where the sizes lead it, and answers its batch.
pub(crate) fn place_hashed<'r, R: Wait>(
    rt: &R,
    tables: &JoinTables<'r>,
    seats: &mut JoinSeats<'r>,
    sizes: Sizes,
    side: Side,
    hash: u32,
    row: u32,
) -> u32
    requires table { seats.old.wait.table_id ≡ tables.now.waits.table_id }
    requires idle { seats.old.wait.view.place ≡ [] }
    requires phase { HashesAt (party_of seats.old.wait.view) side }
    requires known { KnowsThese (join tables.now.waits.party) (party_of seats.old.wait.view) sizes }
    requires row { IsRow (join tables.now.waits.party) side row × IsReady (party_of seats.old.wait.view) row }
    requires hash { (join tables.now.waits.party).hash row ≡ Some hash }
    ensures table { (seats.new.wait.table_id ≡ seats.old.wait.table_id) × (seats.new.wait.id ≡ seats.old.wait.id) }
    ensures others { (seats.new.lock ≡ seats.old.lock) × (seats.new.signal ≡ seats.old.signal) }
    ensures placed { seats.new.wait.view ≡ client_moved seats.old.wait.view (dropped seats.old.wait.view.client row) }
    ensures few { result < 64 }
{
    let route = Route::of(hash, sizes.buckets, sizes.batches);
    place(rt, tables, seats, side, route, row);
    route.batch
}

// Hashes a row in hand, and answers its batch. A row without a key is set aside.
pub(crate) fn hash_row<'r, R: Wait, L: Ledger>(
    rt: &R,
    tables: &JoinTables<'r>,
    seats: &mut JoinSeats<'r>,
    sizes: Sizes,
    side: Side,
    row: u32,
    steps: &mut Steps<L>,
) -> Option<u32>
    requires table { seats.old.wait.table_id ≡ tables.now.waits.table_id }
    requires idle { seats.old.wait.view.place ≡ [] }
    requires phase { HashesAt (party_of seats.old.wait.view) side }
    requires known { KnowsThese (join tables.now.waits.party) (party_of seats.old.wait.view) sizes }
    requires row { IsRow (join tables.now.waits.party) side row × InHand (party_of seats.old.wait.view) row }
    ensures table { (seats.new.wait.table_id ≡ seats.old.wait.table_id) × (seats.new.wait.id ≡ seats.old.wait.id) }
    ensures others { (seats.new.lock ≡ seats.old.lock) × (seats.new.signal ≡ seats.old.signal) }
    ensures view { seats.new.wait.view ≡ client_moved seats.old.wait.view seats.new.wait.view.client }
    ensures only { HashesOnly seats.old.wait.view.client seats.new.wait.view.client × ClaimsNone seats.old.wait.view.client seats.new.wait.view.client × KeepsSizes seats.old.wait.view.client seats.new.wait.view.client }
    ensures hand { seats.new.wait.view.client.hand ≡ without row seats.old.wait.view.client.hand }
    ensures look { steps.new ≡ steps.old + 1 }
    ensures batch { MatchOption result ⊤ (λ b. b < 64) }
{
    let Some(hash) = hash_of(tables, side, row, steps) else {
        tables
            .waits
            .client(&mut seats.wait, HashStep::Load(Look::Aside { row }));
        return None;
    };
    tables
        .waits
        .client(&mut seats.wait, HashStep::StoreHash { row, hash });
    Some(place_hashed(rt, tables, seats, sizes, side, hash, row))
}
