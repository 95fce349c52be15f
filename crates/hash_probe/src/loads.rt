//! How a batch is loaded: its inner rows go from their store into the chains.
ghost use Rattle.std.specs.Prelude.{◌≡◌, ◌<◌, [], ◌∷◌};
ghost use Rattle.wait_core.specs.Seating.{client_moved, party_of};
ghost use Rattle.join_law.specs.Phases.{LOAD, RUN, batch_bar, build};
ghost use Rattle.join_law.specs.Views.{dropped};
ghost use Rattle.join_party.specs.Joins.{join};
ghost use Rattle.hash_probe.specs.Loads.{IsLoaded, MayLoad, ProbesNone};
ghost use Rattle.hash_probe.specs.Working.{IsWorking};

use crate::HashTable;
use join_party::{JoinSeats, JoinTables};
use row_model::{Route, Side};
use shared_tuples::{StoreNo, hash_word, insert, take};
use std::sync::Wait;

// Inserts an inner row that was taken out of its store.
fn load_row<'r, R: Wait>(
    rt: &R,
    tables: &JoinTables<'r>,
    seats: &mut JoinSeats<'r>,
    table: HashTable,
    row: u32,
)
    requires table { seats.old.wait.table_id ≡ tables.now.waits.table_id }
    requires idle { seats.old.wait.view.place ≡ [] }
    requires row { MayLoad (join tables.now.waits.party) (party_of seats.old.wait.view) table row }
    ensures table { (seats.new.wait.table_id ≡ seats.old.wait.table_id) × (seats.new.wait.id ≡ seats.old.wait.id) }
    ensures others { (seats.new.lock ≡ seats.old.lock) × (seats.new.signal ≡ seats.old.signal) }
    ensures inserted { seats.new.wait.view ≡ client_moved seats.old.wait.view (dropped seats.old.wait.view.client row) }
{
    let hash = hash_word(&tables.waits, &mut seats.wait, row);
    let route = Route::of(hash, table.buckets, table.batches);
    insert(rt, tables, seats, route, row);
}

// Loads a batch, until its inner store is at its end.
pub(crate) fn load<'r, R: Wait>(
    rt: &R,
    tables: &JoinTables<'r>,
    seats: &mut JoinSeats<'r>,
    table: HashTable,
    batch: u32,
)
    requires working { IsWorking tables.now seats.old table ((batch_bar batch, LOAD) ∷ (build, RUN) ∷ []) }
    requires few { batch < 64 }
    ensures working { IsWorking tables.now seats.new table ((batch_bar batch, LOAD) ∷ (build, RUN) ∷ []) × (seats.new.wait.id ≡ seats.old.wait.id) }
    ensures others { (seats.new.lock ≡ seats.old.lock) × (seats.new.signal ≡ seats.old.signal) }
    ensures view { seats.new.wait.view ≡ client_moved seats.old.wait.view seats.new.wait.view.client }
    ensures none { ProbesNone seats.old.wait.view.client seats.new.wait.view.client }
    ensures loaded { IsLoaded batch seats.new.wait.view.client }
{
    let store = StoreNo {
        side: Side::Inner,
        batch,
    };
    for _ in rt.forever() {
        let Some(row) = take(rt, tables, seats, store) else {
            return;
        };
        load_row(rt, tables, seats, table, row);
    }
    unreachable!()
}
