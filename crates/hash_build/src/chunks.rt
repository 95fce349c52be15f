//! How a side's rows are hashed, chunk by chunk, until none is left to claim.
ghost use Rattle.std.specs.Prelude.{◌≡◌, ◌≤◌, ◌+◌, [], ◌∷◌, true, None};
ghost use Rattle.wait_core.specs.Seating.{client_moved, party_of};
ghost use Rattle.join_law.specs.Phases.{HASH_INNER, HASH_OUTER, build};
ghost use Rattle.join_law.specs.Views.{stretch};
ghost use Rattle.join_party.specs.Claims.{count_of, first_of, has_ended};
ghost use Rattle.join_party.specs.Joins.{join};
ghost use Rattle.join_party.specs.Workers.{IsAt};
ghost use Rattle.row_model.specs.declared.Side.TheVariants.{Inner, Outer};
ghost use Rattle.shared_tuples.specs.Tuples.{Hashing};
ghost use Rattle.hash_build.specs.Growths.{AreElecting, IsGrowing};
ghost use Rattle.hash_build.specs.Hashing.{ClaimsNone, HashesAt, HashesOnly, HoldsNoMore, IsFree, KeepsSizes, KnowsThese, Reached, ReadsSizes, SameNumbers};

use crate::batches::{Counts, add_batch_sizes, count_row};
use crate::growths::{GrowthPhases, enter_growths, leave_growths, take_part};
use crate::report::report;
use crate::rows::hash_row;
use crate::sizes::read_sizes;
use join_party::{Chunk, JoinSeats, JoinTables, claim};
use proc_table::{Gate, Point, Steps};
use row_model::Side;
use shared_tuples::{Growth, Sizes};
use std::sync::Wait;
use std::sync::ledger::Ledger;

// Hashes the rows of a chunk, which are in hand, and counts them by their batches.
fn hash_chunk<'r, R: Wait, L: Ledger>(
    rt: &R,
    tables: &JoinTables<'r>,
    seats: &mut JoinSeats<'r>,
    sizes: Sizes,
    side: Side,
    chunk: Chunk,
    steps: &mut Steps<L>,
) -> Counts
    requires table { seats.old.wait.table_id ≡ tables.now.waits.table_id }
    requires idle { seats.old.wait.view.place ≡ [] }
    requires phase { HashesAt (party_of seats.old.wait.view) side }
    requires known { KnowsThese (join tables.now.waits.party) (party_of seats.old.wait.view) sizes }
    requires rows { (first_of (join tables.now.waits.party) side ≤ chunk.first) × (chunk.first + chunk.count ≤ first_of (join tables.now.waits.party) side + count_of (join tables.now.waits.party) side) }
    requires hand { seats.old.wait.view.client.hand ≡ stretch chunk.first chunk.count }
    ensures table { (seats.new.wait.table_id ≡ seats.old.wait.table_id) × (seats.new.wait.id ≡ seats.old.wait.id) }
    ensures others { (seats.new.lock ≡ seats.old.lock) × (seats.new.signal ≡ seats.old.signal) }
    ensures view { seats.new.wait.view ≡ client_moved seats.old.wait.view seats.new.wait.view.client }
    ensures only { HashesOnly seats.old.wait.view.client seats.new.wait.view.client × ClaimsNone seats.old.wait.view.client seats.new.wait.view.client × KeepsSizes seats.old.wait.view.client seats.new.wait.view.client }
    ensures hand { seats.new.wait.view.client.hand ≡ [] }
    ensures looks { steps.new ≡ steps.old + chunk.count }
{
    let mut counts = [0u32; 64];
    for row in chunk.first..chunk.first + chunk.count {
        let batch = hash_row(rt, tables, seats, sizes, side, row, steps);
        count_row(&mut counts, batch);
    }
    counts
}

// Hashes a chunk of inner rows, which are in hand, by the sizes in force, and reports it. The growth that is
// wanted then.
pub(crate) fn hash_inner_chunk<'r, R: Wait, L: Ledger>(
    rt: &R,
    tables: &JoinTables<'r>,
    seats: &mut JoinSeats<'r>,
    chunk: Chunk,
    steps: &mut Steps<L>,
) -> Option<Growth>
    requires table { IsAt tables.now seats.old }
    requires idle { (seats.old.wait.view.place ≡ []) × IsFree seats.old.lock.view }
    requires phase { Hashing (party_of seats.old.wait.view) × ReadsSizes (party_of seats.old.wait.view) }
    requires rows { (first_of (join tables.now.waits.party) Inner ≤ chunk.first) × (chunk.first + chunk.count ≤ first_of (join tables.now.waits.party) Inner + count_of (join tables.now.waits.party) Inner) }
    requires count { (1 ≤ chunk.count) × (chunk.count ≤ 64) }
    requires hand { seats.old.wait.view.client.hand ≡ stretch chunk.first chunk.count }
    ensures table { IsAt tables.now seats.new × (seats.new.wait.id ≡ seats.old.wait.id) }
    ensures signal { seats.new.signal ≡ seats.old.signal }
    ensures view { seats.new.wait.view ≡ client_moved seats.old.wait.view seats.new.wait.view.client }
    ensures only { HashesOnly seats.old.wait.view.client seats.new.wait.view.client × ClaimsNone seats.old.wait.view.client seats.new.wait.view.client }
    ensures stored { seats.new.wait.view.client.stored ≡ seats.old.wait.view.client.stored }
    ensures hand { seats.new.wait.view.client.hand ≡ [] }
    ensures free { IsFree seats.new.lock.view × SameNumbers seats.old.lock.view seats.new.lock.view }
    ensures holds { HoldsNoMore seats.old.lock.view seats.new.lock.view }
    ensures grants { seats.new.lock.view.grants ≡ seats.old.lock.view.grants + 1 }
    ensures looks { steps.new ≡ steps.old + chunk.count }
{
    let sizes = read_sizes(tables, seats);
    let counts = hash_chunk(rt, tables, seats, sizes, Side::Inner, chunk, steps);
    let largest = add_batch_sizes(tables, seats, sizes, &counts);
    report(rt, tables, seats, sizes, chunk.count, largest)
}

// Hashes inner rows until none is left to claim, and takes part in each growth that is wanted.
pub(crate) fn hash_inner_rows<'r, G: Gate, R: Wait, L: Ledger>(
    rt: &R,
    tables: &JoinTables<'r>,
    seats: &mut JoinSeats<'r>,
    phases: GrowthPhases,
    worker: u32,
    gate: &G,
    steps: &mut Steps<L>,
) -> GrowthPhases
    requires growing { IsGrowing tables.now seats.old phases }
    requires elect { AreElecting phases }
    ensures growing { IsGrowing tables.now seats.new result × (seats.new.wait.id ≡ seats.old.wait.id) }
    ensures elect { AreElecting result }
    ensures reached { Reached seats.old seats.new steps.old steps.new }
    ensures ended { has_ended seats.new.wait.view.client Inner ≡ true }
{
    let mut at = phases;
    for _ in rt.forever() {
        let Some(chunk) = claim(tables, seats, Side::Inner) else {
            return at;
        };
        let wanted = hash_inner_chunk(rt, tables, seats, chunk, steps);
        gate.at(worker, Point::Chunk);
        if let Some(growth) = wanted {
            at = take_part(rt, tables, seats, growth, at);
        }
    }
    unreachable!()
}

// Hashes the inner rows, attached to both growth barriers.
pub(crate) fn hash_inner<'r, G: Gate, R: Wait, L: Ledger>(
    rt: &R,
    tables: &JoinTables<'r>,
    seats: &mut JoinSeats<'r>,
    worker: u32,
    gate: &G,
    steps: &mut Steps<L>,
)
    requires table { IsAt tables.now seats.old }
    requires idle { (seats.old.wait.view.place ≡ []) × (seats.old.wait.view.target ≡ None) × IsFree seats.old.lock.view }
    requires attached { seats.old.wait.view.attached ≡ (build, HASH_INNER) ∷ [] }
    requires hand { seats.old.wait.view.client.hand ≡ [] }
    ensures table { IsAt tables.now seats.new × (seats.new.wait.id ≡ seats.old.wait.id) }
    ensures idle { (seats.new.wait.view.place ≡ []) × (seats.new.wait.view.target ≡ None) }
    ensures attached { seats.new.wait.view.attached ≡ seats.old.wait.view.attached }
    ensures reached { Reached seats.old seats.new steps.old steps.new }
    ensures ended { has_ended seats.new.wait.view.client Inner ≡ true }
{
    let phases = enter_growths(rt, tables, seats);
    let phases = hash_inner_rows(rt, tables, seats, phases, worker, gate, steps);
    leave_growths(rt, tables, seats, phases);
}

// Hashes the outer rows.
pub(crate) fn hash_outer<'r, G: Gate, R: Wait, L: Ledger>(
    rt: &R,
    tables: &JoinTables<'r>,
    seats: &mut JoinSeats<'r>,
    worker: u32,
    gate: &G,
    steps: &mut Steps<L>,
)
    requires table { IsAt tables.now seats.old }
    requires idle { (seats.old.wait.view.place ≡ []) × IsFree seats.old.lock.view }
    requires attached { seats.old.wait.view.attached ≡ (build, HASH_OUTER) ∷ [] }
    requires hand { seats.old.wait.view.client.hand ≡ [] }
    ensures table { IsAt tables.now seats.new × (seats.new.wait.id ≡ seats.old.wait.id) }
    ensures view { seats.new.wait.view ≡ client_moved seats.old.wait.view seats.new.wait.view.client }
    ensures reached { Reached seats.old seats.new steps.old steps.new }
    ensures ended { has_ended seats.new.wait.view.client Outer ≡ true }
{
    let sizes = read_sizes(tables, seats);
    for _ in rt.forever() {
        let Some(chunk) = claim(tables, seats, Side::Outer) else {
            return;
        };
        hash_chunk(rt, tables, seats, sizes, Side::Outer, chunk, steps);
        gate.at(worker, Point::Chunk);
    }
    unreachable!()
}
