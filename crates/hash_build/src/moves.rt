//! How rows move while a growth is under way: all are taken out of the half that it leaves, head by head, and
//! go where the new sizes lead them (PostgreSQL's `ExecParallelHashRepartitionFirst`,
//! `ExecParallelHashRepartitionRest` and the reinsertion of `ExecParallelHashIncreaseNumBuckets`).
ghost use Rattle.std.specs.Prelude.{◌≡◌, ◌<◌, ◌+◌, ℕ, []};
ghost use Rattle.wait_core.specs.Seating.{client_moved, party_of};
ghost use Rattle.join_law.specs.Quiet.{AllSwept};
ghost use Rattle.join_law.specs.Views.{dropped};
ghost use Rattle.join_party.specs.Joins.{join};
ghost use Rattle.shared_tuples.specs.Growing.{MayTakeOld, bar_of};
ghost use Rattle.shared_tuples.specs.Tuples.{Hashing, IsReady};
ghost use Rattle.hash_build.specs.Growths.{Grows, IsGrowing, IsMoving, MayMove, MovesRows, SweptTo, phase_at};
ghost use Rattle.hash_build.specs.Hashing.{KnowsThese};

use crate::batches::{Counts, add_batch_sizes, count_row};
use crate::growths::GrowthPhases;
use crate::rows::place_hashed;
use crate::sizes::read_sizes;
use crate::starts::draw_start;
use join_party::{JoinSeats, JoinTables};
use row_model::Side;
use shared_tuples::{Growth, Sizes, hash_word, take_old};
use std::sync::Wait;

// Moves a row that was taken, and answers its batch.
fn move_row<'r, R: Wait>(
    rt: &R,
    tables: &JoinTables<'r>,
    seats: &mut JoinSeats<'r>,
    sizes: Sizes,
    row: u32,
) -> u32
    requires table { seats.old.wait.table_id ≡ tables.now.waits.table_id }
    requires idle { seats.old.wait.view.place ≡ [] }
    requires phase { Hashing (party_of seats.old.wait.view) }
    requires known { KnowsThese (join tables.now.waits.party) (party_of seats.old.wait.view) sizes }
    requires row { IsReady (party_of seats.old.wait.view) row × (row < (join tables.now.waits.party).inner) }
    ensures table { (seats.new.wait.table_id ≡ seats.old.wait.table_id) × (seats.new.wait.id ≡ seats.old.wait.id) }
    ensures others { (seats.new.lock ≡ seats.old.lock) × (seats.new.signal ≡ seats.old.signal) }
    ensures moved { seats.new.wait.view ≡ client_moved seats.old.wait.view (dropped seats.old.wait.view.client row) }
    ensures few { result < 64 }
{
    let hash = hash_word(&tables.waits, &mut seats.wait, row);
    place_hashed(rt, tables, seats, sizes, Side::Inner, hash, row)
}

// Moves the rows of one head of the old half, until it was found empty, and counts them by their new batches.
fn empty_head<'r, R: Wait>(
    rt: &R,
    tables: &JoinTables<'r>,
    seats: &mut JoinSeats<'r>,
    growth: Growth,
    sizes: Sizes,
    turn: u32,
    counts: &mut Counts,
)
    requires table { seats.old.wait.table_id ≡ tables.now.waits.table_id }
    requires idle { seats.old.wait.view.place ≡ [] }
    requires turn { MayTakeOld (join tables.now.waits.party) (party_of seats.old.wait.view) growth turn }
    requires known { KnowsThese (join tables.now.waits.party) (party_of seats.old.wait.view) sizes }
    requires hand { seats.old.wait.view.client.hand ≡ [] }
    ensures table { (seats.new.wait.table_id ≡ seats.old.wait.table_id) × (seats.new.wait.id ≡ seats.old.wait.id) }
    ensures others { (seats.new.lock ≡ seats.old.lock) × (seats.new.signal ≡ seats.old.signal) }
    ensures moves { MovesRows seats.old.wait.view seats.new.wait.view }
    ensures swept { SweptTo growth turn (party_of seats.old.wait.view) → SweptTo growth (turn + 1) (party_of seats.new.wait.view) }
{
    for _ in rt.forever() {
        let Some(row) = take_old(rt, tables, seats, growth, turn) else {
            return;
        };
        let batch = move_row(rt, tables, seats, sizes, row);
        count_row(counts, Some(batch));
    }
    unreachable!()
}

// Moves the rows of the heads of the old half from the first of these on.
fn empty_heads<'r, R: Wait>(
    rt: &R,
    tables: &JoinTables<'r>,
    seats: &mut JoinSeats<'r>,
    growth: Growth,
    sizes: Sizes,
    first: u32,
    heads: u32,
    counts: &mut Counts,
)
    requires table { seats.old.wait.table_id ≡ tables.now.waits.table_id }
    requires idle { seats.old.wait.view.place ≡ [] }
    requires turns { (turn : ℕ) → turn < heads → MayTakeOld (join tables.now.waits.party) (party_of seats.old.wait.view) growth turn }
    requires known { KnowsThese (join tables.now.waits.party) (party_of seats.old.wait.view) sizes }
    requires hand { seats.old.wait.view.client.hand ≡ [] }
    requires attached { SweptTo growth 0 (party_of seats.old.wait.view) }
    ensures table { (seats.new.wait.table_id ≡ seats.old.wait.table_id) × (seats.new.wait.id ≡ seats.old.wait.id) }
    ensures others { (seats.new.lock ≡ seats.old.lock) × (seats.new.signal ≡ seats.old.signal) }
    ensures moves { MovesRows seats.old.wait.view seats.new.wait.view }
    ensures swept { first ≡ 0 → SweptTo growth heads (party_of seats.new.wait.view) }
{
    for turn in first..heads {
        empty_head(rt, tables, seats, growth, sizes, turn, counts);
    }
}

// Moves all rows out of the old half, together with whoever else takes part, and adds to the sizes of the new
// batches. Workers who come together begin at heads that are far from one another, and then go through all.
pub(crate) fn move_rows<'r, R: Wait>(
    rt: &R,
    tables: &JoinTables<'r>,
    seats: &mut JoinSeats<'r>,
    growth: Growth,
    phases: GrowthPhases,
)
    requires growing { IsGrowing tables.now seats.old phases }
    requires moving { IsMoving growth phases × MayMove growth phases }
    ensures growing { IsGrowing tables.now seats.new phases × (seats.new.wait.id ≡ seats.old.wait.id) }
    ensures swept { AllSwept (join tables.now.waits.party) (party_of seats.new.wait.view) (bar_of growth) (phase_at growth phases) }
    ensures grows { Grows seats.old seats.new }
{
    let sizes = read_sizes(tables, seats);
    let old = sizes.before(growth, tables.waits.party().first_batches);
    let heads = old.buckets + old.batches - 1;
    let workers = tables.plan.workers;
    let first = draw_start(tables, seats, workers) * heads / workers;
    let mut counts = [0u32; 64];
    empty_heads(rt, tables, seats, growth, sizes, first, heads, &mut counts);
    empty_heads(rt, tables, seats, growth, sizes, 0, heads, &mut counts);
    add_batch_sizes(tables, seats, sizes, &counts);
}
