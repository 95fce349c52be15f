//! What is done in a growth by the one worker who is elected for it.
ghost use Rattle.std.specs.Prelude.{◌≡◌, ◌≤◌, [], IfSome};
ghost use Rattle.wait_core.specs.Parties.{Elected};
ghost use Rattle.wait_core.specs.Seating.{party_of};
ghost use Rattle.join_law.specs.Layout.{SizesOf};
ghost use Rattle.join_law.specs.Phases.{REALLOCATE, growth_phase};
ghost use Rattle.join_law.specs.Stands.{SizesFit};
ghost use Rattle.join_party.specs.Joins.{join};
ghost use Rattle.shared_tuples.specs.Growing.{bar_of};
ghost use Rattle.shared_tuples.specs.Tuples.{AreSizes};
ghost use Rattle.hash_build.specs.Growths.{Grows, IsElecting, IsGrowing, MayGrow, other_than, phase_at};
ghost use Rattle.hash_build.specs.Hashing.{KnowsThese};

use crate::growths::GrowthPhases;
use crate::report::end_growth;
use crate::sizes::read_sizes;
use crate::wanted::has_room;
use join_party::{HashStep, JoinSeats, JoinTables, Look, Word};
use shared_tuples::{Growth, Sizes};
use std::sync::Wait;

// Sets the sizes of all batches of a half to 0.
fn clear_batch_sizes<'r>(tables: &JoinTables<'r>, seats: &mut JoinSeats<'r>, half: u32)
    requires table { seats.old.wait.table_id ≡ tables.now.waits.table_id }
    requires idle { seats.old.wait.view.place ≡ [] }
    requires half { half ≤ 1 }
    ensures table { (seats.new.wait.table_id ≡ seats.old.wait.table_id) × (seats.new.wait.id ≡ seats.old.wait.id) }
    ensures others { (seats.new.lock ≡ seats.old.lock) × (seats.new.signal ≡ seats.old.signal) }
    ensures view { seats.new.wait.view ≡ seats.old.wait.view }
{
    for batch in 0..64 {
        let at = half * 64 + batch;
        tables
            .waits
            .client(&mut seats.wait, HashStep::ClearBatchSize { at });
    }
}

// The sizes that a growth brings, where it is still right: buckets grow in one batch alone, the sizes have room, and
// those before the growth can be told from them.
fn next_sizes<'r>(tables: &JoinTables<'r>, sizes: Sizes, growth: Growth) -> Option<Sizes>
    requires fit { (z : SizesOf) × AreSizes sizes z × SizesFit (join tables.now.waits.party) z }
    ensures next { IfSome result (MayGrow (join tables.now.waits.party) growth sizes) }
    ensures few { IfSome result (λ grown. (grown.half ≤ 1) × (grown.batches ≤ 64)) }
{
    let first_batches = tables.waits.party().first_batches;
    let grown = sizes.grown(growth, first_batches);
    if growth == Growth::Buckets && sizes.batches > 1 {
        return None;
    }
    if !has_room(tables, sizes, growth) {
        return None;
    }
    if grown.before(growth, first_batches) != sizes {
        return None;
    }
    Some(grown)
}

// Stores new sizes, in place of those that the seat knows.
fn store_sizes<'r>(
    tables: &JoinTables<'r>,
    seats: &mut JoinSeats<'r>,
    growth: Growth,
    phases: GrowthPhases,
    sizes: Sizes,
    grown: Sizes,
)
    requires growing { IsGrowing tables.now seats.old phases }
    requires phase { growth_phase (bar_of growth) (phase_at growth phases) ≡ REALLOCATE }
    requires elected { Elected seats.old.wait.view.elections (bar_of growth) (phase_at growth phases) }
    requires fresh { Elected seats.old.wait.view.client.stored (bar_of growth) (phase_at growth phases) → ⊥ }
    requires other { IsElecting (other_than growth) phases }
    requires known { KnowsThese (join tables.now.waits.party) (party_of seats.old.wait.view) sizes }
    requires grown { MayGrow (join tables.now.waits.party) growth sizes grown × (grown.half ≤ 1) × (grown.batches ≤ 64) }
    ensures growing { IsGrowing tables.now seats.new phases × (seats.new.wait.id ≡ seats.old.wait.id) }
    ensures grows { Grows seats.old seats.new }
{
    clear_batch_sizes(tables, seats, grown.half);
    tables.waits.client(
        &mut seats.wait,
        HashStep::StoreSizes {
            bar: growth.bar(),
            word: grown.word(),
        },
    );
}

// Stores the sizes that a growth brings, where it is still right.
fn change_sizes<'r>(
    tables: &JoinTables<'r>,
    seats: &mut JoinSeats<'r>,
    growth: Growth,
    phases: GrowthPhases,
)
    requires growing { IsGrowing tables.now seats.old phases }
    requires phase { growth_phase (bar_of growth) (phase_at growth phases) ≡ REALLOCATE }
    requires elected { Elected seats.old.wait.view.elections (bar_of growth) (phase_at growth phases) }
    requires fresh { Elected seats.old.wait.view.client.stored (bar_of growth) (phase_at growth phases) → ⊥ }
    requires other { IsElecting (other_than growth) phases }
    ensures growing { IsGrowing tables.now seats.new phases × (seats.new.wait.id ≡ seats.old.wait.id) }
    ensures grows { Grows seats.old seats.new }
{
    let sizes = read_sizes(tables, seats);
    if let Some(grown) = next_sizes(tables, sizes, growth) {
        store_sizes(tables, seats, growth, phases, sizes, grown);
    }
}

// Does the elected worker's part in REALLOCATE. A growth of buckets has then ended, as far as reports go.
pub(crate) fn resize<'r, R: Wait>(
    rt: &R,
    tables: &JoinTables<'r>,
    seats: &mut JoinSeats<'r>,
    growth: Growth,
    phases: GrowthPhases,
)
    requires growing { IsGrowing tables.now seats.old phases }
    requires phase { growth_phase (bar_of growth) (phase_at growth phases) ≡ REALLOCATE }
    requires elected { Elected seats.old.wait.view.elections (bar_of growth) (phase_at growth phases) }
    requires fresh { Elected seats.old.wait.view.client.stored (bar_of growth) (phase_at growth phases) → ⊥ }
    requires other { IsElecting (other_than growth) phases }
    ensures growing { IsGrowing tables.now seats.new phases × (seats.new.wait.id ≡ seats.old.wait.id) }
    ensures grows { Grows seats.old seats.new }
{
    change_sizes(tables, seats, growth, phases);
    if growth == Growth::Buckets {
        end_growth(rt, tables, seats, false, None);
    }
}

// How many rows a batch has.
fn batch_size<'r>(tables: &JoinTables<'r>, seats: &mut JoinSeats<'r>, half: u32, batch: u32) -> u64
    requires table { seats.old.wait.table_id ≡ tables.now.waits.table_id }
    requires idle { seats.old.wait.view.place ≡ [] }
    requires few { (half ≤ 1) × (batch ≤ 63) }
    ensures table { (seats.new.wait.table_id ≡ seats.old.wait.table_id) × (seats.new.wait.id ≡ seats.old.wait.id) }
    ensures others { (seats.new.lock ≡ seats.old.lock) × (seats.new.signal ≡ seats.old.signal) }
    ensures view { seats.new.wait.view ≡ seats.old.wait.view }
{
    let word = Word::BatchSize(half * 64 + batch);
    tables
        .waits
        .client(&mut seats.wait, HashStep::Load(Look::Plain(word)))
        .old
}

// The size of the largest batch, and whether one that is over the budget has all rows of the batch that it was split
// off: then more batches would be of no use.
fn judge_batches<'r>(
    tables: &JoinTables<'r>,
    seats: &mut JoinSeats<'r>,
    sizes: Sizes,
    old: Sizes,
) -> (u64, bool)
    requires table { seats.old.wait.table_id ≡ tables.now.waits.table_id }
    requires idle { seats.old.wait.view.place ≡ [] }
    requires few { (sizes.half ≤ 1) × (sizes.batches ≤ 64) × (old.half ≤ 1) × (old.batches ≤ 64) }
    ensures table { (seats.new.wait.table_id ≡ seats.old.wait.table_id) × (seats.new.wait.id ≡ seats.old.wait.id) }
    ensures others { (seats.new.lock ≡ seats.old.lock) × (seats.new.signal ≡ seats.old.signal) }
    ensures view { seats.new.wait.view ≡ seats.old.wait.view }
{
    let budget = u64::from(tables.plan.mem);
    let mut largest = 0;
    let mut stopped = false;
    let parents = u32::max(old.batches, 1);
    for batch in 0..sizes.batches {
        let rows = batch_size(tables, seats, sizes.half, batch);
        let parent = batch_size(tables, seats, old.half, batch % parents);
        largest = u64::max(largest, rows);
        stopped = stopped || rows > budget && rows == parent;
    }
    (largest, stopped)
}

// Decides whether batches may grow further.
pub(crate) fn decide<'r, R: Wait>(
    rt: &R,
    tables: &JoinTables<'r>,
    seats: &mut JoinSeats<'r>,
    phases: GrowthPhases,
)
    requires growing { IsGrowing tables.now seats.old phases }
    ensures growing { IsGrowing tables.now seats.new phases × (seats.new.wait.id ≡ seats.old.wait.id) }
    ensures grows { Grows seats.old seats.new }
{
    let sizes = read_sizes(tables, seats);
    let old = sizes.before(Growth::Batches, tables.waits.party().first_batches);
    let (largest, stopped) = judge_batches(tables, seats, sizes, old);
    end_growth(rt, tables, seats, stopped, Some(largest));
}
