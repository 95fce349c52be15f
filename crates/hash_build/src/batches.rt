//! How many rows each batch has.
ghost use Rattle.std.specs.Prelude.{◌≡◌, ◌<◌, ◌≤◌, [], MatchOption, ⊤};

use join_party::{HashStep, JoinSeats, JoinTables};
use shared_tuples::Sizes;

/// How many of some rows each batch has.
pub(crate) type Counts = [u32; 64];

// Counts a row of a batch.
pub(crate) fn count_row(counts: &mut Counts, batch: Option<u32>)
    requires batch { MatchOption batch ⊤ (λ b. b < 64) }
{
    if let Some(batch) = batch {
        let count = &mut counts[batch as usize];
        *count = u32::wrapping_add(*count, 1);
    }
}

// Adds to the sizes of batches, and answers the largest that comes of it.
pub(crate) fn add_batch_sizes<'r>(
    tables: &JoinTables<'r>,
    seats: &mut JoinSeats<'r>,
    sizes: Sizes,
    counts: &Counts,
) -> u64
    requires table { seats.old.wait.table_id ≡ tables.now.waits.table_id }
    requires idle { seats.old.wait.view.place ≡ [] }
    requires sizes { (sizes.half ≤ 1) × (sizes.batches ≤ 64) }
    ensures table { (seats.new.wait.table_id ≡ seats.old.wait.table_id) × (seats.new.wait.id ≡ seats.old.wait.id) }
    ensures others { (seats.new.lock ≡ seats.old.lock) × (seats.new.signal ≡ seats.old.signal) }
    ensures view { seats.new.wait.view ≡ seats.old.wait.view }
{
    let mut largest = 0;
    for batch in 0..sizes.batches {
        let by = u64::from(counts[batch as usize]);
        let at = sizes.half * 64 + batch;
        if by > 0 {
            let old = tables
                .waits
                .client(&mut seats.wait, HashStep::AddBatchSize { at, by })
                .old;
            largest = u64::max(largest, u64::wrapping_add(old, by));
        }
    }
    largest
}
