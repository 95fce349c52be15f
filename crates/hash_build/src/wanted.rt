//! Which growth is wanted: of batches, where one has more rows than the budget, or of buckets, where
//! there is one batch with more rows than they are for.
ghost use Rattle.std.specs.Prelude.{◌≡◌, ◌≤◌, ◌*◌, true};
ghost use Rattle.shared_tuples.specs.Growing.{grown_sizes};
ghost use Rattle.hash_build.specs.Wanted.{growth_wanted, room_for, wanted_of, word_of};

use join_party::JoinTables;
use shared_tuples::{Growth, Sizes};

// The most buckets and batches that a growth brings.
const MOST_BUCKETS: u32 = 262_144;

const MOST_BATCHES: u32 = 64;

// The words that say which growth is wanted, and that growth is stopped.
const BUCKETS: u64 = 1;

const BATCHES: u64 = 2;

pub(crate) const STOPPED: u64 = 3;

/// Whether the sizes that a growth brings have room.
pub(crate) fn has_room<'r>(tables: &JoinTables<'r>, sizes: Sizes, growth: Growth) -> bool
    requires few { (sizes.half ≤ 1) × (sizes.buckets ≤ 262144) × (sizes.batches ≤ 64) }
    ensures room { result ≡ room_for tables.now sizes growth }
    ensures within { let grown = grown_sizes sizes growth tables.now.waits.party.first_batches in result ≡ true → (grown.buckets ≤ 262144) × (grown.batches ≤ 64) × (grown.buckets * grown.batches ≤ tables.now.waits.party.chains) }
{
    let party = tables.waits.party();
    let grown = sizes.grown(growth, party.first_batches);
    grown.buckets <= MOST_BUCKETS
        && grown.batches <= MOST_BATCHES
        && grown.buckets * grown.batches <= party.chains
}

/// The growth that is wanted where the largest batch has so many rows.
pub(crate) fn growth_wanted<'r>(
    tables: &JoinTables<'r>,
    sizes: Sizes,
    largest: u64,
) -> Option<Growth>
    requires few { (sizes.half ≤ 1) × (sizes.buckets ≤ 262144) × (sizes.batches ≤ 64) }
    ensures { result ≡ growth_wanted tables.now sizes largest }
{
    if largest > u64::from(tables.plan.mem) && has_room(tables, sizes, Growth::Batches) {
        Some(Growth::Batches)
    } else if sizes.batches == 1
        && largest >= u64::from(sizes.buckets)
        && has_room(tables, sizes, Growth::Buckets)
    {
        Some(Growth::Buckets)
    } else {
        None
    }
}

/// The word that says which growth is wanted.
pub(crate) fn word_of(growth: Option<Growth>) -> u64
    ensures { result ≡ word_of growth }
{
    match growth {
        None => 0,
        Some(Growth::Buckets) => BUCKETS,
        Some(Growth::Batches) => BATCHES,
    }
}

/// The growth that the word says is wanted.
pub(crate) fn wanted_of(word: u64) -> Option<Growth>
    ensures { result ≡ wanted_of word }
{
    match word {
        BUCKETS => Some(Growth::Buckets),
        BATCHES => Some(Growth::Batches),
        _ => None,
    }
}
