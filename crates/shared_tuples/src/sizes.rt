//! The sizes in force, which stand in one word.
ghost use Rattle.std.specs.Prelude.{◌≡◌, ◌≤◌, ◌+◌, []};
ghost use Rattle.wait_core.specs.Seating.{party_of};
ghost use Rattle.join_law.specs.Layout.{Join, SizesOf, sizes_of};
ghost use Rattle.join_law.specs.Phases.{WithSizes};
ghost use Rattle.join_law.specs.Routes.{before_growth};
ghost use Rattle.join_law.specs.Stands.{SizesFit};
ghost use Rattle.join_party.specs.Joins.{join};
ghost use Rattle.shared_tuples.specs.Growing.{bar_of, grown_sizes};
ghost use Rattle.shared_tuples.specs.Tuples.{AreSizes, KnowsSizes};

use join_party::{HashParty, HashStep, Look, Word};
use wait_core::{WaitSeat, WaitTable};

/// The half of the heads that holds the rows, and how many buckets and batches there are.
#[derive(Debug, Clone, Copy, PartialEq, Eq)]
pub struct Sizes {
    pub half: u32,
    pub buckets: u32,
    pub batches: u32,
}

/// What grows, where there is too little room for the rows that are hashed.
#[derive(Debug, Clone, Copy, PartialEq, Eq)]
pub enum Growth {
    Batches,
    Buckets,
}

impl Growth {
    /// The number of its barrier.
    pub fn bar(self) -> u32
        ensures { result ≡ bar_of self }
    {
        match self {
            Growth::Batches => 1,
            Growth::Buckets => 2,
        }
    }
}

impl Sizes {
    /// The sizes that the word says, of at most 524,288 buckets.
    pub fn of(word: u64) -> Sizes
        requires few { (sizes_of word).buckets ≤ 524288 }
        ensures { AreSizes result (sizes_of word) }
    {
        Sizes {
            half: (word % 2) as u32,
            buckets: (word / 256) as u32,
            batches: (word / 2 % 128) as u32,
        }
    }

    /// The word that says the sizes.
    pub fn word(self) -> u64
        requires half { self.half ≤ 1 }
        requires batches { self.batches ≤ 64 }
        ensures { AreSizes self (sizes_of result) }
    {
        u64::from(self.buckets) * 256 + u64::from(self.batches * 2 + self.half)
    }

    /// The sizes before a growth, from those that it brought.
    pub fn before(self, growth: Growth, first_batches: u32) -> Sizes
        requires half { self.half ≤ 1 }
        ensures few { (result.half ≤ 1) × (result.buckets ≤ self.buckets) × (1 ≤ self.batches → result.batches ≤ self.batches) }
        ensures some { 1 ≤ self.buckets → 1 ≤ self.batches → 1 ≤ result.buckets + result.batches }
        ensures sizes { (j : Join) (z : SizesOf) → j.first_batches ≡ first_batches → AreSizes self z → AreSizes result (before_growth j (bar_of growth) z) }
    {
        let half = 1 - self.half;
        match growth {
            Growth::Batches => Sizes {
                half,
                buckets: self.buckets,
                batches: if self.batches == first_batches {
                    1
                } else {
                    self.batches / 2
                },
            },
            Growth::Buckets => Sizes {
                half,
                buckets: self.buckets / 2,
                batches: self.batches,
            },
        }
    }

    /// The sizes that a growth brings, in the other half: twice the buckets; or twice the batches, but
    /// `first_batches` where there was one.
    pub fn grown(self, growth: Growth, first_batches: u32) -> Sizes
        requires few { (self.half ≤ 1) × (self.buckets ≤ 524288) × (self.batches ≤ 64) }
        ensures sizes { result ≡ grown_sizes self growth first_batches }
    {
        let half = 1 - self.half;
        match growth {
            Growth::Batches => Sizes {
                half,
                buckets: self.buckets,
                batches: if self.batches == 1 {
                    first_batches
                } else {
                    2 * self.batches
                },
            },
            Growth::Buckets => Sizes {
                half,
                buckets: 2 * self.buckets,
                batches: self.batches,
            },
        }
    }
}

// Reads the sizes, which the seat knows.
pub(crate) fn read_sizes<'r>(
    waits: &WaitTable<HashParty<'r>>,
    seat: &mut WaitSeat<HashParty<'r>>,
) -> Sizes
    requires table { seat.old.table_id ≡ waits.now.table_id }
    requires idle { seat.old.view.place ≡ [] }
    requires known { KnowsSizes (party_of seat.old.view) }
    ensures table { (seat.new.table_id ≡ seat.old.table_id) × (seat.new.id ≡ seat.old.id) }
    ensures view { seat.new.view ≡ seat.old.view }
    ensures sizes { WithSizes (party_of seat.old.view) (λ z. AreSizes result z × SizesFit (join waits.now.party) z) }
{
    let word = waits
        .client(seat, HashStep::Load(Look::Plain(Word::Sizes)))
        .old;
    Sizes::of(word)
}
