//! Where the hash of a key leads.
ghost use Rattle.std.specs.Prelude.{◌≡◌, ◌≤◌};
ghost use Rattle.std.specs.Int.{IsPowerOfTwo};
ghost use Rattle.row_model.specs.Routes.{bucket_of, batch_of};

/// The bucket and the batch of a hash.
#[derive(Debug, Clone, Copy, PartialEq, Eq)]
pub struct Route {
    pub bucket: u32,
    pub batch: u32,
}

impl Route {
    /// Where a hash leads among so many buckets and batches.
    #[tactic(auto, unfolding(crate::specs::Routes::bucket_of, crate::specs::Routes::batch_of))]
    pub fn of(hash: u32, buckets: u32, batches: u32) -> Route
        requires buckets { IsPowerOfTwo buckets × (buckets ≤ 262144) }
        requires batches { IsPowerOfTwo batches × (batches ≤ 64) }
        ensures bucket { result.bucket ≡ bucket_of buckets hash }
        ensures batch { result.batch ≡ batch_of buckets batches hash }
    {
        Route {
            bucket: hash & (buckets - 1),
            batch: hash.rotate_right(buckets.trailing_zeros()) & (batches - 1),
        }
    }
}
