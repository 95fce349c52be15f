//! What is told of the joins that are done.

ghost use Rattle.std.specs.Prelude.{◌≡◌, ℕ, Option, Some, None};
ghost use Rattle.join_engine.specs.declared.tally.JoinSizes.{JoinSizes as Sizes};
ghost use Rattle.join_engine.specs.Joins.{IsJoined, one_more, sizes_of};

use crate::Joined;

/// How large a join was: the rows of both tables, its workers, and its pairs.
#[derive(Debug, Clone, Copy, PartialEq, Eq)]
pub struct JoinSizes {
    pub inner: u32,
    pub outer: u32,
    pub workers: u32,
    pub pairs: u32,
}

/// Who is told of each join that is done.
pub trait Tally {
    /// How many joins it was told of. It never falls, and stands still at 2^64 - 1.
    ghost joins: { Self → ℕ };

    /// The sizes of the last of them.
    ghost last: { Self → Option Sizes };

    /// Is told of a join that is done. It always returns, and takes no memory.
    fn joined(&mut self, done: &Joined<'_>)
        requires { IsJoined done.now }
        ensures joins { joins self.new ≡ one_more (joins self.old) }
        ensures last { last self.new ≡ Some (sizes_of done.now) };
}

/// Keeps how many joins were done, and the sizes of the last of them.
#[derive(Debug, Clone, Copy, PartialEq, Eq)]
pub struct LastJoin {
    pub joins: u64,
    pub last: Option<JoinSizes>,
}

impl LastJoin {
    /// No join yet.
    pub fn new() -> LastJoin
        ensures joins { result.joins ≡ 0 }
        ensures last { result.last ≡ None }
    {
        LastJoin {
            joins: 0,
            last: None,
        }
    }
}

impl Tally for LastJoin {
    ghost joins = { λ t. t.joins };

    ghost last = { λ t. t.last };

    fn joined(&mut self, done: &Joined<'_>) {
        self.joins = self.joins.saturating_add(1);
        self.last = Some(JoinSizes {
            inner: done.tables.inner().len(),
            outer: done.tables.outer().len(),
            workers: done.tables.plan.workers,
            pairs: done.pairs.len() as u32,
        });
    }
}
