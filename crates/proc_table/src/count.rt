//! A number that only proofs know.

ghost use Rattle.std.specs.Prelude.{◌≡◌, ◌+◌, ℕ};
ghost use Rattle.std.specs.Borrow.{ftrue};

use std::marker::Model;

// A count that has no bytes. It begins at 0, and the next one is one more.
#[derive(Drop)]
pub(crate) struct Count {
    pub(crate) ghost number: { ℕ },
}

impl Model for Count {
    ghost also_owns = { λ _. ftrue };
}

impl Count {
    pub(crate) fn zero() -> Count
        ensures { result.number ≡ 0 }
    {
        Count {}
    }

    pub(crate) fn next(_before: &Count) -> Count
        ensures { result.number ≡ _before.now.number + 1 }
    {
        Count {}
    }
}
