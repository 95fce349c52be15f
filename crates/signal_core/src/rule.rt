//! What a user says of kinds, the rule of the table, and what its steps tell.

use crate::view::{About, Nothing, SigView};
use atomic_table::{Join, Play, Split, TableRule};
use std::marker::{Brand, PhantomData};

/// Says which numbers show what a kind stands for. Who emits a kind must have such a number, and who
/// absorbs it knows that there is one.
pub trait Kinds {
    ghost use Rattle.std.specs.Prelude.{ℕ};

    ghost shows: { ℕ → ℕ → Type 0 };
}

pub struct SigRule<K> {
    kinds: PhantomData<K>,
}

impl<K: Kinds> TableRule<Nothing, SigView, About> for SigRule<K> {
    ghost use Rattle.std.specs.Prelude.{Some};
    ghost use Rattle.signal_core.specs.Rule.{Rule};
    ghost use Rattle.signal_core.specs.Seating.{fresh};

    ghost holds = { Rule K.shows };

    ghost first = { λ _. fresh (Some 0) };
}

/// Names what a step tells: of the word found, and of the seat after it. The proof of a call
/// picks it.
pub(crate) trait Doing {
    ghost use Rattle.std.specs.Prelude.{ℕ};
    ghost use Rattle.signal_core.specs.Told.{Sat};

    ghost gives: { ℕ → Sat → Type 0 };
}

impl Doing for Brand {
    ghost gives = { λ _ _. Unit {0} };
}

pub(crate) struct Does<M> {
    doing: PhantomData<M>,
}

impl<M: Doing> Play<Nothing, SigView> for Does<M> {
    ghost then = { λ _ _ n m. M.gives n m };
}

pub(crate) struct Draws;

impl Play<Nothing, SigView> for Draws {
    ghost use Rattle.signal_core.specs.Told.{draws};

    ghost then = { draws };
}

pub(crate) struct Newcomer;

impl Split<SigView> for Newcomer {
    ghost use Rattle.signal_core.specs.Seating.{stays, comes};

    ghost left = { stays };

    ghost right = { comes };
}

pub(crate) struct TakesIn;

impl Join<SigView> for TakesIn {
    ghost use Rattle.signal_core.specs.Seating.{took_in, spent_view};

    ghost both = { took_in };

    ghost spent = { spent_view };
}
