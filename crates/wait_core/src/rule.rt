//! The rule of the table, and what its steps tell.
ghost use Rattle.std.specs.Prelude.{◌≡◌};

use crate::party::Party;
use crate::view::{Kept, Size, WaitView};
use atomic_table::{Join, Play, Split, TableRule};
use std::marker::{Brand, PhantomData};

// What the table is told once.
#[derive(Drop)]
pub struct About<P: Party> {
    pub(crate) party: P,
    pub(crate) size: Size,
    pub(crate) phase: u64,
    pub(crate) count: u32,
    ghost counted: { count ≡ P.word_count party },
}

pub struct WaitRule<P> {
    party: PhantomData<P>,
}

impl<P: Party> TableRule<Kept, WaitView<P::View>, About<P>> for WaitRule<P> {
    ghost use Rattle.std.specs.Prelude.{Some};
    ghost use Rattle.wait_core.specs.Rule.{Rule};
    ghost use Rattle.wait_core.specs.Seating.{fresh};

    ghost holds = { λ a s. Rule (P.means a.party) a.size a.phase a.count s };

    ghost first = { λ a. fresh (P.first a.party) (Some 0) };
}

/// Names what a step tells: of the word found, and of the seat after it. The proof of a call
/// picks it.
pub(crate) trait Doing<V> {
    ghost use Rattle.std.specs.Prelude.{ℕ};
    ghost use Rattle.atomic_table.specs.Table.{Me};
    ghost use Rattle.wait_core.specs.declared.view.Kept.{Kept};

    ghost gives: { ℕ → Me Kept V → Type 0 };
}

impl<V> Doing<V> for Brand {
    ghost gives = { λ _ _. Unit {0} };
}

pub(crate) struct Does<M> {
    doing: PhantomData<M>,
}

impl<V, M: Doing<V>> Play<Kept, V> for Does<M> {
    ghost then = { λ _ _ n m. M.gives n m };
}

pub(crate) struct Draws;

impl<V> Play<Kept, WaitView<V>> for Draws {
    ghost use Rattle.wait_core.specs.Told.{draws};

    ghost then = { draws };
}

/// What stays with the seat that drew a number, and what the new seat has.
pub(crate) trait Coming<V> {
    ghost right: { V → V };
}

impl<V> Coming<V> for Brand {
    ghost right = { λ v. v };
}

pub(crate) struct Newcomer<M> {
    coming: PhantomData<M>,
}

impl<V, M: Coming<WaitView<V>>> Split<WaitView<V>> for Newcomer<M> {
    ghost use Rattle.wait_core.specs.Seating.{stays};

    ghost left = { stays };

    ghost right = { M.right };
}

pub(crate) struct TakesIn<P> {
    party: PhantomData<P>,
}

impl<P: Party> Join<WaitView<P::View>> for TakesIn<P> {
    ghost use Rattle.wait_core.specs.Seating.{took_in, spent_view};

    ghost both = { took_in P.both };

    ghost spent = { spent_view P.spent };
}
