//! What a user says of the guarded words, the rule of the table, and what its steps tell.
use crate::step::LwStep;
use crate::view::{Size, View, Waiters};
use atomic_table::{Join, Play, Split, TableRule};
use std::marker::{Brand, PhantomData};

/// Says which lists of four words are lawful for a lock. Four zeros are lawful for each lock.
pub trait Guarded {
    ghost use Rattle.std.specs.Prelude.{ℕ, List, [], ◌∷◌};

    ghost lawful: { ℕ → List ℕ → Type 0 };

    ghost zeros: { (l : ℕ) → lawful l (0 ∷ 0 ∷ 0 ∷ 0 ∷ []) };
}

pub struct LwRule<G> {
    guarded: PhantomData<G>,
}

impl<G: Guarded> TableRule<Waiters, View, Size> for LwRule<G> {
    ghost use Rattle.std.specs.Prelude.{Some};
    ghost use Rattle.lw_core.specs.Machine.{fresh};
    ghost use Rattle.lw_core.specs.Rule.{Rule};

    ghost holds = { Rule G.lawful };

    ghost first = { λ _. fresh (Some 0) };
}

/// Names the table's size and the step that a call makes, for the one play of all kinds.
pub trait Doing {
    ghost use Rattle.lw_core.specs.declared.step.LwStep.{LwStep};
    ghost use Rattle.lw_core.specs.declared.view.Size.{Size};

    ghost size: { Size };

    ghost step: { LwStep };
}

impl Doing for Brand {
    ghost use Rattle.lw_core.specs.declared.step.LwStep.TheVariants.{WaitLoad};

    ghost size = { record { locks = 1; procs = 1 } };

    ghost step = { WaitLoad };
}

pub struct Does<K, G> {
    doing: PhantomData<(K, G)>,
}

impl<K: Doing, G: Guarded> Play<Waiters, View> for Does<K, G> {
    ghost use Rattle.lw_core.specs.Told.{does};

    ghost then = { does G.lawful K.size K.step };
}

pub struct Looks<K> {
    doing: PhantomData<K>,
}

impl<K: Doing> Play<Waiters, View> for Looks<K> {
    ghost use Rattle.lw_core.specs.Told.{looks};

    ghost then = { looks K.size };
}

pub struct DrawsOne;

impl Play<Waiters, View> for DrawsOne {
    ghost use Rattle.lw_core.specs.Told.{draws_one};

    ghost then = { draws_one };
}

pub struct Newcomer;

impl Split<View> for Newcomer {
    ghost use Rattle.lw_core.specs.Runs.{stays, comes};

    ghost left = { stays };

    ghost right = { comes };
}

pub struct TakesIn;

impl Join<View> for TakesIn {
    ghost use Rattle.lw_core.specs.Runs.{both, spent};

    ghost both = { both };

    ghost spent = { spent };
}
