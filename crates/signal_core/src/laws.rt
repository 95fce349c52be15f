//! Theorems over states and runs of the machine's definitions. The functions do nothing.
ghost use Rattle.std.specs.Prelude.{◌≡◌, ℕ, List, Some};
ghost use mathlib.Core.Option as maybe;
ghost use lib.ListN.{get_elem?};
ghost use Rattle.signal_core.specs.declared.step.SigStep.{SigStep};
ghost use Rattle.signal_core.specs.declared.view.SigView.{SigView};
ghost use Rattle.signal_core.specs.Machine.{SigState, Allowed, after};
ghost use Rattle.signal_core.specs.Rule.{Rule};
ghost use Rattle.signal_core.specs.Runs.{Deed, Steps, Runs};
ghost use Rattle.signal_core.specs.Promises.{NumbersStand, EachPlaceFits, EachWordIsMade, EachBitIsEmitted, EachBitIsOwed, EachSwappedBitIsNewer, EachGenerationStands, EachEmissionShows, EachAbsorbedWasEmitted, EachSlotIsPublished, IsOpening, KeptByEach, HoldsInRuns, LastHasEmitted};
ghost use Rattle.signal_core.specs.Kept.{EmissionsAreKept};

use crate::rule::Kinds;
use crate::view::About;

/// A new table meets the rule.
pub fn opening_holds<K: Kinds>(about: About)
    ensures { (s : SigState) → IsOpening about s → Rule K.shows about s }
{}

/// Each step of the machine keeps the rule, kind by kind.
pub fn machine_step_keeps<K: Kinds>(about: About)
    ensures { (s : SigState) (id p : ℕ) (v : SigView) (x : SigStep) → Rule K.shows about s → get_elem? s.views id ≡ maybe.some v → v.own ≡ Some p → Allowed K.shows about x v → Rule K.shows about (after about s id v x) }
{}

/// Whatever a seat does keeps the rule: a step of the machine, the drawing of a number, the making
/// of a seat, and the joining of two.
pub fn each_step_keeps<K: Kinds>(about: About)
    ensures { (s t : SigState) (e : ℕ × Deed) → Rule K.shows about s → Steps K.shows about s e t → Rule K.shows about t }
{}

/// Each run keeps it.
pub fn each_run_keeps<K: Kinds>(about: About)
    ensures { (es : List (ℕ × Deed)) (s t : SigState) → Rule K.shows about s → Runs K.shows about s es t → Rule K.shows about t }
{}

/// Each number below the next stands in exactly one view.
pub fn numbers_stand<K: Kinds>(about: About)
    ensures step { KeptByEach K.shows about (NumbersStand about) }
    ensures runs { HoldsInRuns K.shows about (NumbersStand about) }
{}

/// A seat stands only where its slot and its number allow it.
pub fn places_fit<K: Kinds>(about: About)
    ensures step { KeptByEach K.shows about (EachPlaceFits about) }
    ensures runs { HoldsInRuns K.shows about (EachPlaceFits about) }
{}

/// Each word of the machine is what the steps of the seats made of it: so no step leaves another
/// value than that of its kind.
pub fn words_are_made<K: Kinds>(about: About)
    ensures step { KeptByEach K.shows about (EachWordIsMade about) }
    ensures runs { HoldsInRuns K.shows about (EachWordIsMade about) }
{}

/// Each bit in a mask or a hand has an emission of that kind, which was posted there.
pub fn bits_are_emitted<K: Kinds>(about: About)
    ensures step { KeptByEach K.shows about (EachBitIsEmitted about) }
    ensures runs { HoldsInRuns K.shows about (EachBitIsEmitted about) }
{}

/// Each bit at a joined slot has an emission whose generation isn't published there, or is at most
/// that with which the slot joined.
pub fn bit_is_owed<K: Kinds>(about: About)
    ensures step { KeptByEach K.shows about EachBitIsOwed }
    ensures runs { HoldsInRuns K.shows about EachBitIsOwed }
{}

/// After a backend read the header and swapped its mask, each bit that it didn't put back has an
/// emission without a generation, or with one above that header.
pub fn swapped_bit_is_newer<K: Kinds>(about: About)
    ensures step { KeptByEach K.shows about EachSwappedBitIsNewer }
    ensures runs { HoldsInRuns K.shows about EachSwappedBitIsNewer }
{}

/// Each slot's word is the generation that its seat has published, and no seat has read or published
/// more than the header.
pub fn generations_stand<K: Kinds>(about: About)
    ensures step { KeptByEach K.shows about (EachGenerationStands about) }
    ensures runs { HoldsInRuns K.shows about (EachGenerationStands about) }
{}

/// Each emission's number shows what its kind stands for.
pub fn emissions_show<K: Kinds>(about: About)
    ensures step { KeptByEach K.shows about (EachEmissionShows K.shows) }
    ensures runs { HoldsInRuns K.shows about (EachEmissionShows K.shows) }
{}

/// Each kind that was absorbed was emitted.
pub fn absorbed_was_emitted<K: Kinds>(about: About)
    ensures step { KeptByEach K.shows about EachAbsorbedWasEmitted }
    ensures runs { HoldsInRuns K.shows about EachAbsorbedWasEmitted }
{}

/// The word of a joined slot is the generation that it has published, which is at most the header.
pub fn slots_are_published<K: Kinds>(about: About)
    ensures states { (s : SigState) → Rule K.shows about s → EachSlotIsPublished s }
    ensures runs { HoldsInRuns K.shows about EachSlotIsPublished }
{}

/// The seat with the number 0, once it has taken over every number that it drew, has itself an
/// emission of each kind that it absorbed.
pub fn last_has_emitted<K: Kinds>(about: About)
    ensures states { (s : SigState) → Rule K.shows about s → LastHasEmitted K.shows s }
    ensures runs { HoldsInRuns K.shows about (LastHasEmitted K.shows) }
{}

/// While a slot is joined, it has published a generation only after it absorbed each kind that was
/// emitted to it with that generation or an earlier one, later than the post.
pub fn emissions_are_kept<K: Kinds>(about: About)
    ensures { EmissionsAreKept K.shows about }
{}
