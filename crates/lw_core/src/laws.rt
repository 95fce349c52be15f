//! The laws over states and over runs. Each function does nothing: its contract is the law.
ghost use Rattle.std.specs.Prelude.{◌<◌, ◌≤◌, List};
ghost use Rattle.lw_core.specs.Machine.{LwState};
ghost use Rattle.lw_core.specs.FramesStand.{FramesStand};
ghost use Rattle.lw_core.specs.ListsAreMade.{StepsDecideLists};
ghost use Rattle.lw_core.specs.Rule.{Rule, NumbersStand, EachWordIsMade, EachListIsMade, PlacesFit, EachCountsHolders, EachGuardedIsLawful, EachListInOneHand, EachHandInside, EachListedOnce, EachWaitingTells, EachFlagCovers, EachReleaseOkIsOwed, EachWakeIsConserved, EachMarkerPosts, EachFreeLockIsAnswered, EachVariableIsAnnounced};
ghost use Rattle.lw_core.specs.Runs.{Event, Run};
ghost use Rattle.lw_core.specs.NoLostWake.{NoWakeIsLost, NoFreeLockIsSleptFor, NoStaleSleep};
ghost use Rattle.lw_core.specs.Promises.{KeptByEach, IsOpening, HoldsInRuns, EachCallGoesOn, HoldersAgree, UnheldAreLawful, LastHoldsAlone, WordsStand};

use crate::rule::Guarded;
use crate::view::Size;

/// Each number below the next stands in exactly one view.
pub fn numbers_stand<G: Guarded>(size: Size)
    ensures { KeptByEach G.lawful size (NumbersStand size) }
{}

/// Each word is what the steps of the seats made of it: so no step leaves another value than that of
/// its kind.
pub fn words_are_made<G: Guarded>(size: Size)
    requires locks { size.locks ≤ 200 }
    requires procs { (0 < size.procs) × (size.procs ≤ 64) }
    ensures step { KeptByEach G.lawful size (EachWordIsMade size) }
    ensures runs { HoldsInRuns G.lawful size (EachWordIsMade size) }
{}

/// Each list at home is what the steps of the seats made of it: so the list that a step takes in hand
/// is the one that was sent home there last, with the same waiters in the same order.
pub fn lists_are_made<G: Guarded>(size: Size)
    requires locks { size.locks ≤ 200 }
    requires procs { (0 < size.procs) × (size.procs ≤ 64) }
    ensures step { KeptByEach G.lawful size (EachListIsMade size) }
    ensures runs { HoldsInRuns G.lawful size (EachListIsMade size) }
    ensures decided { StepsDecideLists size }
{}

/// Each seat's place says rightly what the seat holds and what is to follow.
pub fn places_fit<G: Guarded>(size: Size)
    ensures { KeptByEach G.lawful size PlacesFit }
{}

/// What a seat's place names is the table's, and who will let go of a lock after a store leaves lawful
/// words.
pub fn frames_stand<G: Guarded>(size: Size)
    ensures { KeptByEach G.lawful size (FramesStand G.lawful size) }
{}

/// Each lock's word counts its holders.
pub fn counts_holders<G: Guarded>(size: Size)
    ensures { KeptByEach G.lawful size (EachCountsHolders size) }
{}

/// The words of each lock are lawful unless its holder wrote one, and known words are the table's.
pub fn guarded_is_lawful<G: Guarded>(size: Size)
    ensures { KeptByEach G.lawful size (EachGuardedIsLawful G.lawful size) }
{}

/// LOCKED is set exactly where one seat has the lock's list in hand.
pub fn list_in_one_hand<G: Guarded>(size: Size)
    ensures one { KeptByEach G.lawful size (EachListInOneHand size) }
    ensures inside { KeptByEach G.lawful size (EachHandInside size) }
{}

/// A backend is on at most one list, once, and is then in a round for that lock with that want.
pub fn listed_once<G: Guarded>(size: Size)
    ensures { KeptByEach G.lawful size (EachListedOnce size) }
{}

/// The waiting field says whether a backend is on a list, is about to be, or was taken off.
pub fn waiting_tells_place<G: Guarded>(size: Size)
    ensures { KeptByEach G.lawful size (EachWaitingTells size) }
{}

/// HAS_WAITERS is set while anybody is on the list, or is about to be.
pub fn flag_covers_list<G: Guarded>(size: Size)
    ensures { KeptByEach G.lawful size (EachFlagCovers size) }
{}

/// Where RELEASE_OK is clear somebody who was taken off the list will set it.
pub fn release_ok_is_owed<G: Guarded>(size: Size)
    ensures { KeptByEach G.lawful size (EachReleaseOkIsOwed size) }
{}

/// Counts, posts owed and surplus balance the pokes and those who were taken off a list.
pub fn wakes_are_conserved<G: Guarded>(size: Size)
    ensures balance { KeptByEach G.lawful size (EachWakeIsConserved size) }
    ensures markers { KeptByEach G.lawful size (EachMarkerPosts size) }
{}

/// Where nobody holds a lock, and a backend that sleeps for it is on its list, somebody is
/// releasing it or answers for it.
pub fn free_lock_is_answered<G: Guarded>(size: Size)
    ensures { KeptByEach G.lawful size (EachFreeLockIsAnswered size) }
{}

/// While a backend that waits for a change of a lock's variable is on a list, RELEASE_OK is set;
/// and where it sleeps, the variable is still the old one or somebody updates the lock.
pub fn variable_is_announced<G: Guarded>(size: Size)
    ensures { KeptByEach G.lawful size (EachVariableIsAnnounced size) }
{}

/// A new table meets the rule, and each run leads from a state that meets it to another.
pub fn each_run_keeps_the_rule<G: Guarded>(size: Size)
    requires locks { size.locks ≤ 200 }
    requires procs { (0 < size.procs) × (size.procs ≤ 64) }
    ensures opening { (s : LwState) → IsOpening size s → Rule G.lawful size s }
    ensures run { (es : List Event) (s t : LwState) → Rule G.lawful size s
        → Run G.lawful size s es t → Rule G.lawful size t }
{}

/// What the rule says to users: no two backends hold one lock in conflicting modes, the words of a
/// lock that nobody holds exclusively are lawful, and the last seat that is left holds alone.
pub fn the_rule_excludes<G: Guarded>(size: Size)
    ensures exclusion { (s : LwState) → Rule G.lawful size s → HoldersAgree size s }
    ensures lawful { (s : LwState) → Rule G.lawful size s → UnheldAreLawful G.lawful size s }
    ensures last { (s : LwState) → Rule G.lawful size s → LastHoldsAlone s }
{}

/// While a seat holds a lock its words change by that seat alone, and by nobody where it is held
/// Shared.
pub fn words_stand_under_a_holder<G: Guarded>(size: Size)
    ensures { WordsStand G.lawful size }
{}

/// What the rule says of those who sleep: nobody is asleep off every list with no wake pending, nor
/// on the list of a lock that nobody holds, releases or answers for, nor on a list for a change of
/// a variable that was made, while nobody updates the lock.
pub fn the_rule_loses_no_wake<G: Guarded>(size: Size)
    ensures pending { (s : LwState) → Rule G.lawful size s → NoWakeIsLost size s }
    ensures answered { (s : LwState) → Rule G.lawful size s → NoFreeLockIsSleptFor size s }
    ensures current { (s : LwState) → Rule G.lawful size s → NoStaleSleep size s }
{}

/// A seat that is in a call has a step that its place allows: no program is stuck. Nothing is said of
/// whether it is made.
pub fn each_call_goes_on<G: Guarded>(size: Size)
    requires locks { size.locks ≤ 200 }
    requires procs { (0 < size.procs) × (size.procs ≤ 64) }
    ensures state { (s : LwState) → Rule G.lawful size s → EachCallGoesOn G.lawful size s }
    ensures runs { HoldsInRuns G.lawful size (EachCallGoesOn G.lawful size) }
{}

/// In every run from a new table, no two backends hold one lock in conflicting modes.
pub fn holders_exclude<G: Guarded>(size: Size)
    requires locks { size.locks ≤ 200 }
    requires procs { (0 < size.procs) × (size.procs ≤ 64) }
    ensures { HoldsInRuns G.lawful size (HoldersAgree size) }
{}

/// In every run from a new table, no backend is asleep off every list with no wake pending.
pub fn no_wake_is_lost<G: Guarded>(size: Size)
    requires locks { size.locks ≤ 200 }
    requires procs { (0 < size.procs) × (size.procs ≤ 64) }
    ensures { HoldsInRuns G.lawful size (NoWakeIsLost size) }
{}

/// In every run from a new table, no backend sleeps on the list of a lock that nobody holds, unless
/// somebody releases it or answers for it.
pub fn free_locks_are_answered<G: Guarded>(size: Size)
    requires locks { size.locks ≤ 200 }
    requires procs { (0 < size.procs) × (size.procs ≤ 64) }
    ensures { HoldsInRuns G.lawful size (NoFreeLockIsSleptFor size) }
{}

/// In every run from a new table, no backend sleeps on a list for a change of a lock's variable that
/// was made, unless somebody updates the lock.
pub fn variables_are_announced<G: Guarded>(size: Size)
    requires locks { size.locks ≤ 200 }
    requires procs { (0 < size.procs) × (size.procs ≤ 64) }
    ensures { HoldsInRuns G.lawful size (NoStaleSleep size) }
{}
