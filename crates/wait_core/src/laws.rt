//! Theorems over states and runs of the machine's definitions. The functions do nothing.
ghost use Rattle.std.specs.Prelude.{◌≡◌, ◌<◌, ◌≤◌, ◌+◌, ℕ, List, None, Some, slice_index, length, map};
ghost use mathlib.Core.Option as maybe;
ghost use lib.ListN.{get_elem?};
ghost use Rattle.wait_core.specs.declared.step.WaitStep.{WaitStep};
ghost use Rattle.wait_core.specs.declared.view.PartyView.{PartyView};
ghost use Rattle.wait_core.specs.declared.view.WaitView.{WaitView};
ghost use Rattle.wait_core.specs.Words.{may_at, client_base, client_words};
ghost use Rattle.wait_core.specs.Machine.{WaitState, top, bit, Allowed, after};
ghost use Rattle.wait_core.specs.Places.{may_sleep};
ghost use Rattle.wait_core.specs.Seating.{doings_of, party_of};
ghost use Rattle.wait_core.specs.Barriers.{StepSuits};
ghost use Rattle.wait_core.specs.WordsAreMade.{WordsAreMade};
ghost use Rattle.wait_core.specs.ListsAreMade.{ListsAreMade};
ghost use Rattle.wait_core.specs.Rule.{Rule};
ghost use Rattle.wait_core.specs.Runs.{Deed, Steps, Runs, after_client};
ghost use Rattle.wait_core.specs.Promises.{NoSetLatchIsSleptOn, NoShutdownIsSleptThrough, NoSignalIsSleptThrough, NobodySleepsPastItsPhase, OneIsElected, LastHoldsAlone, IsOpening, IsReached, SentinelStandsBehind, BroadcastWakesAll};

use crate::party::Party;
use crate::view::Size;

/// The opening meets the rule, where the client's law holds there.
pub fn opening_holds<P: Party>(party: &P, size: Size, phase: u64)
    ensures { (s : WaitState P.View) → IsOpening (P.first party.now) (P.opens party.now) (P.means party.now) (P.word_count party.now) size phase s → Rule (P.means party.now) size phase (P.word_count party.now) s }
{}

/// Each step of the machine keeps the rule, kind by kind.
pub fn machine_step_keeps<P: Party>(party: &P, size: Size, phase: u64)
    ensures { (s : WaitState P.View) (id p : ℕ) (v : WaitView P.View) (k : WaitStep) → Rule (P.means party.now) size phase (P.word_count party.now) s → get_elem? s.views id ≡ maybe.some v → v.own ≡ Some p → Allowed size k v → StepSuits (P.means party.now) k v → Rule (P.means party.now) size phase (P.word_count party.now) (after size s id v k) }
{}

/// Whatever a seat does keeps the rule: a step of the machine or of the client, the drawing of a
/// number, the making of a seat, and the joining of two.
pub fn each_step_keeps<P: Party>(party: &P, size: Size, phase: u64)
    ensures { (s t : WaitState P.View) (e : ℕ × Deed P.Step) → Rule (P.means party.now) size phase (P.word_count party.now) s → Steps (P.does party.now) (P.may party.now) (P.after party.now) (P.first party.now) P.spent P.both (P.means party.now) size s e t → Rule (P.means party.now) size phase (P.word_count party.now) t }
{}

/// Each run keeps it.
pub fn each_run_keeps<P: Party>(party: &P, size: Size, phase: u64)
    ensures { (es : List (ℕ × Deed P.Step)) (s t : WaitState P.View) → Rule (P.means party.now) size phase (P.word_count party.now) s → Runs (P.does party.now) (P.may party.now) (P.after party.now) (P.first party.now) P.spent P.both (P.means party.now) size s es t → Rule (P.means party.now) size phase (P.word_count party.now) t }
{}

/// Whatever happens to a new table, nobody is asleep with its own latch set and no wake pending.
pub fn set_latch_wakes<P: Party>(party: &P, size: Size, phase: u64)
    ensures states { (s : WaitState P.View) → Rule (P.means party.now) size phase (P.word_count party.now) s → NoSetLatchIsSleptOn s }
    ensures runs { (s : WaitState P.View) → IsReached (P.does party.now) (P.may party.now) (P.after party.now) (P.first party.now) P.spent P.both (P.opens party.now) (P.means party.now) (P.word_count party.now) size phase s → NoSetLatchIsSleptOn s }
{}

/// Whatever happens to a new table, nobody is asleep in a wait that a shutdown ends, with the
/// shutdown word stored and no wake pending.
pub fn shutdown_wakes<P: Party>(party: &P, size: Size, phase: u64)
    ensures states { (s : WaitState P.View) → Rule (P.means party.now) size phase (P.word_count party.now) s → NoShutdownIsSleptThrough size s }
    ensures runs { (s : WaitState P.View) → IsReached (P.does party.now) (P.may party.now) (P.after party.now) (P.first party.now) P.spent P.both (P.opens party.now) (P.means party.now) (P.word_count party.now) size phase s → NoShutdownIsSleptThrough size s }
{}

/// Whatever happens to a new table, who waits on a condition and was signalled isn't asleep, unless
/// a wake is pending or its latch is still to be set.
pub fn signal_wakes<P: Party>(party: &P, size: Size, phase: u64)
    ensures states { (s : WaitState P.View) → Rule (P.means party.now) size phase (P.word_count party.now) s → NoSignalIsSleptThrough s }
    ensures runs { (s : WaitState P.View) → IsReached (P.does party.now) (P.may party.now) (P.after party.now) (P.first party.now) P.spent P.both (P.opens party.now) (P.means party.now) (P.word_count party.now) size phase s → NoSignalIsSleptThrough s }
{}

/// Whatever happens to a new table, who waits at a barrier for a phase that has passed isn't asleep,
/// unless another who passed it is broadcasting, a wake is pending or its latch is still to be set.
pub fn nobody_sleeps_past_its_phase<P: Party>(party: &P, size: Size, phase: u64)
    ensures states { (s : WaitState P.View) → Rule (P.means party.now) size phase (P.word_count party.now) s → NobodySleepsPastItsPhase size s }
    ensures runs { (s : WaitState P.View) → IsReached (P.does party.now) (P.may party.now) (P.after party.now) (P.first party.now) P.spent P.both (P.opens party.now) (P.means party.now) (P.word_count party.now) size phase s → NobodySleepsPastItsPhase size s }
{}

/// Whatever happens to a new table, of those who waited out a phase of a barrier exactly one is
/// elected for the next, and nobody else is.
pub fn one_is_elected<P: Party>(party: &P, size: Size, phase: u64)
    ensures states { (s : WaitState P.View) → Rule (P.means party.now) size phase (P.word_count party.now) s → OneIsElected s }
    ensures runs { (s : WaitState P.View) → IsReached (P.does party.now) (P.may party.now) (P.after party.now) (P.first party.now) P.spent P.both (P.opens party.now) (P.means party.now) (P.word_count party.now) size phase s → OneIsElected s }
{}

/// Whoever stood on a condition's list at the first take of a broadcast has left it since, by a
/// step of its own or popped, or the broadcaster still has the list in hand, or its sentinel stands
/// behind.
pub fn sentinel_stands_behind<P: Party>(party: &P, size: Size, phase: u64)
    ensures states { (s t : WaitState P.View) (es : List (ℕ × Deed P.Step)) (run : Runs (P.does party.now) (P.may party.now) (P.after party.now) (P.first party.now) P.spent P.both (P.means party.now) size s es t) → Rule (P.means party.now) size phase (P.word_count party.now) s → SentinelStandsBehind (P.does party.now) (P.may party.now) (P.after party.now) (P.first party.now) P.spent P.both (P.means party.now) size s es t run }
    ensures runs { (s t : WaitState P.View) (es : List (ℕ × Deed P.Step)) (run : Runs (P.does party.now) (P.may party.now) (P.after party.now) (P.first party.now) P.spent P.both (P.means party.now) size s es t) → IsReached (P.does party.now) (P.may party.now) (P.after party.now) (P.first party.now) P.spent P.both (P.opens party.now) (P.means party.now) (P.word_count party.now) size phase s → SentinelStandsBehind (P.does party.now) (P.may party.now) (P.after party.now) (P.first party.now) P.spent P.both (P.means party.now) size s es t run }
{}

/// When a broadcast has returned, everyone who stood on the list at its first take has left it
/// since, by a step of its own or popped.
pub fn broadcast_wakes_all<P: Party>(party: &P, size: Size, phase: u64)
    ensures states { (s t : WaitState P.View) (es : List (ℕ × Deed P.Step)) (run : Runs (P.does party.now) (P.may party.now) (P.after party.now) (P.first party.now) P.spent P.both (P.means party.now) size s es t) → Rule (P.means party.now) size phase (P.word_count party.now) s → BroadcastWakesAll (P.does party.now) (P.may party.now) (P.after party.now) (P.first party.now) P.spent P.both (P.means party.now) size s es t run }
    ensures runs { (s t : WaitState P.View) (es : List (ℕ × Deed P.Step)) (run : Runs (P.does party.now) (P.may party.now) (P.after party.now) (P.first party.now) P.spent P.both (P.means party.now) size s es t) → IsReached (P.does party.now) (P.may party.now) (P.after party.now) (P.first party.now) P.spent P.both (P.opens party.now) (P.means party.now) (P.word_count party.now) size phase s → BroadcastWakesAll (P.does party.now) (P.may party.now) (P.after party.now) (P.first party.now) P.spent P.both (P.means party.now) size s es t run }
{}

/// Whether a backend may sleep stands in its word: 0 wherever its seat is in no wait.
pub fn may_sleep_is_marked<P: Party>(party: &P, size: Size, phase: u64)
    ensures { (s : WaitState P.View) (id p : ℕ) (v : WaitView P.View) → Rule (P.means party.now) size phase (P.word_count party.now) s → get_elem? s.views id ≡ maybe.some v → v.own ≡ Some p → slice_index s.words (may_at p) ≡ bit (may_sleep (top v.place)) }
{}

/// Each word of the machine is what the steps of the seats made of it: so no step leaves another
/// value than that of its kind.
pub fn words_are_made<P: Party>(party: &P, size: Size, phase: u64)
    ensures { (s : WaitState P.View) → Rule (P.means party.now) size phase (P.word_count party.now) s → WordsAreMade size s.words (map doings_of s.views) }
{}

/// Each list at home is what the steps of the seats made of it: so what a take finds is what the free
/// before it left.
pub fn lists_are_made<P: Party>(party: &P, size: Size, phase: u64)
    ensures { (s : WaitState P.View) → Rule (P.means party.now) size phase (P.word_count party.now) s → ListsAreMade size s.homes (map doings_of s.views) }
{}

/// A number is that of one seat.
pub fn one_seat_a_number<P: Party>(party: &P, size: Size, phase: u64)
    ensures { (s : WaitState P.View) (id j p : ℕ) (v u : WaitView P.View) → Rule (P.means party.now) size phase (P.word_count party.now) s → get_elem? s.views id ≡ maybe.some v → get_elem? s.views j ≡ maybe.some u → v.own ≡ Some p → u.own ≡ Some p → id ≡ j }
{}

/// There are at most as many views as the seat with the number 0 has drawn, and itself.
pub fn views_are_few<P: Party>(party: &P, size: Size, phase: u64)
    ensures { (s : WaitState P.View) (id : ℕ) (v : WaitView P.View) → Rule (P.means party.now) size phase (P.word_count party.now) s → get_elem? s.views id ≡ maybe.some v → v.own ≡ Some 0 → length (map party_of s.views) ≤ v.drawn + 1 }
{}

/// A step of the machine leaves the client's words.
pub fn machine_leaves_client<P: Party>(party: &P, size: Size, phase: u64)
    ensures { (s : WaitState P.View) (id p : ℕ) (v : WaitView P.View) (k : WaitStep) → Rule (P.means party.now) size phase (P.word_count party.now) s → get_elem? s.views id ≡ maybe.some v → v.own ≡ Some p → Allowed size k v → client_words size (after size s id v k).words ≡ client_words size s.words }
{}

/// A step of the client leaves all other words.
pub fn client_leaves_machine<P: Party>(party: &P, size: Size, phase: u64)
    ensures { (s : WaitState P.View) (id i : ℕ) (v : WaitView P.View) (x : P.Step) → i < client_base size → slice_index (after_client (P.does party.now) (P.may party.now) (P.after party.now) (P.first party.now) P.spent P.both (P.means party.now) size s id v x).words i ≡ slice_index s.words i }
{}

/// Once the seat with the number 0 has taken over every number that it drew, no other view has one.
pub fn others_are_left<P: Party>(party: &P, size: Size, phase: u64)
    ensures { (s : WaitState P.View) (id k : ℕ) (v : WaitView P.View) (u : PartyView P.View) → Rule (P.means party.now) size phase (P.word_count party.now) s → get_elem? s.views id ≡ maybe.some v → v.own ≡ Some 0 → length v.taken ≡ v.drawn → (k ≡ id → ⊥) → get_elem? (map party_of s.views) k ≡ maybe.some u → u.proc ≡ None }
{}

/// The last seat holds alone: once the seat with the number 0 has taken over every number that it
/// drew, no other has a number, is in a call, is attached to a barrier, waited out a phase or was
/// elected.
pub fn last_holds_alone<P: Party>(party: &P, size: Size, phase: u64)
    ensures { (s : WaitState P.View) → Rule (P.means party.now) size phase (P.word_count party.now) s → LastHoldsAlone s }
{}
