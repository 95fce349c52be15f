//! A lock's variable (lwlock.c): its exclusive holder publishes a value there, and others wait for
//! another value than the one that they have seen.
#![tactic(auto)]

ghost use Rattle.std.specs.Prelude.{◌≡◌, ◌≢◌, ℕ, ◌<◌, true, [], None, Some, Option};
ghost use Rattle.proc_table.specs.declared.Mode.TheVariants.{Exclusive, Shared};
ghost use Rattle.lw_core.specs.declared.step.Call.{Call};
ghost use Rattle.lw_core.specs.declared.step.Call.TheVariants as call;
ghost use Rattle.lw_core.specs.declared.step.LwStep.TheVariants.{Peek, VarLoad, VarStore};
ghost use Rattle.lw_core.specs.Machine.{LeavesLawful, hold_in, mode_in, not_held};
ghost use Rattle.lw_core.specs.Programs.{Makes};
ghost use Rattle.lw_core.specs.Words.{is_free};
ghost use Rattle.lwlock.specs.Calls.{FoundInCall, Released, Went};
ghost use Rattle.lwlock_variable.specs.Updates.{ReleaseWakes, UpdateWakes};
ghost use Rattle.lwlock_variable.specs.Waits.{OnChanged, OnFree};

mod compare;
mod rounds;
mod waiters;

use compare::compare;
use lw_core::{Call, Guarded, LwSeat, LwStep, LwTable};
use lwlock::steps::{give_back, let_go, mark, take_list, tell};
use proc_table::{LockNo, Mode};
use rounds::wait;
use std::sync::Wait;
use waiters::take_until_free;

/// How a wait for a lock's variable ended.
#[derive(Debug, Clone, Copy, PartialEq, Eq)]
pub enum VarWait {
    /// No exclusive holder was there; `seen` is the state word that said so.
    Free { seen: u32 },
    /// The variable has another value.
    Changed { value: u64 },
}

/// Waits until the lock has no exclusive holder or its variable isn't `old` any more
/// (`LWLockWaitForVar`).
pub fn wait_for_var<G: Guarded, R: Wait>(
    rt: &R,
    table: &LwTable<G>,
    seat: &mut LwSeat,
    lock: LockNo,
    old: u64,
) -> VarWait
    requires table { seat.old.table_id ≡ table.now.table_id }
    requires lock { lock < table.now.locks }
    requires idle { seat.old.view.place ≡ [] }
    requires free { mode_in lock seat.old.view ≡ None }
    ensures table { (seat.new.table_id ≡ seat.old.table_id) × (seat.new.id ≡ seat.old.id) }
    ensures idle { seat.new.view.place ≡ [] }
    ensures free { OnFree result (λ seen. is_free Shared seen ≡ true) }
    ensures looked { OnFree result (λ seen. (begins : Option Call) × FoundInCall seat.old.view seat.new.view (Peek lock begins) seen) }
    ensures changed { OnChanged result (λ value. value ≢ old) }
    ensures read { OnChanged result (λ value. FoundInCall seat.old.view seat.new.view (VarLoad lock) value) }
    ensures holds { seat.new.view.holds ≡ seat.old.view.holds }
    ensures surplus { seat.new.view.surplus ≡ 0 }
    ensures program { Makes (call.WaitForVar lock old) seat.old.view seat.new.view }
    ensures view { Went [] seat.old.view seat.new.view }
{
    let begins = Some(Call::WaitForVar(lock, old));
    if let Some(answer) = compare(rt, table, seat, lock, old, begins) {
        return answer;
    }
    let ended = wait(rt, table, seat, lock, old);
    give_back(table, seat, ended.surplus);
    ended.answer
}

/// Stores the variable of a lock that is held exclusively, and wakes those who wait for it
/// (`LWLockUpdateVar`).
#[tactic(auto, using(lw_core::proofs::Below::until_free_below))]
pub fn update_var<G: Guarded, R: Wait>(
    rt: &R,
    table: &LwTable<G>,
    seat: &mut LwSeat,
    lock: LockNo,
    value: u64,
)
    requires table { seat.old.table_id ≡ table.now.table_id }
    requires lock { lock < table.now.locks }
    requires idle { seat.old.view.place ≡ [] }
    requires held { mode_in lock seat.old.view ≡ Some Exclusive }
    ensures table { (seat.new.table_id ≡ seat.old.table_id) × (seat.new.id ≡ seat.old.id) }
    ensures idle { seat.new.view.place ≡ [] }
    ensures stored { (n : ℕ) × FoundInCall seat.old.view seat.new.view (VarStore lock value) n }
    ensures holds { seat.new.view.holds ≡ seat.old.view.holds }
    ensures surplus { seat.new.view.surplus ≡ 0 }
    ensures program { Makes (call.UpdateVar lock value) seat.old.view seat.new.view }
    ensures woken { UpdateWakes lock value seat.old.view seat.new.view }
    ensures view { Went [] seat.old.view seat.new.view }
{
    let begins = Some(Call::UpdateVar(lock, value));
    take_list(rt, table, seat, lock, begins);
    table.step(seat, LwStep::VarStore(lock, value));
    let called = take_until_free(&mut seat.list().items);
    mark(table, seat, lock, &called);
    table.step(seat, LwStep::Unlock(lock, false));
    tell(table, seat, &called);
}

/// Stores the variable of a lock that is held exclusively, and lets go of the lock
/// (`LWLockReleaseClearVar`).
pub fn release_clear_var<G: Guarded, R: Wait>(
    rt: &R,
    table: &LwTable<G>,
    seat: &mut LwSeat,
    lock: LockNo,
    value: u64,
)
    requires table { seat.old.table_id ≡ table.now.table_id }
    requires lock { lock < table.now.locks }
    requires idle { seat.old.view.place ≡ [] }
    requires held { mode_in lock seat.old.view ≡ Some Exclusive }
    requires lawful { LeavesLawful (G.lawful lock) (hold_in lock seat.old.view) }
    ensures table { (seat.new.table_id ≡ seat.old.table_id) × (seat.new.id ≡ seat.old.id) }
    ensures idle { seat.new.view.place ≡ [] }
    ensures stored { (n : ℕ) × FoundInCall seat.old.view seat.new.view (VarStore lock value) n }
    ensures free { hold_in lock seat.new.view ≡ not_held }
    ensures others { (k : ℕ) → k ≢ lock → hold_in k seat.new.view ≡ hold_in k seat.old.view }
    ensures surplus { seat.new.view.surplus ≡ 0 }
    ensures program { Makes (call.ReleaseClearVar lock value) seat.old.view seat.new.view }
    ensures woken { ReleaseWakes lock value seat.old.view seat.new.view }
    ensures view { Released lock seat.old.view seat.new.view }
{
    let begins = Some(Call::ReleaseClearVar(lock, value));
    take_list(rt, table, seat, lock, begins);
    table.step(seat, LwStep::VarStore(lock, value));
    table.step(seat, LwStep::Unlock(lock, false));
    let_go(rt, table, seat, lock, Mode::Exclusive, None);
}

#[cfg(test)]
mod tests;
