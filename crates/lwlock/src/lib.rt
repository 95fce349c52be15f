//! PostgreSQL's lightweight locks (lwlock.c), over a table of locks.
#![tactic(auto)]

ghost use Rattle.std.specs.Prelude.{◌≡◌, ◌≢◌, ◌↔◌, ℕ, ◌+◌, ◌<◌, [], None, Some, IsSome, IsTrue, IfErr, OnOk, MatchResult};
ghost use Rattle.lw_core.specs.declared.step.Call.TheVariants as call;
ghost use Rattle.lw_core.specs.declared.step.LwStep.TheVariants.{Refuse};
ghost use Rattle.lw_core.specs.Machine.{LeavesLawful, held, hold_in, mode_in, not_held};
ghost use Rattle.lw_core.specs.Programs.{Makes};
ghost use Rattle.lw_core.specs.Words.{Blocks};
ghost use Rattle.lwlock.specs.Calls.{Acquires, FoundInCall, Granted, Refused, RefusedInCall, Released};
ghost use Rattle.lwlock.specs.Wakes.{WakesRightly};

mod attempt;
mod or_wait;
mod queue;
mod rounds;
mod sleep;
pub mod steps;
mod wake;

use lw_core::{Call, Guarded, LwSeat, LwStep, LwTable};
pub use or_wait::{OrWait, acquire_or_wait};
use proc_table::{LockNo, Mode};
use rounds::try_until_granted;
use sleep::give_back;
use std::sync::Wait;
use wake::let_go;

/// The lock is held; `waited` says whether the call slept for it.
#[derive(Debug, Clone, Copy, PartialEq, Eq)]
pub struct Acquired {
    pub waited: bool,
}

/// The lock was held in a mode that conflicts; `seen` is the state word that said so.
#[derive(Debug, Clone, Copy, PartialEq, Eq)]
pub struct Held {
    pub seen: u32,
}

/// Takes the lock, and waits while a holder conflicts (`LWLockAcquire`).
pub fn acquire<G: Guarded, R: Wait>(
    rt: &R,
    table: &LwTable<G>,
    seat: &mut LwSeat,
    lock: LockNo,
    mode: Mode,
) -> Acquired
    requires table { seat.old.table_id ≡ table.now.table_id }
    requires lock { lock < table.now.locks }
    requires idle { seat.old.view.place ≡ [] }
    requires free { mode_in lock seat.old.view ≡ None }
    ensures table { (seat.new.table_id ≡ seat.old.table_id) × (seat.new.id ≡ seat.old.id) }
    ensures idle { seat.new.view.place ≡ [] }
    ensures held { hold_in lock seat.new.view ≡ held mode }
    ensures grants { seat.new.view.grants ≡ seat.old.view.grants + 1 }
    ensures others { (k : ℕ) → k ≢ lock → hold_in k seat.new.view ≡ hold_in k seat.old.view }
    ensures surplus { seat.new.view.surplus ≡ 0 }
    ensures waited { IsTrue result.waited ↔ (seat.old.view.waits < seat.new.view.waits) }
    ensures refused { IsTrue result.waited → RefusedInCall lock mode seat.old.view seat.new.view }
    ensures program { Makes (call.Acquire lock mode) seat.old.view seat.new.view }
    ensures view { (sleeps : ℕ) × Acquires lock mode sleeps seat.old.view seat.new.view }
{
    let begins = Some(Call::Acquire(lock, mode));
    let word = table.step(seat, LwStep::Load(lock, begins)).old;
    let ended = try_until_granted(rt, table, seat, lock, mode, word);
    give_back(table, seat, ended.surplus);
    Acquired {
        waited: ended.waited,
    }
}

/// Takes the lock where no holder conflicts, and never queues (`LWLockConditionalAcquire`).
pub fn conditional_acquire<G: Guarded, R: Wait>(
    rt: &R,
    table: &LwTable<G>,
    seat: &mut LwSeat,
    lock: LockNo,
    mode: Mode,
) -> Result<(), Held>
    requires table { seat.old.table_id ≡ table.now.table_id }
    requires lock { lock < table.now.locks }
    requires idle { seat.old.view.place ≡ [] }
    requires free { mode_in lock seat.old.view ≡ None }
    ensures table { (seat.new.table_id ≡ seat.old.table_id) × (seat.new.id ≡ seat.old.id) }
    ensures idle { seat.new.view.place ≡ [] }
    ensures view { MatchResult result
        (λ _. Granted lock mode [] seat.old.view seat.new.view)
        (λ e. Refused lock mode e.seen [] seat.old.view seat.new.view) }
    ensures held { OnOk result (hold_in lock seat.new.view ≡ held mode) }
    ensures others { (k : ℕ) → k ≢ lock → hold_in k seat.new.view ≡ hold_in k seat.old.view }
    ensures refused { IfErr result (λ e. Blocks e.seen mode × (mode_in lock seat.new.view ≡ None)) }
    ensures seen { IfErr result (λ e. FoundInCall seat.old.view seat.new.view (Refuse lock mode e.seen) e.seen) }
    ensures program { Makes (call.Try lock mode) seat.old.view seat.new.view }
{
    let begins = Some(Call::Try(lock, mode));
    let word = table.step(seat, LwStep::Load(lock, begins)).old;
    match attempt::attempt(rt, table, seat, lock, mode, word) {
        Ok(()) => Ok(()),
        Err(seen) => Err(Held { seen: seen as u32 }),
    }
}

/// Lets go of the lock, and wakes waiters where nobody holds it any more (`LWLockRelease`).
pub fn release<G: Guarded, R: Wait>(rt: &R, table: &LwTable<G>, seat: &mut LwSeat, lock: LockNo)
    requires table { seat.old.table_id ≡ table.now.table_id }
    requires lock { lock < table.now.locks }
    requires idle { seat.old.view.place ≡ [] }
    requires held { IsSome (mode_in lock seat.old.view) }
    requires lawful { LeavesLawful (G.lawful lock) (hold_in lock seat.old.view) }
    ensures table { (seat.new.table_id ≡ seat.old.table_id) × (seat.new.id ≡ seat.old.id) }
    ensures idle { seat.new.view.place ≡ [] }
    ensures view { Released lock seat.old.view seat.new.view }
    ensures woken { WakesRightly lock (Some (call.Release lock)) seat.old.view seat.new.view }
    ensures program { Makes (call.Release lock) seat.old.view seat.new.view }
    ensures free { hold_in lock seat.new.view ≡ not_held }
    ensures others { (k : ℕ) → k ≢ lock → hold_in k seat.new.view ≡ hold_in k seat.old.view }
{
    let Some(mode) = seat.mode_of(lock) else {
        unreachable!()
    };
    let_go(rt, table, seat, lock, mode, Some(Call::Release(lock)));
}

#[cfg(test)]
mod tests;
