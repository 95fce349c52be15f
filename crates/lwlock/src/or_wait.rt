//! Acquire or wait: one who only wants that a holder's work is done takes the lock where it is free,
//! and else sleeps until a holder lets go of it, or stores its variable.
ghost use Rattle.std.specs.Prelude.{◌≡◌, ◌≢◌, ℕ, ◌<◌, [], None};
ghost use Rattle.lw_core.specs.declared.step.Call.TheVariants as call;
ghost use Rattle.lw_core.specs.Machine.{held, hold_in, mode_in, number_of};
ghost use Rattle.lw_core.specs.Programs.{Makes};
ghost use Rattle.lw_core.specs.Words.{Blocks};
ghost use Rattle.lwlock.specs.Calls.{FreedInCall, Granted, Went};
ghost use Rattle.lwlock.specs.OrWait.{OnFreed, OnGot};

use crate::attempt::attempt;
use crate::rounds::{Round, run_round};
use crate::sleep::give_back;
use lw_core::{Call, Guarded, LwSeat, LwStep, LwTable, Want};
use proc_table::{LockNo, Mode};
use std::sync::Wait;

/// How an acquire-or-wait ended.
#[derive(Debug, Clone, Copy, PartialEq, Eq)]
pub enum OrWait {
    /// The lock is held.
    Got,
    /// It was held in a mode that conflicts, as the state word `seen` says. Since then the backend
    /// was woken, by a release or by a store of the lock's variable.
    Freed { seen: u32 },
}

/// Takes the lock where no holder conflicts, and else waits until a release or a store of the
/// lock's variable wakes it (`LWLockAcquireOrWait`).
pub fn acquire_or_wait<G: Guarded, R: Wait>(
    rt: &R,
    table: &LwTable<G>,
    seat: &mut LwSeat,
    lock: LockNo,
    mode: Mode,
) -> OrWait
    requires table { seat.old.table_id ≡ table.now.table_id }
    requires lock { lock < table.now.locks }
    requires idle { seat.old.view.place ≡ [] }
    requires free { mode_in lock seat.old.view ≡ None }
    ensures table { (seat.new.table_id ≡ seat.old.table_id) × (seat.new.id ≡ seat.old.id) }
    ensures idle { seat.new.view.place ≡ [] }
    ensures got { OnGot result (Granted lock mode [] seat.old.view seat.new.view) }
    ensures held { OnGot result (hold_in lock seat.new.view ≡ held mode) }
    ensures waited { OnFreed result (λ _. Went [] seat.old.view seat.new.view) }
    ensures refused { OnFreed result (λ seen. Blocks seen mode × (mode_in lock seat.new.view ≡ None)) }
    ensures freed { OnFreed result (λ seen. FreedInCall (number_of seat.old.view.own) lock mode seen seat.old.view seat.new.view) }
    ensures others { (k : ℕ) → k ≢ lock → hold_in k seat.new.view ≡ hold_in k seat.old.view }
    ensures surplus { seat.new.view.surplus ≡ 0 }
    ensures program { Makes (call.AcquireOrWait lock mode) seat.old.view seat.new.view }
{
    let begins = Some(Call::AcquireOrWait(lock, mode));
    let word = table.step(seat, LwStep::Load(lock, begins)).old;
    if attempt(rt, table, seat, lock, mode, word).is_ok() {
        return OrWait::Got;
    }
    match run_round(rt, table, seat, lock, mode, Want::UntilFree) {
        Round::Granted { surplus } => {
            give_back(table, seat, surplus);
            OrWait::Got
        }
        Round::Woken { seen, surplus } => {
            give_back(table, seat, surplus);
            OrWait::Freed { seen: seen as u32 }
        }
    }
}
