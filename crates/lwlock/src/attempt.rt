//! One attempt at a lock: an exchange of its state word.
ghost use Rattle.std.specs.Prelude.{◌≡◌, ◌<◌, ◌^◌, Some, IfErr, OnOk, MatchResult};
ghost use Rattle.lw_core.specs.declared.view.Frame.TheVariants.{Trying};
ghost use Rattle.lw_core.specs.Machine.{held, hold_in, on_grant, on_refusal, outer, top};
ghost use Rattle.lw_core.specs.Programs.{BeginsNone};
ghost use Rattle.lw_core.specs.Words.{is_free};
ghost use Rattle.lwlock.specs.Calls.{Granted, Refused};
ghost use Rattle.semaphore.specs.Calls.{StoresNone};

use lw_core::{Guarded, LwSeat, LwStep, LwTable};
use proc_table::{LockNo, Mode};
use std::sync::Wait;

pub(crate) const EXCLUSIVE: u64 = 0x0100_0000;

pub(crate) const LOCK_MASK: u64 = 0x01ff_ffff;

/// Whether a state word has no holder that conflicts with the mode.
pub fn is_free_for(mode: Mode, word: u64) -> bool
    ensures { result ≡ is_free mode word }
{
    match mode {
        Mode::Shared => word & EXCLUSIVE == 0,
        Mode::Exclusive => word & LOCK_MASK == 0,
    }
}

// An attempt from its first exchange on, where `word` was found. It stands in any call.
pub(crate) fn attempt<G: Guarded, R: Wait>(
    rt: &R,
    table: &LwTable<G>,
    seat: &mut LwSeat,
    lock: LockNo,
    mode: Mode,
    mut word: u64,
) -> Result<(), u64>
    requires table { seat.old.table_id ≡ table.now.table_id }
    requires lock { lock < table.now.locks }
    requires place { top seat.old.view.place ≡ Some (Trying lock mode word) }
    requires word { word < 2 ^ 32 }
    ensures table { (seat.new.table_id ≡ seat.old.table_id) × (seat.new.id ≡ seat.old.id) }
    ensures view { MatchResult result
        (λ _. Granted lock mode (on_grant seat.old.view.surplus (outer seat.old.view.place)) seat.old.view seat.new.view)
        (λ e. Refused lock mode e (on_refusal (outer seat.old.view.place)) seat.old.view seat.new.view) }
    ensures stores { StoresNone seat.old.view seat.new.view }
    ensures program { BeginsNone seat.old.view seat.new.view }
    ensures held { OnOk result (hold_in lock seat.new.view ≡ held mode) }
    ensures word { IfErr result (λ e. e < 2 ^ 32) }
{
    for _ in rt.forever() {
        if is_free_for(mode, word) {
            let seen = table.step(seat, LwStep::Grant(lock, mode, word));
            if seen.changed {
                return Ok(());
            }
            word = seen.old;
        } else {
            let seen = table.step(seat, LwStep::Refuse(lock, mode, word));
            if seen.changed {
                return Err(word);
            }
            word = seen.old;
        }
    }
    unreachable!()
}
