//! One look at a lock and its variable.
ghost use Rattle.std.specs.Prelude.{◌≡◌, ◌<◌, []};
ghost use Rattle.lw_core.specs.Programs.{MakesFrom};
ghost use Rattle.lwlock.specs.Calls.{Went};
ghost use Rattle.lwlock_variable.specs.Waits.{BeginsComparing, Finds, behind, goes_on};

use crate::VarWait;
use lw_core::{Call, Guarded, LwSeat, LwStep, LwTable};
use lwlock::steps::{is_free_for, take_list};
use proc_table::{LockNo, Mode};
use std::sync::Wait;

// What ends a wait for the variable, or None where the lock has an exclusive holder and the variable
// is `old` (`LWLockConflictsWithVar`). The variable is read with the list in hand.
pub(crate) fn compare<G: Guarded, R: Wait>(
    rt: &R,
    table: &LwTable<G>,
    seat: &mut LwSeat,
    lock: LockNo,
    old: u64,
    begins: Option<Call>,
) -> Option<VarWait>
    requires table { seat.old.table_id ≡ table.now.table_id }
    requires lock { lock < table.now.locks }
    requires place { BeginsComparing lock old begins seat.old.view }
    ensures table { (seat.new.table_id ≡ seat.old.table_id) × (seat.new.id ≡ seat.old.id) }
    ensures view { Went (goes_on result seat.old.view.surplus (behind begins seat.old.view.place)) seat.old.view seat.new.view }
    ensures finds { Finds lock old result seat.old.view seat.new.view }
    ensures surplus { seat.old.view.place ≡ [] → seat.old.view.surplus ≡ 0 }
    ensures program { MakesFrom begins seat.old.view seat.new.view }
{
    let seen = table.step(seat, LwStep::Peek(lock, begins)).old;
    if is_free_for(Mode::Shared, seen) {
        return Some(VarWait::Free { seen: seen as u32 });
    }
    take_list(rt, table, seat, lock, None);
    let value = table.step(seat, LwStep::VarLoad(lock)).old;
    table.step(seat, LwStep::Unlock(lock, false));
    if value == old {
        None
    } else {
        Some(VarWait::Changed { value })
    }
}
