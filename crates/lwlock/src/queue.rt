//! A lock's wait list: how a backend takes it in hand, joins it and leaves it.
ghost use Rattle.std.specs.Prelude.{◌≡◌, ◌⊎◌, ◌+◌, ◌<◌, ◌≤◌, ◌^◌, ◌==◌, length, [], ◌∷◌};
ghost use Rattle.lw_core.specs.declared.view.Frame.TheVariants.{TakingList, Spinning, Queueing, Dequeueing};
ghost use Rattle.lw_core.specs.Closing.{size_of};
ghost use Rattle.lw_core.specs.Machine.{BeginsTaking, MayTake, in_hand, number_of, outer, resumed, taking};
ghost use Rattle.lw_core.specs.Programs.{BeginsNone, MakesFrom};
ghost use Rattle.lw_core.specs.Told.{TellsList};
ghost use Rattle.lw_core.specs.WaitLists.{joined_by, without};
ghost use Rattle.lw_core.specs.Words.{has_flag, locked};
ghost use Rattle.lwlock.specs.Calls.{Announced, Went, WentWith};
ghost use Rattle.lwlock.specs.Wakes.{OnlyTook, TookList};

use crate::sleep::sleep;
use arrayvec::ArrayVec;
use crossbeam_utils::Backoff;
use lw_core::{Call, Guarded, LwSeat, LwStep, LwTable, Waiter, Want};
use proc_table::LockNo;
use std::sync::Wait;

pub(crate) const LOCKED: u64 = 0x1000_0000;

/// Whether nobody has the lock's list in hand.
pub fn list_is_home(word: u64) -> bool
    ensures { result ≡ (has_flag locked word == 0) }
{
    word / LOCKED % 2 == 0
}

/// Takes the lock's list in hand (`LWLockWaitListLock`). A call may begin with it.
pub fn take_list<G: Guarded, R: Wait>(
    rt: &R,
    table: &LwTable<G>,
    seat: &mut LwSeat,
    lock: LockNo,
    begins: Option<Call>,
)
    requires table { seat.old.table_id ≡ table.now.table_id }
    requires lock { lock < table.now.locks }
    requires place { BeginsTaking (G.lawful lock) lock begins seat.old.view }
    ensures table { (seat.new.table_id ≡ seat.old.table_id) × (seat.new.id ≡ seat.old.id) }
    ensures view { Went (in_hand seat.new.list (outer (taking begins seat.old.view.place))) seat.old.view seat.new.view }
    ensures list { TellsList (size_of table.now) seat.old.view seat.new.list }
    ensures few { table.now.procs ≤ 64 }
    ensures surplus { seat.old.view.place ≡ [] → seat.old.view.surplus ≡ 0 }
    ensures program { MakesFrom begins seat.old.view seat.new.view }
    ensures found { TookList lock seat.new.list seat.old.view seat.new.view }
    ensures took { OnlyTook seat.old.view seat.new.view }
{
    if list_is_home(table.step(seat, LwStep::Lock(lock, begins)).old) {
        return;
    }
    wait_for_list(rt, table, seat, lock);
}

// The same, once it was found in another's hand.
fn wait_for_list<G: Guarded, R: Wait>(rt: &R, table: &LwTable<G>, seat: &mut LwSeat, lock: LockNo)
    requires table { seat.old.table_id ≡ table.now.table_id }
    requires lock { lock < table.now.locks }
    requires place { seat.old.view.place ≡ Spinning lock ∷ outer seat.old.view.place }
    requires next { MayTake lock (TakingList lock ∷ outer seat.old.view.place) }
    ensures table { (seat.new.table_id ≡ seat.old.table_id) × (seat.new.id ≡ seat.old.id) }
    ensures view { Went (in_hand seat.new.list (outer seat.old.view.place)) seat.old.view seat.new.view }
    ensures list { TellsList (size_of table.now) seat.old.view seat.new.list }
    ensures few { table.now.procs ≤ 64 }
    ensures program { BeginsNone seat.old.view seat.new.view }
    ensures found { TookList lock seat.new.list seat.old.view seat.new.view }
    ensures took { OnlyTook seat.old.view seat.new.view }
{
    let backoff = Backoff::new();
    for _ in rt.forever() {
        spin(rt, table, seat, lock, &backoff);
        if list_is_home(table.step(seat, LwStep::Lock(lock, None)).old) {
            return;
        }
    }
    unreachable!()
}

// Reads the state word until the list is home.
fn spin<G: Guarded, R: Wait>(
    rt: &R,
    table: &LwTable<G>,
    seat: &mut LwSeat,
    lock: LockNo,
    backoff: &Backoff,
)
    requires table { seat.old.table_id ≡ table.now.table_id }
    requires lock { lock < table.now.locks }
    requires place { seat.old.view.place ≡ Spinning lock ∷ outer seat.old.view.place }
    ensures table { (seat.new.table_id ≡ seat.old.table_id) × (seat.new.id ≡ seat.old.id) }
    ensures view { Went (TakingList lock ∷ outer seat.old.view.place) seat.old.view seat.new.view }
    ensures took { OnlyTook seat.old.view seat.new.view }
    ensures program { BeginsNone seat.old.view seat.new.view }
{
    for _ in rt.forever() {
        backoff.snooze();
        if list_is_home(table.step(seat, LwStep::Load(lock, None)).old) {
            return;
        }
    }
    unreachable!()
}

// Puts a waiter on a list. Who waits until the lock is free is woken first.
pub(crate) fn join_list(list: &mut ArrayVec<Waiter, 64>, waiter: Waiter)
    requires { length list.old.items < 64 }
    ensures { list.new.items ≡ joined_by waiter list.old.items }
{
    match waiter.want {
        Want::UntilFree => list.insert(0, waiter),
        _ => list.push(waiter),
    }
}

// Takes a backend off a list.
fn leave_list(list: &mut ArrayVec<Waiter, 64>, proc: u32)
    ensures { list.new.items ≡ without proc list.old.items }
{
    let mut rest = ArrayVec::new();
    for waiter in list.as_slice() {
        if waiter.proc != proc {
            rest.push(*waiter);
        }
    }
    *list = rest;
}

/// Puts the seat's own backend on the lock's list (`LWLockQueueSelf`).
pub fn queue<G: Guarded, R: Wait>(
    rt: &R,
    table: &LwTable<G>,
    seat: &mut LwSeat,
    lock: LockNo,
    want: Want,
)
    requires table { seat.old.table_id ≡ table.now.table_id }
    requires lock { lock < table.now.locks }
    requires place { seat.old.view.place ≡ TakingList lock ∷ Queueing lock want ∷ outer (outer seat.old.view.place) }
    ensures table { (seat.new.table_id ≡ seat.old.table_id) × (seat.new.id ≡ seat.old.id) }
    ensures view { Went (outer (outer seat.old.view.place)) seat.old.view seat.new.view }
    ensures announced { Announced (number_of seat.old.view.own) seat.old.view seat.new.view }
    ensures program { BeginsNone seat.old.view seat.new.view }
{
    take_list(rt, table, seat, lock, None);
    let own = table.proc_of(seat);
    table.step(seat, LwStep::Flag(lock));
    table.step(seat, LwStep::WaitStore(own, 1));
    let waiter = Waiter {
        proc: own.number(),
        want,
    };
    join_list(&mut seat.list().items, waiter);
    table.step(seat, LwStep::Unlock(lock, false));
}

/// Leaves the lock's list, which the seat queued on (`LWLockDequeueSelf`). Where it was taken off
/// already its wake is under way, and it sleeps until it came. It answers the wakes that weren't
/// for it.
pub fn dequeue<G: Guarded, R: Wait>(
    rt: &R,
    table: &LwTable<G>,
    seat: &mut LwSeat,
    lock: LockNo,
    want: Want,
) -> u64
    requires table { seat.old.table_id ≡ table.now.table_id }
    requires lock { lock < table.now.locks }
    requires place { seat.old.view.place ≡ TakingList lock ∷ Dequeueing lock want ∷ outer (outer seat.old.view.place) }
    ensures table { (seat.new.table_id ≡ seat.old.table_id) × (seat.new.id ≡ seat.old.id) }
    ensures view { WentWith (resumed seat.new.view.surplus (outer (outer seat.old.view.place))) seat.new.view.surplus seat.old.view seat.new.view }
    ensures surplus { seat.new.view.surplus ≡ seat.old.view.surplus + result }
    ensures small { (result ≡ 0) ⊎ (seat.new.view.surplus < 2 ^ 32) }
    ensures program { BeginsNone seat.old.view seat.new.view }
{
    take_list(rt, table, seat, lock, None);
    let own = table.proc_of(seat);
    let listed = table.step(seat, LwStep::WaitLoad).old == 1;
    if listed {
        leave_list(&mut seat.list().items, own.number());
    }
    let last = seat.list().items.is_empty();
    table.step(seat, LwStep::Unlock(lock, last));
    if listed {
        table.step(seat, LwStep::WaitStore(own, 0));
        return 0;
    }
    table.step(seat, LwStep::SetReleaseOk(lock));
    sleep(rt, table, seat)
}
