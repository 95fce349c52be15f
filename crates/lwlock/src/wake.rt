//! A release, and its wake: who is taken off the list and woken.
ghost use Rattle.std.specs.Prelude.{◌≡◌, ◌<◌, ◌≤◌, ◌^◌, ◌-◌, not, [], ◌∷◌, Some};
ghost use Rattle.lw_core.specs.declared.view.Frame.TheVariants.{TakingList, Waking, Marking};
ghost use Rattle.lw_core.specs.declared.view.Want.TheVariants.{Exclusive, UntilFree};
ghost use Rattle.lw_core.specs.Machine.{BeginsRelease, LeavesLawful, calls_for_wake, hold_in, mode_in, not_held, outer, releasing, telling};
ghost use Rattle.lw_core.specs.Programs.{BeginsNone, MakesFrom};
ghost use Rattle.lw_core.specs.WaitLists.{AllBelow, has_locker, kept_from, same_want, taken_from};
ghost use Rattle.lw_core.specs.Words.{grant_of};
ghost use Rattle.lwlock.specs.Calls.{Released, Went};
ghost use Rattle.lwlock.specs.Wakes.{Exchanged, Wakes, WakesRightly, WentBy, answered_to, found_at, marked_by, marking, told_by, updated_at, is_calling, woken_to};

use crate::attempt::{EXCLUSIVE, LOCK_MASK};
use crate::queue::{LOCKED, take_list};
use arrayvec::ArrayVec;
use lw_core::{Call, Guarded, LwSeat, LwStep, LwTable, Waiter, Want};
use proc_table::{LockNo, Mode, ProcNo};
use semaphore::post;
use std::sync::Wait;

const RELEASE_OK: u64 = 0x2000_0000;

const HAS_WAITERS: u64 = 0x4000_0000;

// What a release in this mode left of the word.
pub(crate) fn left_word(word: u64, mode: Mode) -> u64
    ensures { result ≡ word - grant_of mode }
{
    match mode {
        Mode::Shared => word.saturating_sub(1),
        Mode::Exclusive => word.saturating_sub(EXCLUSIVE),
    }
}

// Whether a release that left this word wakes waiters.
#[tactic(auto, using(crate::proofs::Flags::calls_by_masks))]
pub(crate) fn wakes_after(word: u64) -> bool
    ensures { result ≡ calls_for_wake word }
{
    let may_wake = word & HAS_WAITERS != 0 && word & RELEASE_OK != 0;
    may_wake && word & LOCK_MASK == 0
}

// The state word after a wake that took somebody who wants the lock, or nobody who does.
#[tactic(auto, using(crate::proofs::Flags::answered_locker, crate::proofs::Flags::answered_other))]
fn answered(word: u64, locker: bool) -> u64
    requires { word < 2 ^ 32 }
    ensures { result ≡ answered_to word locker }
{
    let free = word & !LOCKED;
    if locker {
        free & !RELEASE_OK
    } else {
        free | RELEASE_OK
    }
}

// The same, where the wake left nobody or somebody.
#[tactic(auto, using(crate::proofs::Flags::woken_none))]
pub(crate) fn woken(word: u64, locker: bool, none: bool) -> u64
    requires { word < 2 ^ 32 }
    ensures { result ≡ woken_to word locker none }
{
    let answered = answered(word, locker);
    if none {
        answered & !HAS_WAITERS
    } else {
        answered
    }
}

fn is_exclusive(want: Want) -> bool
    ensures { result ≡ same_want want Exclusive }
{
    match want {
        Want::Exclusive => true,
        _ => false,
    }
}

/// Whether it waits for a mode, and not until the lock is free.
pub fn is_locker(want: Want) -> bool
    ensures { result ≡ not (same_want want UntilFree) }
{
    match want {
        Want::UntilFree => false,
        _ => true,
    }
}

// Takes off a list whom a wake takes: from the head on all but who wants the lock exclusively where
// one was taken who wants it, up to the first taken who wants it exclusively.
pub(crate) fn part(list: &mut ArrayVec<Waiter, 64>) -> ArrayVec<Waiter, 64>
    ensures taken { result.items ≡ taken_from list.old.items }
    ensures kept { list.new.items ≡ kept_from list.old.items }
{
    let mut taken = ArrayVec::new();
    let mut kept = ArrayVec::new();
    let mut locker = false;
    let mut done = false;
    for waiter in list.as_slice() {
        let exclusive = is_exclusive(waiter.want);
        if done || exclusive && locker {
            kept.push(*waiter);
        } else {
            taken.push(*waiter);
            locker = locker || is_locker(waiter.want);
            done = exclusive;
        }
    }
    *list = kept;
    taken
}

pub(crate) fn locker_among(waiters: &ArrayVec<Waiter, 64>) -> bool
    ensures { result ≡ has_locker waiters.now.items }
{
    for waiter in waiters.as_slice() {
        if is_locker(waiter.want) {
            return true;
        }
    }
    false
}

pub(crate) fn proc_of(waiter: &Waiter) -> ProcNo
    requires { waiter.now.proc < 64 }
    ensures { result ≡ waiter.now.proc }
{
    let Some(proc) = ProcNo::new(waiter.proc) else {
        unreachable!()
    };
    proc
}

/// Stores for each that is taken off the list in hand that its wake is coming.
#[tactic(auto, using(crate::proofs::Waiting::below_at))]
pub fn mark<G: Guarded>(
    table: &LwTable<G>,
    seat: &mut LwSeat,
    lock: LockNo,
    taken: &ArrayVec<Waiter, 64>,
)
    requires table { seat.old.table_id ≡ table.now.table_id }
    requires few { table.now.procs ≤ 64 }
    requires taken { AllBelow table.now.procs taken.now.items }
    requires place { seat.old.view.place ≡ marking (is_calling seat.old.view.place) lock (updated_at seat.old.view.place) (found_at seat.old.view.place) [] taken.now.items ∷ [] }
    ensures table { (seat.new.table_id ≡ seat.old.table_id) × (seat.new.id ≡ seat.old.id) }
    ensures view { WentBy (marked_by taken.now.items) (marking (is_calling seat.old.view.place) lock (updated_at seat.old.view.place) (found_at seat.old.view.place) taken.now.items [] ∷ []) seat.old.view seat.new.view }
    ensures list { seat.new.list ≡ seat.old.list }
    ensures program { BeginsNone seat.old.view seat.new.view }
{
    for waiter in taken.as_slice() {
        table.step(seat, LwStep::WaitStore(proc_of(waiter), 2));
    }
}

// Exchanges the state word; then those that are kept are at home.
fn detach<G: Guarded, R: Wait>(
    rt: &R,
    table: &LwTable<G>,
    seat: &mut LwSeat,
    lock: LockNo,
    locker: bool,
)
    requires table { seat.old.table_id ≡ table.now.table_id }
    requires lock { lock < table.now.locks }
    requires place { seat.old.view.place ≡ Marking lock (updated_at seat.old.view.place) (found_at seat.old.view.place) (taken_from (found_at seat.old.view.place)) [] ∷ [] }
    requires kept { seat.old.list ≡ kept_from (found_at seat.old.view.place) }
    requires locker { locker ≡ has_locker (taken_from (found_at seat.old.view.place)) }
    ensures table { (seat.new.table_id ≡ seat.old.table_id) × (seat.new.id ≡ seat.old.id) }
    ensures view { Went (telling (taken_from (found_at seat.old.view.place)) []) seat.old.view seat.new.view }
    ensures exchanged { Exchanged lock (found_at seat.old.view.place) seat.old.view seat.new.view }
    ensures program { BeginsNone seat.old.view seat.new.view }
{
    let none = seat.list().items.is_empty();
    let mut word = table.step(seat, LwStep::Load(lock, None)).old;
    for _ in rt.forever() {
        let seen = table.step(seat, LwStep::Wake(lock, word, woken(word, locker, none)));
        if seen.changed {
            return;
        }
        word = seen.old;
    }
    unreachable!()
}

/// Tells each that was taken: it doesn't wait any more, and then its semaphore is raised.
#[tactic(auto, using(crate::proofs::Waiting::below_at))]
pub fn tell<G: Guarded>(table: &LwTable<G>, seat: &mut LwSeat, taken: &ArrayVec<Waiter, 64>)
    requires table { seat.old.table_id ≡ table.now.table_id }
    requires few { table.now.procs ≤ 64 }
    requires taken { AllBelow table.now.procs taken.now.items }
    requires place { seat.old.view.place ≡ telling taken.now.items [] }
    ensures table { (seat.new.table_id ≡ seat.old.table_id) × (seat.new.id ≡ seat.old.id) }
    ensures view { WentBy (told_by taken.now.items) [] seat.old.view seat.new.view }
    ensures program { BeginsNone seat.old.view seat.new.view }
{
    for waiter in taken.as_slice() {
        let proc = proc_of(waiter);
        table.step(seat, LwStep::WaitStore(proc, 0));
        post(table, seat, proc);
    }
}

// Wakes waiters of a lock that was let go (`LWLockWakeup`).
#[tactic(auto, using(lw_core::proofs::Below::taken_below))]
fn wake<G: Guarded, R: Wait>(rt: &R, table: &LwTable<G>, seat: &mut LwSeat, lock: LockNo)
    requires table { seat.old.table_id ≡ table.now.table_id }
    requires lock { lock < table.now.locks }
    requires place { seat.old.view.place ≡ TakingList lock ∷ Waking lock (updated_at seat.old.view.place) ∷ [] }
    ensures table { (seat.new.table_id ≡ seat.old.table_id) × (seat.new.id ≡ seat.old.id) }
    ensures view { Went [] seat.old.view seat.new.view }
    ensures woken { Wakes lock seat.old.view seat.new.view }
    ensures program { BeginsNone seat.old.view seat.new.view }
{
    take_list(rt, table, seat, lock, None);
    let taken = part(&mut seat.list().items);
    mark(table, seat, lock, &taken);
    detach(rt, table, seat, lock, locker_among(&taken));
    tell(table, seat, &taken);
}

/// Takes the seat's grant from the lock, and wakes waiters where nobody holds it any more. A call
/// begins with it, or it is the last part of one.
pub fn let_go<G: Guarded, R: Wait>(
    rt: &R,
    table: &LwTable<G>,
    seat: &mut LwSeat,
    lock: LockNo,
    mode: Mode,
    begins: Option<Call>,
)
    requires table { seat.old.table_id ≡ table.now.table_id }
    requires lock { lock < table.now.locks }
    requires place { BeginsRelease lock begins seat.old.view }
    requires held { mode_in lock seat.old.view ≡ Some mode }
    requires last { releasing begins seat.old.view.place ≡ [] }
    requires lawful { LeavesLawful (G.lawful lock) (hold_in lock seat.old.view) }
    ensures table { (seat.new.table_id ≡ seat.old.table_id) × (seat.new.id ≡ seat.old.id) }
    ensures view { Released lock seat.old.view seat.new.view }
    ensures woken { WakesRightly lock begins seat.old.view seat.new.view }
    ensures program { MakesFrom begins seat.old.view seat.new.view }
    ensures free { hold_in lock seat.new.view ≡ not_held }
{
    let word = table.step(seat, LwStep::Sub(lock, mode, begins)).old;
    if wakes_after(left_word(word, mode)) {
        wake(rt, table, seat, lock);
    }
}
