//! A bounded buffer under a lightweight lock, with a condition for who finds it full and one for who
//! finds it empty: an example of a lock and of conditions together.
#![tactic(auto)]

ghost use Rattle.std.specs.Prelude.{◌≡◌, ◌<◌, ◌≤◌, IfOk};

#[cfg(test)]
mod tests;

use condition_variable::{cancel_sleep, prepare_to_sleep, signal, sleep};
use lw_core::{Guarded, LwSeat, LwTable};
use lwlock::{acquire, release};
use proc_table::{CvNo, LockNo, Mode, NoMemory, NoMoreProcs};
use std::alloc::Global;
use std::sync::Wait;
use std::sync::atomic::{AtomicU64, Ordering};
use wait_core::{NoParty, WaitSeat, WaitTable};

/// How many items there is room for.
pub const PLACES: u64 = 8;

// The lock's words: how many items were put so far, and how many were taken.
const PUT: u32 = 0;

const TAKEN: u32 = 1;

/// Says nothing of the lock's words.
pub struct Counts;

impl Guarded for Counts {
    ghost lawful = { λ _ _. Unit {0} };

    ghost zeros = { λ _. tt };
}

/// The places, and the lock and the conditions of those who put and take. The item with the number n
/// stands in the place n modulo 8.
#[derive(Drop)]
pub struct Buffer {
    pub locks: LwTable<Counts>,
    pub conditions: WaitTable<NoParty>,
    pub lock: LockNo,
    pub not_full: CvNo,
    pub not_empty: CvNo,
    pub places: [AtomicU64; 8],
    ghost inside: { (lock < locks.locks) × (not_full < conditions.cvs) × (not_empty < conditions.cvs) },
}

/// A backend's seats, one at each table.
#[derive(Drop)]
pub struct Backend {
    pub lock: LwSeat,
    pub wait: WaitSeat<NoParty>,
}

/// An item, and how many were taken before it.
#[derive(Debug, Clone, Copy, PartialEq, Eq)]
pub struct Taken {
    pub number: u64,
    pub item: u64,
}

impl Buffer {
    ghost use Rattle.bounded_buffer.specs.Backends.{IsFirst, IsHolding, IsIdle, IsIn};

    /// An empty buffer for so many backends, and the first of them.
    pub fn new(alloc: Global, procs: u32) -> Result<(Buffer, Backend), NoMemory>
        requires procs { (0 < procs) × (procs ≤ 64) }
        ensures idle { IfOk result (λ t. IsIdle t.0 t.1) }
        ensures first { IfOk result (λ t. IsFirst t.1) }
    {
        let (Some(lock), Some(not_full), Some(not_empty)) = (
            LockNo::new(0),
            CvNo::new(0),
            CvNo::new(1),
        ) else {
            unreachable!()
        };
        let (locks, lock_seat) = LwTable::new(alloc, 1, procs)?;
        let (conditions, wait_seat) = WaitTable::new(alloc, NoParty, procs, 2, 1, 0)?;
        let buffer = Buffer {
            locks,
            conditions,
            lock,
            not_full,
            not_empty,
            places: [
                AtomicU64::new(0),
                AtomicU64::new(0),
                AtomicU64::new(0),
                AtomicU64::new(0),
                AtomicU64::new(0),
                AtomicU64::new(0),
                AtomicU64::new(0),
                AtomicU64::new(0),
            ],
        };
        let backend = Backend {
            lock: lock_seat,
            wait: wait_seat,
        };
        Ok((buffer, backend))
    }

    /// One more backend; `from` is the first.
    pub fn backend(&self, from: &mut Backend) -> Result<Backend, NoMoreProcs>
        requires idle { IsIdle self.now from.old }
        requires first { IsFirst from.old }
        ensures idle { IsIdle self.now from.new }
        ensures first { IsFirst from.new }
        ensures drawn { IfOk result (λ b. IsIdle self.now b) }
    {
        let lock = self.locks.seat(&mut from.lock)?;
        match self.conditions.seat(&mut from.wait) {
            Ok(wait) => Ok(Backend { lock, wait }),
            Err(refused) => {
                self.locks.join(&mut from.lock, lock);
                Err(refused)
            }
        }
    }

    /// Puts an item behind those that are there, once there is room.
    pub fn put<R: Wait>(&self, rt: &R, backend: &mut Backend, item: u64)
        requires idle { IsIdle self.now backend.old }
        ensures idle { IsIdle self.now backend.new }
    {
        let signalled = self.acquire_unless(rt, backend, PLACES, self.not_full);
        let number = self.locks.read_word(&mut backend.lock, self.lock, PUT);
        self.places[(number % PLACES) as usize].store(item, Ordering::SeqCst);
        let next = u64::wrapping_add(number, 1);
        self.locks
            .write_word(&mut backend.lock, self.lock, PUT, next);
        release(rt, &self.locks, &mut backend.lock, self.lock);
        signal(rt, &self.conditions, &mut backend.wait, self.not_empty);
        if signalled {
            signal(rt, &self.conditions, &mut backend.wait, self.not_full);
        }
    }

    /// Takes the first item, once there is one.
    pub fn take<R: Wait>(&self, rt: &R, backend: &mut Backend) -> Taken
        requires idle { IsIdle self.now backend.old }
        ensures idle { IsIdle self.now backend.new }
    {
        let signalled = self.acquire_unless(rt, backend, 0, self.not_empty);
        let number = self.locks.read_word(&mut backend.lock, self.lock, TAKEN);
        let item = self.places[(number % PLACES) as usize].load(Ordering::SeqCst);
        let next = u64::wrapping_add(number, 1);
        self.locks
            .write_word(&mut backend.lock, self.lock, TAKEN, next);
        release(rt, &self.locks, &mut backend.lock, self.lock);
        signal(rt, &self.conditions, &mut backend.wait, self.not_full);
        if signalled {
            signal(rt, &self.conditions, &mut backend.wait, self.not_empty);
        }
        Taken { number, item }
    }

    // Takes the lock, and while there are so many items sleeps on the condition without it. Whether
    // a signal came since the last sleep: it was for one more, who is to have it.
    fn acquire_unless<R: Wait>(&self, rt: &R, backend: &mut Backend, items: u64, cv: CvNo) -> bool
        requires idle { IsIdle self.now backend.old }
        requires condition { cv < self.now.conditions.cvs }
        ensures holding { IsHolding self.now backend.new }
    {
        acquire(
            rt,
            &self.locks,
            &mut backend.lock,
            self.lock,
            Mode::Exclusive,
        );
        for _ in rt.forever() {
            if self.count_items(&mut backend.lock) != items {
                return cancel_sleep(rt, &self.conditions, &mut backend.wait);
            }
            prepare_to_sleep(rt, &self.conditions, &mut backend.wait, cv);
            release(rt, &self.locks, &mut backend.lock, self.lock);
            sleep(rt, &self.conditions, &mut backend.wait, cv);
            acquire(
                rt,
                &self.locks,
                &mut backend.lock,
                self.lock,
                Mode::Exclusive,
            );
        }
        unreachable!()
    }

    // How many items there are.
    fn count_items(&self, seat: &mut LwSeat) -> u64
        requires table { seat.old.table_id ≡ self.now.locks.table_id }
        requires holding { IsIn self.now.lock seat.old.view }
        ensures table { seat.new.table_id ≡ seat.old.table_id }
        ensures holding { IsIn self.now.lock seat.new.view }
    {
        let put = self.locks.read_word(seat, self.lock, PUT);
        let taken = self.locks.read_word(seat, self.lock, TAKEN);
        u64::wrapping_sub(put, taken)
    }
}
