//! What no clause says: each call once, the words of a lock from hand to hand, and two threads.
ghost use Rattle.std.specs.Prelude.{◌≡◌, ◌<◌, None, Some, slice_index, refl};
ghost use Rattle.lw_core.specs.Machine.{fresh};

use super::*;
use crate::attempt::is_free_for;
use crate::queue::{join_list, list_is_home};
use crate::rounds::wanted;
use crate::wake::{left_word, locker_among, part, proc_of, wakes_after, woken};
use arrayvec::ArrayVec;
use lw_core::{LwClosed, LwSeen, Waiter, Want};
use proc_table::{NoMoreProcs, ProcNo};
use semaphore::poke;
use std::alloc::Global;
use std::process::Abort;
use std::test::Fail;
use std::thread::{Threads, join};

mod or_wait;
mod runs;
mod threads;

// Every list of words is lawful.
struct AnyWords;

impl Guarded for AnyWords {
    ghost lawful = { λ _ _. Unit {0} };

    ghost zeros = { λ _. tt };
}

// The first two words are equal.
struct Twins;

impl Guarded for Twins {
    ghost lawful = { λ _ words. slice_index words 0 ≡ slice_index words 1 };

    ghost zeros = { λ _. refl };
}

#[test]
fn an_exclusive_holder_refuses_a_shared_one(rt: HostRuntime) -> Result<(), Fail> {
    let lock = LockNo::new(1).ok_or("a lock")?;
    let Ok((table, mut first)) = LwTable::<AnyWords>::new(rt.alloc(), 2, 2) else {
        panic!(rt; "no memory")
    };
    let Ok(mut other) = table.seat(&mut first) else {
        panic!(rt; "no number")
    };
    assert_eq!(rt;
        conditional_acquire(&rt, &table, &mut first, lock, Mode::Exclusive),
        Ok(())
    );
    let refused = conditional_acquire(&rt, &table, &mut other, lock, Mode::Shared);
    assert_eq!(rt; refused, Err(Held { seen: 0x2100_0000 }));
    assert_eq!(rt; first.mode_of(lock), Some(Mode::Exclusive));
    assert_eq!(rt; other.mode_of(lock), None);
    release(&rt, &table, &mut first, lock);
    assert_eq!(rt;
        conditional_acquire(&rt, &table, &mut other, lock, Mode::Shared),
        Ok(())
    );
    release(&rt, &table, &mut other, lock);
    table.join(&mut first, other);
    let closed = table.close(first);
    assert_eq!(rt; closed.state(lock), 0x2000_0000);
    Ok(())
}

// Draws numbers until one is refused, and says which.
fn number_refused(table: &LwTable<AnyWords>, first: &mut LwSeat) -> u64
    requires { (first.old.table_id ≡ table.now.table_id) × (first.old.view.own ≡ Some 0) }
{
    for _ in 0..64u32 {
        if let Err(NoMoreProcs { drawn }) = table.seat(first) {
            return drawn;
        }
    }
    0
}

#[test]
fn the_last_number_and_one_too_many(rt: HostRuntime) -> Result<(), Fail> {
    for procs in [1, 2, 64] {
        let Ok((table, mut first)) = LwTable::<AnyWords>::new(rt.alloc(), 1, procs) else {
            panic!(rt; "no memory")
        };
        assert_eq!(rt; table.procs(), procs);
        assert_eq!(rt; number_refused(&table, &mut first), u64::from(procs));
        assert_eq!(rt; first.proc().number(), 0);
    }
    Ok(())
}

#[test]
fn the_next_holder_reads_what_was_written(rt: HostRuntime) -> Result<(), Fail> {
    let lock = LockNo::new(0).ok_or("a lock")?;
    let Ok((table, mut first)) = LwTable::<Twins>::new(rt.alloc(), 1, 2) else {
        panic!(rt; "no memory")
    };
    let Ok(mut other) = table.seat(&mut first) else {
        panic!(rt; "no number")
    };
    let Ok(()) = conditional_acquire(&rt, &table, &mut first, lock, Mode::Exclusive) else {
        panic!(rt; "a fresh lock was held")
    };
    table.write_word(&mut first, lock, 0, 7);
    table.write_word(&mut first, lock, 1, 7);
    assert_eq!(rt; table.read_word(&mut first, lock, 1), 7);
    release(&rt, &table, &mut first, lock);
    let Ok(()) = conditional_acquire(&rt, &table, &mut other, lock, Mode::Shared) else {
        panic!(rt; "a free lock was held")
    };
    let words = [
        table.read_word(&mut other, lock, 0),
        table.read_word(&mut other, lock, 1),
        table.read_word(&mut other, lock, 2),
        table.read_word(&mut other, lock, 3),
    ];
    assert_eq!(rt; words, [7, 7, 0, 0]);
    Ok(())
}

#[test]
fn steps_find_the_words_of_two_shared_grants(rt: HostRuntime) -> Result<(), Fail> {
    let lock = LockNo::new(0).ok_or("a lock")?;
    let Ok((table, mut zero)) = LwTable::<AnyWords>::new(rt.alloc(), 1, 3) else {
        panic!(rt; "no memory")
    };
    let Ok(mut one) = table.seat(&mut zero) else {
        panic!(rt; "no number")
    };
    let Ok(mut two) = table.seat(&mut zero) else {
        panic!(rt; "no number")
    };
    let shared = Some(Call::Try(lock, Mode::Shared));
    let first = table.step(&mut zero, LwStep::Load(lock, shared)).old;
    let second = table.step(&mut one, LwStep::Load(lock, shared)).old;
    assert!(rt; is_free_for(Mode::Shared, first) && is_free_for(Mode::Shared, second));
    let granted = table.step(&mut zero, LwStep::Grant(lock, Mode::Shared, first));
    let retried = table.step(&mut one, LwStep::Grant(lock, Mode::Shared, second));
    assert!(rt; granted.changed && !retried.changed);
    assert!(rt; is_free_for(Mode::Shared, retried.old));
    let again = table.step(&mut one, LwStep::Grant(lock, Mode::Shared, retried.old));
    assert!(rt; again.changed);
    let exclusive = Some(Call::Try(lock, Mode::Exclusive));
    let third = table.step(&mut two, LwStep::Load(lock, exclusive)).old;
    assert!(rt; !is_free_for(Mode::Exclusive, third));
    let refused = table.step(&mut two, LwStep::Refuse(lock, Mode::Exclusive, third));
    assert!(rt; refused.changed);
    let waits = Some(Call::WaitForVar(lock, 0));
    let peeked = table.step(&mut two, LwStep::Peek(lock, waits)).old;
    let left = table.step(
        &mut zero,
        LwStep::Sub(lock, Mode::Shared, Some(Call::Release(lock))),
    );
    let last = table.step(
        &mut one,
        LwStep::Sub(lock, Mode::Shared, Some(Call::Release(lock))),
    );
    let found = [first, second, granted.old, retried.old, again.old];
    assert_eq!(rt;
        found,
        [
            0x2000_0000,
            0x2000_0000,
            0x2000_0000,
            0x2000_0001,
            0x2000_0001
        ]
    );
    let found = [third, refused.old, peeked, left.old, last.old];
    assert_eq!(rt;
        found,
        [
            0x2000_0002,
            0x2000_0002,
            0x2000_0002,
            0x2000_0002,
            0x2000_0001
        ]
    );
    Ok(())
}
