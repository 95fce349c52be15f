//! The words of a machine of locks.
ghost use Rattle.std.specs.Prelude.{◌≡◌, ◌≤◌, ◌<◌, ◌+◌, ◌-◌, ◌^◌, ◌==◌, cond};
ghost use Rattle.lw_core.specs.Words.{grant_of, has_flag, clear_flag, is_free, locked, has_waiters, release_ok, set_flag, state_at, waiting_at, sem_at};
ghost use Rattle.lw_core.specs.Machine.{becomes, calls_for_wake, lock_number, woken_word, word_of};
ghost use Rattle.lock_script.specs.LockSketch.{HasRoom};

use crate::lists::has_locker;
use lw_core::{GuardOp, LwStep, Size, Waiter};
use proc_table::{LockNo, Mode, ProcNo};

pub(crate) const LOCKED: u64 = 0x1000_0000;

pub(crate) const RELEASE_OK: u64 = 0x2000_0000;

pub(crate) const HAS_WAITERS: u64 = 0x4000_0000;

fn grant_of(mode: Mode) -> u64
    ensures { result ≡ grant_of mode }
{
    match mode {
        Mode::Shared => 1,
        Mode::Exclusive => 0x0100_0000,
    }
}

/// Whether a flag is set.
pub(crate) fn is_set(flag: u64, word: u64) -> bool
    requires { 0 < flag }
    ensures { result ≡ (has_flag flag word == 1) }
{
    word / flag % 2 == 1
}

fn clear_flag(flag: u64, word: u64) -> u64
    requires { 0 < flag }
    ensures { result ≡ clear_flag flag word }
{
    if is_set(flag, word) {
        word - flag
    } else {
        word
    }
}

/// Whether a state word is free for a mode.
pub(crate) fn is_free(mode: Mode, word: u64) -> bool
    ensures { result ≡ is_free mode word }
{
    match mode {
        Mode::Shared => word / 0x0100_0000 % 2 == 0,
        Mode::Exclusive => word % 0x0200_0000 == 0,
    }
}

fn allowed(word: u64) -> u64
    ensures { result ≡ set_flag release_ok word }
{
    word | RELEASE_OK
}

fn answered(locker: bool, word: u64) -> u64
    ensures { result ≡ cond locker (clear_flag release_ok word) (set_flag release_ok word) }
{
    if locker {
        clear_flag(RELEASE_OK, word)
    } else {
        allowed(word)
    }
}

/// The state word after a wake that takes these and keeps those.
pub(crate) fn woken_word(took: &[Waiter], kept: &[Waiter], word: u64) -> u64
    ensures { result ≡ woken_word took.now kept.now word }
{
    let left = answered(has_locker(took), clear_flag(LOCKED, word));
    if kept.is_empty() {
        clear_flag(HAS_WAITERS, left)
    } else {
        left
    }
}

/// Whether a release that left this word calls for a wake.
pub(crate) fn calls_for_wake(word: u64) -> bool
    ensures { result ≡ calls_for_wake word }
{
    is_set(HAS_WAITERS, word) && is_set(RELEASE_OK, word) && word % 0x0200_0000 == 0
}

/// The word that a release leaves.
pub(crate) fn released(mode: Mode, word: u64) -> u64
    ensures { result ≡ word - grant_of mode }
{
    word.saturating_sub(grant_of(mode))
}

fn state_at(lock: LockNo) -> usize
    ensures { result ≡ state_at lock }
{
    6 * lock.number() as usize + 1
}

fn waiting_at(size: Size, proc: ProcNo) -> usize
    requires { size.locks ≤ 200 }
    ensures { result ≡ waiting_at size proc }
{
    1 + 6 * size.locks as usize + 2 * proc.number() as usize
}

fn sem_at(size: Size, proc: ProcNo) -> usize
    requires { size.locks ≤ 200 }
    ensures { result ≡ sem_at size proc }
{
    2 + 6 * size.locks as usize + 2 * proc.number() as usize
}

/// The word that a step of a backend is on.
pub(crate) fn word_of(size: Size, own: ProcNo, step: &LwStep) -> usize
    requires { size.locks ≤ 200 }
    ensures { result ≡ word_of size own step.now }
{
    match *step {
        LwStep::Load(lock, _)
        | LwStep::Grant(lock, _, _)
        | LwStep::Refuse(lock, _, _)
        | LwStep::Sub(lock, _, _)
        | LwStep::Peek(lock, _)
        | LwStep::Lock(lock, _)
        | LwStep::Unlock(lock, _)
        | LwStep::Flag(lock)
        | LwStep::Wake(lock, _, _)
        | LwStep::SetReleaseOk(lock) => state_at(lock),
        LwStep::Guard(lock, at, _) => 6 * lock.number() as usize + 3 + at as usize,
        LwStep::VarLoad(lock) | LwStep::VarStore(lock, _) => 6 * lock.number() as usize + 2,
        LwStep::WaitStore(proc, _) => waiting_at(size, proc),
        LwStep::WaitLoad => waiting_at(size, own),
        LwStep::Post(proc, _) => sem_at(size, proc),
        LwStep::Look(_) | LwStep::Down => sem_at(size, own),
    }
}

/// The number of the lock that a step is on, or 0.
pub(crate) fn lock_number(step: &LwStep) -> usize
    ensures { result ≡ lock_number step.now }
{
    match *step {
        LwStep::Load(lock, _)
        | LwStep::Grant(lock, _, _)
        | LwStep::Refuse(lock, _, _)
        | LwStep::Sub(lock, _, _)
        | LwStep::Peek(lock, _)
        | LwStep::Guard(lock, _, _)
        | LwStep::Lock(lock, _)
        | LwStep::VarLoad(lock)
        | LwStep::VarStore(lock, _)
        | LwStep::Unlock(lock, _)
        | LwStep::Flag(lock)
        | LwStep::Wake(lock, _, _)
        | LwStep::SetReleaseOk(lock) => lock.number() as usize,
        LwStep::WaitStore(..)
        | LwStep::WaitLoad
        | LwStep::Post(..)
        | LwStep::Look(_)
        | LwStep::Down => 0,
    }
}

fn unlocked(clears: bool, word: u64) -> u64
    ensures { result ≡ cond clears (clear_flag has_waiters (clear_flag locked word)) (clear_flag locked word) }
{
    let free = clear_flag(LOCKED, word);
    if clears {
        clear_flag(HAS_WAITERS, free)
    } else {
        free
    }
}

/// What the word that a step found becomes.
pub(crate) fn becomes(step: &LwStep, found: u64) -> u64
    requires room { HasRoom step.now found }
    ensures { result ≡ becomes step.now found }
{
    match *step {
        LwStep::Load(..)
        | LwStep::Refuse(..)
        | LwStep::Peek(..)
        | LwStep::Guard(_, _, GuardOp::Load)
        | LwStep::VarLoad(_)
        | LwStep::WaitLoad
        | LwStep::Look(_) => found,
        LwStep::Grant(_, mode, from) if found == from => from + grant_of(mode),
        LwStep::Grant(..) => found,
        LwStep::Sub(_, mode, _) => released(mode, found),
        LwStep::Guard(_, _, GuardOp::Store(value))
        | LwStep::VarStore(_, value)
        | LwStep::WaitStore(_, value) => value,
        LwStep::Lock(..) => found | LOCKED,
        LwStep::Unlock(_, clears) => unlocked(clears, found),
        LwStep::Flag(_) => found | HAS_WAITERS,
        LwStep::Wake(_, from, to) if found == from => to,
        LwStep::Wake(..) => found,
        LwStep::Post(..) => found + 1,
        LwStep::Down => found.saturating_sub(1),
        LwStep::SetReleaseOk(_) => found | RELEASE_OK,
    }
}
