//! Where each word of a table lies, and how the words open.
ghost use Rattle.std.specs.Prelude.{◌≡◌, ◌≤◌, IfOk, length};
ghost use Rattle.lw_core.specs.Words.{grant_of, guard_at, sem_at, state_at, var_at, waiting_at, word_count, Opens};
ghost use Rattle.lw_core.specs.WaitLists.{AllEmpty};

use crate::view::{Size, Waiters};
use arrayvec::ArrayVec;
use proc_table::{LockNo, Mode, ProcNo};
use std::alloc::{AllocError, Global};

const GRANT_SHARED: u64 = 1;

const GRANT_EXCLUSIVE: u64 = 0x0100_0000;

pub(crate) const LOCKED: u64 = 0x1000_0000;

pub(crate) const RELEASE_OK: u64 = 0x2000_0000;

pub(crate) const HAS_WAITERS: u64 = 0x4000_0000;

pub(crate) fn grant(mode: Mode) -> u64
    ensures { result ≡ grant_of mode }
{
    match mode {
        Mode::Shared => GRANT_SHARED,
        Mode::Exclusive => GRANT_EXCLUSIVE,
    }
}

pub(crate) fn state_word(lock: LockNo) -> usize
    ensures { result ≡ state_at lock }
{
    6 * lock.number() as usize + 1
}

pub(crate) fn variable_word(lock: LockNo) -> usize
    ensures { result ≡ var_at lock }
{
    6 * lock.number() as usize + 2
}

pub(crate) fn guarded_word(lock: LockNo, at: u32) -> usize
    ensures { result ≡ guard_at lock at }
{
    6 * lock.number() as usize + 3 + at as usize
}

pub(crate) fn waiting_word(size: Size, proc: ProcNo) -> usize
    requires { size.locks ≤ 200 }
    ensures { result ≡ waiting_at size proc }
{
    1 + 6 * size.locks as usize + 2 * proc.number() as usize
}

pub(crate) fn sem_word(size: Size, proc: ProcNo) -> usize
    requires { size.locks ≤ 200 }
    ensures { result ≡ sem_at size proc }
{
    2 + 6 * size.locks as usize + 2 * proc.number() as usize
}

pub(crate) fn opening_words(alloc: Global, size: Size) -> Result<Vec<u64>, AllocError>
    requires { (size.locks ≤ 200) × (size.procs ≤ 64) }
    ensures { IfOk result (λ v. (length v.items ≡ word_count size) × Opens size.locks v.items) }
{
    let count = 1 + 6 * size.locks as usize + 2 * size.procs as usize;
    let mut words = vec![in alloc; 0; count]?;
    words[0] = 1;
    for l in 0..size.locks {
        words[6 * l as usize + 1] = RELEASE_OK;
    }
    Ok(words)
}

pub(crate) fn opening_lists(alloc: Global, locks: u32) -> Result<Vec<Waiters>, AllocError>
    requires { locks ≤ 200 }
    ensures { IfOk result (λ v. (length v.items ≡ locks) × AllEmpty v.items) }
{
    let mut lists = Vec::new(alloc);
    for _ in 0..locks {
        lists.push(ArrayVec::new())?;
    }
    Ok(lists)
}
