//! The steps of the lock machine, and the calls that begin with one.
ghost use Rattle.std.specs.Prelude.{◌≡◌, ◌≤◌};
ghost use Rattle.lw_core.specs.Machine.{exchanges, word_of};
ghost use Rattle.lw_core.specs.Ops.{op_of};
ghost use Rattle.lw_core.specs.Sending.{pokes_by};

use crate::view::Size;
use crate::words::{
    HAS_WAITERS, LOCKED, RELEASE_OK, grant, guarded_word, sem_word, state_word, variable_word,
    waiting_word,
};
use proc_table::{LockNo, Mode, ProcNo};

/// A call that begins at a step, with its arguments.
#[derive(Clone, Copy)]
pub enum Call {
    /// One attempt, as in `LWLockConditionalAcquire`.
    Try(LockNo, Mode),
    /// `LWLockAcquire`.
    Acquire(LockNo, Mode),
    /// `LWLockAcquireOrWait`.
    AcquireOrWait(LockNo, Mode),
    /// `LWLockRelease`.
    Release(LockNo),
    /// `LWLockWaitForVar`, with the value that the caller has seen.
    WaitForVar(LockNo, u64),
    /// `LWLockUpdateVar`, with the new value.
    UpdateVar(LockNo, u64),
    /// `LWLockReleaseClearVar`, with the value that the variable gets.
    ReleaseClearVar(LockNo, u64),
    /// `PGSemaphoreLock` of the own semaphore.
    Down,
    /// `PGSemaphoreUnlock` of a backend that nobody owes a wake.
    Poke(ProcNo),
}

/// What a step does to a guarded word.
#[derive(Clone, Copy)]
pub enum GuardOp {
    Load,
    Store(u64),
}

/// One step on one word. A step that can be the first of a call names the call that it begins.
#[derive(Clone, Copy)]
pub enum LwStep {
    /// Reads the state word; an attempt begins with it.
    Load(LockNo, Option<Call>),
    /// Exchanges the state word that was found for the one with the grant of the mode.
    Grant(LockNo, Mode, u64),
    /// Exchanges the state word that was found, which isn't free for the mode, for itself.
    Refuse(LockNo, Mode, u64),
    /// Takes the seat's grant of this mode from the state word.
    Sub(LockNo, Mode, Option<Call>),
    /// Reads the state word to see whether an exclusive holder is there.
    Peek(LockNo, Option<Call>),
    /// Reads or writes one of the lock's four guarded words; a call of its own.
    Guard(LockNo, u32, GuardOp),
    /// Sets LOCKED. Where it wasn't set the seat has the lock's list in hand.
    Lock(LockNo, Option<Call>),
    /// Reads the lock's variable, with the list in hand.
    VarLoad(LockNo),
    /// Stores the lock's variable, with the list in hand.
    VarStore(LockNo, u64),
    /// Clears LOCKED, and HAS_WAITERS where the flag says so. The list goes home.
    Unlock(LockNo, bool),
    /// Sets HAS_WAITERS.
    Flag(LockNo),
    /// Stores the waiting field of a backend: 0 it doesn't wait, 1 it does, 2 its wake is coming.
    WaitStore(ProcNo, u64),
    /// Reads the own waiting field.
    WaitLoad,
    /// Exchanges the state word that was found for the one after the wake. The list goes home.
    Wake(LockNo, u64, u64),
    /// Raises the semaphore of a backend by one.
    Post(ProcNo, Option<Call>),
    /// Reads the own semaphore.
    Look(Option<Call>),
    /// Takes the own semaphore down by one.
    Down,
    /// Sets RELEASE_OK.
    SetReleaseOk(LockNo),
}

/// What a step found: the word before it, and whether an exchange took place.
#[derive(Clone, Copy)]
pub struct LwSeen {
    pub old: u64,
    pub changed: bool,
}

/// What an atomic operation does to a word.
#[derive(Clone, Copy)]
pub(crate) enum WordOp {
    Load,
    Store(u64),
    Add(u64),
    Sub(u64),
    And(u64),
    Or(u64),
    /// Exchanges the first for the second.
    Change(u64, u64),
}

impl LwStep {
    /// The word that a step of this backend is on.
    #[inline(always)]
    pub(crate) fn word(&self, size: Size, own: ProcNo) -> usize
        requires { size.locks ≤ 200 }
        ensures { result ≡ word_of size own self.now }
    {
        match *self {
            LwStep::Load(lock, _) => state_word(lock),
            LwStep::Grant(lock, _, _) => state_word(lock),
            LwStep::Refuse(lock, _, _) => state_word(lock),
            LwStep::Sub(lock, _, _) => state_word(lock),
            LwStep::Peek(lock, _) => state_word(lock),
            LwStep::Guard(lock, at, _) => guarded_word(lock, at),
            LwStep::Lock(lock, _) => state_word(lock),
            LwStep::VarLoad(lock) => variable_word(lock),
            LwStep::VarStore(lock, _) => variable_word(lock),
            LwStep::Unlock(lock, _) => state_word(lock),
            LwStep::Flag(lock) => state_word(lock),
            LwStep::Wake(lock, _, _) => state_word(lock),
            LwStep::SetReleaseOk(lock) => state_word(lock),
            LwStep::WaitStore(proc, _) => waiting_word(size, proc),
            LwStep::WaitLoad => waiting_word(size, own),
            LwStep::Post(proc, _) => sem_word(size, proc),
            LwStep::Look(_) => sem_word(size, own),
            LwStep::Down => sem_word(size, own),
        }
    }

    /// The operation.
    #[inline(always)]
    pub(crate) fn op(&self) -> WordOp
        ensures { result ≡ op_of self.now }
    {
        match *self {
            LwStep::Load(_, _) => WordOp::Load,
            LwStep::Grant(_, mode, from) => WordOp::Change(from, from.wrapping_add(grant(mode))),
            LwStep::Refuse(_, _, from) => WordOp::Change(from, from),
            LwStep::Sub(_, mode, _) => WordOp::Sub(grant(mode)),
            LwStep::Peek(_, _) => WordOp::Load,
            LwStep::Guard(_, _, GuardOp::Load) => WordOp::Load,
            LwStep::Guard(_, _, GuardOp::Store(value)) => WordOp::Store(value),
            LwStep::Lock(_, _) => WordOp::Or(LOCKED),
            LwStep::VarLoad(_) => WordOp::Load,
            LwStep::VarStore(_, value) => WordOp::Store(value),
            LwStep::Unlock(_, clears) => {
                if clears {
                    WordOp::And(!(LOCKED | HAS_WAITERS))
                } else {
                    WordOp::And(!LOCKED)
                }
            }
            LwStep::Flag(_) => WordOp::Or(HAS_WAITERS),
            LwStep::WaitStore(_, value) => WordOp::Store(value),
            LwStep::WaitLoad => WordOp::Load,
            LwStep::Wake(_, from, to) => WordOp::Change(from, to),
            LwStep::Post(_, _) => WordOp::Add(1),
            LwStep::Look(_) => WordOp::Load,
            LwStep::Down => WordOp::Sub(1),
            LwStep::SetReleaseOk(_) => WordOp::Or(RELEASE_OK),
        }
    }

    /// Whether the word was changed, or exchanged for itself.
    #[inline(always)]
    pub(crate) fn exchanges(&self, found: u64) -> bool
        ensures { result ≡ exchanges self.now found }
    {
        match *self {
            LwStep::Load(_, _) => false,
            LwStep::Grant(_, _, from) => found == from,
            LwStep::Refuse(_, _, from) => found == from,
            LwStep::Peek(_, _) => false,
            LwStep::Guard(_, _, GuardOp::Load) => false,
            LwStep::VarLoad(_) => false,
            LwStep::WaitLoad => false,
            LwStep::Wake(_, from, _) => found == from,
            LwStep::Look(_) => false,
            _ => true,
        }
    }

    /// 1 where the step pokes somebody, and else 0.
    #[inline(always)]
    pub(crate) fn pokes(&self) -> u32
        ensures { result ≡ pokes_by self.now }
    {
        match *self {
            LwStep::Post(_, Some(Call::Poke(_))) => 1,
            _ => 0,
        }
    }
}
