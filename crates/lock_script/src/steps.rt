//! The step that comes next of a backend.
ghost use Rattle.std.specs.Prelude.{◌≡◌, ◌<◌, ◌∷◌, [], ℕ, cond, drop, IfOk};
ghost use Rattle.lw_core.specs.declared.step.LwStep.TheVariants.{Grant, Refuse, Wake};
ghost use Rattle.lw_core.specs.declared.view.Frame.TheVariants.{Removing};
ghost use Rattle.lw_core.specs.declared.view.Want.{Want};
ghost use Rattle.lw_core.specs.Words.{is_free};
ghost use Rattle.lw_core.specs.WaitLists.{AllBelow, is_empty, kept_from, taken_from};
ghost use Rattle.lw_core.specs.Machine.{left_at, woken_word};
ghost use Rattle.lock_script.specs.declared.locks.Ask.TheVariants.{Begin};
ghost use Rattle.lock_script.specs.Locks.{call_step, first_step, marking, next_of, step_at};
ghost use Rattle.lock_script.specs.LockSketch.{AskFits, GainsLittle, SizeFits, SpotFits, StepFits, frames};

use crate::lists::{kept_from, taken_from, without};
use crate::locks::Ask;
use crate::spots::Spot;
use crate::words::{is_free, woken_word};
use lw_core::{Call, GuardOp, LwStep, Size, Waiter};
use proc_table::{LockNo, Mode, ProcNo};
use std::alloc::{AllocError, Global};

fn call_step(size: Size, own: ProcNo, call: &Call, mode: Mode) -> LwStep
    requires size { SizeFits size }
    requires own { own < size.procs }
    requires call { AskFits size (Begin call.now) }
    ensures step { result ≡ call_step call.now mode }
    ensures fits { StepFits size own result }
{
    match *call {
        Call::Try(lock, wanted) => LwStep::Load(lock, Some(Call::Try(lock, wanted))),
        Call::Acquire(lock, wanted) => LwStep::Load(lock, Some(Call::Acquire(lock, wanted))),
        Call::AcquireOrWait(lock, wanted) => {
            LwStep::Load(lock, Some(Call::AcquireOrWait(lock, wanted)))
        }
        Call::Release(lock) => LwStep::Sub(lock, mode, Some(Call::Release(lock))),
        Call::WaitForVar(lock, old) => LwStep::Peek(lock, Some(Call::WaitForVar(lock, old))),
        Call::UpdateVar(lock, value) => LwStep::Lock(lock, Some(Call::UpdateVar(lock, value))),
        Call::ReleaseClearVar(lock, value) => {
            LwStep::Lock(lock, Some(Call::ReleaseClearVar(lock, value)))
        }
        Call::Down => LwStep::Look(Some(Call::Down)),
        Call::Poke(proc) => LwStep::Post(proc, Some(Call::Poke(proc))),
    }
}

fn first_step(size: Size, own: ProcNo, ask: &Ask, mode: Mode) -> LwStep
    requires size { SizeFits size }
    requires own { own < size.procs }
    requires ask { AskFits size ask.now }
    ensures step { result ≡ first_step ask.now mode }
    ensures fits { StepFits size own result }
{
    match ask {
        Ask::Begin(call) => call_step(size, own, call, mode),
        Ask::Read(lock, at) => LwStep::Guard(*lock, *at, GuardOp::Load),
        Ask::Write(lock, at, value) => LwStep::Guard(*lock, *at, GuardOp::Store(*value)),
    }
}

fn attempt(size: Size, own: ProcNo, lock: LockNo, mode: Mode, word: u64) -> LwStep
    requires lock { lock < size.locks }
    ensures step { result ≡ cond (is_free mode word) (Grant lock mode word) (Refuse lock mode word) }
    ensures fits { StepFits size own result }
{
    if is_free(mode, word) {
        LwStep::Grant(lock, mode, word)
    } else {
        LwStep::Refuse(lock, mode, word)
    }
}

// The backend of a number that is below 64.
fn backend_of(number: u32) -> ProcNo
    requires { number < 64 }
    ensures { result ≡ number }
{
    match ProcNo::new(number) {
        Some(backend) => backend,
        None => unreachable!(),
    }
}

// Who is told next, if there is one.
fn next_of(size: Size, own: ProcNo, taken: &[Waiter], told: usize) -> ProcNo
    requires size { SizeFits size }
    requires own { own < size.procs }
    requires taken { AllBelow size.procs taken.now }
    ensures next { result ≡ next_of own (drop told taken.now) }
    ensures within { result < size.procs }
{
    if told < taken.len() {
        backend_of(taken[told].proc)
    } else {
        own
    }
}

// Who is marked next; after the last the other step comes.
fn mark(size: Size, own: ProcNo, taken: &[Waiter], told: usize, last: LwStep) -> LwStep
    requires size { SizeFits size }
    requires own { own < size.procs }
    requires taken { AllBelow size.procs taken.now }
    requires last { StepFits size own last }
    ensures step { result ≡ marking own (drop told taken.now) last }
    ensures fits { StepFits size own result }
{
    if told < taken.len() {
        LwStep::WaitStore(next_of(size, own, taken, told), 2)
    } else {
        last
    }
}

// Whether a list is empty without the backend, where it is on it.
fn leaves_nobody(
    alloc: Global,
    own: ProcNo,
    list: &[Waiter],
    here: bool,
) -> Result<bool, AllocError>
    ensures { IfOk result (λ b. (l : ℕ) → (w : Want) → b ≡ is_empty (left_at (Removing l w list.now here ∷ []) own)) }
{
    if !here {
        return Ok(list.is_empty());
    }
    let others = without(alloc, own.number(), list)?;
    Ok(others.is_empty())
}

fn wake(alloc: Global, lock: LockNo, list: &[Waiter], word: u64) -> Result<LwStep, AllocError>
    ensures step { IfOk result (λ k. k ≡ Wake lock word (woken_word (taken_from list.now) (kept_from list.now) word)) }
    ensures little { IfOk result (λ k. GainsLittle k) }
{
    let taken = taken_from(alloc, list)?;
    let kept = kept_from(alloc, list)?;
    let to = woken_word(taken.as_slice(), kept.as_slice(), word);
    Ok(LwStep::Wake(lock, word, to))
}

/// The step that comes next of a backend in a call, where it holds the call's lock in this mode.
pub(crate) fn step_at(
    alloc: Global,
    size: Size,
    own: ProcNo,
    ask: &Ask,
    mode: Mode,
    spot: &Spot,
) -> Result<LwStep, AllocError>
    requires size { SizeFits size }
    requires own { own < size.procs }
    requires ask { AskFits size ask.now }
    requires spot { SpotFits size spot.now }
    ensures step { IfOk result (λ k. k ≡ step_at own ask.now mode (frames spot.now)) }
    ensures fits { IfOk result (λ k. StepFits size own k) }
{
    match spot {
        Spot::Idle => Ok(first_step(size, own, ask, mode)),
        Spot::Attempting(lock, _, _) | Spot::Spinning(lock, _) => Ok(LwStep::Load(*lock, None)),
        Spot::Trying(lock, wanted, word, _) => Ok(attempt(size, own, *lock, *wanted, *word)),
        Spot::Taking(lock, _) => Ok(LwStep::Lock(*lock, None)),
        Spot::Flagging(lock, _, _, _) => Ok(LwStep::Flag(*lock)),
        Spot::Announcing(..) => Ok(LwStep::WaitStore(own, 1)),
        Spot::Appending(lock, _, _, _)
        | Spot::Returning(lock, _, _, _, _)
        | Spot::Unhanding(lock, _) => Ok(LwStep::Unlock(*lock, false)),
        Spot::Checking(..) | Spot::Sleeping(..) => Ok(LwStep::WaitLoad),
        Spot::Removing(lock, _, _, list, here) => {
            let clears = leaves_nobody(alloc, own, list.as_slice(), *here)?;
            Ok(LwStep::Unlock(*lock, clears))
        }
        Spot::Withdrawing(_) => Ok(LwStep::WaitStore(own, 0)),
        Spot::Answering(lock, _, _) | Spot::Woken(lock, _) | Spot::Allowing(lock, _) => {
            Ok(LwStep::SetReleaseOk(*lock))
        }
        Spot::Looking(_) | Spot::Asleep(_) => Ok(LwStep::Look(None)),
        Spot::Downing(_) => Ok(LwStep::Down),
        Spot::GivingBack => Ok(LwStep::Post(own, None)),
        Spot::Marking(lock, _, _, taken, told) => {
            Ok(mark(
                size,
                own,
                taken.as_slice(),
                *told,
                LwStep::Load(*lock, None),
            ))
        }
        Spot::Detaching(lock, _, list, word) => wake(alloc, *lock, list.as_slice(), *word),
        Spot::Clearing(taken, told) => Ok(LwStep::WaitStore(
            next_of(size, own, taken.as_slice(), *told),
            0,
        )),
        Spot::Posting(taken, told) => Ok(LwStep::Post(
            next_of(size, own, taken.as_slice(), *told),
            None,
        )),
        Spot::Peeking(lock, _, _) => Ok(LwStep::Peek(*lock, None)),
        Spot::Reading(lock, _, _, _) => Ok(LwStep::VarLoad(*lock)),
        Spot::Publishing(lock, value, _, _) => Ok(LwStep::VarStore(*lock, *value)),
        Spot::Calling(lock, _, taken, told) => {
            Ok(mark(
                size,
                own,
                taken.as_slice(),
                *told,
                LwStep::Unlock(*lock, false),
            ))
        }
        Spot::Releasing(lock) => Ok(LwStep::Sub(*lock, mode, None)),
    }
}
