//! The words of a machine of waits.
ghost use Rattle.std.specs.Prelude.{◌≡◌, ◌<◌, ◌+◌};
ghost use Rattle.wait_core.specs.Words.{byte_at, may_at, set_at, shut_at, slot_of, spin_at};
ghost use Rattle.wait_core.specs.Machine.{becomes, slot_number, target_then, word_of};

use proc_table::{CvNo, ProcNo};
use wait_core::{Size, Spot, WaitStep};

fn set_at(proc: ProcNo) -> usize
    ensures { result ≡ set_at proc }
{
    3 * proc.number() as usize + 1
}

fn may_at(proc: ProcNo) -> usize
    ensures { result ≡ may_at proc }
{
    3 * proc.number() as usize + 2
}

fn byte_at(proc: ProcNo) -> usize
    ensures { result ≡ byte_at proc }
{
    3 * proc.number() as usize + 3
}

/// The shutdown word.
pub(crate) fn shut_at(size: Size) -> usize
    ensures { result ≡ shut_at size }
{
    3 * size.procs as usize + 1
}

fn slot_of(spot: Spot) -> usize
    ensures slot { result ≡ slot_of spot }
    ensures below { result < 256 }
{
    match spot {
        Spot::Cv(condition) => condition.number() as usize,
        Spot::Bar(barrier) => 160 + barrier.number() as usize,
    }
}

/// The spin word of a slot.
pub(crate) fn spin_at(size: Size, slot: usize) -> usize
    requires { slot < 256 }
    ensures { result ≡ spin_at size slot }
{
    3 * size.procs as usize + 2 + slot
}

/// The word that a step of a backend is on.
pub(crate) fn word_of(size: Size, own: ProcNo, step: &WaitStep) -> usize
    ensures { result ≡ word_of size own step.now }
{
    match *step {
        WaitStep::Sload(proc, _) | WaitStep::Sset(proc) => set_at(proc),
        WaitStep::Reset(_) => set_at(own),
        WaitStep::Mstore(_) => may_at(own),
        WaitStep::Mload(proc) => may_at(proc),
        WaitStep::Byte(proc) => byte_at(proc),
        WaitStep::Look | WaitStep::Drain => byte_at(own),
        WaitStep::Shload(_) | WaitStep::Shstore(_) => shut_at(size),
        WaitStep::Take(spot, _) | WaitStep::Spin(spot) | WaitStep::Free(spot, _) => {
            spin_at(size, slot_of(spot))
        }
    }
}

/// The slot of what a step's spin word guards, or 0.
pub(crate) fn slot_number(step: &WaitStep) -> usize
    ensures { result ≡ slot_number step.now }
{
    match *step {
        WaitStep::Take(spot, _) | WaitStep::Spin(spot) | WaitStep::Free(spot, _) => slot_of(spot),
        _ => 0,
    }
}

/// What the word that a step found becomes.
pub(crate) fn becomes(step: &WaitStep, found: u64) -> u64
    ensures { result ≡ becomes step.now found }
{
    match *step {
        WaitStep::Sload(..)
        | WaitStep::Mload(_)
        | WaitStep::Look
        | WaitStep::Shload(_)
        | WaitStep::Spin(_) => found,
        WaitStep::Sset(_) | WaitStep::Byte(_) | WaitStep::Shstore(_) | WaitStep::Take(..) => 1,
        WaitStep::Reset(_) | WaitStep::Drain | WaitStep::Free(..) => 0,
        WaitStep::Mstore(may) => u64::from(may),
    }
}

/// The target of a backend after a step.
pub(crate) fn target_then(step: &WaitStep, target: Option<CvNo>) -> Option<CvNo>
    ensures { result ≡ target_then step.now target }
{
    match *step {
        WaitStep::Free(_, after) => after,
        _ => target,
    }
}
