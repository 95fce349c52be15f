//! The kinds of step on a word, and the calls that they make up.
ghost use Rattle.std.specs.Prelude.{◌≡◌, ℕ};
ghost use Rattle.wait_core.specs.Ops.{op_gives};
ghost use Rattle.wait_core.specs.Words.{slot_of};
ghost use Rattle.wait_core.specs.Machine.{becomes, writes, slot_number, target_then};

use crate::party::ClientOp;
use proc_table::{BarNo, CvNo, ProcNo};

/// A spin word: that of a condition's list, or that of a barrier's record.
#[derive(Debug, Clone, Copy, PartialEq, Eq)]
pub enum Spot {
    Cv(CvNo),
    Bar(BarNo),
}

impl Spot {
    // The slot of what it guards: those of conditions come first, as many as a table may have.
    fn slot(self) -> usize
        ensures { result ≡ slot_of self }
    {
        match self {
            Spot::Cv(condition) => condition.number() as usize,
            Spot::Bar(barrier) => 160 + barrier.number() as usize,
        }
    }
}

/// What ends a wait on the own latch.
#[derive(Debug, Clone, Copy, PartialEq, Eq)]
pub enum Until {
    Latch,
    LatchOrShutdown,
}

/// A call that a step begins.
#[derive(Debug, Clone, Copy, PartialEq, Eq)]
pub enum Call {
    /// Sets the latch of a backend (PostgreSQL's `SetLatch`).
    Set(ProcNo),
    /// Resets the own latch (`ResetLatch`).
    Reset,
    /// Reads the own latch.
    IsSet,
    /// Waits for the own latch (`WaitLatch`).
    Wait(Until),
    /// Stores the shutdown word, and wakes everybody.
    Shut,
    /// Reads the shutdown word.
    IsShut,
    /// Leaves the list of the own target (`ConditionVariableCancelSleep`).
    Cancel,
    /// Makes the condition the own target, and goes to the end of its list
    /// (`ConditionVariablePrepareToSleep`).
    Prepare(CvNo),
    /// Sleeps until the condition is signalled (`ConditionVariableSleep`).
    Sleep(CvNo),
    /// Wakes the first on the list (`ConditionVariableSignal`).
    Signal(CvNo),
    /// Wakes all that are on the list (`ConditionVariableBroadcast`).
    Broadcast(CvNo),
    /// Attaches to the barrier (`BarrierAttach`).
    Attach(BarNo),
    /// Arrives, and waits until the phase passes (`BarrierArriveAndWait`).
    Arrive(BarNo),
    /// Leaves the barrier (`BarrierDetach`).
    Detach(BarNo),
    /// Arrives and leaves (`BarrierArriveAndDetach`).
    ArriveDetach(BarNo),
    /// Leaves the barrier unless it is the last there, and else passes the phase
    /// (`BarrierArriveAndDetachExceptLast`).
    ExceptLast(BarNo),
}

/// One step on one word. A kind that can be the first step of a call carries the call that it
/// begins, or None where the call is already under way.
#[derive(Debug, Clone, Copy, PartialEq, Eq)]
pub enum WaitStep {
    /// Loads the latch of a backend.
    Sload(ProcNo, Option<Call>),
    /// Stores 1 into the latch of a backend.
    Sset(ProcNo),
    /// Stores 0 into the own latch.
    Reset(Option<Call>),
    /// Stores whether this backend may sleep.
    Mstore(bool),
    /// Loads whether a backend may sleep.
    Mload(ProcNo),
    /// Stores 1 into the wake byte of a backend.
    Byte(ProcNo),
    /// Loads the own wake byte.
    Look,
    /// Swaps the own wake byte with 0.
    Drain,
    /// Loads the shutdown word.
    Shload(Option<Call>),
    /// Stores 1 into the shutdown word.
    Shstore(Option<Call>),
    /// Swaps a spin word with 1. Where it was 0 what it guards is in hand.
    Take(Spot, Option<Call>),
    /// Loads a spin word that was found taken.
    Spin(Spot),
    /// Stores 0 into a spin word, and what was in hand goes home. The seat's target is then this.
    Free(Spot, Option<CvNo>),
}

/// The word before a step, and whether the step wrote it.
#[derive(Debug, Clone, Copy, PartialEq, Eq)]
pub struct WaitSeen {
    pub old: u64,
    pub changed: bool,
}

impl WaitStep {
    // The slot of what its spin word guards.
    pub(crate) fn slot(self) -> usize
        ensures { result ≡ slot_number self }
    {
        match self {
            WaitStep::Take(spot, _) | WaitStep::Spin(spot) | WaitStep::Free(spot, _) => spot.slot(),
            _ => 0,
        }
    }

    // The seat's target after the step.
    pub(crate) fn target_then(self, target: Option<CvNo>) -> Option<CvNo>
        ensures { result ≡ target_then self target }
    {
        match self {
            WaitStep::Free(_, after) => after,
            _ => target,
        }
    }

    // The operation by which the table makes the step.
    pub(crate) fn op(self) -> ClientOp
        ensures { (n : ℕ) → op_gives result n ≡ becomes self n }
    {
        match self {
            WaitStep::Sload(..)
            | WaitStep::Mload(_)
            | WaitStep::Look
            | WaitStep::Shload(_)
            | WaitStep::Spin(_) => ClientOp::Load { at: 0 },
            WaitStep::Sset(_) | WaitStep::Byte(_) | WaitStep::Shstore(_) | WaitStep::Take(..) => {
                ClientOp::Store { at: 0, value: 1 }
            }
            WaitStep::Reset(_) | WaitStep::Drain | WaitStep::Free(..) => {
                ClientOp::Store { at: 0, value: 0 }
            }
            WaitStep::Mstore(may) => ClientOp::Store {
                at: 0,
                value: u64::from(may),
            },
        }
    }

    pub(crate) fn writes(self) -> bool
        ensures { result ≡ writes self }
    {
        !matches!(
            self,
            WaitStep::Sload(..)
                | WaitStep::Mload(_)
                | WaitStep::Look
                | WaitStep::Shload(_)
                | WaitStep::Spin(_)
        )
    }
}
