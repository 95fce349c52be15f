//! What a seat knows. Values of `Job`, `Frame`, `Made`, `Inherited`, `PartyView` and `WaitView`
//! stand in contracts alone: the program makes none.

ghost use Rattle.std.specs.Prelude.{◌≡◌, ◌≤◌};
ghost use Rattle.wait_core.specs.Words.{slots_in};

use crate::step::{Until, WaitStep};
use arrayvec::ArrayVec;
use proc_table::{BarNo, CvNo, ProcNo};
use std::collections::LinkedList;

/// How many backends, conditions and barriers a table has.
#[derive(Debug, Clone, Copy, PartialEq, Eq)]
pub struct Size {
    pub procs: u32,
    pub cvs: u32,
    pub bars: u32,
}

impl Size {
    // How many slots it has.
    pub(crate) fn slots(self) -> u32
        requires { self.bars ≤ 72 }
        ensures { result ≡ slots_in self }
    {
        160 + self.bars
    }
}

/// What a spin word is taken for.
pub enum Job {
    /// The backend leaves the list of its target.
    Cancel(CvNo),
    /// It goes to the end of the list, and the condition is its target.
    Prepare(CvNo),
    /// In a sleep it looks whether it is still on the list. Where it isn't it was signalled, and goes
    /// to the end again.
    Resleep(CvNo),
    /// The first is popped.
    Signal(CvNo),
    /// The first is popped. Where others remain the backend stands behind them, as the sentinel.
    Broadcast(CvNo),
    /// The next is popped, until the sentinel is off the list.
    Rebroadcast(CvNo),
    /// The barrier has one participant more, and the backend is attached to it.
    Attach(BarNo),
    /// One more has arrived. Where it is the last the phase passes, and the backend is elected.
    Arrive(BarNo),
    /// A backend that waits from this phase looks whether it has passed. Where nobody was elected
    /// since, it is.
    Notice(BarNo, u64),
    /// The barrier has one participant less, and the backend isn't attached to it any more. Where all
    /// others have arrived the phase passes.
    Detach(BarNo),
    /// The same, and the phase passes also where there is no other.
    ArriveDetach(BarNo),
    /// The barrier has one participant less. Where there is no other the backend stays, and the phase
    /// passes.
    ExceptLast(BarNo),
}

/// What is still to be done of a call. A seat's place is a stack of these, the innermost first.
pub enum Frame {
    /// Found the latch of this backend at 0, and will set it.
    Setting(ProcNo),
    /// Set it, and will look whether the backend may sleep.
    Telling(ProcNo),
    /// Found that it may sleep, and will store its wake byte.
    Waking(ProcNo),
    /// Found the own latch at 0, and will store that it may sleep.
    Announcing(Until),
    /// Will look at the latch again.
    Rechecking(Until),
    /// Will look at the shutdown word.
    CheckingShutdown,
    /// Will look at the wake byte.
    Looking(Until),
    /// Looked at the wake byte and found it 0, and will look again.
    Asleep(Until),
    /// Found the byte at 1, and will store that it may not sleep.
    Retracting(Until),
    /// Will swap the byte with 0.
    Draining(Until),
    /// Will look at the latch as at first.
    Repeating(Until),
    /// Found the latch set at the second look: will store that it may not sleep, and end.
    LeavingSet,
    /// Found the shutdown word at 1: will store that it may not sleep, and end.
    LeavingShutdown,
    /// Stored the shutdown word, and will store the wake bytes from this backend on.
    Stopping(u32),
    /// Will take the spin word of the job.
    Taking(Job),
    /// Found it taken, and will look until it is free.
    Spinning(Job),
    /// Has the list and the record in hand, as they were found, and will free the word.
    Holding(Job, LinkedList<u32>, Record),
    /// Was woken in a sleep on the condition, and will reset its latch.
    Resetting(CvNo),
    /// A sleep on the condition, behind its wait for the latch.
    SleepWaiting(CvNo),
    /// A listing on the condition, and a broadcast on it, behind the leaving of another list.
    Preparing(CvNo),
    Broadcasting(CvNo),
    /// A signal that popped the backend, whose latch it sets.
    Signalling(CvNo, ProcNo),
    /// A broadcast that popped the backend, and whether its sentinel was on the list when it freed
    /// the word.
    Rousing(CvNo, ProcNo, bool),
    /// An arrival that waits from this phase, behind its listing on the barrier's condition and behind
    /// its sleep on it.
    Settling(BarNo, u64),
    Dozing(BarNo, u64),
    /// A call that passed this phase, behind its broadcast on the barrier's condition.
    Passing(BarNo, u64),
    /// An arrival that waited this phase out, behind the leaving of the list.
    Returning(BarNo, u64),
}

/// A step that was made, the word that it found, and the list that it took in hand or sent home.
pub struct Made {
    pub step: WaitStep,
    pub found: u64,
    pub list: LinkedList<u32>,
}

/// A step of a seat that was joined into this one, which had the number `by`.
pub struct Inherited {
    pub by: u64,
    pub made: Made,
}

/// What a client's meanings see of a seat. C is the client's own view.
pub struct PartyView<C> {
    pub client: C,
    pub proc: Option<u64>,
    /// Each barrier that the seat is attached to, with its phase.
    pub attached: LinkedList<(u32, u64)>,
    /// Each barrier and phase for which the seat was elected.
    pub elections: LinkedList<(u32, u64)>,
}

/// What a seat knows of the table.
pub struct WaitView<C> {
    /// Its number, one drawn for a seat to come, those of the seats that were joined into it, and
    /// the last one that it drew.
    pub own: Option<u64>,
    pub pending: Option<u64>,
    pub taken: LinkedList<u64>,
    pub drawn: u64,
    /// Empty where the seat is in no call.
    pub place: LinkedList<Frame>,
    /// The steps that it made, but for those of its client.
    pub steps: LinkedList<Made>,
    /// The steps of the seats that were joined into it.
    pub inherited: LinkedList<Inherited>,
    pub client: C,
    pub attached: LinkedList<(u32, u64)>,
    pub elections: LinkedList<(u32, u64)>,
    /// Each barrier and phase that it waited out: it was the last to arrive, or noticed that the
    /// phase had passed.
    pub passed: LinkedList<(u32, u64)>,
    /// The condition that it sleeps on, or prepared to.
    pub target: Option<u32>,
    /// It didn't reset its latch by itself since it was listed there.
    pub heeds: bool,
}

/// What a barrier keeps.
#[derive(Debug, Clone, Copy, PartialEq, Eq, Default)]
pub struct Record {
    pub phase: u64,
    pub participants: u32,
    pub arrived: u32,
    pub elected: u64,
}

/// What a spin word guards: a condition's list, or a barrier's record.
#[derive(Drop)]
pub struct Kept {
    pub list: ArrayVec<u32, 64>,
    pub record: Record,
}

impl Kept {
    // Lies in a slot while what it keeps is in hand.
    pub(crate) fn nothing() -> Kept {
        Kept {
            list: ArrayVec::new(),
            record: Record::default(),
        }
    }
}
