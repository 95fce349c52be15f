//! Where a backend stands in the program of its call.

use proc_table::{BarNo, CvNo, ProcNo};
use wait_core::{Record, Until};

/// What an arrival or a departure is at, with the barrier and the phase, behind a call on the barrier's
/// condition.
#[derive(Clone, Copy)]
pub(crate) enum Stage {
    Settling(BarNo, u64),
    Dozing(BarNo, u64),
    Passing(BarNo, u64),
    Returning(BarNo, u64),
}

/// What follows the leaving of a list: nothing more of the call, a listing, or a broadcast.
#[derive(Clone, Copy)]
pub(crate) enum Left {
    Ends(Option<Stage>),
    Prepares(CvNo, Option<Stage>),
    Broadcasts(CvNo, Option<Stage>),
}

/// Who popped the backend whose latch is set: a signal, or a broadcast, and whether its sentinel was
/// on the list then.
#[derive(Clone, Copy)]
pub(crate) enum Popped {
    Signal(CvNo, ProcNo),
    Broadcast(CvNo, ProcNo, bool, Option<Stage>),
}

/// What waits for the latch: the call itself, or a sleep on a condition.
#[derive(Clone, Copy)]
pub(crate) enum Sleep {
    Alone,
    On(CvNo, Option<Stage>),
}

/// What a spin word is taken for, and what follows.
#[derive(Clone, Copy)]
pub(crate) enum Task {
    Cancel(CvNo, Left),
    Prepare(CvNo, Option<Stage>),
    Resleep(CvNo, Option<Stage>),
    Signal(CvNo),
    Broadcast(CvNo, Option<Stage>),
    Rebroadcast(CvNo, Option<Stage>),
    Attach(BarNo),
    Arrive(BarNo),
    Notice(BarNo, u64),
    Detach(BarNo),
    ArriveDetach(BarNo),
    ExceptLast(BarNo),
}

/// A place with nothing in hand: the innermost frame, and what follows it. In `Inside` and `Popping`
/// the next step begins a call inside another.
#[derive(Clone, Copy)]
pub(crate) enum Point {
    Idle,
    Inside(Stage),
    Popping(Popped),
    Setting(ProcNo, Option<Popped>),
    Telling(ProcNo, Option<Popped>),
    Waking(ProcNo, Option<Popped>),
    Announcing(Until, Sleep),
    Rechecking(Until, Sleep),
    CheckingShutdown(Sleep),
    Looking(Until, Sleep),
    Asleep(Until, Sleep),
    Retracting(Until, Sleep),
    Draining(Until, Sleep),
    Repeating(Until, Sleep),
    LeavingSet(Sleep),
    LeavingShutdown(Sleep),
    Stopping(u32),
    SleepWaiting(CvNo, Option<Stage>),
    Resetting(CvNo, Option<Stage>),
    Taking(Task),
    Spinning(Task),
}

/// The place of a backend, as the frames of the machine. A list in hand lies here, and the record
/// beside it, as they were found.
#[derive(Drop)]
pub(crate) enum Spot {
    At(Point),
    Holding(Task, Vec<u32>, Record),
}
