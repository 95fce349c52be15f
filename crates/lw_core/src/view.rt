//! What a seat knows. Places, holds and views exist in proofs alone: no value of them is made.
use crate::step::LwStep;
use arrayvec::ArrayVec;
use proc_table::{LockNo, Mode};
use std::collections::LinkedList;

/// What is still to do in a program. A place is a stack of frames, the innermost first. A frame
/// that has a lock's list in hand has it as it was found.
pub enum Frame {
    /// An attempt is to be made, which begins with a load.
    Attempting(LockNo, Mode),
    /// The exchange of an attempt: the lock, the mode and the word found last.
    Trying(LockNo, Mode, u64),
    /// What follows the attempt of a backend that isn't on the lock's list: what it queues for
    /// where it is refused, and whether it slept before.
    Unqueued(LockNo, Mode, Want, bool),
    /// What follows the attempt of a backend that queued, and for what.
    Queued(LockNo, Mode, Want),

    /// The lock's list is to be taken in hand.
    TakingList(LockNo),
    /// Somebody had it in hand: look until it is home.
    Spinning(LockNo),

    /// With the list in hand the backend will queue.
    Queueing(LockNo, Want),
    /// It will set HAS_WAITERS.
    Flagging(LockNo, Want, LinkedList<Waiter>),
    /// It will store that it waits.
    Announcing(LockNo, Want, LinkedList<Waiter>),
    /// It will send the list home with itself on it.
    Appending(LockNo, Want, LinkedList<Waiter>),

    /// With the list in hand the backend, which queued, will leave it.
    Dequeueing(LockNo, Want),
    /// It will look whether it is still on the list.
    Checking(LockNo, Want, LinkedList<Waiter>),
    /// It will send the list home, without itself where it was on it.
    Removing(LockNo, Want, LinkedList<Waiter>, bool),
    /// It left the list, and will store that it doesn't wait.
    Withdrawing,
    /// It was taken off the list, and will set RELEASE_OK; then it sleeps until it is woken.
    Answering(LockNo, Want),

    /// The semaphore is to be looked at.
    Looking,
    /// The last look read 0.
    Asleep,
    /// The last look didn't: the semaphore is to be taken down by one.
    Downing,
    /// After the semaphore it will look whether it was taken off the list; the last field says
    /// whether it has set RELEASE_OK.
    Sleeping(LockNo, Want, bool),
    /// It was woken, and will set RELEASE_OK and try again.
    Woken(LockNo, Mode),
    /// It will post its own semaphore, once for each wake that was not for it.
    GivingBack,

    /// With the list in hand the backend will wake waiters, after a release; the last field says
    /// whether that call stored the lock's variable before. So do the next two frames.
    Waking(LockNo, bool),
    /// It marks those that it takes, each by its waiting field: those marked, and those to mark.
    Marking(LockNo, bool, LinkedList<Waiter>, LinkedList<Waiter>, LinkedList<Waiter>),
    /// It will exchange the state word that was found last, and send home who isn't taken.
    Detaching(LockNo, bool, LinkedList<Waiter>, u64),
    /// It will store that the first of these doesn't wait any more, and then post its semaphore.
    Clearing(LinkedList<Waiter>),
    /// It will post the semaphore of the first of these.
    Posting(LinkedList<Waiter>),

    /// In a wait for the lock's variable, which was this: the state is to be looked at.
    Peeking(LockNo, u64),
    /// The lock is held exclusively: with the list in hand the variable will be compared.
    Comparing(LockNo, u64),
    /// It will be read.
    Reading(LockNo, u64, LinkedList<Waiter>),
    /// This was read, and the list will go home as it is.
    Returning(LockNo, u64, LinkedList<Waiter>, u64),
    /// What follows that comparison where the backend isn't on the lock's list.
    VarUnqueued(LockNo, u64),
    /// It queued to wait for the variable, and will set RELEASE_OK.
    Allowing(LockNo),
    /// What follows the comparison of a backend that queued.
    VarQueued(LockNo, u64),
    /// What follows leaving the list where that has an outcome: the old value, and whether the last
    /// look found an exclusive holder. Wakes that were not for it are given back.
    VarLeaving(u64, bool),

    /// With the list in hand the holder will store the variable, to go on or to release the lock.
    Storing(LockNo, u64, bool),
    /// It will be stored.
    Publishing(LockNo, u64, LinkedList<Waiter>, bool),
    /// The holder goes on: it marks those at the head who wait until the lock is free, and the list
    /// goes home without them.
    Calling(LockNo, LinkedList<Waiter>, LinkedList<Waiter>, LinkedList<Waiter>),
    /// The holder will release the lock, and the list goes home as it is.
    Unhanding(LockNo, LinkedList<Waiter>),
    /// It will let go of the lock.
    Releasing(LockNo),
}

/// A step that was made, the word that it found, and the list that it took in hand or sent home.
pub struct Made {
    pub step: LwStep,
    pub found: u64,
    pub list: LinkedList<Waiter>,
}

/// What a seat has of one lock: the mode in which it holds it, and since the grant the guarded
/// words that it knows and whether it wrote one.
pub struct Hold {
    pub mode: Option<Mode>,
    pub known: LinkedList<Option<u64>>,
    pub wrote: bool,
}

/// All that a seat knows.
pub struct View {
    /// Its number, one drawn for a seat to come, those taken over and the last one drawn.
    pub own: Option<u64>,
    pub pending: Option<u64>,
    pub taken: LinkedList<u64>,
    pub drawn: u64,
    /// Its place, and the steps that it made.
    pub place: LinkedList<Frame>,
    pub steps: LinkedList<Made>,
    /// The steps of the seats that were joined into it, each with the number of the backend that
    /// made it.
    pub inherited: LinkedList<(u64, Made)>,
    /// What it has of each of 200 locks, and its grants.
    pub holds: LinkedList<Hold>,
    pub grants: u64,
    /// How often the sleep of an acquire ended, so that it tried again.
    pub waits: u64,
    /// The wakes that it has to give back, since they weren't for it.
    pub surplus: u64,
    /// Its pokes; whom they poked, and whom those did that it took over; and likewise the numbers
    /// whose `down` ended, once for each.
    pub pokes: u64,
    pub poked: LinkedList<u64>,
    pub downed: LinkedList<u64>,
}

/// How many locks and backends a table has.
#[derive(Clone, Copy)]
pub struct Size {
    pub locks: u32,
    pub procs: u32,
}

/// What a waiter waits for: a mode, or, until free, any wake of the lock or store of its variable.
#[derive(Clone, Copy, Default)]
pub enum Want {
    #[default]
    Shared,
    Exclusive,
    UntilFree,
}

/// A backend on a lock's list.
#[derive(Clone, Copy, Default)]
pub struct Waiter {
    pub proc: u32,
    pub want: Want,
}

/// A lock's list, the first to be woken at its head.
pub type Waiters = ArrayVec<Waiter, 64>;
