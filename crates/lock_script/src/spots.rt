//! Where a backend stands in the program of its call.

use lw_core::{Waiter, Want};
use proc_table::{LockNo, Mode};

/// What follows an attempt: nothing; the backend queues for this where it is refused, and whether it
/// slept before; or it queued for this.
#[derive(Clone, Copy)]
pub(crate) enum Attempt {
    Alone,
    Unqueued(Want, bool),
    Queued(Want),
}

/// Which look at the variable it is: of a backend that isn't on the list, or of one that queued.
#[derive(Clone, Copy)]
pub(crate) enum Look {
    First,
    Second,
}

/// What follows queueing: a second attempt, or a second look at the variable, which was this.
#[derive(Clone, Copy)]
pub(crate) enum Queued {
    Attempts(Mode),
    Looks(u64),
}

/// What follows leaving the list: an acquire ends, or a wait for the variable, which was this, and
/// whether the last look found an exclusive holder.
#[derive(Clone, Copy)]
pub(crate) enum Leaving {
    Granted,
    Told(u64, bool),
}

/// What follows a sleep: the call ends, the lock is tried again, or the variable is looked at anew.
#[derive(Clone, Copy)]
pub(crate) enum Slept {
    Ends(Leaving),
    Tries(Mode),
    Looks(u64),
}

/// What a semaphore is looked at for: a call of its own, or a sleep of a backend that queued for
/// this; whether it has set RELEASE_OK; and what follows.
#[derive(Clone, Copy)]
pub(crate) enum Sleep {
    Down,
    Round(LockNo, Want, bool, Slept),
}

/// What a list is taken in hand for.
#[derive(Clone, Copy)]
pub(crate) enum Purpose {
    Queue(Want, Queued),
    Leave(Want, Leaving),
    /// To wake, after a release; whether that call stored the variable before.
    Wake(bool),
    Compare(u64, Look),
    /// To store this in the variable; whether the lock is released then.
    Store(u64, bool),
}

/// The place of a backend, as the frames of the machine: the innermost, and what follows it. A list
/// in hand lies here, as it was found. Of those that a wake takes the number says how many were told.
#[derive(Drop)]
pub(crate) enum Spot {
    Idle,
    Attempting(LockNo, Mode, Attempt),
    Trying(LockNo, Mode, u64, Attempt),
    Taking(LockNo, Purpose),
    Spinning(LockNo, Purpose),
    Flagging(LockNo, Want, Queued, Vec<Waiter>),
    Announcing(LockNo, Want, Queued, Vec<Waiter>),
    Appending(LockNo, Want, Queued, Vec<Waiter>),
    Checking(LockNo, Want, Leaving, Vec<Waiter>),
    Removing(LockNo, Want, Leaving, Vec<Waiter>, bool),
    Withdrawing(Leaving),
    Answering(LockNo, Want, Leaving),
    Looking(Sleep),
    Asleep(Sleep),
    Downing(Sleep),
    Sleeping(LockNo, Want, bool, Slept),
    Woken(LockNo, Mode),
    GivingBack,
    Marking(LockNo, bool, Vec<Waiter>, Vec<Waiter>, usize),
    Detaching(LockNo, bool, Vec<Waiter>, u64),
    Clearing(Vec<Waiter>, usize),
    Posting(Vec<Waiter>, usize),
    Peeking(LockNo, u64, Look),
    Reading(LockNo, u64, Look, Vec<Waiter>),
    Returning(LockNo, u64, Look, Vec<Waiter>, u64),
    Allowing(LockNo, u64),
    Publishing(LockNo, u64, Vec<Waiter>, bool),
    Calling(LockNo, Vec<Waiter>, Vec<Waiter>, usize),
    Unhanding(LockNo, Vec<Waiter>),
    Releasing(LockNo),
}
