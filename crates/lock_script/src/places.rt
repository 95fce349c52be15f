//! How the place of a backend goes on at a step.
ghost use Rattle.std.specs.Prelude.{◌≡◌, ◌==◌, ◌-◌, ◌<◌, ◌∷◌, [], List, take, drop, cond, true, false, None, Some, IfOk, OnOk};
ghost use Rattle.proc_table.specs.declared.Mode.TheVariants.{Shared};
ghost use Rattle.lw_core.specs.declared.step.LwStep.TheVariants.{Grant, Load, Refuse, Unlock};
ghost use Rattle.lw_core.specs.declared.view.Frame.TheVariants as frame;
ghost use Rattle.lw_core.specs.declared.view.Waiter.{Waiter};
ghost use Rattle.lw_core.specs.Words.{grant_of, has_flag, is_free};
ghost use Rattle.lw_core.specs.Words.{locked as locked_flag};
ghost use Rattle.lw_core.specs.WaitLists.{AllBelow, joined_by, kept_from, waiter};
ghost use Rattle.lw_core.specs.Machine.{calls_for_wake, detached, in_hand, left_at, on_conflict, on_grant, on_outcome, on_refusal, on_waking, posted, published, resumed, sent_home, telling, want_of};
ghost use Rattle.lock_script.specs.declared.locks.Ask.TheVariants.{Begin};
ghost use Rattle.lock_script.specs.declared.spots.Spot.{Spot};
ghost use Rattle.lock_script.specs.Locks.{call_step, first_step, marking, step_at};
ghost use Rattle.lock_script.specs.LockScripts.{home_after};
ghost use Rattle.lock_script.specs.LockSketch.{AskFits, SleepFits, SpotFits, behind_attempt, behind_leaving, behind_list, behind_look, behind_queued, behind_sleep, behind_slept, frames, place_after};

use crate::lists::{joined, kept_from, lockers_from, taken_from, until_free_from, without};
use crate::locks::Ask;
use crate::spots::{Attempt, Leaving, Look, Purpose, Queued, Sleep, Slept, Spot};
use crate::words::{LOCKED, calls_for_wake, is_free, is_set, released};
use lw_core::{Call, Size, Waiter, Want};
use proc_table::{LockNo, Mode, ProcNo};
use std::alloc::{AllocError, Global};
use std::mem;

/// What a place goes on with: the backend and its call, the mode in which it holds the call's lock,
/// the word that its step found, and its surplus before.
#[derive(Clone, Copy)]
pub(crate) struct Turn {
    pub(crate) size: Size,
    pub(crate) own: ProcNo,
    pub(crate) ask: Ask,
    pub(crate) mode: Mode,
    pub(crate) found: u64,
    pub(crate) surplus: u64,
}

fn want_of(mode: Mode) -> Want
    ensures { result ≡ want_of mode }
{
    match mode {
        Mode::Shared => Want::Shared,
        Mode::Exclusive => Want::Exclusive,
    }
}

impl Turn {
    // What was too much is given back.
    fn give_back(&self) -> Spot
        ensures place { frames result ≡ cond (self.now.surplus == 0) [] (frame.GivingBack ∷ []) }
        ensures fits { SpotFits self.now.size result }
    {
        if self.surplus == 0 {
            Spot::Idle
        } else {
            Spot::GivingBack
        }
    }

    // One wake is given back.
    fn gave_back(&self) -> Spot
        ensures place { frames result ≡ cond (self.now.surplus - 1 == 0) [] (frame.GivingBack ∷ []) }
        ensures fits { SpotFits self.now.size result }
    {
        if self.surplus <= 1 {
            Spot::Idle
        } else {
            Spot::GivingBack
        }
    }

    fn grant(&self, lock: LockNo, mode: Mode, after: Attempt) -> Spot
        requires lock { lock < self.now.size.locks }
        ensures place { frames result ≡ on_grant self.now.surplus (behind_attempt lock mode after) }
        ensures fits { SpotFits self.now.size result }
    {
        match after {
            Attempt::Alone => Spot::Idle,
            Attempt::Unqueued(_, _) => self.give_back(),
            Attempt::Queued(want) => Spot::Taking(lock, Purpose::Leave(want, Leaving::Granted)),
        }
    }

    fn sleep(&self, lock: LockNo, mode: Mode, want: Want) -> Spot
        requires lock { lock < self.now.size.locks }
        ensures place { frames result ≡ frame.Looking ∷ frame.Sleeping lock want false ∷ on_waking want lock mode [] }
        ensures fits { SpotFits self.now.size result }
    {
        match want {
            Want::UntilFree => Spot::Looking(Sleep::Round(
                lock,
                want,
                false,
                Slept::Ends(Leaving::Granted),
            )),
            Want::Shared => Spot::Looking(Sleep::Round(lock, want, false, Slept::Tries(mode))),
            Want::Exclusive => Spot::Looking(Sleep::Round(lock, want, false, Slept::Tries(mode))),
        }
    }

    fn refuse(&self, lock: LockNo, mode: Mode, after: Attempt) -> Spot
        requires lock { lock < self.now.size.locks }
        ensures place { frames result ≡ on_refusal (behind_attempt lock mode after) }
        ensures fits { SpotFits self.now.size result }
    {
        match after {
            Attempt::Alone => Spot::Idle,
            Attempt::Unqueued(want, _) => {
                Spot::Taking(lock, Purpose::Queue(want, Queued::Attempts(mode)))
            }
            Attempt::Queued(want) => self.sleep(lock, mode, want),
        }
    }

    fn exchange(&self, lock: LockNo, mode: Mode, word: u64, after: Attempt) -> Spot
        requires lock { lock < self.now.size.locks }
        ensures place { (home : List Waiter) → frames result ≡ place_after (cond (is_free mode word) (Grant lock mode word) (Refuse lock mode word)) self.now.found home self.now.surplus (frame.Trying lock mode word ∷ behind_attempt lock mode after) }
        ensures fits { SpotFits self.now.size result }
    {
        if self.found != word {
            Spot::Trying(lock, mode, self.found, after)
        } else if is_free(mode, word) {
            self.grant(lock, mode, after)
        } else {
            self.refuse(lock, mode, after)
        }
    }

    // A wait for the variable has an outcome.
    fn tell(&self, lock: LockNo, old: u64, conflicted: bool, look: Look) -> Spot
        requires lock { lock < self.now.size.locks }
        ensures place { frames result ≡ on_outcome conflicted self.now.surplus (behind_look lock old look) }
        ensures fits { SpotFits self.now.size result }
    {
        match look {
            Look::First => self.give_back(),
            Look::Second => Spot::Taking(
                lock,
                Purpose::Leave(Want::UntilFree, Leaving::Told(old, conflicted)),
            ),
        }
    }

    fn conflict(&self, lock: LockNo, old: u64, look: Look) -> Spot
        requires lock { lock < self.now.size.locks }
        ensures place { frames result ≡ on_conflict (behind_look lock old look) }
        ensures fits { SpotFits self.now.size result }
    {
        match look {
            Look::First => Spot::Taking(lock, Purpose::Queue(Want::UntilFree, Queued::Looks(old))),
            Look::Second => Spot::Looking(Sleep::Round(
                lock,
                Want::UntilFree,
                false,
                Slept::Looks(old),
            )),
        }
    }

    fn peek(&self, lock: LockNo, old: u64, look: Look) -> Spot
        requires lock { lock < self.now.size.locks }
        ensures place { frames result ≡ cond (is_free Shared self.now.found) (on_outcome false self.now.surplus (behind_look lock old look)) (frame.TakingList lock ∷ frame.Comparing lock old ∷ behind_look lock old look) }
        ensures fits { SpotFits self.now.size result }
    {
        if is_free(Mode::Shared, self.found) {
            self.tell(lock, old, false, look)
        } else {
            Spot::Taking(lock, Purpose::Compare(old, look))
        }
    }

    fn compare(&self, lock: LockNo, old: u64, value: u64, look: Look) -> Spot
        requires lock { lock < self.now.size.locks }
        ensures place { frames result ≡ cond (value == old) (on_conflict (behind_look lock old look)) (on_outcome true self.now.surplus (behind_look lock old look)) }
        ensures fits { SpotFits self.now.size result }
    {
        if value == old {
            self.conflict(lock, old, look)
        } else {
            self.tell(lock, old, true, look)
        }
    }

    fn let_go(&self, lock: LockNo, stored: bool) -> Spot
        requires lock { lock < self.now.size.locks }
        ensures place { frames result ≡ cond (calls_for_wake (self.now.found - grant_of self.now.mode)) (frame.TakingList lock ∷ frame.Waking lock stored ∷ []) [] }
        ensures fits { SpotFits self.now.size result }
    {
        if calls_for_wake(released(self.mode, self.found)) {
            Spot::Taking(lock, Purpose::Wake(stored))
        } else {
            Spot::Idle
        }
    }

    // The list is in hand, as it was found.
    fn hold(
        &self,
        alloc: Global,
        lock: LockNo,
        purpose: Purpose,
        list: Vec<Waiter>,
    ) -> Result<Spot, AllocError>
        requires lock { lock < self.now.size.locks }
        requires list { AllBelow self.now.size.procs list.items }
        ensures place { IfOk result (λ s. frames s ≡ in_hand list.items (behind_list lock purpose)) }
        ensures fits { IfOk result (λ s. SpotFits self.now.size s) }
    {
        match purpose {
            Purpose::Queue(want, after) => Ok(Spot::Flagging(lock, want, after, list)),
            Purpose::Leave(want, after) => Ok(Spot::Checking(lock, want, after, list)),
            Purpose::Wake(stored) => {
                let taken = taken_from(alloc, list.as_slice())?;
                Ok(Spot::Marking(lock, stored, list, taken, 0))
            }
            Purpose::Compare(old, look) => Ok(Spot::Reading(lock, old, look, list)),
            Purpose::Store(value, releases) => { Ok(Spot::Publishing(lock, value, list, releases)) }
        }
    }

    // LOCKED was set, and the list is in hand where it wasn't before.
    fn lock(
        &self,
        alloc: Global,
        lock: LockNo,
        purpose: Purpose,
        home: &mut Vec<Waiter>,
    ) -> Result<Spot, AllocError>
        requires lock { lock < self.now.size.locks }
        requires home { AllBelow self.now.size.procs home.old.items }
        ensures place { IfOk result (λ s. frames s ≡ cond (has_flag locked_flag self.now.found == 0) (in_hand home.old.items (behind_list lock purpose)) (frame.Spinning lock ∷ behind_list lock purpose)) }
        ensures home { OnOk result (home.new.items ≡ cond (has_flag locked_flag self.now.found == 0) [] home.old.items) }
        ensures fits { IfOk result (λ s. SpotFits self.now.size s) }
        ensures below { AllBelow self.now.size.procs home.new.items }
    {
        if is_set(LOCKED, self.found) {
            return Ok(Spot::Spinning(lock, purpose));
        }
        let list = mem::replace(home, Vec::new(alloc));
        self.hold(alloc, lock, purpose, list)
    }

    fn look(&self, sleep: Sleep) -> Spot
        requires sleep { SleepFits self.now.size sleep }
        ensures place { frames result ≡ cond (self.now.found == 0) (frame.Asleep ∷ behind_sleep sleep) (frame.Downing ∷ behind_sleep sleep) }
        ensures fits { SpotFits self.now.size result }
    {
        if self.found == 0 {
            Spot::Asleep(sleep)
        } else {
            Spot::Downing(sleep)
        }
    }

    fn try_for(&self, lock: LockNo, mode: Mode, after: Attempt) -> Spot
        requires lock { lock < self.now.size.locks }
        ensures place { frames result ≡ frame.Trying lock mode self.now.found ∷ behind_attempt lock mode after }
        ensures fits { SpotFits self.now.size result }
    {
        Spot::Trying(lock, mode, self.found, after)
    }

    // The first step of a call was made.
    fn begin(&self, alloc: Global, call: &Call, home: &mut Vec<Waiter>) -> Result<Spot, AllocError>
        requires ask { AskFits self.now.size (Begin call.now) }
        requires home { AllBelow self.now.size.procs home.old.items }
        ensures place { IfOk result (λ s. frames s ≡ place_after (call_step call.now self.now.mode) self.now.found home.old.items self.now.surplus []) }
        ensures home { OnOk result (home.new.items ≡ home_after (call_step call.now self.now.mode) self.now.found [] self.now.own home.old.items) }
        ensures fits { IfOk result (λ s. SpotFits self.now.size s) }
        ensures below { AllBelow self.now.size.procs home.new.items }
    {
        match *call {
            Call::Try(lock, mode) => Ok(self.try_for(lock, mode, Attempt::Alone)),
            Call::Acquire(lock, mode) => {
                Ok(self.try_for(lock, mode, Attempt::Unqueued(want_of(mode), false)))
            }
            Call::AcquireOrWait(lock, mode) => {
                Ok(self.try_for(lock, mode, Attempt::Unqueued(Want::UntilFree, false)))
            }
            Call::Release(lock) => Ok(self.let_go(lock, false)),
            Call::WaitForVar(lock, old) => Ok(self.first_peek(lock, old)),
            Call::UpdateVar(lock, value) => {
                self.lock(alloc, lock, Purpose::Store(value, false), home)
            }
            Call::ReleaseClearVar(lock, value) => {
                self.lock(alloc, lock, Purpose::Store(value, true), home)
            }
            Call::Down => Ok(self.look(Sleep::Down)),
            Call::Poke(_) => Ok(Spot::Idle),
        }
    }

    fn first_peek(&self, lock: LockNo, old: u64) -> Spot
        requires lock { lock < self.now.size.locks }
        ensures place { frames result ≡ cond (is_free Shared self.now.found) [] (frame.TakingList lock ∷ frame.Comparing lock old ∷ frame.VarUnqueued lock old ∷ []) }
        ensures fits { SpotFits self.now.size result }
    {
        if is_free(Mode::Shared, self.found) {
            Spot::Idle
        } else {
            Spot::Taking(lock, Purpose::Compare(old, Look::First))
        }
    }

    fn wake(&self, lock: LockNo, after: Slept) -> Spot
        requires lock { lock < self.now.size.locks }
        ensures place { frames result ≡ resumed self.now.surplus (behind_slept lock after) }
        ensures fits { SpotFits self.now.size result }
    {
        match after {
            Slept::Ends(_) => self.give_back(),
            Slept::Tries(mode) => Spot::Woken(lock, mode),
            Slept::Looks(old) => Spot::Peeking(lock, old, Look::First),
        }
    }

    // The own waiting field was read in a sleep.
    fn reread(&self, lock: LockNo, want: Want, answered: bool, after: Slept) -> Spot
        requires lock { lock < self.now.size.locks }
        ensures place { frames result ≡ cond (self.now.found == 0) (resumed self.now.surplus (behind_slept lock after)) (frame.Looking ∷ frame.Sleeping lock want answered ∷ behind_slept lock after) }
        ensures fits { SpotFits self.now.size result }
    {
        if self.found == 0 {
            self.wake(lock, after)
        } else {
            Spot::Looking(Sleep::Round(lock, want, answered, after))
        }
    }

    fn spin(&self, lock: LockNo, purpose: Purpose) -> Spot
        requires lock { lock < self.now.size.locks }
        ensures place { frames result ≡ cond (has_flag locked_flag self.now.found == 0) (frame.TakingList lock ∷ behind_list lock purpose) (frame.Spinning lock ∷ behind_list lock purpose) }
        ensures fits { SpotFits self.now.size result }
    {
        if is_set(LOCKED, self.found) {
            Spot::Spinning(lock, purpose)
        } else {
            Spot::Taking(lock, purpose)
        }
    }

    // The list went home with the backend on it.
    fn queue(&self, lock: LockNo, want: Want, after: Queued) -> Spot
        requires lock { lock < self.now.size.locks }
        ensures place { frames result ≡ behind_queued lock want after }
        ensures fits { SpotFits self.now.size result }
    {
        match after {
            Queued::Attempts(mode) => Spot::Attempting(lock, mode, Attempt::Queued(want)),
            Queued::Looks(old) => Spot::Allowing(lock, old),
        }
    }

    // The semaphore was taken down.
    fn down(&self, sleep: Sleep) -> Spot
        requires sleep { SleepFits self.now.size sleep }
        ensures place { frames result ≡ behind_sleep sleep }
        ensures fits { SpotFits self.now.size result }
    {
        match sleep {
            Sleep::Down => Spot::Idle,
            Sleep::Round(lock, want, answered, after) => Spot::Sleeping(
                lock, want, answered, after,
            ),
        }
    }

    // These were taken off, and those from a number on are still to be told.
    fn clear(&self, taken: Vec<Waiter>, told: usize) -> Spot
        requires taken { AllBelow self.now.size.procs taken.items }
        ensures place { frames result ≡ telling (drop told taken.items) [] }
        ensures fits { SpotFits self.now.size result }
    {
        if told < taken.len() {
            Spot::Clearing(taken, told)
        } else {
            Spot::Idle
        }
    }

    // The next one was posted.
    fn post(&self, taken: Vec<Waiter>, told: usize) -> Spot
        requires taken { AllBelow self.now.size.procs taken.items }
        ensures place { frames result ≡ posted self.now.surplus (frame.Posting (drop told taken.items) ∷ []) }
        ensures fits { SpotFits self.now.size result }
    {
        if told < taken.len() {
            self.clear(taken, told + 1)
        } else {
            Spot::Posting(taken, told)
        }
    }

    // The next one was marked, or the word that a wake is to exchange was read.
    fn mark(
        &self,
        lock: LockNo,
        stored: bool,
        list: Vec<Waiter>,
        taken: Vec<Waiter>,
        told: usize,
    ) -> Spot
        requires lock { lock < self.now.size.locks }
        requires list { AllBelow self.now.size.procs list.items }
        requires taken { AllBelow self.now.size.procs taken.items }
        ensures place { (home : List Waiter) → frames result ≡ place_after (marking self.now.own (drop told taken.items) (Load lock None)) self.now.found home self.now.surplus (frame.Marking lock stored list.items (take told taken.items) (drop told taken.items) ∷ []) }
        ensures fits { SpotFits self.now.size result }
    {
        if told < taken.len() {
            Spot::Marking(lock, stored, list, taken, told + 1)
        } else {
            Spot::Detaching(lock, stored, list, self.found)
        }
    }

    // The exchange of a wake was made.
    fn detach(
        &self,
        alloc: Global,
        lock: LockNo,
        stored: bool,
        list: Vec<Waiter>,
        word: u64,
        home: &mut Vec<Waiter>,
    ) -> Result<Spot, AllocError>
        requires lock { lock < self.now.size.locks }
        requires list { AllBelow self.now.size.procs list.items }
        requires home { AllBelow self.now.size.procs home.old.items }
        ensures place { IfOk result (λ s. frames s ≡ detached (self.now.found == word) self.now.found (frame.Detaching lock stored list.items word ∷ [])) }
        ensures home { OnOk result (home.new.items ≡ cond (self.now.found == word) (kept_from list.items) home.old.items) }
        ensures fits { IfOk result (λ s. SpotFits self.now.size s) }
        ensures below { AllBelow self.now.size.procs home.new.items }
    {
        if self.found != word {
            return Ok(Spot::Detaching(lock, stored, list, self.found));
        }
        let taken = taken_from(alloc, list.as_slice())?;
        *home = kept_from(alloc, list.as_slice())?;
        Ok(self.clear(taken, 0))
    }

    // The next one was marked, or the list went home without those who were.
    fn call(
        &self,
        alloc: Global,
        lock: LockNo,
        list: Vec<Waiter>,
        taken: Vec<Waiter>,
        told: usize,
        home: &mut Vec<Waiter>,
    ) -> Result<Spot, AllocError>
        requires lock { lock < self.now.size.locks }
        requires list { AllBelow self.now.size.procs list.items }
        requires taken { AllBelow self.now.size.procs taken.items }
        requires home { AllBelow self.now.size.procs home.old.items }
        ensures place { IfOk result (λ s. frames s ≡ place_after (marking self.now.own (drop told taken.items) (Unlock lock false)) self.now.found home.old.items self.now.surplus (frame.Calling lock list.items (take told taken.items) (drop told taken.items) ∷ [])) }
        ensures home { OnOk result (home.new.items ≡ home_after (marking self.now.own (drop told taken.items) (Unlock lock false)) self.now.found (frame.Calling lock list.items (take told taken.items) (drop told taken.items) ∷ []) self.now.own home.old.items) }
        ensures fits { IfOk result (λ s. SpotFits self.now.size s) }
        ensures below { AllBelow self.now.size.procs home.new.items }
    {
        if told < taken.len() {
            return Ok(Spot::Calling(lock, list, taken, told + 1));
        }
        *home = lockers_from(alloc, list.as_slice())?;
        Ok(self.clear(taken, 0))
    }

    // The variable was stored.
    fn publish(
        &self,
        alloc: Global,
        lock: LockNo,
        value: u64,
        list: Vec<Waiter>,
        releases: bool,
    ) -> Result<Spot, AllocError>
        requires lock { lock < self.now.size.locks }
        requires list { AllBelow self.now.size.procs list.items }
        ensures place { IfOk result (λ s. frames s ≡ published (frame.Publishing lock value list.items releases ∷ [])) }
        ensures fits { IfOk result (λ s. SpotFits self.now.size s) }
    {
        if releases {
            return Ok(Spot::Unhanding(lock, list));
        }
        let taken = until_free_from(alloc, list.as_slice())?;
        Ok(Spot::Calling(lock, list, taken, 0))
    }

    // The list went home, without the backend where it was on it.
    fn remove(
        &self,
        alloc: Global,
        lock: LockNo,
        want: Want,
        after: Leaving,
        list: Vec<Waiter>,
        here: bool,
        home: &mut Vec<Waiter>,
    ) -> Result<Spot, AllocError>
        requires lock { lock < self.now.size.locks }
        requires list { AllBelow self.now.size.procs list.items }
        requires home { AllBelow self.now.size.procs home.old.items }
        ensures place { IfOk result (λ s. frames s ≡ sent_home self.now.surplus (frame.Removing lock want list.items here ∷ behind_leaving after)) }
        ensures home { OnOk result (home.new.items ≡ left_at (frame.Removing lock want list.items here ∷ behind_leaving after) self.now.own) }
        ensures fits { IfOk result (λ s. SpotFits self.now.size s) }
        ensures below { AllBelow self.now.size.procs home.new.items }
    {
        if here {
            *home = without(alloc, self.own.number(), list.as_slice())?;
            Ok(Spot::Withdrawing(after))
        } else {
            *home = list;
            Ok(Spot::Answering(lock, want, after))
        }
    }

    // The list went home with the backend on it.
    fn append(
        &self,
        alloc: Global,
        lock: LockNo,
        want: Want,
        after: Queued,
        list: Vec<Waiter>,
        home: &mut Vec<Waiter>,
    ) -> Result<Spot, AllocError>
        requires lock { lock < self.now.size.locks }
        requires own { self.now.own < self.now.size.procs }
        requires list { AllBelow self.now.size.procs list.items }
        requires home { AllBelow self.now.size.procs home.old.items }
        ensures place { IfOk result (λ s. frames s ≡ behind_queued lock want after) }
        ensures home { OnOk result (home.new.items ≡ joined_by (waiter self.now.own want) list.items) }
        ensures fits { IfOk result (λ s. SpotFits self.now.size s) }
        ensures below { AllBelow self.now.size.procs home.new.items }
    {
        let waiter = Waiter {
            proc: self.own.number(),
            want,
        };
        *home = joined(alloc, waiter, list.as_slice())?;
        Ok(self.queue(lock, want, after))
    }

    fn start(&self, alloc: Global, home: &mut Vec<Waiter>) -> Result<Spot, AllocError>
        requires ask { AskFits self.now.size self.now.ask }
        requires home { AllBelow self.now.size.procs home.old.items }
        ensures place { IfOk result (λ s. frames s ≡ place_after (first_step self.now.ask self.now.mode) self.now.found home.old.items self.now.surplus []) }
        ensures home { OnOk result (home.new.items ≡ home_after (first_step self.now.ask self.now.mode) self.now.found [] self.now.own home.old.items) }
        ensures fits { IfOk result (λ s. SpotFits self.now.size s) }
        ensures below { AllBelow self.now.size.procs home.new.items }
    {
        match &self.ask {
            Ask::Begin(call) => self.begin(alloc, call, home),
            Ask::Read(..) => Ok(Spot::Idle),
            Ask::Write(..) => Ok(Spot::Idle),
        }
    }

    /// The place after a step. `home` is the list of its lock: a step that takes it in hand leaves
    /// none there.
    pub(crate) fn advance(
        &self,
        alloc: Global,
        home: &mut Vec<Waiter>,
        spot: Spot,
    ) -> Result<Spot, AllocError>
        requires own { self.now.own < self.now.size.procs }
        requires ask { AskFits self.now.size self.now.ask }
        requires spot { SpotFits self.now.size spot }
        requires home { AllBelow self.now.size.procs home.old.items }
        ensures place { IfOk result (λ s. frames s ≡ place_after (step_at self.now.own self.now.ask self.now.mode (frames spot)) self.now.found home.old.items self.now.surplus (frames spot)) }
        ensures home { OnOk result (home.new.items ≡ home_after (step_at self.now.own self.now.ask self.now.mode (frames spot)) self.now.found (frames spot) self.now.own home.old.items) }
        ensures fits { IfOk result (λ s. SpotFits self.now.size s) }
        ensures below { AllBelow self.now.size.procs home.new.items }
    {
        match spot {
            Spot::Idle => self.start(alloc, home),
            Spot::Attempting(lock, mode, after) => Ok(self.try_for(lock, mode, after)),
            Spot::Trying(lock, mode, word, after) => Ok(self.exchange(lock, mode, word, after)),
            Spot::Taking(lock, purpose) => self.lock(alloc, lock, purpose, home),
            Spot::Spinning(lock, purpose) => Ok(self.spin(lock, purpose)),
            Spot::Flagging(lock, want, after, list) => {
                Ok(Spot::Announcing(lock, want, after, list))
            }
            Spot::Announcing(lock, want, after, list) => {
                Ok(Spot::Appending(lock, want, after, list))
            }
            Spot::Appending(lock, want, after, list) => {
                self.append(alloc, lock, want, after, list, home)
            }
            Spot::Checking(lock, want, after, list) => {
                Ok(Spot::Removing(lock, want, after, list, self.found == 1))
            }
            Spot::Removing(lock, want, after, list, here) => {
                self.remove(alloc, lock, want, after, list, here, home)
            }
            Spot::Withdrawing(_) => Ok(self.give_back()),
            Spot::Answering(lock, want, after) => {
                let sleep = Sleep::Round(lock, want, true, Slept::Ends(after));
                Ok(Spot::Looking(sleep))
            }
            Spot::Looking(sleep) => Ok(self.look(sleep)),
            Spot::Asleep(sleep) => Ok(self.look(sleep)),
            Spot::Downing(sleep) => Ok(self.down(sleep)),
            Spot::Sleeping(lock, want, answered, after) => {
                Ok(self.reread(lock, want, answered, after))
            }
            Spot::Woken(lock, mode) => {
                let after = Attempt::Unqueued(want_of(mode), true);
                Ok(Spot::Attempting(lock, mode, after))
            }
            Spot::GivingBack => Ok(self.gave_back()),
            Spot::Marking(lock, stored, list, taken, told) => {
                Ok(self.mark(lock, stored, list, taken, told))
            }
            Spot::Detaching(lock, stored, list, word) => {
                self.detach(alloc, lock, stored, list, word, home)
            }
            Spot::Clearing(taken, told) => Ok(Spot::Posting(taken, told)),
            Spot::Posting(taken, told) => Ok(self.post(taken, told)),
            Spot::Peeking(lock, old, look) => Ok(self.peek(lock, old, look)),
            Spot::Reading(lock, old, look, list) => {
                Ok(Spot::Returning(lock, old, look, list, self.found))
            }
            Spot::Returning(lock, old, look, list, value) => {
                *home = list;
                Ok(self.compare(lock, old, value, look))
            }
            Spot::Allowing(lock, old) => Ok(Spot::Peeking(lock, old, Look::Second)),
            Spot::Publishing(lock, value, list, releases) => {
                self.publish(alloc, lock, value, list, releases)
            }
            Spot::Calling(lock, list, taken, told) => {
                self.call(alloc, lock, list, taken, told, home)
            }
            Spot::Unhanding(lock, list) => {
                *home = list;
                Ok(Spot::Releasing(lock))
            }
            Spot::Releasing(lock) => Ok(self.let_go(lock, true)),
        }
    }
}
