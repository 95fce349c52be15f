//! How the place of a backend goes on at a step.
ghost use Rattle.std.specs.Prelude.{◌≡◌, ◌==◌, ◌<◌, ◌∷◌, [], cond, ℕ, IfOk, OnOk};
ghost use Rattle.wait_core.specs.declared.step.Call.TheVariants as call;
ghost use Rattle.wait_core.specs.declared.step.Until.TheVariants.{LatchOrShutdown};
ghost use Rattle.wait_core.specs.declared.view.Frame.TheVariants as frame;
ghost use Rattle.wait_core.specs.declared.view.Kept.{Kept};
ghost use Rattle.wait_core.specs.Lists.{AllBelow};
ghost use Rattle.wait_core.specs.Lists.{is_listed as listed};
ghost use Rattle.wait_core.specs.Jobs.{goes_on, passes_on, resumed, rouses, rouses_on, signals};
ghost use Rattle.wait_core.specs.Jobs.{has_passed as passed_from, is_last as last, is_worn as worn};
ghost use Rattle.wait_core.specs.Machine.{as_kept, begun, entered, place_then, reloaded, taken, woken};
ghost use Rattle.wait_script.specs.Waits.{first_step, step_at};
ghost use Rattle.wait_script.specs.WaitScripts.{home_after};
ghost use Rattle.wait_script.specs.WaitSketch.{BehindFits, CallFits, HasRoom, LeftFits, Near, PointFits, PoppedFits, SetFits, SizeFits, SleepFits, SpotFits, SpotNear, SpotRoom, StageFits, TakesNothing, TaskFits, at_place, behind, behind_left, behind_popped, behind_set, behind_sleep, behind_task, frames, frames_at, job_of, kept_of, staged};

use crate::homes::{Home, has_passed, is_awaited, is_last, is_worn, left_list, left_record};
use crate::lists::{head_of, is_listed};
use crate::spots::{Left, Point, Popped, Sleep, Spot, Stage, Task};
use crate::steps::{backend_of, condition_of};
use proc_table::{BarNo, CvNo, ProcNo};
use std::alloc::{AllocError, Global};
use std::mem;
use wait_core::{Call, Record, Size, Until};

/// What a place goes on with: the backend, its call and its target, and the word that its step found.
#[derive(Clone, Copy)]
pub(crate) struct Turn {
    pub(crate) size: Size,
    pub(crate) own: ProcNo,
    pub(crate) ask: Call,
    pub(crate) target: Option<CvNo>,
    pub(crate) found: u64,
}

impl Turn {
    // What follows a call on a barrier's condition.
    fn resume(&self, stage: Option<Stage>) -> Point
        requires { BehindFits self.now.size stage }
        ensures place { frames_at result ≡ resumed (behind stage) }
        ensures fits { PointFits self.now.size result }
    {
        match stage {
            Some(stage) => self.resume_stage(stage),
            None => Point::Idle,
        }
    }

    fn resume_stage(&self, stage: Stage) -> Point
        requires { StageFits self.now.size stage }
        ensures place { frames_at result ≡ resumed (staged stage) }
        ensures fits { PointFits self.now.size result }
    {
        match stage {
            Stage::Settling(barrier, phase) => Point::Taking(Task::Notice(barrier, phase)),
            Stage::Dozing(barrier, phase) => Point::Taking(Task::Notice(barrier, phase)),
            Stage::Passing(..) | Stage::Returning(..) => Point::Idle,
        }
    }

    // What follows the setting of a latch.
    fn set(&self, popped: Option<Popped>) -> Point
        requires { SetFits self.now.size popped }
        ensures place { frames_at result ≡ resumed (behind_set popped) }
        ensures fits { PointFits self.now.size result }
    {
        match popped {
            Some(popped) => self.sent(popped),
            None => Point::Idle,
        }
    }

    fn sent(&self, popped: Popped) -> Point
        requires { PoppedFits self.now.size popped }
        ensures place { frames_at result ≡ resumed (behind_popped popped) }
        ensures fits { PointFits self.now.size result }
    {
        match popped {
            Popped::Signal(..) => Point::Idle,
            Popped::Broadcast(condition, _, more, stage) => {
                if more {
                    Point::Taking(Task::Rebroadcast(condition, stage))
                } else {
                    self.resume(stage)
                }
            }
        }
    }

    // What follows a wait.
    fn woke(&self, sleep: Sleep) -> Point
        requires { SleepFits self.now.size sleep }
        ensures place { frames_at result ≡ resumed (behind_sleep sleep) }
        ensures fits { PointFits self.now.size result }
    {
        match sleep {
            Sleep::Alone => Point::Idle,
            Sleep::On(condition, stage) => Point::Resetting(condition, stage),
        }
    }

    // What follows the leaving of a list.
    fn left(&self, after: Left) -> Point
        requires { LeftFits self.now.size after }
        ensures place { frames_at result ≡ resumed (behind_left after) }
        ensures fits { PointFits self.now.size result }
    {
        match after {
            Left::Ends(stage) => self.resume(stage),
            Left::Prepares(condition, stage) => Point::Taking(Task::Prepare(condition, stage)),
            Left::Broadcasts(condition, stage) => Point::Taking(Task::Broadcast(condition, stage)),
        }
    }

    // A latch is to be set, unless it is.
    fn set_begins(&self, proc: ProcNo, popped: Option<Popped>) -> Point
        requires { (proc < self.now.size.procs) × SetFits self.now.size popped }
        ensures place { frames_at result ≡ begun (call.Set proc) (self.now.found == 0) (behind_set popped) }
        ensures fits { PointFits self.now.size result }
    {
        if self.found == 0 {
            Point::Setting(proc, popped)
        } else {
            self.set(popped)
        }
    }

    // The own latch is waited for, unless it is set.
    fn wait_begins(&self, until: Until, sleep: Sleep) -> Point
        requires { SleepFits self.now.size sleep }
        ensures place { frames_at result ≡ begun (call.Wait until) (self.now.found == 0) (behind_sleep sleep) }
        ensures fits { PointFits self.now.size result }
    {
        if self.found == 0 {
            Point::Announcing(until, sleep)
        } else {
            self.woke(sleep)
        }
    }

    // A sleep on the target waits, unless the own latch is set.
    fn sleep_begins(&self, condition: CvNo, stage: Option<Stage>) -> Point
        requires { BehindFits self.now.size stage }
        ensures place { frames_at result ≡ begun (call.Sleep condition) (self.now.found == 0) (behind stage) }
        ensures fits { PointFits self.now.size result }
    {
        if self.found == 0 {
            Point::Announcing(Until::Latch, Sleep::On(condition, stage))
        } else {
            Point::Resetting(condition, stage)
        }
    }

    // The spin word of a task was taken, and what it guards is in hand; or somebody has it.
    fn take(&self, alloc: Global, task: Task, home: &mut Home) -> Spot
        requires task { TaskFits self.now.size task }
        requires home { AllBelow self.now.size.procs home.old.list.items }
        ensures place { frames result ≡ taken (self.now.found == 0) (kept_of home.old) (frame.Taking (job_of task) ∷ behind_task task) }
        ensures home { kept_of home.new ≡ cond (self.now.found == 0) (as_kept [] home.old.record) (kept_of home.old) }
        ensures fits { SpotFits self.now.size result }
        ensures near { (m : ℕ) → Near m home.old.record → SpotNear m result }
        ensures below { AllBelow self.now.size.procs home.new.list.items }
        ensures same { home.new.record ≡ home.old.record }
    {
        if self.found != 0 {
            return Spot::At(Point::Spinning(task));
        }
        let list = mem::replace(&mut home.list, Vec::new(alloc));
        Spot::Holding(task, list, home.record)
    }

    // What a listing takes first.
    fn listing(&self, condition: CvNo, stage: Option<Stage>) -> Task
        requires { BehindFits self.now.size stage }
        ensures place { frame.Taking (job_of result) ∷ behind_task result ≡ entered self.now.target (call.Prepare condition) (behind stage) }
        ensures fits { TaskFits self.now.size result }
    {
        match self.target {
            Some(target) => Task::Cancel(target, Left::Prepares(condition, stage)),
            None => Task::Prepare(condition, stage),
        }
    }

    // What a broadcast takes first.
    fn rousing(&self, condition: CvNo, stage: Option<Stage>) -> Task
        requires { BehindFits self.now.size stage }
        ensures place { frame.Taking (job_of result) ∷ behind_task result ≡ entered self.now.target (call.Broadcast condition) (behind stage) }
        ensures fits { TaskFits self.now.size result }
    {
        match self.target {
            Some(target) => Task::Cancel(target, Left::Broadcasts(condition, stage)),
            None => Task::Broadcast(condition, stage),
        }
    }

    // A sleep begins: on the target it waits, and else it is listed first.
    fn sleep(&self, alloc: Global, condition: CvNo, stage: Option<Stage>, home: &mut Home) -> Spot
        requires stage { BehindFits self.now.size stage }
        requires home { AllBelow self.now.size.procs home.old.list.items }
        ensures place { frames result ≡ place_then self.now.size (first_step self.now.own self.now.target (call.Sleep condition)) self.now.found (kept_of home.old) (at_place self.now.own self.now.target (behind stage)) }
        ensures home { kept_of home.new ≡ home_after (first_step self.now.own self.now.target (call.Sleep condition)) self.now.found self.now.own (behind stage) (kept_of home.old) }
        ensures fits { SpotFits self.now.size result }
        ensures near { (m : ℕ) → Near m home.old.record → SpotNear m result }
        ensures below { AllBelow self.now.size.procs home.new.list.items }
        ensures same { home.new.record ≡ home.old.record }
    {
        if let Some(target) = self.target {
            if target.number() == condition.number() {
                return Spot::At(self.sleep_begins(condition, stage));
            }
        }
        self.take(alloc, self.listing(condition, stage), home)
    }

    // The place stays.
    fn stay(&self, stage: Option<Stage>) -> Point
        requires { BehindFits self.now.size stage }
        ensures place { frames_at result ≡ behind stage }
        ensures fits { PointFits self.now.size result }
    {
        match stage {
            Some(stage) => Point::Inside(stage),
            None => Point::Idle,
        }
    }

    // A cancel begins. Without a target it never does.
    fn cancel(&self, alloc: Global, stage: Option<Stage>, home: &mut Home) -> Spot
        requires stage { BehindFits self.now.size stage }
        requires home { AllBelow self.now.size.procs home.old.list.items }
        ensures place { frames result ≡ place_then self.now.size (first_step self.now.own self.now.target call.Cancel) self.now.found (kept_of home.old) (at_place self.now.own self.now.target (behind stage)) }
        ensures home { kept_of home.new ≡ home_after (first_step self.now.own self.now.target call.Cancel) self.now.found self.now.own (behind stage) (kept_of home.old) }
        ensures fits { SpotFits self.now.size result }
        ensures near { (m : ℕ) → Near m home.old.record → SpotNear m result }
        ensures below { AllBelow self.now.size.procs home.new.list.items }
        ensures same { home.new.record ≡ home.old.record }
    {
        match self.target {
            Some(target) => self.take(alloc, Task::Cancel(target, Left::Ends(stage)), home),
            None => Spot::At(self.stay(stage)),
        }
    }

    // The call of a script begins.
    fn begin(&self, alloc: Global, home: &mut Home) -> Spot
        requires ask { CallFits self.now.size self.now.ask × SizeFits self.now.size }
        requires home { AllBelow self.now.size.procs home.old.list.items }
        ensures place { frames result ≡ place_then self.now.size (first_step self.now.own self.now.target self.now.ask) self.now.found (kept_of home.old) (at_place self.now.own self.now.target []) }
        ensures home { kept_of home.new ≡ home_after (first_step self.now.own self.now.target self.now.ask) self.now.found self.now.own [] (kept_of home.old) }
        ensures fits { SpotFits self.now.size result }
        ensures near { (m : ℕ) → Near m home.old.record → SpotNear m result }
        ensures below { AllBelow self.now.size.procs home.new.list.items }
        ensures same { home.new.record ≡ home.old.record }
    {
        match self.ask {
            Call::Set(proc) => Spot::At(self.set_begins(proc, None)),
            Call::Wait(until) => Spot::At(self.wait_begins(until, Sleep::Alone)),
            Call::Shut => Spot::At(Point::Stopping(0)),
            Call::Reset | Call::IsSet | Call::IsShut => Spot::At(Point::Idle),
            Call::Cancel => self.cancel(alloc, None, home),
            Call::Prepare(condition) => self.take(alloc, self.listing(condition, None), home),
            Call::Sleep(condition) => self.sleep(alloc, condition, None, home),
            Call::Signal(condition) => self.take(alloc, Task::Signal(condition), home),
            Call::Broadcast(condition) => self.take(alloc, self.rousing(condition, None), home),
            Call::Attach(barrier) => self.take(alloc, Task::Attach(barrier), home),
            Call::Arrive(barrier) => self.take(alloc, Task::Arrive(barrier), home),
            Call::Detach(barrier) => self.take(alloc, Task::Detach(barrier), home),
            Call::ArriveDetach(barrier) => self.take(alloc, Task::ArriveDetach(barrier), home),
            Call::ExceptLast(barrier) => self.take(alloc, Task::ExceptLast(barrier), home),
        }
    }

    // The call inside a stage begins.
    fn begin_inside(&self, alloc: Global, stage: Stage, home: &mut Home) -> Spot
        requires stage { StageFits self.now.size stage }
        requires home { AllBelow self.now.size.procs home.old.list.items }
        ensures place { frames result ≡ place_then self.now.size (step_at self.now.own self.now.ask self.now.target (staged stage)) self.now.found (kept_of home.old) (at_place self.now.own self.now.target (staged stage)) }
        ensures home { kept_of home.new ≡ home_after (step_at self.now.own self.now.ask self.now.target (staged stage)) self.now.found self.now.own (staged stage) (kept_of home.old) }
        ensures fits { SpotFits self.now.size result }
        ensures near { (m : ℕ) → Near m home.old.record → SpotNear m result }
        ensures below { AllBelow self.now.size.procs home.new.list.items }
        ensures same { home.new.record ≡ home.old.record }
    {
        match stage {
            Stage::Settling(barrier, _) => {
                let task = self.listing(condition_of(barrier), Some(stage));
                self.take(alloc, task, home)
            }
            Stage::Dozing(barrier, _) => {
                self.sleep(alloc, condition_of(barrier), Some(stage), home)
            }
            Stage::Passing(barrier, _) => {
                let task = self.rousing(condition_of(barrier), Some(stage));
                self.take(alloc, task, home)
            }
            Stage::Returning(..) => self.cancel(alloc, Some(stage), home),
        }
    }

    // The setting of the latch of whom a call popped begins.
    fn pop(&self, popped: Popped) -> Point
        requires { PoppedFits self.now.size popped }
        ensures place { (home : Kept) → frames_at result ≡ place_then self.now.size (step_at self.now.own self.now.ask self.now.target (behind_popped popped)) self.now.found home (at_place self.now.own self.now.target (behind_popped popped)) }
        ensures fits { PointFits self.now.size result }
    {
        match popped {
            Popped::Signal(_, proc) | Popped::Broadcast(_, proc, _, _) => {
                self.set_begins(proc, Some(popped))
            }
        }
    }

    // Whether a backend may sleep was read.
    fn tell(&self, proc: ProcNo, popped: Option<Popped>) -> Point
        requires { (proc < self.now.size.procs) × SetFits self.now.size popped }
        ensures place { frames_at result ≡ cond (self.now.found == 0) (resumed (behind_set popped)) (frame.Waking proc ∷ behind_set popped) }
        ensures fits { PointFits self.now.size result }
    {
        if self.found == 0 {
            self.set(popped)
        } else {
            Point::Waking(proc, popped)
        }
    }

    // A wake byte of a shutdown was stored.
    fn stop(&self, proc: u32) -> Point
        requires { (proc < self.now.size.procs) × SizeFits self.now.size }
        ensures place { frames_at result ≡ woken self.now.size proc (frame.Stopping proc ∷ []) }
        ensures fits { PointFits self.now.size result }
    {
        if proc + 1 == self.size.procs {
            Point::Idle
        } else {
            Point::Stopping(proc + 1)
        }
    }

    // The second look at the latch.
    fn recheck(&self, until: Until, sleep: Sleep) -> Point
        requires { SleepFits self.now.size sleep }
        ensures place { frames_at result ≡ reloaded (self.now.found == 0) (frame.Rechecking until ∷ behind_sleep sleep) }
        ensures fits { PointFits self.now.size result }
    {
        if self.found != 0 {
            return Point::LeavingSet(sleep);
        }
        match until {
            Until::Latch => Point::Looking(until, sleep),
            Until::LatchOrShutdown => Point::CheckingShutdown(sleep),
        }
    }

    // The look at the latch after the wake byte was cleared.
    fn repeat(&self, until: Until, sleep: Sleep) -> Point
        requires { SleepFits self.now.size sleep }
        ensures place { frames_at result ≡ reloaded (self.now.found == 0) (frame.Repeating until ∷ behind_sleep sleep) }
        ensures fits { PointFits self.now.size result }
    {
        if self.found == 0 {
            Point::Announcing(until, sleep)
        } else {
            self.woke(sleep)
        }
    }

    // The look at the shutdown word.
    fn check(&self, sleep: Sleep) -> Point
        requires { SleepFits self.now.size sleep }
        ensures place { frames_at result ≡ cond (self.now.found == 0) (frame.Looking LatchOrShutdown ∷ behind_sleep sleep) (frame.LeavingShutdown ∷ behind_sleep sleep) }
        ensures fits { PointFits self.now.size result }
    {
        if self.found == 0 {
            Point::Looking(Until::LatchOrShutdown, sleep)
        } else {
            Point::LeavingShutdown(sleep)
        }
    }

    // A look at the wake byte.
    fn look(&self, until: Until, sleep: Sleep) -> Point
        requires { SleepFits self.now.size sleep }
        ensures place { frames_at result ≡ cond (self.now.found == 0) (frame.Asleep until ∷ behind_sleep sleep) (frame.Retracting until ∷ behind_sleep sleep) }
        ensures fits { PointFits self.now.size result }
    {
        if self.found == 0 {
            Point::Asleep(until, sleep)
        } else {
            Point::Retracting(until, sleep)
        }
    }

    // A look at a spin word.
    fn spin(&self, task: Task) -> Point
        requires { TaskFits self.now.size task }
        ensures place { frames_at result ≡ cond (self.now.found == 0) (frame.Taking (job_of task) ∷ behind_task task) (frame.Spinning (job_of task) ∷ behind_task task) }
        ensures fits { PointFits self.now.size result }
    {
        if self.found == 0 {
            Point::Taking(task)
        } else {
            Point::Spinning(task)
        }
    }

    // A signal went home with its list.
    fn signal(&self, condition: CvNo, list: &[u32]) -> Point
        requires { AllBelow self.now.size.procs list.now × SizeFits self.now.size }
        ensures place { frames_at result ≡ signals condition list.now [] }
        ensures fits { PointFits self.now.size result }
    {
        match head_of(list) {
            Some(head) => Point::Popping(Popped::Signal(condition, backend_of(head))),
            None => Point::Idle,
        }
    }

    // So did a broadcast, for the first time.
    fn broadcast(&self, condition: CvNo, stage: Option<Stage>, list: &[u32]) -> Point
        requires { AllBelow self.now.size.procs list.now × SizeFits self.now.size × BehindFits self.now.size stage }
        ensures place { frames_at result ≡ rouses condition list.now (behind stage) }
        ensures fits { PointFits self.now.size result }
    {
        match head_of(list) {
            Some(head) => {
                let more = list.len() > 1;
                Point::Popping(Popped::Broadcast(condition, backend_of(head), more, stage))
            }
            None => self.resume(stage),
        }
    }

    // And once more.
    fn rebroadcast(&self, condition: CvNo, stage: Option<Stage>, list: &[u32]) -> Point
        requires { AllBelow self.now.size.procs list.now × SizeFits self.now.size × BehindFits self.now.size stage }
        ensures place { frames_at result ≡ rouses_on condition self.now.own list.now (behind stage) }
        ensures fits { PointFits self.now.size result }
    {
        match head_of(list) {
            Some(head) => {
                if head == self.own.number() {
                    return self.resume(stage);
                }
                let more = is_listed(self.own.number(), &list[1..]);
                Point::Popping(Popped::Broadcast(condition, backend_of(head), more, stage))
            }
            None => self.resume(stage),
        }
    }

    // A record went home whose phase passed, or didn't.
    fn pass(&self, passes: bool, barrier: BarNo, found: Record) -> Point
        requires { (barrier < self.now.size.bars) × HasRoom found }
        ensures place { frames_at result ≡ passes_on passes barrier found [] }
        ensures fits { PointFits self.now.size result }
    {
        if passes {
            Point::Inside(Stage::Passing(barrier, found.phase))
        } else {
            Point::Idle
        }
    }

    fn arrive(&self, barrier: BarNo, found: Record) -> Point
        requires { (barrier < self.now.size.bars) × HasRoom found }
        ensures place { frames_at result ≡ cond (worn found) [] (cond (last found) (frame.Passing barrier found.phase ∷ []) (frame.Settling barrier found.phase ∷ [])) }
        ensures fits { PointFits self.now.size result }
    {
        if is_worn(found) {
            Point::Idle
        } else if is_last(found) {
            Point::Inside(Stage::Passing(barrier, found.phase))
        } else {
            Point::Inside(Stage::Settling(barrier, found.phase))
        }
    }

    fn notice(&self, barrier: BarNo, phase: u64, found: Record) -> Point
        requires { barrier < self.now.size.bars }
        ensures place { frames_at result ≡ cond (passed_from phase found) (frame.Returning barrier phase ∷ []) (frame.Dozing barrier phase ∷ []) }
        ensures fits { PointFits self.now.size result }
    {
        if has_passed(phase, found) {
            Point::Inside(Stage::Returning(barrier, phase))
        } else {
            Point::Inside(Stage::Dozing(barrier, phase))
        }
    }

    fn depart(&self, barrier: BarNo, found: Record) -> Point
        requires { (barrier < self.now.size.bars) × HasRoom found }
        ensures place { frames_at result ≡ cond (worn found) [] (passes_on (last found) barrier found []) }
        ensures fits { PointFits self.now.size result }
    {
        if is_worn(found) {
            Point::Idle
        } else {
            self.pass(is_last(found), barrier, found)
        }
    }

    // A sleeper is still listed, or it was signalled.
    fn resleep(&self, condition: CvNo, stage: Option<Stage>, list: &[u32]) -> Point
        requires { BehindFits self.now.size stage }
        ensures place { frames_at result ≡ cond (listed self.now.own list.now) (frame.SleepWaiting condition ∷ behind stage) (resumed (behind stage)) }
        ensures fits { PointFits self.now.size result }
    {
        if is_listed(self.own.number(), list) {
            Point::SleepWaiting(condition, stage)
        } else {
            self.resume(stage)
        }
    }

    // What a task found went home.
    fn free(&self, task: &Task, list: &[u32], found: Record) -> Point
        requires task { TaskFits self.now.size task.now × SizeFits self.now.size }
        requires list { AllBelow self.now.size.procs list.now }
        requires room { HasRoom found }
        ensures place { frames_at result ≡ goes_on (job_of task.now) self.now.own list.now found (behind_task task.now) }
        ensures fits { PointFits self.now.size result }
    {
        match *task {
            Task::Cancel(_, after) => self.left(after),
            Task::Prepare(_, stage) => self.resume(stage),
            Task::Resleep(condition, stage) => self.resleep(condition, stage, list),
            Task::Signal(condition) => self.signal(condition, list),
            Task::Broadcast(condition, stage) => self.broadcast(condition, stage, list),
            Task::Rebroadcast(condition, stage) => self.rebroadcast(condition, stage, list),
            Task::Arrive(barrier) => self.arrive(barrier, found),
            Task::Notice(barrier, phase) => self.notice(barrier, phase, found),
            Task::Detach(barrier) => self.pass(is_awaited(found), barrier, found),
            Task::ArriveDetach(barrier) => self.depart(barrier, found),
            Task::Attach(_) | Task::ExceptLast(_) => Point::Idle,
        }
    }

    // A step with nothing in hand, which takes nothing.
    fn go(&self, point: Point) -> Point
        requires { PointFits self.now.size point × SizeFits self.now.size × TakesNothing point }
        ensures place { (home : Kept) → frames_at result ≡ place_then self.now.size (step_at self.now.own self.now.ask self.now.target (frames_at point)) self.now.found home (at_place self.now.own self.now.target (frames_at point)) }
        ensures home { (home : Kept) → home_after (step_at self.now.own self.now.ask self.now.target (frames_at point)) self.now.found self.now.own (frames_at point) home ≡ home }
        ensures fits { PointFits self.now.size result }
    {
        match point {
            Point::Popping(popped) => self.pop(popped),
            Point::Setting(proc, popped) => Point::Telling(proc, popped),
            Point::Telling(proc, popped) => self.tell(proc, popped),
            Point::Waking(_, popped) => self.set(popped),
            Point::Announcing(until, sleep) => Point::Rechecking(until, sleep),
            Point::Rechecking(until, sleep) => self.recheck(until, sleep),
            Point::CheckingShutdown(sleep) => self.check(sleep),
            Point::Looking(until, sleep) | Point::Asleep(until, sleep) => self.look(until, sleep),
            Point::Retracting(until, sleep) => Point::Draining(until, sleep),
            Point::Draining(until, sleep) => Point::Repeating(until, sleep),
            Point::Repeating(until, sleep) => self.repeat(until, sleep),
            Point::LeavingSet(sleep) | Point::LeavingShutdown(sleep) => self.woke(sleep),
            Point::Stopping(proc) => self.stop(proc),
            Point::SleepWaiting(condition, stage) => {
                self.wait_begins(Until::Latch, Sleep::On(condition, stage))
            }
            Point::Resetting(condition, stage) => Point::Taking(Task::Resleep(condition, stage)),
            Point::Spinning(task) => self.spin(task),
            Point::Idle | Point::Inside(_) | Point::Taking(_) => point,
        }
    }

    // A step with nothing in hand.
    fn move_on(&self, alloc: Global, point: Point, home: &mut Home) -> Spot
        requires point { PointFits self.now.size point × SizeFits self.now.size }
        requires ask { CallFits self.now.size self.now.ask }
        requires home { AllBelow self.now.size.procs home.old.list.items }
        ensures place { frames result ≡ place_then self.now.size (step_at self.now.own self.now.ask self.now.target (frames_at point)) self.now.found (kept_of home.old) (at_place self.now.own self.now.target (frames_at point)) }
        ensures home { kept_of home.new ≡ home_after (step_at self.now.own self.now.ask self.now.target (frames_at point)) self.now.found self.now.own (frames_at point) (kept_of home.old) }
        ensures fits { SpotFits self.now.size result }
        ensures near { (m : ℕ) → Near m home.old.record → SpotNear m result }
        ensures below { AllBelow self.now.size.procs home.new.list.items }
        ensures same { home.new.record ≡ home.old.record }
    {
        match point {
            Point::Idle => self.begin(alloc, home),
            Point::Inside(stage) => self.begin_inside(alloc, stage, home),
            Point::Taking(task) => self.take(alloc, task, home),
            _ => Spot::At(self.go(point)),
        }
    }

    /// The place after the step of a backend at this one. What it takes leaves home, and what it had
    /// in hand goes home.
    pub(crate) fn advance(
        &self,
        alloc: Global,
        spot: Spot,
        home: &mut Home,
    ) -> Result<Spot, AllocError>
        requires own { self.now.own < self.now.size.procs }
        requires ask { CallFits self.now.size self.now.ask × SizeFits self.now.size }
        requires spot { SpotFits self.now.size spot }
        requires room { SpotRoom spot }
        requires home { AllBelow self.now.size.procs home.old.list.items }
        ensures place { IfOk result (λ s. frames s ≡ place_then self.now.size (step_at self.now.own self.now.ask self.now.target (frames spot)) self.now.found (kept_of home.old) (at_place self.now.own self.now.target (frames spot))) }
        ensures home { OnOk result (kept_of home.new ≡ home_after (step_at self.now.own self.now.ask self.now.target (frames spot)) self.now.found self.now.own (frames spot) (kept_of home.old)) }
        ensures fits { IfOk result (λ s. SpotFits self.now.size s) }
        ensures near { (m : ℕ) → Near m home.old.record → IfOk result (λ s. SpotNear m s) }
        ensures below { AllBelow self.now.size.procs home.new.list.items }
    {
        match spot {
            Spot::At(point) => Ok(self.move_on(alloc, point, home)),
            Spot::Holding(task, list, found) => {
                let point = self.free(&task, list.as_slice(), found);
                home.record = left_record(&task, found);
                home.list = left_list(alloc, self.own, &task, list)?;
                Ok(Spot::At(point))
            }
        }
    }
}
