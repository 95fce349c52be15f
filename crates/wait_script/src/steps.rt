//! The step that comes next of a backend.
ghost use Rattle.std.specs.Prelude.{◌≡◌, ◌<◌, ℕ, Option, IfSome};
ghost use Rattle.wait_core.specs.declared.step.Call.{Call};
ghost use Rattle.wait_core.specs.declared.step.Call.TheVariants as call;
ghost use Rattle.wait_core.specs.declared.step.Spot.TheVariants.{Bar, Cv};
ghost use Rattle.wait_core.specs.Words.{slot_of, slots_in};
ghost use Rattle.wait_core.specs.Jobs.{spot_of, target_after};
ghost use Rattle.wait_core.specs.Machine.{takes_first};
ghost use Rattle.wait_script.specs.Waits.{first_step, step_at, taking_first};
ghost use Rattle.wait_script.specs.WaitSketch.{CallFits, PointFits, PoppedFits, SizeFits, SpotFits, StageFits, StepFits, TaskFits, behind_popped, frames, frames_at, job_of, staged};

use crate::spots::{Point, Popped, Spot as Place, Stage, Task};
use proc_table::{BarNo, CvNo, ProcNo};
use wait_core::{Call, Size, Spot, Until, WaitStep};

/// The condition of a barrier.
pub(crate) fn condition_of(barrier: BarNo) -> CvNo
    ensures { result ≡ barrier }
{
    match CvNo::new(barrier.number()) {
        Some(condition) => condition,
        None => unreachable!(),
    }
}

/// The backend of a number that is below 64.
pub(crate) fn backend_of(number: u32) -> ProcNo
    requires { number < 64 }
    ensures { result ≡ number }
{
    match ProcNo::new(number) {
        Some(backend) => backend,
        None => unreachable!(),
    }
}

// The spin word of a condition.
fn list_spot(size: Size, condition: CvNo) -> Spot
    ensures spot { result ≡ Cv condition }
    ensures slot { slot_of result < slots_in size }
{
    Spot::Cv(condition)
}

// That of a barrier.
fn record_spot(size: Size, barrier: BarNo) -> Spot
    requires { barrier < size.bars }
    ensures spot { result ≡ Bar barrier }
    ensures slot { slot_of result < slots_in size }
{
    Spot::Bar(barrier)
}

// The spin word that a call takes first which leaves the target's list and else takes this one's.
fn other_spot(size: Size, target: Option<CvNo>, condition: CvNo) -> Option<Spot>
    ensures spot { (result ≡ takes_first target (call.Prepare condition)) × (result ≡ takes_first target (call.Broadcast condition)) }
    ensures within { IfSome result (λ x. slot_of x < slots_in size) }
{
    match target {
        Some(left) => Some(list_spot(size, left)),
        None => Some(list_spot(size, condition)),
    }
}

fn cancel_spot(size: Size, target: Option<CvNo>) -> Option<Spot>
    ensures spot { result ≡ takes_first target call.Cancel }
    ensures within { IfSome result (λ x. slot_of x < slots_in size) }
{
    match target {
        Some(left) => Some(list_spot(size, left)),
        None => None,
    }
}

fn sleep_spot(size: Size, target: Option<CvNo>, condition: CvNo) -> Option<Spot>
    ensures spot { result ≡ takes_first target (call.Sleep condition) }
    ensures within { IfSome result (λ x. slot_of x < slots_in size) }
{
    match target {
        Some(left) if left.number() == condition.number() => None,
        Some(left) => Some(list_spot(size, left)),
        None => Some(list_spot(size, condition)),
    }
}

// The spin word that a call takes first, unless it begins with another step.
fn takes_first(size: Size, target: Option<CvNo>, call: &Call) -> Option<Spot>
    requires { CallFits size call.now }
    ensures spot { result ≡ takes_first target call.now }
    ensures within { IfSome result (λ x. slot_of x < slots_in size) }
{
    match *call {
        Call::Cancel => cancel_spot(size, target),
        Call::Prepare(condition) | Call::Broadcast(condition) => {
            other_spot(size, target, condition)
        }
        Call::Sleep(condition) => sleep_spot(size, target, condition),
        Call::Signal(condition) => Some(list_spot(size, condition)),
        Call::Attach(barrier)
        | Call::Arrive(barrier)
        | Call::Detach(barrier)
        | Call::ArriveDetach(barrier)
        | Call::ExceptLast(barrier) => Some(record_spot(size, barrier)),
        Call::Set(_) | Call::Reset | Call::IsSet | Call::Wait(_) | Call::Shut | Call::IsShut =>
            None,
    }
}

fn taking_first(size: Size, own: ProcNo, call: Call, spot: Option<Spot>) -> WaitStep
    requires size { SizeFits size }
    requires own { own < size.procs }
    requires spot { IfSome spot (λ x. slot_of x < slots_in size) }
    ensures step { result ≡ taking_first own call spot }
    ensures fits { StepFits size own result }
{
    match spot {
        Some(spot) => WaitStep::Take(spot, Some(call)),
        None => WaitStep::Sload(own, Some(call)),
    }
}

// The first step of a call.
fn first_step(size: Size, own: ProcNo, target: Option<CvNo>, call: &Call) -> WaitStep
    requires size { SizeFits size }
    requires own { own < size.procs }
    requires call { CallFits size call.now }
    ensures step { result ≡ first_step own target call.now }
    ensures fits { StepFits size own result }
{
    match *call {
        Call::Set(proc) => WaitStep::Sload(proc, Some(Call::Set(proc))),
        Call::Reset => WaitStep::Reset(Some(Call::Reset)),
        Call::Shut => WaitStep::Shstore(Some(Call::Shut)),
        Call::IsShut => WaitStep::Shload(Some(Call::IsShut)),
        _ => taking_first(size, own, *call, takes_first(size, target, call)),
    }
}

// The first step of the call inside a stage.
fn stage_step(size: Size, own: ProcNo, target: Option<CvNo>, stage: Stage) -> WaitStep
    requires size { SizeFits size }
    requires own { own < size.procs }
    ensures step { (a : Call) → result ≡ step_at own a target (staged stage) }
    ensures fits { StepFits size own result }
{
    match stage {
        Stage::Settling(barrier, _) => {
            first_step(size, own, target, &Call::Prepare(condition_of(barrier)))
        }
        Stage::Dozing(barrier, _) => {
            first_step(size, own, target, &Call::Sleep(condition_of(barrier)))
        }
        Stage::Passing(barrier, _) => {
            first_step(size, own, target, &Call::Broadcast(condition_of(barrier)))
        }
        Stage::Returning(_, _) => first_step(size, own, target, &Call::Cancel),
    }
}

// The first step of setting the latch of whom a call popped.
fn popped_step(size: Size, own: ProcNo, popped: Popped) -> WaitStep
    requires size { SizeFits size }
    requires popped { PoppedFits size popped }
    ensures step { (a : Call) → (t : Option ℕ) → result ≡ step_at own a t (behind_popped popped) }
    ensures fits { StepFits size own result }
{
    match popped {
        Popped::Signal(_, proc) | Popped::Broadcast(_, proc, _, _) => {
            WaitStep::Sload(proc, Some(Call::Set(proc)))
        }
    }
}

// The spin word of a task.
fn task_spot(size: Size, task: &Task) -> Spot
    requires { TaskFits size task.now }
    ensures spot { result ≡ spot_of (job_of task.now) }
    ensures slot { slot_of result < slots_in size }
{
    match *task {
        Task::Cancel(condition, _)
        | Task::Prepare(condition, _)
        | Task::Resleep(condition, _)
        | Task::Signal(condition)
        | Task::Broadcast(condition, _)
        | Task::Rebroadcast(condition, _) => list_spot(size, condition),
        Task::Attach(barrier)
        | Task::Arrive(barrier)
        | Task::Notice(barrier, _)
        | Task::Detach(barrier)
        | Task::ArriveDetach(barrier)
        | Task::ExceptLast(barrier) => record_spot(size, barrier),
    }
}

// The target after a task.
fn target_after(task: &Task, target: Option<CvNo>) -> Option<CvNo>
    ensures { result ≡ target_after (job_of task.now) target }
{
    match *task {
        Task::Cancel(..) => None,
        Task::Prepare(condition, _) => Some(condition),
        _ => target,
    }
}

fn point_step(size: Size, own: ProcNo, target: Option<CvNo>, ask: &Call, point: Point) -> WaitStep
    requires size { SizeFits size }
    requires own { own < size.procs }
    requires ask { CallFits size ask.now }
    requires point { PointFits size point }
    ensures step { result ≡ step_at own ask.now target (frames_at point) }
    ensures fits { StepFits size own result }
{
    match point {
        Point::Idle => first_step(size, own, target, ask),
        Point::Inside(stage) => stage_step(size, own, target, stage),
        Point::Popping(popped) => popped_step(size, own, popped),
        Point::Setting(proc, _) => WaitStep::Sset(proc),
        Point::Telling(proc, _) => WaitStep::Mload(proc),
        Point::Waking(proc, _) => WaitStep::Byte(proc),
        Point::Announcing(..) => WaitStep::Mstore(true),
        Point::Rechecking(..) | Point::Repeating(..) => WaitStep::Sload(own, None),
        Point::CheckingShutdown(_) => WaitStep::Shload(None),
        Point::Looking(..) | Point::Asleep(..) => WaitStep::Look,
        Point::Retracting(..) | Point::LeavingSet(_) | Point::LeavingShutdown(_) => {
            WaitStep::Mstore(false)
        }
        Point::Draining(..) => WaitStep::Drain,
        Point::Stopping(number) => WaitStep::Byte(backend_of(number)),
        Point::SleepWaiting(..) => WaitStep::Sload(own, Some(Call::Wait(Until::Latch))),
        Point::Resetting(..) => WaitStep::Reset(None),
        Point::Taking(task) => WaitStep::Take(task_spot(size, &task), None),
        Point::Spinning(task) => WaitStep::Spin(task_spot(size, &task)),
    }
}

/// The step that comes next of a backend in a call.
pub(crate) fn step_at(
    size: Size,
    own: ProcNo,
    target: Option<CvNo>,
    ask: &Call,
    spot: &Place,
) -> WaitStep
    requires size { SizeFits size }
    requires own { own < size.procs }
    requires ask { CallFits size ask.now }
    requires spot { SpotFits size spot.now }
    ensures step { result ≡ step_at own ask.now target (frames spot.now) }
    ensures fits { StepFits size own result }
{
    match spot {
        Place::At(point) => point_step(size, own, target, ask, *point),
        Place::Holding(task, _, _) => {
            WaitStep::Free(task_spot(size, task), target_after(task, target))
        }
    }
}
