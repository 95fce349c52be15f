//! What a spin word guards, and what a task leaves of it.
ghost use Rattle.std.specs.Prelude.{◌≡◌, ◌<◌, ℕ, ◌+◌, ◌-◌, ◌++◌, ◌∷◌, [], ◌==◌, cond, IfOk};
ghost use Rattle.wait_core.specs.declared.view.Job.TheVariants as job;
ghost use Rattle.wait_core.specs.Jobs.{at_phase, attached_after, departed, left_list, left_record};
ghost use Rattle.wait_core.specs.Jobs.{has_passed as passed_from, is_awaited as awaited, is_last as last, is_only as only, is_worn as worn};
ghost use Rattle.wait_script.specs.declared.waits.Told.TheVariants.{Elected, Released, Worn};
ghost use Rattle.wait_script.specs.Waits.{left_by, sent_to, told_by, unless_told};
ghost use Rattle.wait_script.specs.WaitSketch.{HasRoom, job_of};

use crate::lists::{away_from, head_of, is_listed, rest_of, with_first, without};
use crate::spots::Task;
use crate::waits::Told;
use proc_table::{BarNo, ProcNo};
use std::alloc::{AllocError, Global};
use wait_core::Record;

// The phase that no barrier passes.
const LAST_PHASE: u64 = 0x4000_0000_0000_0000;

/// What is at home in a slot: a list, unless it is in hand, and a record, as it is or as its holder
/// found it.
#[derive(Drop)]
pub(crate) struct Home {
    pub(crate) list: Vec<u32>,
    pub(crate) record: Record,
}

pub(crate) fn is_worn(found: Record) -> bool
    ensures { result ≡ worn found }
{
    found.phase == LAST_PHASE
}

/// Whether all who take part but one have arrived.
pub(crate) fn is_last(found: Record) -> bool
    requires { HasRoom found }
    ensures { result ≡ last found }
{
    found.arrived + 1 == found.participants
}

fn is_only(found: Record) -> bool
    ensures { result ≡ only found }
{
    found.participants == 1
}

/// Whether all others have arrived, and there are some.
pub(crate) fn is_awaited(found: Record) -> bool
    requires { HasRoom found }
    ensures { result ≡ awaited found }
{
    is_last(found) && found.participants > 1
}

/// Whether the phase from which somebody waits has passed.
pub(crate) fn has_passed(phase: u64, found: Record) -> bool
    ensures { result ≡ passed_from phase found }
{
    found.phase > phase && found.phase - phase == 1
}

fn departed(passes: bool, found: Record) -> Record
    requires { HasRoom found }
    ensures { result ≡ departed passes found }
{
    let participants = found.participants.saturating_sub(1);
    if passes {
        Record {
            phase: found.phase + 1,
            participants,
            arrived: 0,
            elected: found.elected,
        }
    } else {
        Record {
            participants,
            ..found
        }
    }
}

fn arrived(found: Record) -> Record
    requires { HasRoom found }
    ensures { result ≡ cond (last found) (record found { phase = found.phase + 1; arrived = 0; elected = found.phase + 1 }) (record found { arrived = found.arrived + 1 }) }
{
    if is_last(found) {
        Record {
            phase: found.phase + 1,
            participants: found.participants,
            arrived: 0,
            elected: found.phase + 1,
        }
    } else {
        Record {
            arrived: found.arrived + 1,
            ..found
        }
    }
}

fn noticed(phase: u64, found: Record) -> Record
    ensures { result ≡ left_record (job.Notice 0 phase) found }
{
    if has_passed(phase, found) {
        Record {
            elected: found.phase,
            ..found
        }
    } else {
        found
    }
}

fn left_except_last(found: Record) -> Record
    requires { HasRoom found }
    ensures { result ≡ cond (only found) (record found { phase = found.phase + 1 }) (record found { participants = found.participants - 1 }) }
{
    if is_only(found) {
        Record {
            phase: found.phase + 1,
            ..found
        }
    } else {
        Record {
            participants: found.participants.saturating_sub(1),
            ..found
        }
    }
}

/// The found that goes home after a task.
pub(crate) fn left_record(task: &Task, found: Record) -> Record
    requires { HasRoom found }
    ensures { result ≡ left_record (job_of task.now) found }
{
    match *task {
        Task::Attach(_) => Record {
            participants: found.participants + 1,
            ..found
        },
        Task::Arrive(_) if !is_worn(found) => arrived(found),
        Task::Notice(_, phase) => noticed(phase, found),
        Task::Detach(_) => departed(is_awaited(found), found),
        Task::ArriveDetach(_) if !is_worn(found) => departed(is_last(found), found),
        Task::ExceptLast(_) if !is_worn(found) => left_except_last(found),
        _ => found,
    }
}

// A list with a backend at its end.
fn joined(own: ProcNo, mut list: Vec<u32>) -> Result<Vec<u32>, AllocError>
    ensures { IfOk result (λ v. v.items ≡ list.items ++ own ∷ []) }
{
    list.push(own.number())?;
    Ok(list)
}

// The list without its head, and with the backend behind the others, where there are some.
fn guarded(alloc: Global, own: ProcNo, list: &[u32]) -> Result<Vec<u32>, AllocError>
    ensures { IfOk result (λ v. v.items ≡ left_list (job.Broadcast 0) own list.now) }
{
    let rest = rest_of(alloc, list)?;
    if rest.is_empty() {
        return Ok(rest);
    }
    joined(own, rest)
}

/// The list that goes home after a task.
pub(crate) fn left_list(
    alloc: Global,
    own: ProcNo,
    task: &Task,
    list: Vec<u32>,
) -> Result<Vec<u32>, AllocError>
    ensures { IfOk result (λ v. v.items ≡ left_list (job_of task.now) own list.items) }
{
    match *task {
        Task::Cancel(..) => without(alloc, own.number(), list.as_slice()),
        Task::Prepare(..) => joined(own, list),
        Task::Resleep(..) => {
            if is_listed(own.number(), list.as_slice()) {
                Ok(list)
            } else {
                joined(own, list)
            }
        }
        Task::Signal(_) | Task::Rebroadcast(..) => rest_of(alloc, list.as_slice()),
        Task::Broadcast(..) => guarded(alloc, own, list.as_slice()),
        _ => Ok(list),
    }
}

// The attachments with a barrier at a phase.
fn known(
    alloc: Global,
    barrier: BarNo,
    phase: u64,
    attached: &[(u32, u64)],
) -> Result<Vec<(u32, u64)>, AllocError>
    ensures { IfOk result (λ v. v.items ≡ at_phase barrier phase attached.now) }
{
    let others = away_from(alloc, barrier.number(), attached)?;
    with_first(alloc, barrier.number(), phase, others.as_slice())
}

fn after_arrival(
    alloc: Global,
    barrier: BarNo,
    found: Record,
    attached: Vec<(u32, u64)>,
) -> Result<Vec<(u32, u64)>, AllocError>
    requires { HasRoom found }
    ensures { IfOk result (λ v. v.items ≡ attached_after (job.Arrive barrier) found attached.items) }
{
    if is_worn(found) || !is_last(found) {
        return Ok(attached);
    }
    known(alloc, barrier, found.phase + 1, attached.as_slice())
}

fn after_notice(
    alloc: Global,
    barrier: BarNo,
    phase: u64,
    found: Record,
    attached: Vec<(u32, u64)>,
) -> Result<Vec<(u32, u64)>, AllocError>
    ensures { IfOk result (λ v. v.items ≡ attached_after (job.Notice barrier phase) found attached.items) }
{
    if !has_passed(phase, found) {
        return Ok(attached);
    }
    known(alloc, barrier, found.phase, attached.as_slice())
}

fn after_leaving(
    alloc: Global,
    barrier: BarNo,
    found: Record,
    attached: Vec<(u32, u64)>,
) -> Result<Vec<(u32, u64)>, AllocError>
    ensures { IfOk result (λ v. v.items ≡ attached_after (job.ArriveDetach barrier) found attached.items) }
{
    if is_worn(found) {
        return Ok(attached);
    }
    away_from(alloc, barrier.number(), attached.as_slice())
}

fn after_except_last(
    alloc: Global,
    barrier: BarNo,
    found: Record,
    attached: Vec<(u32, u64)>,
) -> Result<Vec<(u32, u64)>, AllocError>
    requires { HasRoom found }
    ensures { IfOk result (λ v. v.items ≡ attached_after (job.ExceptLast barrier) found attached.items) }
{
    if is_worn(found) {
        return Ok(attached);
    }
    if is_only(found) {
        return known(alloc, barrier, found.phase + 1, attached.as_slice());
    }
    away_from(alloc, barrier.number(), attached.as_slice())
}

/// The attachments after a task.
pub(crate) fn attached_after(
    alloc: Global,
    task: &Task,
    found: Record,
    attached: Vec<(u32, u64)>,
) -> Result<Vec<(u32, u64)>, AllocError>
    requires { HasRoom found }
    ensures { IfOk result (λ v. v.items ≡ attached_after (job_of task.now) found attached.items) }
{
    match *task {
        Task::Attach(barrier) => {
            with_first(alloc, barrier.number(), found.phase, attached.as_slice())
        }
        Task::Arrive(barrier) => after_arrival(alloc, barrier, found, attached),
        Task::Notice(barrier, phase) => after_notice(alloc, barrier, phase, found, attached),
        Task::Detach(barrier) => away_from(alloc, barrier.number(), attached.as_slice()),
        Task::ArriveDetach(barrier) => after_leaving(alloc, barrier, found, attached),
        Task::ExceptLast(barrier) => after_except_last(alloc, barrier, found, attached),
        _ => Ok(attached),
    }
}

// Of a cancel it tells only where nothing was told before.
fn unless_told(told: Told, new: Told) -> Told
    ensures { result ≡ unless_told told new }
{
    match told {
        Told::Nothing => new,
        _ => told,
    }
}

fn left_by(found: Record) -> Told
    ensures { result ≡ left_by found }
{
    if is_only(found) {
        Told::Last
    } else {
        Told::More
    }
}

fn sent_to(list: &[u32]) -> Told
    ensures { result ≡ sent_to list.now }
{
    match head_of(list) {
        Some(head) => Told::Sent(head),
        None => Told::Nobody,
    }
}

fn arrival_told(found: Record, told: Told) -> Told
    requires { HasRoom found }
    ensures { result ≡ cond (worn found) (Worn found.phase) (cond (last found) Elected told) }
{
    if is_worn(found) {
        Told::Worn(found.phase)
    } else if is_last(found) {
        Told::Elected
    } else {
        told
    }
}

fn notice_told(phase: u64, found: Record, told: Told) -> Told
    ensures { result ≡ cond (passed_from phase found) (cond (found.elected == phase + 1) Released Elected) told }
{
    if !has_passed(phase, found) {
        told
    } else if found.elected == found.phase {
        Told::Released
    } else {
        Told::Elected
    }
}

fn departure_told(found: Record) -> Told
    ensures { result ≡ cond (worn found) (Worn found.phase) (left_by found) }
{
    if is_worn(found) {
        Told::Worn(found.phase)
    } else {
        left_by(found)
    }
}

/// What a task tells of what it found.
pub(crate) fn told_by(own: ProcNo, task: &Task, list: &[u32], found: Record, told: Told) -> Told
    requires { HasRoom found }
    ensures { result ≡ told_by (job_of task.now) own list.now found told }
{
    match *task {
        Task::Cancel(..) => unless_told(told, Told::WasListed(is_listed(own.number(), list))),
        Task::Prepare(..) => Told::Prepared,
        Task::Resleep(..) => {
            if is_listed(own.number(), list) {
                told
            } else {
                Told::Signalled
            }
        }
        Task::Signal(_) => sent_to(list),
        Task::Attach(_) => Told::Phase(found.phase),
        Task::Arrive(_) => arrival_told(found, told),
        Task::Notice(_, phase) => notice_told(phase, found, told),
        Task::Detach(_) => left_by(found),
        Task::ArriveDetach(_) | Task::ExceptLast(_) => departure_told(found),
        Task::Broadcast(..) | Task::Rebroadcast(..) => told,
    }
}
