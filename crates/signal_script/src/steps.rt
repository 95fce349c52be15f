//! The step that comes next of a backend.
ghost use Rattle.std.specs.Prelude.{◌≡◌, ◌≤◌, ◌<◌, ◌-◌, ℕ};
ghost use Rattle.signal_script.specs.Signals.{asked, failing_of, first_step, lowest, step_at, step_in};
ghost use Rattle.signal_script.specs.SignalSketch.{FrameFits, PlaceFits, StepFits};

use crate::signals::Ask;
use proc_table::ProcNo;
use signal_core::{Call, Frame, SigStep};

fn first_step(ask: Ask) -> SigStep
    ensures { result ≡ first_step ask }
{
    match ask {
        Ask::Join => SigStep::Mswap(Some(Call::Join)),
        Ask::Leave => SigStep::Gstore(u64::MAX, Some(Call::Leave)),
        Ask::Emit(kind) => SigStep::Hload(Some(Call::Emit(kind, 0))),
        Ask::Absorb(_) => SigStep::Pswap(Some(Call::Absorb)),
    }
}

// The kinds that an absorption is told to fail.
fn failing_of(ask: Ask) -> u64
    ensures { result ≡ failing_of ask }
{
    match ask {
        Ask::Absorb(failing) => failing,
        _ => 0,
    }
}

// Of the kinds from `done` on, the lowest that failed.
fn lowest(failed: u64, done: u32) -> u32
    requires { done ≤ 32 }
    ensures lowest { result ≡ lowest failed (32 - done) }
    ensures below { result < 32 }
{
    'kinds: for kind in done..32 {
        if failed >> kind & 1 == 1 {
            return kind;
        }
    }
    31
}

// Where none failed of the kinds that were asked for the header is published, else the lowest is put
// back.
fn asked(own: ProcNo, header: u64, failed: u64) -> SigStep
    ensures step { result ≡ asked own header failed }
    ensures within { (procs : ℕ) → StepFits procs own result }
{
    if failed == 0 {
        SigStep::Gstore(header, None)
    } else {
        SigStep::Mor(own, lowest(failed, 0), Some(failed))
    }
}

// The backend of a number that is below 64.
fn backend_of(number: u32) -> ProcNo
    requires { number < 64 }
    ensures { result ≡ number }
{
    match ProcNo::new(number) {
        Some(backend) => backend,
        None => unreachable!(),
    }
}

// The step that the place of a backend names.
fn step_in(procs: u32, own: ProcNo, failing: u64, frame: Frame) -> SigStep
    requires few { procs ≤ 64 }
    requires fits { FrameFits procs frame }
    ensures step { result ≡ step_in own failing frame }
    ensures within { StepFits procs own result }
{
    match frame {
        Frame::Reading | Frame::Heading(_) => SigStep::Hload(None),
        Frame::Opening(header) => SigStep::Gstore(header, None),
        Frame::Entering(_) => SigStep::Pstore(u64::from(own.number()) + 1),
        Frame::Leaving => SigStep::Pstore(0),
        Frame::Posting(kind, _, slot) => SigStep::Mor(backend_of(slot), kind, None),
        Frame::Numbering(_, _) => SigStep::Hadd,
        Frame::Telling(slot) => SigStep::Pload(backend_of(slot)),
        Frame::Prodding(slot) => SigStep::Pend(backend_of(slot)),
        Frame::Comparing => SigStep::Gload(own, None),
        Frame::Swapping(_) => SigStep::Mswap(None),
        Frame::Taking(header, found) => asked(own, header, found & failing),
        Frame::Keeping(_, _, failed, done) => SigStep::Mor(own, lowest(failed, done), None),
        Frame::Reminding(..) => SigStep::Pend(own),
    }
}

/// The step that comes next of a backend in a call.
pub(crate) fn step_at(procs: u32, own: ProcNo, ask: Ask, place: Option<Frame>) -> SigStep
    requires few { procs ≤ 64 }
    requires fits { PlaceFits procs place }
    ensures step { result ≡ step_at own ask place }
    ensures within { StepFits procs own result }
{
    match place {
        None => first_step(ask),
        Some(frame) => step_in(procs, own, failing_of(ask), frame),
    }
}
