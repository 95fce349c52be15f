//! What a step makes of its word, and of the place, the slot and the emissions of its backend.
ghost use Rattle.std.specs.Prelude.{◌≡◌, ◌⊎◌, ◌≤◌, ◌<◌, ◌-◌, ◌^◌};
ghost use Rattle.signal_core.specs.declared.step.SigStep.TheVariants.{Hadd};
ghost use Rattle.signal_core.specs.Machine.{InRange, becomes, begun, compared, headed, looked, numbered, place_after, posted, prodded, slot_after, swapped, told};
ghost use Rattle.signal_core.specs.Machine.{opened as opened_place};
ghost use Rattle.signal_script.specs.Signals.{emitted_after};
ghost use Rattle.signal_script.specs.SignalSketch.{PlaceFits};

use signal_core::{About, Call, Frame, SigStep, Slot};

// The header from which on nobody emits any more.
const WORN: u64 = 0x4000_0000_0000_0000;

/// What the word that a step found becomes.
pub(crate) fn becomes(step: &SigStep, found: u64) -> u64
    requires within { InRange step.now }
    requires room { found < 2 ^ 64 - 1 ⊎ (step.now ≡ Hadd → ⊥) }
    ensures { result ≡ becomes step.now found }
{
    match *step {
        SigStep::Hload(_) | SigStep::Gload(..) | SigStep::Pload(_) => found,
        SigStep::Hadd => found + 1,
        SigStep::Mor(_, kind, _) => found | 1 << kind,
        SigStep::Mswap(_) | SigStep::Pswap(_) => 0,
        SigStep::Gstore(value, _) | SigStep::Pstore(value) => value,
        SigStep::Pend(_) => 1,
    }
}

fn begun(call: Call, found: u64) -> Option<Frame>
    ensures { result ≡ begun call found }
{
    match call {
        Call::Emit(kind, number) if found < WORN => Some(Frame::Posting(kind, number, 0)),
        _ => None,
    }
}

fn headed(found: u64, place: Option<Frame>) -> Option<Frame>
    ensures { result ≡ headed found place }
{
    match place {
        Some(Frame::Reading) => Some(Frame::Opening(found)),
        Some(Frame::Heading(generation)) if found == generation => None,
        Some(Frame::Heading(_)) => Some(Frame::Swapping(found)),
        _ => place,
    }
}

fn numbered(place: Option<Frame>) -> Option<Frame>
    ensures { result ≡ numbered place }
{
    match place {
        Some(Frame::Numbering(_, _)) => Some(Frame::Telling(0)),
        _ => place,
    }
}

fn posted(about: About, kind: u32, failed: Option<u64>, place: Option<Frame>) -> Option<Frame>
    requires { PlaceFits about.procs place × (about.procs ≤ 64) }
    ensures { result ≡ posted about kind failed place }
{
    match (failed, place) {
        (_, Some(Frame::Posting(k, number, slot))) if slot + 1 == about.procs => {
            Some(Frame::Numbering(k, number))
        }
        (_, Some(Frame::Posting(k, number, slot))) => Some(Frame::Posting(k, number, slot + 1)),
        (None, Some(Frame::Keeping(header, found, f, _))) => {
            Some(Frame::Reminding(header, found, f, kind))
        }
        (Some(f), Some(Frame::Taking(header, found))) => {
            Some(Frame::Reminding(header, found, f, kind))
        }
        _ => place,
    }
}

fn swapped(found: u64, place: Option<Frame>) -> Option<Frame>
    ensures { result ≡ swapped found place }
{
    match place {
        Some(Frame::Swapping(header)) => Some(Frame::Taking(header, found)),
        _ => place,
    }
}

fn opened_place(place: Option<Frame>) -> Option<Frame>
    ensures { result ≡ opened_place place }
{
    match place {
        Some(Frame::Opening(header)) => Some(Frame::Entering(header)),
        Some(Frame::Taking(_, _)) => None,
        _ => place,
    }
}

fn compared(found: u64, place: Option<Frame>) -> Option<Frame>
    ensures { result ≡ compared found place }
{
    match place {
        Some(Frame::Comparing) => Some(Frame::Heading(found)),
        _ => place,
    }
}

fn told(about: About, slot: u32) -> Option<Frame>
    requires { (slot < about.procs) × (about.procs ≤ 64) }
    ensures { result ≡ told about slot }
{
    if slot + 1 == about.procs {
        None
    } else {
        Some(Frame::Telling(slot + 1))
    }
}

fn looked(about: About, found: u64, place: Option<Frame>) -> Option<Frame>
    requires { PlaceFits about.procs place × (about.procs ≤ 64) }
    ensures { result ≡ looked about found place }
{
    match place {
        Some(Frame::Telling(slot)) if found == 0 => told(about, slot),
        Some(Frame::Telling(slot)) => Some(Frame::Prodding(slot)),
        _ => place,
    }
}

fn prodded(about: About, place: Option<Frame>) -> Option<Frame>
    requires { PlaceFits about.procs place × (about.procs ≤ 64) }
    ensures { result ≡ prodded about place }
{
    match place {
        Some(Frame::Prodding(slot)) => told(about, slot),
        Some(Frame::Reminding(_, _, failed, kind)) if failed < 1 << (kind + 1) => None,
        Some(Frame::Reminding(header, found, failed, kind)) => {
            Some(Frame::Keeping(header, found, failed, kind + 1))
        }
        _ => place,
    }
}

/// The place after a step that found `found`.
pub(crate) fn place_after(
    about: About,
    step: &SigStep,
    found: u64,
    place: Option<Frame>,
) -> Option<Frame>
    requires { PlaceFits about.procs place × (about.procs ≤ 64) }
    ensures { result ≡ place_after about step.now found place }
{
    match *step {
        SigStep::Hload(Some(call)) => begun(call, found),
        SigStep::Hload(None) => headed(found, place),
        SigStep::Hadd => numbered(place),
        SigStep::Mor(_, kind, failed) => posted(about, kind, failed, place),
        SigStep::Mswap(Some(_)) => Some(Frame::Reading),
        SigStep::Mswap(None) => swapped(found, place),
        SigStep::Gstore(_, Some(_)) => Some(Frame::Leaving),
        SigStep::Gstore(_, None) => opened_place(place),
        SigStep::Gload(_, Some(_)) => place,
        SigStep::Gload(_, None) => compared(found, place),
        SigStep::Pstore(_) => None,
        SigStep::Pload(_) => looked(about, found, place),
        SigStep::Pend(_) => prodded(about, place),
        SigStep::Pswap(_) if found == 0 => None,
        SigStep::Pswap(_) => Some(Frame::Comparing),
    }
}

/// The slot after a step.
pub(crate) fn slot_after(step: &SigStep, place: Option<Frame>, slot: Option<Slot>) -> Option<Slot>
    ensures { result ≡ slot_after step.now place slot }
{
    match (*step, place, slot) {
        (SigStep::Pstore(_), Some(Frame::Entering(header)), _) => Some(Slot {
            joined: header,
            published: header,
        }),
        (SigStep::Gstore(_, Some(_)), _, _) => None,
        (SigStep::Gstore(_, None), Some(Frame::Taking(header, _)), Some(old)) => Some(Slot {
            joined: old.joined,
            published: header,
        }),
        _ => slot,
    }
}

/// The number of the last emission after a step.
pub(crate) fn emitted_after(step: &SigStep, place: Option<Frame>, found: u64, emitted: u64) -> u64
    requires { found < 2 ^ 64 - 1 ⊎ (step.now ≡ Hadd → ⊥) }
    ensures { result ≡ emitted_after step.now place found emitted }
{
    match (*step, place) {
        (SigStep::Hadd, Some(Frame::Numbering(_, _))) => found + 1,
        _ => emitted,
    }
}
