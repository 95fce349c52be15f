//! What a replay prints of a step and of an answer.
ghost use Rattle.std.specs.Prelude.{◌≡◌, ◌<◌, ◌+◌, ◌++◌, ◌==◌, ◌^◌, ◌∷◌, [], drop, length, OnOk, decimal, if◌then◌else◌};
ghost use Rattle.std.specs.Int.{bit_at};
ghost use Rattle.signal_core.specs.Machine.{becomes, word_of};
ghost use Rattle.signal_core.specs.Words.{opened};
ghost use Rattle.signal_script.specs.Signals.{absorb_answer, answer, answer_line, changed_word, changed_words, field_name, kind_name, kinds_in, kinds_text, published_by, step_line, word_name};
ghost use Rattle.signal_script.specs.SignalSketch.{told};

use crate::signals::{Ask, Backend};
use proc_table::ProcNo;
use script_play::{push, push_number};
use signal_core::{About, Frame, SigStep, Slot};
use std::alloc::AllocError;

fn kind_name(step: &SigStep) -> &'static str
    ensures { result.now ≡ kind_name step.now }
{
    match *step {
        SigStep::Hload(_) => "hload",
        SigStep::Hadd => "hadd",
        SigStep::Mor(..) => "mor",
        SigStep::Mswap(_) => "mswap",
        SigStep::Gstore(..) => "gstore",
        SigStep::Gload(..) => "gload",
        SigStep::Pstore(_) => "pstore",
        SigStep::Pload(_) => "pload",
        SigStep::Pend(_) => "pend",
        SigStep::Pswap(_) => "pswap",
    }
}

// The name of a word of a backend, by what is left of its number by 4.
fn field_name(field: usize) -> &'static str
    ensures { result.now ≡ field_name field }
{
    match field {
        2 => ".pid",
        3 => ".gen",
        0 => ".mask",
        _ => ".pend",
    }
}

// Appends the name of a word.
fn push_word(out: &mut Vec<u8>, word: usize) -> Result<(), AllocError>
    requires { 0 < word }
    ensures { OnOk result (out.new.items ≡ out.old.items ++ word_name word) }
{
    if word == 1 {
        return push(out, "G");
    }
    push(out, "S")?;
    push_number(out, (word as u64 - 2) / 4)?;
    push(out, field_name(word % 4))
}

// Appends the line of a step of a backend, which left a value in a word.
fn push_step(
    out: &mut Vec<u8>,
    own: u32,
    step: &SigStep,
    word: usize,
    value: u64,
) -> Result<(), AllocError>
    requires { 0 < word }
    ensures { OnOk result (out.new.items ≡ out.old.items ++ step_line own step.now word value) }
{
    push_number(out, u64::from(own))?;
    push(out, " ")?;
    push(out, kind_name(step))?;
    push(out, " ")?;
    push_word(out, word)?;
    push(out, " ")?;
    push_number(out, value)?;
    push(out, "\n")
}

// Appends a kind after a space, where it is in a mask.
fn push_kind(out: &mut Vec<u8>, found: u64, kind: u32) -> Result<(), AllocError>
    requires { kind < 32 }
    ensures { OnOk result (out.new.items ≡ out.old.items ++ kinds_text (if bit_at found kind == 0 then [] else kind ∷ [])) }
{
    if found >> kind & 1 == 1 {
        push(out, " ")?;
        push_number(out, u64::from(kind))?;
    }
    Ok(())
}

// Appends the kinds of a mask, each after a space.
fn push_kinds(out: &mut Vec<u8>, found: u64) -> Result<(), AllocError>
    ensures { OnOk result (out.new.items ≡ out.old.items ++ kinds_text (kinds_in found)) }
{
    'kinds: for kind in 0..32 {
        push_kind(out, found, kind)?;
    }
    Ok(())
}

// The generation that a slot has published.
fn published_by(slot: Option<Slot>) -> u64
    ensures { result ≡ published_by slot }
{
    match slot {
        Some(slot) => slot.published,
        None => 0,
    }
}

fn push_absorbed(out: &mut Vec<u8>, place: Option<Frame>, published: u64) -> Result<(), AllocError>
    ensures { OnOk result (out.new.items ≡ out.old.items ++ absorb_answer place published) }
{
    match place {
        Some(Frame::Taking(header, found)) => {
            push(out, "published ")?;
            push_number(out, header)?;
            push_kinds(out, found)
        }
        Some(Frame::Reminding(_, _, failed, _)) => {
            push(out, "kept ")?;
            push_number(out, failed)
        }
        _ => {
            push(out, "idle ")?;
            push_number(out, published)
        }
    }
}

// A call that ended: the place before its last step and what the step found, and the slot and the
// last number of an emission after it.
#[derive(Clone, Copy)]
pub(crate) struct Ending {
    pub(crate) ask: Ask,
    pub(crate) place: Option<Frame>,
    pub(crate) found: u64,
    pub(crate) slot: Option<Slot>,
    pub(crate) emitted: u64,
}

fn push_answer(out: &mut Vec<u8>, call: &Ending) -> Result<(), AllocError>
    ensures { OnOk result (out.new.items ≡ out.old.items ++ answer call.now.ask call.now.place call.now.found call.now.slot call.now.emitted) }
{
    match (call.ask, call.place) {
        (Ask::Join, _) => {
            push(out, "gen ")?;
            push_number(out, published_by(call.slot))
        }
        (Ask::Leave, _) => push(out, "done"),
        (Ask::Emit(_), None) => {
            push(out, "worn ")?;
            push_number(out, call.found)
        }
        (Ask::Emit(_), Some(_)) => {
            push(out, "gen ")?;
            push_number(out, call.emitted)
        }
        (Ask::Absorb(_), place) => push_absorbed(out, place, published_by(call.slot)),
    }
}

// Appends the line of an answer.
fn push_ending(out: &mut Vec<u8>, own: u32, call: &Ending) -> Result<(), AllocError>
    ensures { OnOk result (out.new.items ≡ out.old.items ++ answer_line own (answer call.now.ask call.now.place call.now.found call.now.slot call.now.emitted)) }
{
    push_number(out, u64::from(own))?;
    push(out, " = ")?;
    push_answer(out, call)?;
    push(out, "\n")
}

/// Appends what is printed of a step of a backend: its line, and its call's answer where it ends.
pub(crate) fn push_turn(
    out: &mut Vec<u8>,
    own: ProcNo,
    ask: Ask,
    step: &SigStep,
    word: usize,
    found: u64,
    left: u64,
    before: Backend,
    after: Backend,
) -> Result<(), AllocError>
    requires word { word ≡ word_of own step.now }
    requires left { left ≡ becomes step.now found }
    ensures { OnOk result (out.new.items ≡ out.old.items ++ told own ask step.now found before after) }
{
    let number = own.number();
    push_step(out, number, step, word, left)?;
    if let Some(_) = after.place {
        return Ok(());
    }
    let call = Ending {
        ask,
        place: before.place,
        found,
        slot: after.slot,
        emitted: after.emitted,
    };
    push_ending(out, number, &call)
}

/// Appends the words from the second on that differ from their opening.
pub(crate) fn push_changed(out: &mut Vec<u8>, about: About, words: &[u64]) -> Result<(), AllocError>
    requires { length words.now < 2 ^ 32 }
    ensures { OnOk result (out.new.items ≡ out.old.items ++ changed_words about (drop 1 words.now) 1) }
{
    'words: for word in 1..words.len() {
        push_changed_word(out, about, word, words[word])?;
    }
    Ok(())
}

// Appends a word where it differs from its opening.
fn push_changed_word(
    out: &mut Vec<u8>,
    about: About,
    word: usize,
    value: u64,
) -> Result<(), AllocError>
    requires { 0 < word }
    ensures { OnOk result (out.new.items ≡ out.old.items ++ changed_word about value word) }
{
    if value == opened(about, word) {
        return Ok(());
    }
    push_word(out, word)?;
    push(out, " ")?;
    push_number(out, value)?;
    push(out, "\n")
}

/// The word at the opening.
pub(crate) fn opened(about: About, word: usize) -> u64
    ensures { result ≡ opened about word }
{
    match word {
        0 => 1,
        1 => about.generation,
        _ if word % 4 == 3 => u64::MAX,
        _ => 0,
    }
}
