//! What a replay prints of a step on waits and of an answer.
ghost use Rattle.std.specs.Prelude.{◌≡◌, ◌≤◌, ◌<◌, ◌++◌, ℕ, codes, decimal, drop, take, length, map, OnOk};
ghost use Rattle.wait_core.specs.Words.{most_conditions};
ghost use Rattle.wait_core.specs.Machine.{becomes, word_of};
ghost use Rattle.script_play.specs.Texts.{texts_of};
ghost use Rattle.wait_script.specs.Waits.{answer, answer_line, changed_word, ended, field_name, is_opening, kind_name, list_text, record_line, record_text, spin_name, step_line, told_text, wait_text, waiter_text, word_name, word_text};
ghost use Rattle.wait_script.specs.WaitSketch.{kept_of};

use crate::homes::Home;
use crate::waits::Told;
use crate::words::{shut_at, spin_at};
use proc_table::ProcNo;
use script_play::{push, push_number};
use std::alloc::AllocError;
use wait_core::{Call, Record, Size, WaitStep};

fn kind_name(step: &WaitStep) -> &'static str
    ensures { result.now ≡ kind_name step.now }
{
    match *step {
        WaitStep::Sload(..) => "sload",
        WaitStep::Sset(_) => "sset",
        WaitStep::Reset(_) => "reset",
        WaitStep::Mstore(_) => "mstore",
        WaitStep::Mload(_) => "mload",
        WaitStep::Byte(_) => "byte",
        WaitStep::Look => "look",
        WaitStep::Drain => "drain",
        WaitStep::Shload(_) => "shload",
        WaitStep::Shstore(_) => "shstore",
        WaitStep::Take(..) => "take",
        WaitStep::Spin(_) => "spin",
        WaitStep::Free(..) => "free",
    }
}

// The name of a word of a backend, by what is left of its number by 3.
fn field_name(field: usize) -> &'static str
    ensures { result.now ≡ field_name field }
{
    match field {
        1 => ".set",
        2 => ".may",
        _ => ".byte",
    }
}

// Appends the name of the spin word of a slot.
fn push_spin(out: &mut Vec<u8>, slot: usize) -> Result<(), AllocError>
    ensures { OnOk result (out.new.items ≡ out.old.items ++ spin_name slot) }
{
    if slot < 160 {
        push(out, "C")?;
        push_number(out, slot as u64)
    } else {
        push(out, "B")?;
        push_number(out, (slot - 160) as u64)
    }
}

// Appends the name of a word.
fn push_name(out: &mut Vec<u8>, size: Size, word: usize) -> Result<(), AllocError>
    requires { 0 < word }
    ensures { OnOk result (out.new.items ≡ out.old.items ++ word_name size word) }
{
    if word < shut_at(size) {
        push(out, "P")?;
        push_number(out, ((word - 1) / 3) as u64)?;
        push(out, field_name(word % 3))
    } else if word == shut_at(size) {
        push(out, "shut")
    } else {
        push_spin(out, word - spin_at(size, 0))
    }
}

// Appends the name of a word and its value.
fn push_word(out: &mut Vec<u8>, size: Size, word: usize, value: u64) -> Result<(), AllocError>
    requires { 0 < word }
    ensures { OnOk result (out.new.items ≡ out.old.items ++ word_text size word value) }
{
    push_name(out, size, word)?;
    push(out, " ")?;
    push_number(out, value)?;
    push(out, "\n")
}

fn push_step(
    out: &mut Vec<u8>,
    size: Size,
    own: u32,
    step: &WaitStep,
    word: usize,
    left: u64,
) -> Result<(), AllocError>
    requires { 0 < word }
    ensures { OnOk result (out.new.items ≡ out.old.items ++ step_line size own step.now word left) }
{
    push_number(out, u64::from(own))?;
    push(out, " ")?;
    push(out, kind_name(step))?;
    push(out, " ")?;
    push_word(out, size, word, left)
}

// Appends a text and a number.
fn push_counted(out: &mut Vec<u8>, text: &str, number: u64) -> Result<(), AllocError>
    ensures { OnOk result (out.new.items ≡ out.old.items ++ (text.now ++ decimal number)) }
{
    push(out, text)?;
    push_number(out, number)
}

fn push_told(out: &mut Vec<u8>, told: Told) -> Result<(), AllocError>
    ensures { OnOk result (out.new.items ≡ out.old.items ++ told_text told) }
{
    match told {
        Told::Nothing => push(out, "done"),
        Told::Shutdown => push(out, "shutdown"),
        Told::WasListed(true) => push(out, "false"),
        Told::WasListed(false) => push(out, "true"),
        Told::Prepared => push(out, "prepared"),
        Told::Signalled => push(out, "signalled"),
        Told::Sent(proc) => push_counted(out, "sent ", u64::from(proc)),
        Told::Nobody => push(out, "none"),
        Told::Phase(phase) => push_counted(out, "phase ", phase),
        Told::Worn(phase) => push_counted(out, "worn ", phase),
        Told::Elected => push(out, "elected"),
        Told::Released => push(out, "released"),
        Told::Last => push(out, "last"),
        Told::More => push(out, "more"),
    }
}

fn wait_text(told: Told) -> &'static str
    ensures { result.now ≡ wait_text told }
{
    match told {
        Told::Shutdown => "shutdown",
        _ => "latch",
    }
}

fn push_answer(out: &mut Vec<u8>, call: &Call, found: u64, told: Told) -> Result<(), AllocError>
    ensures { OnOk result (out.new.items ≡ out.old.items ++ answer call.now found told) }
{
    match *call {
        Call::IsSet | Call::IsShut => push_counted(out, "value ", found),
        Call::Wait(_) => push(out, wait_text(told)),
        Call::Prepare(_) | Call::Broadcast(_) => push(out, "done"),
        _ => push_told(out, told),
    }
}

// Appends the line of an answer.
fn push_ending(
    out: &mut Vec<u8>,
    own: u32,
    call: &Call,
    found: u64,
    told: Told,
) -> Result<(), AllocError>
    ensures { OnOk result (out.new.items ≡ out.old.items ++ answer_line own (answer call.now found told)) }
{
    push_number(out, u64::from(own))?;
    push(out, " = ")?;
    push_answer(out, call, found, told)?;
    push(out, "\n")
}

/// Appends the line of an answer of a cancel that has no step.
pub(crate) fn push_unlisted(out: &mut Vec<u8>, own: ProcNo) -> Result<(), AllocError>
    ensures { OnOk result (out.new.items ≡ out.old.items ++ answer_line own (codes "false")) }
{
    push_number(out, u64::from(own.number()))?;
    push(out, " = false\n")
}

/// Appends what is printed of a step of a backend: its line, and its call's answer where it ends.
pub(crate) fn push_turn(
    out: &mut Vec<u8>,
    size: Size,
    own: ProcNo,
    ask: &Call,
    step: &WaitStep,
    word: usize,
    found: u64,
    left: u64,
    told: Told,
    still: &Option<Call>,
) -> Result<(), AllocError>
    requires some { 0 < word }
    requires word { word ≡ word_of size own step.now }
    requires left { left ≡ becomes step.now found }
    ensures { OnOk result (out.new.items ≡ out.old.items ++ (step_line size own step.now (word_of size own step.now) (becomes step.now found) ++ ended still.now (answer_line own (answer ask.now found told)))) }
{
    push_step(out, size, own.number(), step, word, left)?;
    match still {
        Some(_) => Ok(()),
        None => push_ending(out, own.number(), ask, found, told),
    }
}

/// Appends the words from the second on that differ from their opening.
pub(crate) fn push_changed(out: &mut Vec<u8>, size: Size, words: &[u64]) -> Result<(), AllocError>
    ensures { OnOk result (out.new.items ≡ out.old.items ++ texts_of (changed_word size) (drop 1 words.now) 1) }
{
    'words: for word in 1..words.len() {
        push_changed_word(out, size, word, words[word])?;
    }
    Ok(())
}

// Appends a word where it differs from its opening.
fn push_changed_word(
    out: &mut Vec<u8>,
    size: Size,
    word: usize,
    value: u64,
) -> Result<(), AllocError>
    requires { 0 < word }
    ensures { OnOk result (out.new.items ≡ out.old.items ++ changed_word size word value) }
{
    if value == 0 {
        return Ok(());
    }
    push_word(out, size, word, value)
}

// Appends the backends of a list, each after a space.
fn push_waiters(out: &mut Vec<u8>, list: &[u32]) -> Result<(), AllocError>
    ensures { OnOk result (out.new.items ≡ out.old.items ++ texts_of waiter_text list.now 0) }
{
    'waiters: for at in 0..list.len() {
        push_waiter(out, list[at])?;
    }
    Ok(())
}

fn push_waiter(out: &mut Vec<u8>, waiter: u32) -> Result<(), AllocError>
    ensures { OnOk result ((i : ℕ) → out.new.items ≡ out.old.items ++ waiter_text i waiter) }
{
    push(out, " ")?;
    push_number(out, u64::from(waiter))
}

// Appends a condition's list at home, unless it is empty.
fn push_list(out: &mut Vec<u8>, condition: usize, home: &Home) -> Result<(), AllocError>
    ensures { OnOk result (out.new.items ≡ out.old.items ++ list_text condition (kept_of home.now)) }
{
    if home.list.is_empty() {
        return Ok(());
    }
    push(out, "list C")?;
    push_number(out, condition as u64)?;
    push_waiters(out, home.list.as_slice())?;
    push(out, "\n")
}

// Appends the lists at home that aren't empty.
fn push_lists(out: &mut Vec<u8>, homes: &[Home]) -> Result<(), AllocError>
    ensures { OnOk result (out.new.items ≡ out.old.items ++ texts_of list_text (map kept_of homes.now) 0) }
{
    'lists: for condition in 0..homes.len() {
        push_list(out, condition, &homes[condition])?;
    }
    Ok(())
}

fn is_opening(phase: u64, found: Record) -> bool
    ensures { result ≡ is_opening phase found }
{
    found.phase == phase && found.participants == 0 && found.arrived == 0 && found.elected == phase
}

fn push_record_line(out: &mut Vec<u8>, barrier: usize, found: Record) -> Result<(), AllocError>
    ensures { OnOk result (out.new.items ≡ out.old.items ++ record_line barrier found) }
{
    push_counted(out, "B", barrier as u64)?;
    push_counted(out, " phase ", found.phase)?;
    push_counted(out, " participants ", u64::from(found.participants))?;
    push_counted(out, " arrived ", u64::from(found.arrived))?;
    push_counted(out, " elected ", found.elected)?;
    push(out, "\n")
}

// Appends a barrier's record where it differs from its opening.
fn push_record(out: &mut Vec<u8>, phase: u64, barrier: usize, home: &Home) -> Result<(), AllocError>
    ensures { OnOk result (out.new.items ≡ out.old.items ++ record_text phase barrier (kept_of home.now)) }
{
    if is_opening(phase, home.record) {
        return Ok(());
    }
    push_record_line(out, barrier, home.record)
}

// Appends the records that differ from their opening.
fn push_records(out: &mut Vec<u8>, phase: u64, homes: &[Home]) -> Result<(), AllocError>
    ensures { OnOk result (out.new.items ≡ out.old.items ++ texts_of (record_text phase) (map kept_of homes.now) 0) }
{
    'records: for barrier in 0..homes.len() {
        push_record(out, phase, barrier, &homes[barrier])?;
    }
    Ok(())
}

/// Appends what is to be said of what is at home.
pub(crate) fn push_homes(out: &mut Vec<u8>, phase: u64, homes: &[Home]) -> Result<(), AllocError>
    requires { most_conditions ≤ length homes.now }
    ensures { OnOk result (out.new.items ≡ out.old.items ++ (texts_of list_text (map kept_of (take most_conditions homes.now)) 0 ++ texts_of (record_text phase) (map kept_of (drop most_conditions homes.now)) 0)) }
{
    let (lists, records) = homes.split_at(160);
    push_lists(out, lists)?;
    push_records(out, phase, records)
}
