//! What a replay prints of a step on locks and of an answer.
ghost use Rattle.std.specs.Prelude.{◌≡◌, ◌<◌, ◌++◌, ℕ, drop, map, OnOk};
ghost use Rattle.lw_core.specs.Machine.{becomes, word_of};
ghost use Rattle.script_play.specs.Texts.{texts_of};
ghost use Rattle.lock_script.specs.Locks.{answer, answer_line, byte_text, call_answer, changed_word, digit, ended, exchange_name, got_text, heard_text, kind_name, list_text, lock_field, lock_text, opened, pair_text, proc_text, state_text, step_line, waiter_text, want_name, word_text};
ghost use Rattle.lock_script.specs.LockSketch.{SizeFits};

use crate::locks::{Ask, Heard};
use crate::words::RELEASE_OK;
use lw_core::{Call, GuardOp, LwStep, Size, Waiter, Want};
use proc_table::{Mode, ProcNo};
use script_play::{push, push_number};
use std::alloc::AllocError;

fn digit(number: u64) -> u8
    ensures { result ≡ digit number }
{
    let low = (number % 16) as u8;
    if low < 10 {
        b'0' + low
    } else {
        b'a' - 10 + low
    }
}

fn push_byte(out: &mut Vec<u8>, byte: u64) -> Result<(), AllocError>
    ensures { OnOk result (out.new.items ≡ out.old.items ++ byte_text byte) }
{
    out.extend_from_slice(&[digit(byte / 16), digit(byte)])
}

fn push_pair(out: &mut Vec<u8>, pair: u64) -> Result<(), AllocError>
    ensures { OnOk result (out.new.items ≡ out.old.items ++ pair_text pair) }
{
    push_byte(out, pair / 256)?;
    push_byte(out, pair)
}

// Appends a state word, in eight hexadecimal digits.
fn push_state(out: &mut Vec<u8>, word: u64) -> Result<(), AllocError>
    ensures { OnOk result (out.new.items ≡ out.old.items ++ state_text word) }
{
    push_pair(out, word / 65536)?;
    push_pair(out, word)
}

fn exchange_name(hit: bool, name: &'static str) -> &'static str
    ensures { result.now ≡ exchange_name hit name.now }
{
    if hit { name } else { "retry" }
}

fn kind_name(step: &LwStep, found: u64) -> &'static str
    ensures { result.now ≡ kind_name step.now found }
{
    match *step {
        LwStep::Load(..) => "load",
        LwStep::Grant(_, _, from) => exchange_name(found == from, "grant"),
        LwStep::Refuse(_, _, from) => exchange_name(found == from, "refuse"),
        LwStep::Sub(..) => "sub",
        LwStep::Peek(..) => "peek",
        LwStep::Guard(_, _, GuardOp::Load) | LwStep::VarLoad(_) => "gload",
        LwStep::Guard(_, _, GuardOp::Store(_)) | LwStep::VarStore(..) => "gstore",
        LwStep::Lock(..) => "lock",
        LwStep::Unlock(..) => "unlock",
        LwStep::Flag(_) => "flag",
        LwStep::WaitStore(..) => "wstore",
        LwStep::WaitLoad => "wload",
        LwStep::Wake(_, from, _) => exchange_name(found == from, "wake"),
        LwStep::Post(..) => "post",
        LwStep::Look(_) => "look",
        LwStep::Down => "down",
        LwStep::SetReleaseOk(_) => "ok",
    }
}

// The name of a word of a lock, by its place among the six.
fn lock_field(field: usize) -> &'static str
    ensures { result.now ≡ lock_field field }
{
    match field {
        0 => "",
        1 => ".var",
        2 => ".g0",
        3 => ".g1",
        4 => ".g2",
        _ => ".g3",
    }
}

// Appends the name of a word and its value.
fn push_word(out: &mut Vec<u8>, size: Size, word: usize, value: u64) -> Result<(), AllocError>
    requires size { SizeFits size }
    requires word { 0 < word }
    ensures { OnOk result (out.new.items ≡ out.old.items ++ word_text size word value) }
{
    let first = 1 + 6 * size.locks as usize;
    if word < first {
        return push_lock_word(out, word - 1, value);
    }
    push_proc_word(out, word - first, value)
}

fn push_lock_word(out: &mut Vec<u8>, at: usize, value: u64) -> Result<(), AllocError>
    ensures { OnOk result (out.new.items ≡ out.old.items ++ lock_text at value) }
{
    push(out, "L")?;
    push_number(out, (at / 6) as u64)?;
    push(out, lock_field(at % 6))?;
    push(out, " ")?;
    if at % 6 == 0 {
        push_state(out, value)
    } else {
        push_number(out, value)
    }
}

fn push_proc_word(out: &mut Vec<u8>, at: usize, value: u64) -> Result<(), AllocError>
    ensures { OnOk result (out.new.items ≡ out.old.items ++ proc_text at value) }
{
    push(out, "P")?;
    push_number(out, (at / 2) as u64)?;
    push(out, if at % 2 == 0 { ".waiting " } else { ".sem " })?;
    push_number(out, value)
}

fn push_step(
    out: &mut Vec<u8>,
    size: Size,
    own: u32,
    step: &LwStep,
    word: usize,
    found: u64,
    left: u64,
) -> Result<(), AllocError>
    requires size { SizeFits size }
    requires word { 0 < word }
    ensures { OnOk result (out.new.items ≡ out.old.items ++ step_line size own step.now found word left) }
{
    push_number(out, u64::from(own))?;
    push(out, " ")?;
    push(out, kind_name(step, found))?;
    push(out, " ")?;
    push_word(out, size, word, left)?;
    push(out, "\n")
}

fn push_heard(out: &mut Vec<u8>, heard: Heard) -> Result<(), AllocError>
    ensures { OnOk result (out.new.items ≡ out.old.items ++ heard_text heard) }
{
    match heard {
        Heard::Nothing => Ok(()),
        Heard::Refused(word) => push_state(out, word),
        Heard::Free(word) => {
            push(out, "free ")?;
            push_state(out, word)
        }
        Heard::Changed(value) => {
            push(out, "changed ")?;
            push_number(out, value)
        }
    }
}

// Whether the lock was got, or else by which word it was refused.
fn push_got(
    out: &mut Vec<u8>,
    mode: Option<Mode>,
    name: &str,
    heard: Heard,
) -> Result<(), AllocError>
    ensures { OnOk result (out.new.items ≡ out.old.items ++ got_text mode name.now heard) }
{
    match mode {
        Some(_) => push(out, "got"),
        None => {
            push(out, name)?;
            push_heard(out, heard)
        }
    }
}

/// What an answer is made of: what the last step found, and then the mode in which the lock of the
/// call is held, whether the call slept, and what it heard last.
#[derive(Clone, Copy)]
pub(crate) struct Ending {
    pub(crate) found: u64,
    pub(crate) mode: Option<Mode>,
    pub(crate) waited: bool,
    pub(crate) heard: Heard,
}

fn push_call_answer(out: &mut Vec<u8>, call: &Call, ending: Ending) -> Result<(), AllocError>
    ensures { OnOk result (out.new.items ≡ out.old.items ++ call_answer call.now ending.mode ending.waited ending.heard) }
{
    match *call {
        Call::Acquire(..) => push(out, if ending.waited { "got waited" } else { "got" }),
        Call::Try(..) => push_got(out, ending.mode, "held ", ending.heard),
        Call::AcquireOrWait(..) => push_got(out, ending.mode, "freed ", ending.heard),
        Call::WaitForVar(..) => push_heard(out, ending.heard),
        Call::Release(_)
        | Call::UpdateVar(..)
        | Call::ReleaseClearVar(..)
        | Call::Down
        | Call::Poke(_) => push(out, "done"),
    }
}

fn push_answer(out: &mut Vec<u8>, ask: &Ask, ending: Ending) -> Result<(), AllocError>
    ensures { OnOk result (out.new.items ≡ out.old.items ++ answer ask.now ending.found ending.mode ending.waited ending.heard) }
{
    match ask {
        Ask::Begin(call) => push_call_answer(out, call, ending),
        Ask::Read(..) => {
            push(out, "value ")?;
            push_number(out, ending.found)
        }
        Ask::Write(..) => push(out, "done"),
    }
}

// Appends the line of an answer.
fn push_ending(out: &mut Vec<u8>, own: u32, ask: &Ask, ending: Ending) -> Result<(), AllocError>
    ensures { OnOk result (out.new.items ≡ out.old.items ++ answer_line own (answer ask.now ending.found ending.mode ending.waited ending.heard)) }
{
    push_number(out, u64::from(own))?;
    push(out, " = ")?;
    push_answer(out, ask, ending)?;
    push(out, "\n")
}

/// Appends what is printed of a step of a backend: its line, and its call's answer where it ends.
pub(crate) fn push_turn(
    out: &mut Vec<u8>,
    size: Size,
    own: ProcNo,
    ask: &Ask,
    step: &LwStep,
    word: usize,
    left: u64,
    ending: Ending,
    still: &Option<Ask>,
) -> Result<(), AllocError>
    requires size { SizeFits size }
    requires some { 0 < word }
    requires word { word ≡ word_of size own step.now }
    requires left { left ≡ becomes step.now ending.found }
    ensures { OnOk result (out.new.items ≡ out.old.items ++ (step_line size own step.now ending.found (word_of size own step.now) (becomes step.now ending.found) ++ ended still.now (answer_line own (answer ask.now ending.found ending.mode ending.waited ending.heard)))) }
{
    push_step(out, size, own.number(), step, word, ending.found, left)?;
    match still {
        Some(_) => Ok(()),
        None => push_ending(out, own.number(), ask, ending),
    }
}

/// The word at the opening.
pub(crate) fn opened(size: Size, word: usize) -> u64
    requires { SizeFits size }
    ensures { result ≡ opened size word }
{
    if word % 6 == 1 && word < 1 + 6 * size.locks as usize {
        RELEASE_OK
    } else {
        0
    }
}

/// Appends the words from the second on that differ from their opening.
pub(crate) fn push_changed(out: &mut Vec<u8>, size: Size, words: &[u64]) -> Result<(), AllocError>
    requires { SizeFits size }
    ensures { OnOk result (out.new.items ≡ out.old.items ++ texts_of (changed_word size) (drop 1 words.now) 1) }
{
    'words: for word in 1..words.len() {
        push_changed_word(out, size, word, words[word])?;
    }
    Ok(())
}

// Appends a word where it differs from its opening.
fn push_changed_word(
    out: &mut Vec<u8>,
    size: Size,
    word: usize,
    value: u64,
) -> Result<(), AllocError>
    requires size { SizeFits size }
    requires word { 0 < word }
    ensures { OnOk result (out.new.items ≡ out.old.items ++ changed_word size word value) }
{
    if value == opened(size, word) {
        return Ok(());
    }
    push_word(out, size, word, value)?;
    push(out, "\n")
}

fn want_name(want: Want) -> &'static str
    ensures { result.now ≡ want_name want }
{
    match want {
        Want::Shared => "S",
        Want::Exclusive => "X",
        Want::UntilFree => "U",
    }
}

// Appends the waiters of a list, each after a space.
fn push_waiters(out: &mut Vec<u8>, list: &[Waiter]) -> Result<(), AllocError>
    ensures { OnOk result (out.new.items ≡ out.old.items ++ texts_of waiter_text list.now 0) }
{
    'waiters: for at in 0..list.len() {
        push_waiter(out, list[at])?;
    }
    Ok(())
}

fn push_waiter(out: &mut Vec<u8>, waiter: Waiter) -> Result<(), AllocError>
    ensures { OnOk result ((i : ℕ) → out.new.items ≡ out.old.items ++ waiter_text i waiter) }
{
    push(out, " ")?;
    push_number(out, u64::from(waiter.proc))?;
    push(out, want_name(waiter.want))
}

// Appends a list at home, unless it is empty.
fn push_list(out: &mut Vec<u8>, lock: usize, list: &[Waiter]) -> Result<(), AllocError>
    ensures { OnOk result (out.new.items ≡ out.old.items ++ list_text lock list.now) }
{
    if list.is_empty() {
        return Ok(());
    }
    push(out, "list L")?;
    push_number(out, lock as u64)?;
    push_waiters(out, list)?;
    push(out, "\n")
}

/// Appends the lists at home that aren't empty.
pub(crate) fn push_lists(out: &mut Vec<u8>, homes: &[Vec<Waiter>]) -> Result<(), AllocError>
    ensures { OnOk result (out.new.items ≡ out.old.items ++ texts_of list_text (map (λ v. v.items) homes.now) 0) }
{
    'lists: for lock in 0..homes.len() {
        push_list(out, lock, homes[lock].as_slice())?;
    }
    Ok(())
}
