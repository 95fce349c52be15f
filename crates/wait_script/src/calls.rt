//! The calls of a script on waits, by their words.
ghost use Rattle.std.specs.Prelude.{◌≡◌, ◌<◌, ◌-◌, IfSome, option_and_then};
ghost use Rattle.decimal_word.specs.Numbers.{number_of};
ghost use Rattle.wait_core.specs.Parties.{phase_of};
ghost use Rattle.wait_script.specs.Waits.{ask_of, backend_ask, barrier_ask, condition_ask, has_step, may_begin, numbered_ask, plain_ask};
ghost use Rattle.wait_script.specs.WaitSketch.{AsksFit, SizeFits};

use crate::lists::is_attached;
use decimal_word::number_of;
use proc_table::{BarNo, CvNo, ProcNo};
use script_play::{cut_word, is_word};
use wait_core::{Call, Size, Until};

fn proc_of(size: Size, word: &[u8]) -> Option<ProcNo>
    requires { SizeFits size }
    ensures proc { result ≡ number_of 0 (size.procs - 1) word.now }
    ensures within { IfSome result (λ q. q < size.procs) }
{
    match number_of(word, 0, u64::from(size.procs - 1)) {
        Some(proc) => ProcNo::new(proc as u32),
        None => None,
    }
}

fn condition_of(size: Size, word: &[u8]) -> Option<CvNo>
    requires { SizeFits size }
    ensures { result ≡ number_of 0 (size.cvs - 1) word.now }
{
    match number_of(word, 0, u64::from(size.cvs - 1)) {
        Some(condition) => CvNo::new(condition as u32),
        None => None,
    }
}

fn barrier_of(size: Size, word: &[u8]) -> Option<BarNo>
    requires { SizeFits size }
    ensures barrier { result ≡ number_of 0 (size.bars - 1) word.now }
    ensures within { IfSome result (λ b. b < size.bars) }
{
    match number_of(word, 0, u64::from(size.bars - 1)) {
        Some(barrier) => BarNo::new(barrier as u32),
        None => None,
    }
}

fn plain_ask(size: Size, name: &[u8]) -> Option<Call>
    ensures ask { result ≡ plain_ask name.now }
    ensures fits { AsksFit size result }
{
    if is_word(name, "reset") {
        Some(Call::Reset)
    } else if is_word(name, "isset") {
        Some(Call::IsSet)
    } else if is_word(name, "waitlatch") {
        Some(Call::Wait(Until::LatchOrShutdown))
    } else if is_word(name, "waitonly") {
        Some(Call::Wait(Until::Latch))
    } else if is_word(name, "shut") {
        Some(Call::Shut)
    } else if is_word(name, "cancel") {
        Some(Call::Cancel)
    } else {
        None
    }
}

fn backend_ask(size: Size, name: &[u8], proc: ProcNo) -> Option<Call>
    requires { proc < size.procs }
    ensures ask { result ≡ backend_ask name.now proc }
    ensures fits { AsksFit size result }
{
    if is_word(name, "set") {
        Some(Call::Set(proc))
    } else {
        None
    }
}

fn condition_ask(size: Size, name: &[u8], condition: CvNo) -> Option<Call>
    ensures ask { result ≡ condition_ask name.now condition }
    ensures fits { AsksFit size result }
{
    if is_word(name, "prepare") {
        Some(Call::Prepare(condition))
    } else if is_word(name, "sleep") {
        Some(Call::Sleep(condition))
    } else if is_word(name, "signal") {
        Some(Call::Signal(condition))
    } else if is_word(name, "broadcast") {
        Some(Call::Broadcast(condition))
    } else {
        None
    }
}

fn barrier_ask(size: Size, name: &[u8], barrier: BarNo) -> Option<Call>
    requires { barrier < size.bars }
    ensures ask { result ≡ barrier_ask name.now barrier }
    ensures fits { AsksFit size result }
{
    if is_word(name, "attach") {
        Some(Call::Attach(barrier))
    } else if is_word(name, "arrive") {
        Some(Call::Arrive(barrier))
    } else if is_word(name, "detach") {
        Some(Call::Detach(barrier))
    } else if is_word(name, "arrdetach") {
        Some(Call::ArriveDetach(barrier))
    } else if is_word(name, "exceptlast") {
        Some(Call::ExceptLast(barrier))
    } else {
        None
    }
}

fn asks_backend(size: Size, name: &[u8], argument: &[u8]) -> Option<Call>
    requires { SizeFits size }
    ensures ask { result ≡ option_and_then (backend_ask name.now) (number_of 0 (size.procs - 1) argument.now) }
    ensures fits { AsksFit size result }
{
    match proc_of(size, argument) {
        Some(proc) => backend_ask(size, name, proc),
        None => None,
    }
}

fn asks_condition(size: Size, name: &[u8], argument: &[u8]) -> Option<Call>
    requires { SizeFits size }
    ensures ask { result ≡ option_and_then (condition_ask name.now) (number_of 0 (size.cvs - 1) argument.now) }
    ensures fits { AsksFit size result }
{
    match condition_of(size, argument) {
        Some(condition) => condition_ask(size, name, condition),
        None => None,
    }
}

fn asks_barrier(size: Size, name: &[u8], argument: &[u8]) -> Option<Call>
    requires { SizeFits size }
    ensures ask { result ≡ option_and_then (barrier_ask name.now) (number_of 0 (size.bars - 1) argument.now) }
    ensures fits { AsksFit size result }
{
    match barrier_of(size, argument) {
        Some(barrier) => barrier_ask(size, name, barrier),
        None => None,
    }
}

fn numbered_ask(size: Size, name: &[u8], argument: &[u8]) -> Option<Call>
    requires { SizeFits size }
    ensures ask { result ≡ numbered_ask size name.now argument.now }
    ensures fits { AsksFit size result }
{
    if let Some(call) = asks_backend(size, name, argument) {
        return Some(call);
    }
    if let Some(call) = asks_condition(size, name, argument) {
        return Some(call);
    }
    asks_barrier(size, name, argument)
}

/// The call that a text names.
pub(crate) fn ask_of(size: Size, text: &[u8]) -> Option<Call>
    requires { SizeFits size }
    ensures ask { result ≡ ask_of size text.now }
    ensures fits { AsksFit size result }
{
    let cut = cut_word(text);
    match cut.after {
        None => plain_ask(size, cut.word),
        Some(argument) => numbered_ask(size, cut.word, argument),
    }
}

/// Whether a backend with these attachments may begin a call.
pub(crate) fn may_begin(call: &Call, attached: &[(u32, u64)]) -> bool
    ensures { result ≡ may_begin call.now attached.now }
{
    match *call {
        Call::Attach(barrier) => !is_attached(attached, barrier.number()),
        Call::Arrive(barrier)
        | Call::Detach(barrier)
        | Call::ArriveDetach(barrier)
        | Call::ExceptLast(barrier) => is_attached(attached, barrier.number()),
        _ => true,
    }
}

/// Whether a call has a step, in a backend with this target.
pub(crate) fn has_step(call: &Call, target: Option<CvNo>) -> bool
    ensures { result ≡ has_step call.now target }
{
    match *call {
        Call::Cancel => target.is_some(),
        _ => true,
    }
}
