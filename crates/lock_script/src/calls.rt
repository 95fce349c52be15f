//! The calls of a script on locks, by their words.
ghost use Rattle.std.specs.Prelude.{◌≡◌, ◌<◌, ◌-◌, Some, IfSome};
ghost use Rattle.decimal_word.specs.Numbers.{number_of};
ghost use Rattle.lock_script.specs.Locks.{ask_of, call_may, is_exclusive, long_ask, may_begin, mode_ask, mode_of, named_ask, pair_ask, plain_ask, read_ask, short_ask, value_ask, write_ask};
ghost use Rattle.lock_script.specs.LockSketch.{AsksFit, SizeFits};

use crate::locks::Ask;
use decimal_word::number_of;
use lw_core::{Call, Size};
use proc_table::{LockNo, Mode, ProcNo};
use script_play::{cut_word, is_word};

// The most pokes of a backend.
const POKES: u64 = 1_048_576;

fn lock_of(size: Size, word: &[u8]) -> Option<LockNo>
    requires { SizeFits size }
    ensures lock { result ≡ number_of 0 (size.locks - 1) word.now }
    ensures within { IfSome result (λ l. l < size.locks) }
{
    match number_of(word, 0, u64::from(size.locks - 1)) {
        Some(lock) => LockNo::new(lock as u32),
        None => None,
    }
}

fn proc_of(size: Size, word: &[u8]) -> Option<ProcNo>
    requires { SizeFits size }
    ensures proc { result ≡ number_of 0 (size.procs - 1) word.now }
    ensures within { IfSome result (λ q. q < size.procs) }
{
    match number_of(word, 0, u64::from(size.procs - 1)) {
        Some(proc) => ProcNo::new(proc as u32),
        None => None,
    }
}

fn mode_of(word: &[u8]) -> Option<Mode>
    ensures { result ≡ mode_of word.now }
{
    if is_word(word, "S") {
        Some(Mode::Shared)
    } else if is_word(word, "X") {
        Some(Mode::Exclusive)
    } else {
        None
    }
}

fn short_ask(size: Size, name: &[u8], argument: &[u8]) -> Option<Ask>
    requires { SizeFits size }
    ensures ask { result ≡ short_ask size name.now argument.now }
    ensures fits { AsksFit size result }
{
    if is_word(name, "release") {
        return match lock_of(size, argument) {
            Some(lock) => Some(Ask::Begin(Call::Release(lock))),
            None => None,
        };
    }
    if is_word(name, "poke") {
        return match proc_of(size, argument) {
            Some(proc) => Some(Ask::Begin(Call::Poke(proc))),
            None => None,
        };
    }
    None
}

fn mode_ask(size: Size, name: &[u8], lock: LockNo, mode: Mode) -> Option<Ask>
    requires { lock < size.locks }
    ensures ask { result ≡ mode_ask name.now lock mode }
    ensures fits { AsksFit size result }
{
    if is_word(name, "acquire") {
        Some(Ask::Begin(Call::Acquire(lock, mode)))
    } else if is_word(name, "try") {
        Some(Ask::Begin(Call::Try(lock, mode)))
    } else if is_word(name, "orwait") {
        Some(Ask::Begin(Call::AcquireOrWait(lock, mode)))
    } else {
        None
    }
}

fn read_ask(size: Size, lock: LockNo, at: u64) -> Option<Ask>
    requires { lock < size.locks }
    ensures ask { result ≡ read_ask lock at }
    ensures fits { AsksFit size result }
{
    if at < 4 {
        Some(Ask::Read(lock, at as u32))
    } else {
        None
    }
}

fn value_ask(size: Size, name: &[u8], lock: LockNo, value: u64) -> Option<Ask>
    requires { lock < size.locks }
    ensures ask { result ≡ value_ask name.now lock value }
    ensures fits { AsksFit size result }
{
    if is_word(name, "varwait") {
        Some(Ask::Begin(Call::WaitForVar(lock, value)))
    } else if is_word(name, "var") {
        Some(Ask::Begin(Call::UpdateVar(lock, value)))
    } else if is_word(name, "relvar") {
        Some(Ask::Begin(Call::ReleaseClearVar(lock, value)))
    } else if is_word(name, "read") {
        read_ask(size, lock, value)
    } else {
        None
    }
}

fn pair_ask(size: Size, name: &[u8], lock: LockNo, argument: &[u8]) -> Option<Ask>
    requires { lock < size.locks }
    ensures ask { result ≡ pair_ask name.now lock argument.now }
    ensures fits { AsksFit size result }
{
    if let Some(mode) = mode_of(argument) {
        return mode_ask(size, name, lock, mode);
    }
    match number_of(argument, 0, u64::MAX) {
        Some(value) => value_ask(size, name, lock, value),
        None => None,
    }
}

fn write_ask(size: Size, name: &[u8], lock: LockNo, at: &[u8], value: &[u8]) -> Option<Ask>
    requires { lock < size.locks }
    ensures ask { result ≡ write_ask name.now lock at.now value.now }
    ensures fits { AsksFit size result }
{
    if !is_word(name, "write") {
        return None;
    }
    let Some(at) = number_of(at, 0, 3) else {
        return None;
    };
    match number_of(value, 0, u64::MAX) {
        Some(value) => Some(Ask::Write(lock, at as u32, value)),
        None => None,
    }
}

fn long_ask(size: Size, name: &[u8], argument: &[u8], more: &[u8]) -> Option<Ask>
    requires { SizeFits size }
    ensures ask { result ≡ long_ask size name.now argument.now more.now }
    ensures fits { AsksFit size result }
{
    let Some(lock) = lock_of(size, argument) else {
        return None;
    };
    let cut = cut_word(more);
    match cut.after {
        None => pair_ask(size, name, lock, cut.word),
        Some(value) => write_ask(size, name, lock, cut.word, value),
    }
}

fn plain_ask(size: Size, name: &[u8]) -> Option<Ask>
    requires { SizeFits size }
    ensures ask { result ≡ plain_ask name.now }
    ensures fits { AsksFit size result }
{
    if is_word(name, "down") {
        Some(Ask::Begin(Call::Down))
    } else {
        None
    }
}

fn argued_ask(size: Size, name: &[u8], arguments: &[u8]) -> Option<Ask>
    requires { SizeFits size }
    ensures ask { result ≡ named_ask size name.now (Some arguments.now) }
    ensures fits { AsksFit size result }
{
    let cut = cut_word(arguments);
    match cut.after {
        None => short_ask(size, name, cut.word),
        Some(more) => long_ask(size, name, cut.word, more),
    }
}

/// The call that a text names.
pub(crate) fn ask_of(size: Size, call: &[u8]) -> Option<Ask>
    requires { SizeFits size }
    ensures ask { result ≡ ask_of size call.now }
    ensures fits { AsksFit size result }
{
    let cut = cut_word(call);
    match cut.after {
        None => plain_ask(size, cut.word),
        Some(arguments) => argued_ask(size, cut.word, arguments),
    }
}

fn call_may(call: &Call, mode: Option<Mode>, pokes: u64) -> bool
    ensures { result ≡ call_may call.now mode pokes }
{
    match *call {
        Call::Try(..) | Call::Acquire(..) | Call::AcquireOrWait(..) | Call::WaitForVar(..) => {
            mode.is_none()
        }
        Call::Release(_) => mode.is_some(),
        Call::UpdateVar(..) | Call::ReleaseClearVar(..) => is_exclusive(mode),
        Call::Down => true,
        Call::Poke(_) => pokes < POKES,
    }
}

fn is_exclusive(mode: Option<Mode>) -> bool
    ensures { result ≡ is_exclusive mode }
{
    matches!(mode, Some(Mode::Exclusive))
}

/// Whether a backend that holds the call's lock in this mode, and made so many pokes, may begin it.
pub(crate) fn may_begin(ask: &Ask, mode: Option<Mode>, pokes: u64) -> bool
    ensures { result ≡ may_begin ask.now mode pokes }
{
    match ask {
        Ask::Begin(call) => call_may(call, mode, pokes),
        Ask::Read(..) => mode.is_some(),
        Ask::Write(..) => is_exclusive(mode),
    }
}
