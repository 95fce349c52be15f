//! The calls of a script on signals, by their words.
ghost use Rattle.std.specs.Prelude.{◌≡◌};
ghost use Rattle.signal_script.specs.Signals.{ask_of, may_begin, numbered_ask, plain_ask};
ghost use Rattle.signal_script.specs.SignalSketch.{AskFits};

use crate::signals::Ask;
use decimal_word::number_of;
use script_play::{cut_word, is_word};
use signal_core::Slot;

fn plain_ask(word: &[u8]) -> Option<Ask>
    ensures ask { result ≡ plain_ask word.now }
    ensures fits { AskFits result }
{
    if is_word(word, "join") {
        Some(Ask::Join)
    } else if is_word(word, "leave") {
        Some(Ask::Leave)
    } else if is_word(word, "absorb") {
        Some(Ask::Absorb(0))
    } else {
        None
    }
}

fn numbered_ask(word: &[u8], argument: &[u8]) -> Option<Ask>
    ensures ask { result ≡ numbered_ask word.now argument.now }
    ensures fits { AskFits result }
{
    if is_word(word, "emit") {
        return match number_of(argument, 0, 31) {
            Some(kind) => Some(Ask::Emit(kind as u32)),
            None => None,
        };
    }
    if is_word(word, "absorb") {
        return match number_of(argument, 0, u64::MAX) {
            Some(failing) => Some(Ask::Absorb(failing)),
            None => None,
        };
    }
    None
}

/// The call that a text names.
pub(crate) fn ask_of(call: &[u8]) -> Option<Ask>
    ensures ask { result ≡ ask_of call.now }
    ensures fits { AskFits result }
{
    let cut = cut_word(call);
    match cut.after {
        None => plain_ask(cut.word),
        Some(argument) => numbered_ask(cut.word, argument),
    }
}

/// Whether a backend with this slot may begin a call.
pub(crate) fn may_begin(ask: Ask, slot: Option<Slot>) -> bool
    ensures { result ≡ may_begin ask slot }
{
    match ask {
        Ask::Join => slot.is_none(),
        Ask::Leave | Ask::Absorb(_) => slot.is_some(),
        Ask::Emit(_) => true,
    }
}
