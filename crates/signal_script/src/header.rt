//! The first line of a script on signals.
ghost use Rattle.std.specs.Prelude.{◌≡◌, ◌≤◌, ◌<◌, option_map, IfSome};
ghost use Rattle.signal_core.specs.Words.{worn};
ghost use Rattle.signal_script.specs.SignalScripts.{about_of};
ghost use Rattle.signal_script.specs.SignalScripts.{signal_header as header_of};

use decimal_word::number_of;
use script_play::{cut_word, is_word};
use signal_core::About;

// What the words after `signal` open.
fn about_of(procs: &[u8], generation: Option<&[u8]>) -> Option<About>
    ensures about { result ≡ about_of procs.now (option_map (λ t. t.now) generation.entry) }
    ensures procs { IfSome result (λ z. (0 < z.procs) × (z.procs ≤ 64)) }
    ensures generation { IfSome result (λ z. z.generation ≤ worn) }
{
    let Some(procs) = number_of(procs, 1, 64) else {
        return None;
    };
    let Some(word) = generation else {
        return Some(About {
            procs: procs as u32,
            generation: 0,
        });
    };
    match number_of(word, 0, 0x4000_0000_0000_0000) {
        Some(generation) => Some(About {
            procs: procs as u32,
            generation,
        }),
        None => None,
    }
}

/// What a script's first line opens, where it is one of the machine of signals.
pub fn signal_header(line: &[u8]) -> Option<About>
    ensures about { result ≡ header_of line.now }
    ensures procs { IfSome result (λ z. (0 < z.procs) × (z.procs ≤ 64)) }
    ensures generation { IfSome result (λ z. z.generation ≤ worn) }
{
    let cut = cut_word(line);
    if !is_word(cut.word, "signal") {
        return None;
    }
    match cut.after {
        Some(more) => {
            let arguments = cut_word(more);
            about_of(arguments.word, arguments.after)
        }
        None => None,
    }
}
