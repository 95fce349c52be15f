//! The first line of a script on waits.
ghost use Rattle.std.specs.Prelude.{◌≡◌, ◌<◌, ◌≤◌, min, option_map, IfSome};
ghost use Rattle.wait_core.specs.Words.{last_phase};
ghost use Rattle.wait_script.specs.WaitScripts.{phase_in, with_bars, with_conditions, with_procs};
ghost use Rattle.wait_script.specs.WaitScripts.{wait_header as header_of};
ghost use Rattle.wait_script.specs.WaitSketch.{OpeningFits};

use crate::waits::Opening;
use decimal_word::number_of;
use script_play::{cut_word, is_word};
use wait_core::Size;

// The phase at which the barriers open.
fn phase_in(word: Option<&[u8]>) -> Option<u64>
    ensures phase { result ≡ phase_in (option_map (λ t. t.now) word.entry) }
    ensures within { IfSome result (λ n. n ≤ last_phase) }
{
    match word {
        Some(word) => number_of(word, 0, 0x4000_0000_0000_0000),
        None => Some(0),
    }
}

fn with_bars(procs: u64, cvs: u64, text: &[u8]) -> Option<Opening>
    requires procs { (0 < procs) × (procs ≤ 64) }
    requires cvs { (0 < cvs) × (cvs ≤ 160) }
    ensures opening { result ≡ with_bars procs cvs text.now }
    ensures fits { IfSome result (λ o. OpeningFits o) }
{
    let cut = cut_word(text);
    let Some(bars) = number_of(cut.word, 1, cvs.min(72)) else {
        return None;
    };
    match phase_in(cut.after) {
        Some(phase) => Some(Opening {
            size: Size {
                procs: procs as u32,
                cvs: cvs as u32,
                bars: bars as u32,
            },
            phase,
        }),
        None => None,
    }
}

fn with_conditions(procs: u64, text: &[u8]) -> Option<Opening>
    requires { (0 < procs) × (procs ≤ 64) }
    ensures opening { result ≡ with_conditions procs text.now }
    ensures fits { IfSome result (λ o. OpeningFits o) }
{
    let cut = cut_word(text);
    let Some(cvs) = number_of(cut.word, 1, 160) else {
        return None;
    };
    match cut.after {
        Some(more) => with_bars(procs, cvs, more),
        None => None,
    }
}

fn with_procs(text: &[u8]) -> Option<Opening>
    ensures opening { result ≡ with_procs text.now }
    ensures fits { IfSome result (λ o. OpeningFits o) }
{
    let cut = cut_word(text);
    let Some(procs) = number_of(cut.word, 1, 64) else {
        return None;
    };
    match cut.after {
        Some(more) => with_conditions(procs, more),
        None => None,
    }
}

/// What a script's first line opens, where it is one of the machine of waits.
pub fn wait_header(line: &[u8]) -> Option<Opening>
    ensures opening { result ≡ header_of line.now }
    ensures fits { IfSome result (λ o. OpeningFits o) }
{
    let cut = cut_word(line);
    if !is_word(cut.word, "wait") {
        return None;
    }
    match cut.after {
        Some(more) => with_procs(more),
        None => None,
    }
}
