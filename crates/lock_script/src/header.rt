//! The first line of a script on locks.
ghost use Rattle.std.specs.Prelude.{◌≡◌, IfSome};
ghost use Rattle.lock_script.specs.LockScripts.{size_of};
ghost use Rattle.lock_script.specs.LockScripts.{lock_header as header_of};
ghost use Rattle.lock_script.specs.LockSketch.{SizeFits};

use decimal_word::number_of;
use lw_core::Size;
use script_play::{cut_word, is_word};

// What the words after `lock` open.
fn size_of(procs: &[u8], locks: &[u8]) -> Option<Size>
    ensures size { result ≡ size_of procs.now locks.now }
    ensures fits { IfSome result (λ z. SizeFits z) }
{
    let Some(procs) = number_of(procs, 1, 64) else {
        return None;
    };
    match number_of(locks, 1, 200) {
        Some(locks) => Some(Size {
            locks: locks as u32,
            procs: procs as u32,
        }),
        None => None,
    }
}

/// What a script's first line opens, where it is one of the machine of locks.
pub fn lock_header(line: &[u8]) -> Option<Size>
    ensures size { result ≡ header_of line.now }
    ensures fits { IfSome result (λ z. SizeFits z) }
{
    let cut = cut_word(line);
    if !is_word(cut.word, "lock") {
        return None;
    }
    let Some(more) = cut.after else {
        return None;
    };
    let arguments = cut_word(more);
    match arguments.after {
        Some(locks) => size_of(arguments.word, locks),
        None => None,
    }
}
