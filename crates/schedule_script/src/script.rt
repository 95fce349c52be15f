//! A script replayed.
ghost use Rattle.schedule_script.specs.ScriptText.{script_answer};
ghost use Rattle.script_play.specs.Replays.{Replays};

use lock_script::{Locks, lock_header};
use script_play::{Lines, Play, ScriptFault};
use signal_script::{Signals, signal_header};
use std::alloc::Global;
use wait_script::{Waits, wait_header};

/// Plays a script: the text of its steps, its answers and what stands at the end, or its first line
/// that isn't in the grammar or isn't enabled.
pub fn replay(alloc: Global, script: &[u8]) -> Result<Vec<u8>, ScriptFault>
    ensures { Replays (λ v. v.items) (script_answer script.now) result }
{
    let mut lines = Lines {
        rest: script,
        number: 1,
    };
    let Some(header) = lines.next_line() else {
        return Err(ScriptFault::Bad { line: lines.number });
    };
    if let Some(about) = signal_header(header.text) {
        let play = Play {
            machine: Signals::new(alloc, about)?,
            made: 0,
            out: Vec::new(alloc),
        };
        return play.play(lines);
    }
    if let Some(size) = lock_header(header.text) {
        let play = Play {
            machine: Locks::new(alloc, size)?,
            made: 0,
            out: Vec::new(alloc),
        };
        return play.play(lines);
    }
    let Some(opening) = wait_header(header.text) else {
        return Err(ScriptFault::Bad {
            line: header.number,
        });
    };
    let play = Play {
        machine: Waits::new(alloc, opening)?,
        made: 0,
        out: Vec::new(alloc),
    };
    play.play(lines)
}
