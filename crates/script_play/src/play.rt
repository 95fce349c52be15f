//! A script played on a machine.
ghost use Rattle.std.specs.Prelude.{◌≡◌, ◌<◌, ◌+◌, ◌^◌, length, option_map, IfOk, OnOk};
ghost use Rattle.script_play.specs.Lines.{live};
ghost use Rattle.script_play.specs.Lines.{lines as lines_of};
ghost use Rattle.script_play.specs.Play.{ComesTo, acted, played, repeated, repeats, stepped, taken};
ghost use Rattle.script_play.specs.Moments.{Plays, moment_of};

use crate::lines::{Lines, cut_word};
use crate::machine::Machine;
use decimal_word::number_of;
use std::alloc::AllocError;

/// The most steps of a script.
const STEP_LIMIT: u64 = 1_000_000;

// The most steps of a line.
const LINE_LIMIT: u64 = 1000;

/// Why a script has no text.
#[derive(Debug, Clone, Copy, PartialEq, Eq)]
pub enum ScriptFault {
    /// This line, counted from 1, is the first that isn't in the grammar or isn't enabled.
    Bad { line: u64 },
    /// Memory ran out.
    NoMemory,
}

impl From<AllocError> for ScriptFault {
    ghost use Rattle.script_play.specs.declared.play.ScriptFault.TheVariants as fault;

    ghost from_gives = { λ _ given. given ≡ fault.NoMemory };

    fn from(_error: AllocError) -> ScriptFault {
        ScriptFault::NoMemory
    }
}

/// A machine in the middle of a script: how many steps were made, and what was printed.
#[derive(Drop)]
pub struct Play<M> {
    pub machine: M,
    pub made: u64,
    pub out: Vec<u8>,
}

impl<M: Machine + Drop> Play<M> {
    // Makes the next step of a backend.
    fn step(&mut self, proc: u64) -> Result<bool, AllocError>
        requires { M.holds self.old.machine self.old.made }
        ensures moved { IfOk result (λ moved. ComesTo (stepped M.begins M.steps (moment_of self.old) proc) moved (moment_of self.new)) }
        ensures holds { OnOk result (M.holds self.new.machine self.new.made) }
    {
        if self.made >= STEP_LIMIT {
            return Ok(false);
        }
        let moved = self.machine.step(self.made, proc, &mut self.out)?;
        self.made += 1;
        Ok(moved)
    }

    // Makes so many steps of a backend.
    fn repeat(&mut self, proc: u64, times: u64) -> Result<bool, AllocError>
        requires { M.holds self.old.machine self.old.made }
        ensures moved { IfOk result (λ moved. ComesTo (repeated M.begins M.steps (moment_of self.old) proc times) moved (moment_of self.new)) }
        ensures holds { OnOk result (M.holds self.new.machine self.new.made) }
    {
        'steps: for step in 0..times {
            if !self.step(proc)? {
                return Ok(false);
            }
        }
        Ok(true)
    }

    // What follows a backend's number in its line: nothing, xN, or a call.
    fn act(&mut self, proc: u64, after: Option<&[u8]>) -> Result<bool, AllocError>
        requires { M.holds self.old.machine self.old.made }
        ensures moved { IfOk result (λ moved. ComesTo (acted M.begins M.steps (moment_of self.old) proc (option_map (λ t. t.now) after.entry)) moved (moment_of self.new)) }
        ensures holds { OnOk result (M.holds self.new.machine self.new.made) }
    {
        let Some(call) = after else {
            return self.step(proc);
        };
        match repeats(call) {
            Some(times) => self.repeat(proc, times),
            None => self.machine.begin(proc, call, &mut self.out),
        }
    }

    // Does what a line says.
    fn take_line(&mut self, line: &[u8]) -> Result<bool, AllocError>
        requires { M.holds self.old.machine self.old.made }
        ensures moved { IfOk result (λ moved. ComesTo (taken M.begins M.steps (moment_of self.old) line.now) moved (moment_of self.new)) }
        ensures holds { OnOk result (M.holds self.new.machine self.new.made) }
    {
        let cut = cut_word(line);
        let Some(proc) = number_of(cut.word, 0, u64::MAX) else {
            return Ok(false);
        };
        self.act(proc, cut.after)
    }

    /// Does what the lines say, and prints what stands at the end.
    pub fn play(mut self, mut lines: Lines<'_>) -> Result<Vec<u8>, ScriptFault>
        requires holds { M.holds self.machine self.made }
        requires counted { lines.number + length lines.rest.now < 2 ^ 64 }
        ensures { Plays (λ v. v.items) M.ends (played M.begins M.steps (moment_of self) (live lines.entry.number (lines_of lines.entry.rest.now))) result }
    {
        'script: while let Some(line) = lines.next_line() {
            if !self.take_line(line.text)? {
                return Err(ScriptFault::Bad { line: line.number });
            }
        }
        self.machine.end(&mut self.out)?;
        let Play {
            machine: _,
            made: _,
            out,
        } = self;
        Ok(out)
    }
}

// How often a word of the form xN repeats a step.
fn repeats(word: &[u8]) -> Option<u64>
    ensures { result ≡ repeats word.now }
{
    if word.is_empty() || word[0] != b'x' {
        return None;
    }
    number_of(&word[1..], 1, LINE_LIMIT)
}
