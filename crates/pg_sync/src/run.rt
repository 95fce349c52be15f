//! The top call.

ghost use Rattle.std.specs.Prelude.{◌≡◌, ◌↔◌, map, length, string_bytes, ◌⊎◌, None};
ghost use Rattle.row_model.specs.declared.Side.TheVariants as side;
ghost use Rattle.csv_tables.specs.Faults.{Rose};
ghost use Rattle.pg_sync.specs.Answer.{AllIsThere, BytesShow, CountsShow, Decided, JoinShows, Leaves, NoneFailed, ScriptDecided, counts_of, due_text, text_for};
ghost use Rattle.pg_sync.specs.Line.{TakesLine, line_of};
ghost use Rattle.pg_sync.specs.Make.{made_answer, made_pairs, made_text};
ghost use Rattle.pg_sync.specs.Schedule.{ScriptShows, script_due};
ghost use Rattle.pg_sync.specs.Tallies.{CommandTells};
ghost use Rattle.pg_sync.specs.Words.{IfJoin, IfMake, IfSchedule, command_of};

use crate::join::run_join;
use crate::line::write_line;
use crate::make::{make_by, run_make};
use crate::schedule::run_schedule;
use crate::status::Status;
use crate::words::{Command, read_words};
use csv_tables::{Inputs, Sink};
use join_engine::Tally;
use proc_table::Gate;
use std::alloc::Global;
use std::marker::Sync;
use std::sync::Wait;
use std::thread::Threads;

/// Runs the command that the words name: a join writes to `out` exactly the bytes of the
/// nested-loop join by one thread and answers `Done`, or answers the first refusal that applies, and
/// `make` the size and the total of such a join of drawn keys, and `schedule` plays a script.
/// A refusal writes nothing to `out`, save that a failed write or want of memory leaves a front of
/// the text, and prints its line on `err`.
pub fn run<R: Threads + Wait + Sync, I: Inputs, S: Sink, E: Sink, G: Gate, T: Tally>(
    rt: &R,
    alloc: Global,
    words: &[String],
    inputs: &mut I,
    out: &mut S,
    err: &mut E,
    gate: &G,
    tally: &mut T,
) -> Status
    requires inner { IfJoin (command_of (map string_bytes words.now)) (λ job. I.may_open inputs.old side.Inner job.inner) }
    requires outer { IfJoin (command_of (map string_bytes words.now)) (λ job. I.may_open inputs.old side.Outer job.outer) }
    requires script { IfSchedule (command_of (map string_bytes words.now)) (λ name. I.may_open inputs.old side.Inner name) }

    // Words exactly where the words name no command.
    ensures grammar { (result ≡ Status.Words) ↔ (command_of (map string_bytes words.now) ≡ None) }

    // Done with the whole text, and each refusal with what it may leave of it.
    ensures written { Leaves (S.taken out.old) (S.taken out.new) (text_for (command_of (map string_bytes words.now)) (I.held inputs.old)) result }

    // Each answer of a join has its cause: in the bytes, and in the counts of faults.
    ensures bytes { IfJoin (command_of (map string_bytes words.now)) (λ job. BytesShow job (I.held inputs.old job.inner) (I.held inputs.old job.outer) result) }
    ensures counts { IfJoin (command_of (map string_bytes words.now)) (λ _. CountsShow (counts_of I.open_faults I.read_faults inputs.old)
        (counts_of I.open_faults I.read_faults inputs.new) (S.faults out.old) (S.faults out.new) result) }

    // Where no fault comes before it, a join answers what the bytes decide, or memory ran out.
    ensures completeness { IfJoin (command_of (map string_bytes words.now)) (λ job. Decided job (I.held inputs.old job.inner) (I.held inputs.old job.outer)
        (counts_of I.open_faults I.read_faults inputs.old) (counts_of I.open_faults I.read_faults inputs.new) (S.faults out.old) (S.faults out.new) result) }

    // Where no call of the inputs will fail, both names are there and the sink has room for the
    // text that is due, no fault rises.
    ensures faultless { IfJoin (command_of (map string_bytes words.now)) (λ job. AllIsThere (I.is_steady inputs.old) (I.held inputs.old job.inner) (I.held inputs.old job.outer)
        (S.taken out.old) (S.capacity out.old) (due_text job (I.held inputs.old job.inner) (I.held inputs.old job.outer))
        → NoneFailed (counts_of I.open_faults I.read_faults inputs.old) (counts_of I.open_faults I.read_faults inputs.new) (S.faults out.old) (S.faults out.new)) }

    // A script's answers have their causes too, and are what its bytes decide where no fault comes before.
    ensures script_bytes { IfSchedule (command_of (map string_bytes words.now)) (λ name. ScriptShows (I.held inputs.old name) result) }
    ensures script_counts { IfSchedule (command_of (map string_bytes words.now)) (λ _. CountsShow (counts_of I.open_faults I.read_faults inputs.old)
        (counts_of I.open_faults I.read_faults inputs.new) (S.faults out.old) (S.faults out.new) result) }
    ensures script_completeness { IfSchedule (command_of (map string_bytes words.now)) (λ name. ScriptDecided (I.held inputs.old name)
        (counts_of I.open_faults I.read_faults inputs.old) (counts_of I.open_faults I.read_faults inputs.new) (S.faults out.old) (S.faults out.new) result) }
    ensures script_faultless { IfSchedule (command_of (map string_bytes words.now)) (λ name. AllIsThere (I.is_steady inputs.old) (I.held inputs.old name) (I.held inputs.old name)
        (S.taken out.old) (S.capacity out.old) (script_due (I.held inputs.old name))
        → NoneFailed (counts_of I.open_faults I.read_faults inputs.old) (counts_of I.open_faults I.read_faults inputs.new) (S.faults out.old) (S.faults out.new)) }

    // `make` writes its two lines, or is refused for too many pairs, a failed write or want of memory.
    ensures make { IfMake (command_of (map string_bytes words.now)) (λ rows start.
        JoinShows (length (made_pairs rows start)) (made_text rows start) (S.taken out.old) (S.taken out.new) (S.faults out.old) (S.faults out.new) result) }

    // Where no write fails, `make` answers what its numbers decide, or memory ran out.
    ensures make_completeness { IfMake (command_of (map string_bytes words.now)) (λ rows start.
        (Rose (S.faults out.old) (S.faults out.new) → ⊥) → (result ≡ made_answer rows start) ⊎ (result ≡ Status.NoMemory)) }

    // A join is told to the tally, once, exactly where it is done; want of memory may come before or after.
    ensures tally { CommandTells (command_of (map string_bytes words.now)) (I.held inputs.old) (T.joins tally.old) (T.last tally.old) (T.joins tally.new) (T.last tally.new) result }

    // The line of the answer, or a proper front of it where a write of it failed.
    ensures err_line { TakesLine (E.taken err.old) (E.taken err.new) (E.faults err.old) (E.faults err.new) (line_of result) }
{
    match read_words(words) {
        None => write_line(Status::Words, err),
        Some(Command::Join(job)) => {
            let status = run_join(rt, alloc, &job, inputs, out, gate, tally);
            write_line(status, err)
        }
        Some(Command::Schedule(name)) => {
            let status = run_schedule(alloc, name, inputs, out);
            write_line(status, err)
        }
        Some(
            Command::Make {
                rows,
                start,
                workers: 1,
            },
        ) => {
            let status = run_make(alloc, rows, start, out);
            write_line(status, err)
        }
        Some(
            Command::Make {
                rows,
                start,
                workers,
            },
        ) => {
            let status = make_by(rt, alloc, rows, start, workers, out, gate, tally);
            write_line(status, err)
        }
    }
}
