//! Joins two CSV files by a key, and prints the rows that meet; joins two tables of drawn
//! keys, or plays a script of steps.
#![tactic(auto)]

ghost use Rattle.std.specs.Prelude.{◌≡◌, [], IfOk};
ghost use Rattle.csv_tables.specs.Streams.{gathered_of};

mod counters;
mod join;
mod line;
mod make;
mod run;
mod schedule;
mod status;
mod words;

use crate::line::write_line;
use crate::run::run;
use crate::status::Status;
use csv_tables::{FileInputs, Sink, StderrSink, StdoutSink};
use join_engine::LastJoin;
use proc_table::{NoMemory, OpenGate};
use std::env;
use std::io::{ErrorKind, Write};
use std::marker::Sync;
use std::process::ExitCode;
use std::rt::{Env, Files};
use std::sync::Wait;
use std::thread::Threads;

// The words after the program's name, or none where one of them is no UTF-8.
fn words_of<R: Env + AllocGlobal>(rt: &R) -> Result<Vec<String>, NoMemory> {
    let mut words = Vec::new(rt.alloc());
    match env::args(rt) {
        Ok(arguments) => {
            for word in arguments.skip(1) {
                words.push(word)?;
            }
            Ok(words)
        }
        Err(error) if error.kind() == ErrorKind::OutOfMemory => Err(NoMemory),
        Err(_) => Ok(words),
    }
}

// Runs the program's words on files and the standard streams. Standard output gathers what it
// takes, so its last write may fail after the join is done.
fn run_process<R: Threads + Wait + Sync + Env + Files + AllocGlobal, O: Write + Drop, E: Sink>(
    rt: &R,
    out: &mut StdoutSink<O>,
    err: &mut E,
) -> Result<Status, NoMemory>
where
    R::File: Drop,
    // Done only where all that the sink took was handed on to standard output.
    ensures handed_on { IfOk result (λ status. status ≡ Status.Done → gathered_of out.new ≡ []) }
{
    let words = words_of(rt)?;
    let mut inputs = FileInputs::new(rt);
    let status = run(
        rt,
        rt.alloc(),
        words.as_slice(),
        &mut inputs,
        out,
        err,
        &OpenGate,
        &mut LastJoin::new(),
    );
    match out.flush() {
        Err(_) if status == Status::Done => Ok(write_line(Status::WriteFault, err)),
        _ => Ok(status),
    }
}

fn main(rt: HostRuntime) -> ExitCode {
    let mut err = StderrSink::new(rt.stderr());
    let ended = match StdoutSink::new(rt.alloc(), rt.stdout()) {
        Ok(mut out) => run_process(&rt, &mut out, &mut err),
        Err(NoMemory) => Err(NoMemory),
    };
    let status = match ended {
        Ok(status) => status,
        Err(NoMemory) => write_line(Status::NoMemory, &mut err),
    };
    ExitCode::from(status.number())
}

#[cfg(test)]
mod tests;
