//! Builds and probes the hash table of a join of 262,144 inner and 262,144 outer rows, whose keys are
//! unique, so that what this costs can be measured. Its first argument says how far it goes, `build` or `probe`, and
//! its second how many workers do so, 1 or 4; `batches` makes eight batches of the rows. By no first argument it
//! only opens the tables.
#![tactic(auto)]

ghost use Rattle.std.specs.Prelude.{◌≡◌, ◌<◌, ◌≤◌, [], None};
ghost use Rattle.std.specs.Int.{IsPowerOfTwo};
ghost use Rattle.join_party.specs.Workers.{IsAt, IsNumbered};
ghost use Rattle.hash_build.specs.Builds.{Begins};

use hash_build::{Built, build};
use hash_probe::probe;
use itoa::Buffer;
use join_party::{JoinSeats, JoinTables, open_tables};
use proc_signal::join_slot;
use proc_table::{NoMemory, OpenGate, Steps};
use row_model::{Plan, RecordFault, Rows, RowsBuilder};
use std::alloc::Global;
use std::marker::{Brand, Sync};
use std::process::ExitCode;
use std::rt::Env;
use std::sync::Wait;
use std::sync::ledger::{Blank, Ledger};
use std::thread::{Threads, map_vec};
use std::{env, mem};

const ROWS: u32 = 262_144;

// How far a run goes.
#[derive(Clone, Copy, PartialEq, Eq)]
enum Stage {
    Open,
    Build,
    Probe,
}

// What the arguments say.
#[derive(Clone, Copy)]
struct Run {
    stage: Stage,
    workers: u32,
    batches: bool,
}

// A worker that hasn't begun yet.
#[derive(Drop)]
struct Worker<'t, 'r> {
    tables: &'t JoinTables<'r>,
    seats: JoinSeats<'r>,
    number: u32,
    ghost seated: { IsAt tables.now seats },
    ghost begins: { Begins seats },
    ghost signal: { (seats.signal.view.place ≡ None) × (seats.signal.view.slot ≡ None) },
}

// Rows with the keys from 0 on, in one column.
fn numbered_rows(alloc: Global) -> Result<Rows, RecordFault> {
    let mut builder = RowsBuilder::new(alloc, b"key")?;
    builder.push_field(b"key")?;
    builder.end_record()?;
    for key in 0..ROWS {
        let mut text = Buffer::new();
        builder.push_field(text.format(key).as_bytes())?;
        builder.end_record()?;
    }
    builder.finish()
}

// What the words after the program's name say.
fn read_run<R: Env + AllocGlobal>(rt: &R) -> Run {
    let mut run = Run {
        stage: Stage::Open,
        workers: 1,
        batches: false,
    };
    let Ok(words) = env::args(rt) else {
        return run;
    };
    for word in words.skip(1) {
        match word.as_str() {
            "build" => run.stage = Stage::Build,
            "probe" => run.stage = Stage::Probe,
            "4" => run.workers = 4,
            "batches" => run.batches = true,
            _ => {}
        }
    }
    run
}

// One worker takes part. How many pairs it finds.
fn take_part<'r, R: Wait, L: Ledger>(
    rt: &R,
    blank: Blank,
    alloc: Global,
    tables: &JoinTables<'r>,
    seats: &mut JoinSeats<'r>,
    worker: u32,
    stage: Stage,
) -> usize
    requires name { blank.name ≡ L.name }
    requires parts { blank.parts ≡ L.parts }
    requires blanks { 0 < blank.parts }
    requires table { IsAt tables.now seats.old }
    requires begins { Begins seats.old }
    requires signal { (seats.old.signal.view.place ≡ None) × (seats.old.signal.view.slot ≡ None) }
{
    let mut steps = Steps::<L>::new(blank);
    let mut pairs = Vec::new(alloc);
    join_slot(&tables.signals, &mut seats.signal);
    let Built::Ready {
        buckets,
        batches,
        elected,
    } = build(rt, tables, seats, worker, &OpenGate, &mut steps)
    else {
        return 0;
    };
    if stage == Stage::Probe {
        let built = Built::Ready {
            buckets,
            batches,
            elected,
        };
        probe(
            rt, tables, seats, built, worker, &mut pairs, &OpenGate, &mut steps,
        );
    }
    pairs.len()
}

// The same with a counter of its own.
fn work<R: Wait>(rt: &R, alloc: Global, worker: Worker<'_, '_>, stage: Stage) -> usize {
    let Worker {
        tables,
        mut seats,
        number,
    } = worker;
    let found = take_part::<R, Brand>(rt, Blank::new(1), alloc, tables, &mut seats, number, stage);
    mem::forget(seats);
    found
}

// Draws a worker beside those before it.
fn draw<'t, 'r>(
    tables: &'t JoinTables<'r>,
    leader: &mut JoinSeats<'r>,
    number: u32,
    workers: &mut Vec<Worker<'t, 'r>>,
) -> Result<(), NoMemory>
    requires seats { IsAt tables.now leader.old × IsNumbered leader.old 0 0 0 }
    requires idle { leader.old.wait.view.place ≡ [] }
    ensures seats { IsAt tables.now leader.new × IsNumbered leader.new 0 0 0 }
    ensures idle { leader.new.wait.view.place ≡ [] }
{
    let Ok(seats) = tables.worker(leader) else {
        return Err(NoMemory);
    };
    let worker = Worker {
        tables,
        seats,
        number,
    };
    if let Err(refused) = workers.push(worker) {
        mem::forget(refused);
        return Err(NoMemory);
    }
    Ok(())
}

// Draws so many workers, or fewer where memory runs out.
fn draw_all<'t, 'r>(
    alloc: Global,
    tables: &'t JoinTables<'r>,
    leader: &mut JoinSeats<'r>,
    count: u32,
) -> Vec<Worker<'t, 'r>>
    requires seats { IsAt tables.now leader.old × IsNumbered leader.old 0 0 0 }
    requires idle { leader.old.wait.view.place ≡ [] }
{
    let mut workers = Vec::new(alloc);
    for number in 0..count {
        if draw(tables, leader, number, &mut workers).is_err() {
            return workers;
        }
    }
    workers
}

// So many workers take part. How many pairs they find together.
fn work_together<'r, R: Threads + Wait + Sync>(
    rt: &R,
    alloc: Global,
    tables: &JoinTables<'r>,
    leader: &mut JoinSeats<'r>,
    run: Run,
) -> Option<usize>
    requires seats { IsAt tables.now leader.old × IsNumbered leader.old 0 0 0 }
    requires idle { leader.old.wait.view.place ≡ [] }
{
    let workers = draw_all(alloc, tables, leader, run.workers);
    let stage = run.stage;
    let Ok(found) = map_vec(rt, workers, &|worker| work(rt, alloc, worker, stage)) else {
        return None;
    };
    let mut pairs = 0;
    for one in found {
        pairs = usize::wrapping_add(pairs, one);
    }
    Some(pairs)
}

// One batch, or eight with half as many chains each as rows.
fn plan_of(batches: bool) -> Plan
    ensures workers { result.workers ≡ 4 }
    ensures buckets { IsPowerOfTwo result.buckets × (result.buckets ≤ 262144) }
{
    let (buckets, mem) = if batches {
        (65_536, 32_768)
    } else {
        (262_144, ROWS)
    };
    Plan {
        workers: 4,
        buckets,
        mem,
    }
}

// Whether the run found as many pairs as there are keys, if it looks for any.
fn measure<R: Threads + Wait + Sync>(rt: &R, alloc: Global, rows: &Rows, run: Run) -> bool {
    let plan = plan_of(run.batches);
    let Ok((tables, mut leader)) = open_tables(alloc, rows, rows, plan) else {
        return false;
    };
    let found = if run.stage == Stage::Open {
        None
    } else {
        work_together(rt, alloc, &tables, &mut leader, run)
    };
    mem::forget(leader);
    mem::forget(tables);
    match run.stage {
        Stage::Open => true,
        Stage::Build => found == Some(0),
        Stage::Probe => found == Some(ROWS as usize),
    }
}

fn main(rt: HostRuntime) -> ExitCode {
    let Ok(rows) = numbered_rows(rt.alloc()) else {
        return ExitCode::FAILURE;
    };
    let run = read_run(&rt);
    if measure(&rt, rt.alloc(), &rows, run) {
        ExitCode::SUCCESS
    } else {
        ExitCode::FAILURE
    }
}
