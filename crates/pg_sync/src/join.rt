//! A join from the inputs to the sink.

ghost use Rattle.std.specs.Prelude.{◌≡◌, ◌<◌, IsSome, length};
ghost use Rattle.csv_tables.specs.Appending.{IsFull};
ghost use Rattle.csv_tables.specs.Text.{joined_text};
ghost use Rattle.row_model.specs.Table.{nested_loop};
ghost use Rattle.row_model.specs.declared.Side.TheVariants as side;
ghost use Rattle.pg_sync.specs.declared.status.Status.TheVariants as status;
ghost use Rattle.pg_sync.specs.Answer.{AllIsThere, BytesShow, CountsShow, Decided, JoinShows, Leaves, NoInputFailed, NoneFailed, counts_of, due_text, refusal_of};
ghost use Rattle.pg_sync.specs.Tallies.{AreOf, TallyShows, table_sizes};
ghost use Rattle.pg_sync.specs.Words.{IsPlan, job_at};

use crate::counters::counters;
use crate::status::Status;
use crate::words::JoinWords;
use csv_tables::{Inputs, LoadFault, PrintFault, Sink, load, print};
use join_engine::{JoinFault, Tally, join_rows};
use proc_table::Gate;
use row_model::{Plan, Rows, Side};
use std::alloc::Global;
use std::marker::{Brand, Send, Sync};
use std::sync::Wait;
use std::sync::ledger::{Blank, Ledger};
use std::thread::Threads;

/// The status of a refused input.
pub(crate) fn refusal(side: Side, fault: LoadFault) -> Status
    ensures { result ≡ refusal_of side fault }
{
    match fault {
        LoadFault::Open => Status::OpenFault(side),
        LoadFault::Read => Status::ReadFault(side),
        LoadFault::TooLong => Status::TooLong(side),
        LoadFault::Bad(fault) => Status::BadInput(side, fault),
        LoadFault::NoMemory => Status::NoMemory,
    }
}

// Joins two tables, and prints the pairs.
fn print_join<R: Threads + Wait + Sync, S: Sink, G: Gate, T: Tally, L: Ledger + Send>(
    blank: Blank,
    rt: &R,
    alloc: Global,
    inner: &Rows,
    outer: &Rows,
    plan: Plan,
    out: &mut S,
    gate: &G,
    tally: &mut T,
) -> Status
    requires name { blank.name ≡ L.name }
    requires parts { blank.parts ≡ L.parts }
    requires some { 0 < blank.parts }
    requires plan { IsPlan plan }
    ensures joins { JoinShows (length (nested_loop outer.now inner.now)) (joined_text outer.now inner.now) (S.taken out.old) (S.taken out.new) (S.faults out.old) (S.faults out.new) result }
    ensures capacity { S.capacity out.new ≡ S.capacity out.old }
    ensures full { result ≡ status.WriteFault → IsFull (S.taken out.new) (S.capacity out.new) }
    ensures tally { TallyShows (λ sizes. sizes ≡ table_sizes inner.now outer.now plan.workers) (T.joins tally.old) (T.last tally.old) (T.joins tally.new) (T.last tally.new) result }
{
    let Ok(mut looks) = counters::<L>(blank, alloc, plan.workers) else {
        return Status::NoMemory;
    };
    let joined = match join_rows(rt, alloc, inner, outer, plan, gate, looks.as_mut_slice()) {
        Ok(joined) => joined,
        Err(JoinFault::TooMany { .. }) => return Status::TooManyResults,
        Err(JoinFault::NoMemory) => return Status::NoMemory,
    };
    tally.joined(&joined);
    let pairs = joined.close();
    match print(alloc, outer, inner, &pairs, out) {
        Ok(()) => Status::Done,
        Err(PrintFault::Write) => Status::WriteFault,
        Err(PrintFault::NoMemory) => Status::NoMemory,
    }
}

// Joins the inputs of these names by their keys, and writes the text of the join.
fn join_inputs<R: Threads + Wait + Sync, I: Inputs, S: Sink, G: Gate, T: Tally>(
    rt: &R,
    alloc: Global,
    job: &JoinWords<'_>,
    inputs: &mut I,
    out: &mut S,
    gate: &G,
    tally: &mut T,
) -> Status
    requires inner { I.may_open inputs.old side.Inner job.now.inner.now }
    requires outer { I.may_open inputs.old side.Outer job.now.outer.now }
    requires plan { IsPlan job.now.plan }
    ensures bytes { BytesShow (job_at job.now) (I.held inputs.old job.now.inner.now) (I.held inputs.old job.now.outer.now) result }
    ensures counts { CountsShow (counts_of I.open_faults I.read_faults inputs.old) (counts_of I.open_faults I.read_faults inputs.new) (S.faults out.old) (S.faults out.new) result }
    ensures written { Leaves (S.taken out.old) (S.taken out.new) (due_text (job_at job.now) (I.held inputs.old job.now.inner.now) (I.held inputs.old job.now.outer.now)) result }
    ensures calm { I.is_steady inputs.old → IsSome (I.held inputs.old job.now.inner.now) → IsSome (I.held inputs.old job.now.outer.now) → NoInputFailed result }
    ensures capacity { S.capacity out.new ≡ S.capacity out.old }
    ensures full { result ≡ status.WriteFault → IsFull (S.taken out.new) (S.capacity out.new) }
    ensures tally { TallyShows (AreOf (job_at job.now) (I.held inputs.old job.now.inner.now) (I.held inputs.old job.now.outer.now)) (T.joins tally.old) (T.last tally.old) (T.joins tally.new) (T.last tally.new) result }
{
    let inner = match load(alloc, inputs, Side::Inner, job.inner, job.inner_key) {
        Ok(rows) => rows,
        Err(fault) => return refusal(Side::Inner, fault),
    };
    let outer = match load(alloc, inputs, Side::Outer, job.outer, job.outer_key) {
        Ok(rows) => rows,
        Err(fault) => return refusal(Side::Outer, fault),
    };
    print_join::<R, S, G, T, Brand>(
        Blank::new(1),
        rt,
        alloc,
        &inner,
        &outer,
        job.plan,
        out,
        gate,
        tally,
    )
}

/// Joins the inputs of these names by their keys, and writes the text of the join.
pub fn run_join<R: Threads + Wait + Sync, I: Inputs, S: Sink, G: Gate, T: Tally>(
    rt: &R,
    alloc: Global,
    job: &JoinWords<'_>,
    inputs: &mut I,
    out: &mut S,
    gate: &G,
    tally: &mut T,
) -> Status
    requires inner { I.may_open inputs.old side.Inner job.now.inner.now }
    requires outer { I.may_open inputs.old side.Outer job.now.outer.now }
    requires plan { IsPlan job.now.plan }
    ensures written { Leaves (S.taken out.old) (S.taken out.new) (due_text (job_at job.now) (I.held inputs.old job.now.inner.now) (I.held inputs.old job.now.outer.now)) result }
    ensures bytes { BytesShow (job_at job.now) (I.held inputs.old job.now.inner.now) (I.held inputs.old job.now.outer.now) result }
    ensures counts { CountsShow (counts_of I.open_faults I.read_faults inputs.old) (counts_of I.open_faults I.read_faults inputs.new) (S.faults out.old) (S.faults out.new) result }
    ensures completeness { Decided (job_at job.now) (I.held inputs.old job.now.inner.now) (I.held inputs.old job.now.outer.now)
        (counts_of I.open_faults I.read_faults inputs.old) (counts_of I.open_faults I.read_faults inputs.new) (S.faults out.old) (S.faults out.new) result }
    ensures faultless { AllIsThere (I.is_steady inputs.old) (I.held inputs.old job.now.inner.now) (I.held inputs.old job.now.outer.now) (S.taken out.old) (S.capacity out.old)
        (due_text (job_at job.now) (I.held inputs.old job.now.inner.now) (I.held inputs.old job.now.outer.now))
        → NoneFailed (counts_of I.open_faults I.read_faults inputs.old) (counts_of I.open_faults I.read_faults inputs.new) (S.faults out.old) (S.faults out.new) }
    ensures tally { TallyShows (AreOf (job_at job.now) (I.held inputs.old job.now.inner.now) (I.held inputs.old job.now.outer.now)) (T.joins tally.old) (T.last tally.old) (T.joins tally.new) (T.last tally.new) result }
{
    join_inputs(rt, alloc, job, inputs, out, gate, tally)
}
