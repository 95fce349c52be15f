//! The join of two tables of drawn keys: a large valid input from a number.

ghost use Rattle.std.specs.Prelude.{◌≡◌, ◌<◌, ◌≤◌, ◌⊎◌, ◌++◌, ◌∷◌, [], None, length, fold, IfOk, IfErr, OnErr, OnOk};
ghost use Rattle.row_model.specs.Form.{fault_so_far};
ghost use Rattle.join_engine.specs.Limit.{PairsShow, pair_limit};
ghost use Rattle.csv_tables.specs.Faults.{Rose};
ghost use Rattle.pg_sync.specs.Answer.{JoinShows};
ghost use Rattle.pg_sync.specs.Make.{add_pair, drawn_table, made_answer, made_pairs, made_text, next_state, pairs_text, state_after, states_after};
ghost use Rattle.pg_sync.specs.Tallies.{TallyShows, Told, Untold, made_sizes};

use crate::counters::counters;
use crate::status::Status;
use arrayvec::ArrayString;
use csv_tables::{Sink, write_all};
use itoa::Buffer;
use join_engine::{JoinFault, Tally, hashed_pairs, join_rows};
use proc_table::{Gate, NoMemory, Steps};
use row_model::{Pair, Plan, RecordFault, Rows, RowsBuilder};
use std::alloc::Global;
use std::marker::{Brand, Send, Sync};
use std::sync::Wait;
use std::sync::ledger::{Blank, Ledger};
use std::thread::Threads;

// The generator's state after this one.
fn next_state(state: u32) -> u32
    ensures { result ≡ next_state state }
{
    state.wrapping_mul(1_664_525).wrapping_add(1_013_904_223)
}

// Adds a row of one field, with which the table has no fault.
fn add_row(builder: &mut RowsBuilder, field: &[u8]) -> Result<(), NoMemory>
    requires fresh { builder.old.fields ≡ [] }
    requires clean { builder.old.refusal ≡ None }
    requires fine { fault_so_far builder.old.key (builder.old.records ++ (field.now ∷ []) ∷ []) ≡ None }
    ensures { OnOk result (builder.new ≡ record builder.old { records = builder.old.records ++ (field.now ∷ []) ∷ [] }) }
{
    builder.push_field(field)?;
    match builder.end_record() {
        Ok(()) => Ok(()),
        Err(RecordFault::NoMemory) => Err(NoMemory),
        Err(RecordFault::Bad(_)) => unreachable!(),
    }
}

// The table of the next draws, as many as there are keys, and the state of the last one.
fn drawn_table(alloc: Global, keys: u32, start: u32) -> Result<(Rows, u32), NoMemory>
    requires some { 0 < keys }
    requires few { keys ≤ 65536 }
    ensures table { IfOk result (λ t. t.0 ≡ drawn_table keys (states_after start keys)) }
    ensures state { IfOk result (λ t. t.1 ≡ state_after start keys) }
{
    let mut builder = RowsBuilder::new(alloc, b"k")?;
    add_row(&mut builder, b"k")?;
    let mut state = start;
    'draws: for drawn in 0..keys {
        state = next_state(state);
        let mut text = Buffer::new();
        let key = text.format(state / 65536 % keys);
        add_row(&mut builder, key.as_bytes())?;
    }
    match builder.finish() {
        Ok(rows) => Ok((rows, state)),
        Err(RecordFault::NoMemory) => Err(NoMemory),
        Err(RecordFault::Bad(_)) => unreachable!(),
    }
}

// The pairs of the join of two tables of drawn keys.
fn made_pairs<L: Ledger>(
    blank: Blank,
    alloc: Global,
    rows: u32,
    start: u32,
) -> Result<Vec<Pair>, JoinFault>
    requires name { blank.name ≡ L.name }
    requires parts { blank.parts ≡ L.parts }
    requires blanks { 0 < blank.parts }
    requires some { 0 < rows }
    requires few { rows ≤ 65536 }
    ensures pairs { IfOk result (λ v. v.items ≡ made_pairs rows start) }
    ensures few { OnOk result (length (made_pairs rows start) ≤ pair_limit) }
    ensures too_many { IfErr result (PairsShow (length (made_pairs rows start))) }
{
    let mut steps = Steps::<L>::new(blank);
    let (inner, state) = drawn_table(alloc, rows, start)?;
    let (outer, _) = drawn_table(alloc, rows, state)?;
    match hashed_pairs(alloc, &outer, &inner, &mut steps) {
        Ok(pairs) => Ok(pairs),
        Err(fault) => Err(fault),
    }
}

// The pairs of the join of two tables of drawn keys, by so many workers.
fn pairs_by<R: Threads + Wait + Sync, G: Gate, T: Tally, L: Ledger + Send>(
    blank: Blank,
    rt: &R,
    alloc: Global,
    rows: u32,
    start: u32,
    workers: u32,
    gate: &G,
    tally: &mut T,
) -> Result<Vec<Pair>, JoinFault>
    requires name { blank.name ≡ L.name }
    requires parts { blank.parts ≡ L.parts }
    requires blanks { 0 < blank.parts }
    requires some { 0 < rows }
    requires few { rows ≤ 65536 }
    requires workers { (0 < workers) × (workers ≤ 16) }
    ensures pairs { IfOk result (λ v. v.items ≡ made_pairs rows start) }
    ensures few { OnOk result (length (made_pairs rows start) ≤ pair_limit) }
    ensures too_many { IfErr result (PairsShow (length (made_pairs rows start))) }
    ensures told { OnOk result (Told (λ sizes. sizes ≡ made_sizes rows start workers) (T.joins tally.old) (T.joins tally.new) (T.last tally.new)) }
    ensures untold { OnErr result (Untold (T.joins tally.old) (T.last tally.old) (T.joins tally.new) (T.last tally.new)) }
{
    let mut looks = counters::<L>(blank, alloc, workers)?;
    let (inner, state) = drawn_table(alloc, rows, start)?;
    let (outer, _) = drawn_table(alloc, rows, state)?;
    let plan = Plan {
        workers,
        buckets: 1024,
        mem: 65_536,
    };
    match join_rows(rt, alloc, &inner, &outer, plan, gate, looks.as_mut_slice()) {
        Ok(joined) => {
            tally.joined(&joined);
            Ok(joined.close())
        }
        Err(fault) => Err(fault),
    }
}

// A total with one pair more, whose rows are numbered from 1.
fn add_pair(total: u32, pair: Pair) -> u32
    ensures { result ≡ add_pair total pair }
{
    total
        .wrapping_mul(31)
        .wrapping_add(pair.outer)
        .wrapping_add(1)
        .wrapping_add(pair.inner)
        .wrapping_add(1)
}

// The total of pairs, in their order.
fn total_of(pairs: &[Pair]) -> u32
    ensures { result ≡ fold add_pair 0 pairs.now }
{
    let mut total = 0;
    'pairs: for pair in pairs {
        total = add_pair(total, *pair);
    }
    total
}

// How many pairs there are, and their total: 31 bytes at most.
fn text_of(pairs: &[Pair]) -> ArrayString<64>
    requires { length pairs.now ≤ pair_limit }
    ensures { result.bytes ≡ pairs_text pairs.now }
{
    let mut text = ArrayString::<64>::new();
    text.push_str("rows ");
    text.push_str(Buffer::new().format(pairs.len() as u32));
    text.push_str("\ntotal ");
    text.push_str(Buffer::new().format(total_of(pairs)));
    text.push_str("\n");
    text
}

// Writes how many pairs there are, and their total.
fn write_made<S: Sink>(pairs: &[Pair], out: &mut S) -> Status
    requires few { length pairs.now ≤ pair_limit }
    ensures answer { JoinShows (length pairs.now) (pairs_text pairs.now) (S.taken out.old) (S.taken out.new) (S.faults out.old) (S.faults out.new) result }
    ensures written { (result ≡ Status.Done) ⊎ (result ≡ Status.WriteFault) }
{
    match write_all(out, text_of(pairs).as_str().as_bytes()) {
        Ok(()) => Status::Done,
        Err(_) => Status::WriteFault,
    }
}

/// Joins two tables of `rows` drawn keys, by one thread, and writes how many pairs there are and
/// their total.
pub fn run_make<S: Sink>(alloc: Global, rows: u32, start: u32, out: &mut S) -> Status
    requires some { 0 < rows }
    requires few { rows ≤ 65536 }

    // Done with the two lines, or too many pairs, a failed write, or want of memory, with what each leaves.
    ensures answer { JoinShows (length (made_pairs rows start)) (made_text rows start) (S.taken out.old) (S.taken out.new) (S.faults out.old) (S.faults out.new) result }

    // Where no write fails, the answer is what the numbers decide, or memory ran out.
    ensures completeness { (Rose (S.faults out.old) (S.faults out.new) → ⊥) → (result ≡ made_answer rows start) ⊎ (result ≡ Status.NoMemory) }
{
    let pairs = match made_pairs::<Brand>(Blank::new(1), alloc, rows, start) {
        Ok(pairs) => pairs,
        Err(JoinFault::TooMany { .. }) => return Status::TooManyResults,
        Err(JoinFault::NoMemory) => return Status::NoMemory,
    };
    write_made(pairs.as_slice(), out)
}

/// The same by so many workers. The join is told to the tally.
pub(crate) fn make_by<R: Threads + Wait + Sync, S: Sink, G: Gate, T: Tally>(
    rt: &R,
    alloc: Global,
    rows: u32,
    start: u32,
    workers: u32,
    out: &mut S,
    gate: &G,
    tally: &mut T,
) -> Status
    requires some { 0 < rows }
    requires few { rows ≤ 65536 }
    requires workers { (0 < workers) × (workers ≤ 16) }
    ensures answer { JoinShows (length (made_pairs rows start)) (made_text rows start) (S.taken out.old) (S.taken out.new) (S.faults out.old) (S.faults out.new) result }
    ensures completeness { (Rose (S.faults out.old) (S.faults out.new) → ⊥) → (result ≡ made_answer rows start) ⊎ (result ≡ Status.NoMemory) }
    ensures tally { TallyShows (λ sizes. sizes ≡ made_sizes rows start workers) (T.joins tally.old) (T.last tally.old) (T.joins tally.new) (T.last tally.new) result }
{
    let found = pairs_by::<R, G, T, Brand>(
        Blank::new(1),
        rt,
        alloc,
        rows,
        start,
        workers,
        gate,
        tally,
    );
    let pairs = match found {
        Ok(pairs) => pairs,
        Err(JoinFault::TooMany { .. }) => return Status::TooManyResults,
        Err(JoinFault::NoMemory) => return Status::NoMemory,
    };
    write_made(pairs.as_slice(), out)
}
