//! Workers build and probe small tables, and together find the pairs of a nested loop over the keys.
//! Seats at the join's words are forgotten, since no function that lets one go is proved.
ghost use Rattle.std.specs.Prelude.{◌≡◌, ◌≤◌, ◌<◌, [], None};
ghost use Rattle.std.specs.Int.{IsPowerOfTwo};
ghost use Rattle.signal_core.specs.Machine.{IsJoined};
ghost use Rattle.join_party.specs.Workers.{IsAt, IsNumbered};
ghost use Rattle.hash_build.specs.Builds.{Begins};

mod threads;

use super::*;
use hash_build::build;
use join_party::open_tables;
use proc_signal::{emit, join_slot};
use proc_table::OpenGate;
use row_model::{Plan, RecordFault, Rows, RowsBuilder};
use std::alloc::{AllocError, Global};
use std::marker::Brand;
use std::mem;
use std::process::Abort;
use std::sync::ledger::Blank;
use std::test::Fail;

const EMPTY: Option<u32> = None;

const A: Option<u32> = Some(1);

const B: Option<u32> = Some(2);

const C: Option<u32> = Some(3);

// So many keys of four thousand values, of which each sixteenth is empty.
fn mixed_keys(alloc: Global, count: u32) -> Result<Vec<Option<u32>>, AllocError> {
    let mut keys = Vec::new(alloc);
    for row in 0..count {
        let drawn = u32::wrapping_mul(row, 2_654_435_761) >> 20;
        keys.push(if drawn % 16 == 0 { None } else { Some(drawn) })?;
    }
    Ok(keys)
}

fn equal_keys(alloc: Global, count: u32) -> Result<Vec<Option<u32>>, AllocError> {
    let mut keys = Vec::new(alloc);
    for _ in 0..count {
        keys.push(A)?;
    }
    Ok(keys)
}

fn push_key(builder: &mut RowsBuilder, key: Option<u32>) -> Result<(), RecordFault> {
    match key {
        None => builder.push_field(b"")?,
        Some(number) => builder.push_field(number.to_le_bytes().as_slice())?,
    }
    builder.end_record()
}

// Rows of one column with these keys.
fn rows_of(alloc: Global, keys: &[Option<u32>]) -> Result<Rows, RecordFault> {
    let mut builder = RowsBuilder::new(alloc, b"key")?;
    builder.push_field(b"key")?;
    builder.end_record()?;
    for key in keys {
        push_key(&mut builder, *key)?;
    }
    builder.finish()
}

// The pairs of an outer row.
fn push_meeting<R: Abort>(
    rt: &R,
    inner: &[Option<u32>],
    outer: u32,
    key: u32,
    pairs: &mut Vec<Pair>,
) {
    let mut row = 0;
    for other in inner {
        if *other == Some(key) {
            assert!(rt; pairs.push(Pair { outer, inner: row }).is_ok());
        }
        row = u32::wrapping_add(row, 1);
    }
}

// The pairs of rows with equal keys that aren't empty, by outer row and then inner row.
fn meeting<R: Abort>(
    rt: &R,
    alloc: Global,
    inner: &[Option<u32>],
    outer: &[Option<u32>],
) -> Vec<Pair> {
    let mut pairs = Vec::new(alloc);
    let mut row = 0;
    for key in outer {
        if let Some(key) = *key {
            push_meeting(rt, inner, row, key, &mut pairs);
        }
        row = u32::wrapping_add(row, 1);
    }
    pairs
}

// How many rows have a key.
fn count_keyed(keys: &[Option<u32>]) -> u32 {
    let mut count = 0;
    for key in keys {
        if key.is_some() {
            count = u32::wrapping_add(count, 1);
        }
    }
    count
}

fn put_in_order(pairs: &mut Vec<Pair>) {
    pairs.sort_unstable_by_key(|pair| u64::from(pair.outer) * 4_294_967_296
        + u64::from(pair.inner));
}

fn open<'r, R: Abort>(
    rt: &R,
    alloc: Global,
    inner: &'r Rows,
    outer: &'r Rows,
    plan: Plan,
) -> (JoinTables<'r>, JoinSeats<'r>)
    ensures seats { IsAt result.0 result.1 × IsNumbered result.1 0 0 0 }
    ensures begins { Begins result.1 }
    ensures signal { (result.1.signal.view.place ≡ None) × (result.1.signal.view.slot ≡ None) }
{
    assert!(rt; 0 < plan.workers && plan.workers <= 16 && plan.buckets <= 262_144);
    let buckets = plan.buckets.next_power_of_two();
    assert!(rt; buckets <= 262_144);
    let plan = Plan {
        workers: plan.workers,
        buckets,
        mem: plan.mem,
    };
    let Ok(opened) = open_tables(alloc, inner, outer, plan) else {
        panic!(rt; "no memory")
    };
    opened
}

// What a worker says, and the pairs that it found. None where it found the join at its end.
type Found = Option<(Probed, Vec<Pair>)>;

// Builds and probes.
fn work<'r, G: Gate, R: Wait, L: Ledger>(
    rt: &R,
    blank: Blank,
    alloc: Global,
    tables: &JoinTables<'r>,
    seats: &mut JoinSeats<'r>,
    worker: u32,
    gate: &G,
) -> Found
    requires name { blank.name ≡ L.name }
    requires parts { blank.parts ≡ L.parts }
    requires some { 0 < blank.parts }
    requires table { IsAt tables.now seats.old }
    requires begins { Begins seats.old }
    requires slot { (seats.old.signal.view.place ≡ None) × IsJoined seats.old.signal.view.slot }
{
    let mut steps = Steps::<L>::new(blank);
    let mut pairs = Vec::new(alloc);
    let Built::Ready {
        buckets,
        batches,
        elected,
    } = build(rt, tables, seats, worker, gate, &mut steps)
    else {
        return None;
    };
    let built = Built::Ready {
        buckets,
        batches,
        elected,
    };
    let probed = probe(
        rt, tables, seats, built, worker, &mut pairs, gate, &mut steps,
    );
    Some((probed, pairs))
}

// The leader joins alone. What it says, and its pairs in order.
fn join_alone<R: Abort + Wait>(
    rt: &R,
    alloc: Global,
    inner: &Rows,
    outer: &Rows,
    plan: Plan,
) -> (Probed, Vec<Pair>) {
    let (tables, mut seats) = open(rt, alloc, inner, outer, plan);
    join_slot(&tables.signals, &mut seats.signal);
    let found = work::<OpenGate, R, Brand>(
        rt,
        Blank::new(1),
        alloc,
        &tables,
        &mut seats,
        0,
        &OpenGate,
    );
    mem::forget(seats);
    mem::forget(tables);
    let Some((probed, mut pairs)) = found else {
        panic!(rt; "late")
    };
    put_in_order(&mut pairs);
    (probed, pairs)
}

// Probed so many rows, with nothing else to say.
fn unmarked(probed: u32) -> Probed
    ensures { result.probed ≡ probed }
{
    Probed {
        probed,
        over: None,
        stopped: None,
        out_of_memory: false,
    }
}

// One worker finds the pairs of a nested loop.
fn expect_alone<R: Abort + Wait>(
    rt: &R,
    alloc: Global,
    inner: &[Option<u32>],
    outer: &[Option<u32>],
    plan: Plan,
) -> Result<(), RecordFault> {
    let inner_rows = rows_of(alloc, inner)?;
    let outer_rows = rows_of(alloc, outer)?;
    let (probed, pairs) = join_alone(rt, alloc, &inner_rows, &outer_rows, plan);
    assert!(rt; probed == unmarked(count_keyed(outer)));
    assert!(rt; pairs.as_slice() == meeting(rt, alloc, inner, outer).as_slice());
    Ok(())
}

#[test]
fn one_worker_finds_each_pair_once(rt: HostRuntime) -> Result<(), Fail> {
    let few = [A, B, EMPTY, A];
    let others = [C, A, EMPTY, B];
    let mixed = mixed_keys(rt.alloc(), 1000)?;
    let more = mixed_keys(rt.alloc(), 3000)?;
    let equal = equal_keys(rt.alloc(), 40)?;
    let cases = [
        (few.as_slice(), others.as_slice()),
        (few.as_slice(), [].as_slice()),
        ([].as_slice(), others.as_slice()),
        ([EMPTY].as_slice(), [EMPTY, A].as_slice()),
        (equal.as_slice(), few.as_slice()),
        (mixed.as_slice(), more.as_slice()),
    ];
    let plans = [(1, 1, 65_536), (4, 1, 2), (3, 64, 100), (16, 16, 1)];
    for (inner, outer) in cases {
        for (workers, buckets, mem) in plans {
            let plan = Plan {
                workers,
                buckets,
                mem,
            };
            expect_alone(&rt, rt.alloc(), inner, outer, plan)?;
        }
    }
    Ok(())
}

#[test]
fn the_pairs_of_four_rows_and_four(rt: HostRuntime) -> Result<(), Fail> {
    let inner = [A, B, EMPTY, A];
    let outer = [C, A, EMPTY, B];
    let expected = [
        Pair { outer: 1, inner: 0 },
        Pair { outer: 1, inner: 3 },
        Pair { outer: 3, inner: 1 },
    ];
    let pairs = meeting(&rt, rt.alloc(), inner.as_slice(), outer.as_slice());
    assert!(rt; pairs.as_slice() == expected.as_slice());
    Ok(())
}

#[test]
fn too_many_pairs_are_told(rt: HostRuntime) -> Result<(), Fail> {
    let keys = equal_keys(rt.alloc(), 3000)?;
    let rows = rows_of(rt.alloc(), keys.as_slice())?;
    let plan = Plan {
        workers: 1,
        buckets: 1024,
        mem: 65_536,
    };
    let (probed, pairs) = join_alone(&rt, rt.alloc(), &rows, &rows, plan);
    assert!(rt; probed.probed == 1399 && probed.over == Some(4_197_000));
    assert!(rt; probed.stopped == Some(1) && !probed.out_of_memory);
    assert!(rt; pairs.len() == 4_197_000);
    Ok(())
}

// A worker joins after its slot was told to stop.
fn join_stopped<R: Abort + Wait>(rt: &R, alloc: Global, rows: &Rows) -> Found {
    let plan = Plan {
        workers: 1,
        buckets: 4,
        mem: 16,
    };
    let (tables, mut leader) = open(rt, alloc, rows, rows, plan);
    let Ok(mut worker) = tables.worker(&mut leader) else {
        panic!(rt; "no number")
    };
    join_slot(&tables.signals, &mut worker.signal);
    assert!(rt; emit(&tables.signals, &mut leader.signal, 0, 4_194_305).is_ok());
    let found = work::<OpenGate, R, Brand>(
        rt,
        Blank::new(1),
        alloc,
        &tables,
        &mut worker,
        1,
        &OpenGate,
    );
    mem::forget(worker);
    mem::forget(leader);
    mem::forget(tables);
    found
}

#[test]
fn a_worker_that_is_told_to_stop_probes_no_more(rt: HostRuntime) -> Result<(), Fail> {
    let rows = rows_of(rt.alloc(), [A, B, EMPTY, A].as_slice())?;
    let Some((probed, pairs)) = join_stopped(&rt, rt.alloc(), &rows) else {
        panic!(rt; "late")
    };
    let stopped = Some(1);
    assert!(rt;
        probed
            == Probed {
                stopped,
                ..unmarked(0)
            }
    );
    assert!(rt; pairs.is_empty());
    Ok(())
}
