//! The join by one thread and the join by workers give the pairs of two nested loops.

ghost use Rattle.std.specs.Prelude.{◌≡◌, ◌<◌, length};

mod gates;
mod threads;

use crate::hashed::hashed_pairs;
use crate::nested::nested_pairs;
use crate::{JoinFault, JoinSizes, LastJoin, PAIR_LIMIT, Tally, join_rows};
use proc_table::{Gate, NoMemory, OpenGate, Point, Steps};
use row_model::{Pair, Plan, RecordFault, Rows, RowsBuilder};
use std::alloc::Global;
use std::marker::{Brand, Send, Sync};
use std::process::Abort;
use std::sync::Wait;
use std::sync::ledger::{Blank, Ledger};
use std::test::Fail;
use std::thread::Threads;

// Tables by their keys. "costarring" and "liquid" have one hash, as have "declinate" and
// "macallums", and "altarage" and "zinke".
const TABLES: [&[&str]; 6] = [
    &[],
    &["", ""],
    &["a", "", "b", "a", "a"],
    &["costarring", "liquid", "zinke", "liquid"],
    &["liquid", "altarage", "costarring", "a", "costarring"],
    &[
        "macallums",
        "declinate",
        "b",
        "zinke",
        "declinate",
        "macallums",
    ],
];

// How many pairs the outer table of a line has with the inner table of a column.
const COUNTS: [[usize; 6]; 6] = [
    [0, 0, 0, 0, 0, 0],
    [0, 0, 0, 0, 0, 0],
    [0, 0, 10, 0, 3, 1],
    [0, 0, 0, 6, 4, 1],
    [0, 0, 3, 4, 7, 0],
    [0, 0, 1, 1, 0, 10],
];

// A table with these keys in its one column.
fn table(alloc: Global, keys: &[&str]) -> Result<Rows, RecordFault> {
    let mut builder = RowsBuilder::new(alloc, b"key")?;
    builder.push_field(b"key")?;
    builder.end_record()?;
    for key in keys {
        builder.push_field(key.as_bytes())?;
        builder.end_record()?;
    }
    builder.finish()
}

// A table of so many rows, whose keys are so many numbers. One number in sixteen is an empty key.
fn mixed_table(alloc: Global, count: u32, numbers: u32) -> Result<Rows, RecordFault>
    requires { 0 < numbers }
{
    let mut builder = RowsBuilder::new(alloc, b"key")?;
    builder.push_field(b"key")?;
    builder.end_record()?;
    for row in 0..count {
        let drawn = (u32::wrapping_mul(row, 2_654_435_761) >> 16) % numbers;
        if drawn % 16 == 0 {
            builder.push_field(b"")?;
        } else {
            builder.push_field(drawn.to_le_bytes().as_slice())?;
        }
        builder.end_record()?;
    }
    builder.finish()
}

fn hashed_with<L: Ledger>(
    blank: Blank,
    alloc: Global,
    outer: &Rows,
    inner: &Rows,
) -> Result<Vec<Pair>, JoinFault>
    requires name { blank.name ≡ L.name }
    requires parts { blank.parts ≡ L.parts }
    requires some { 0 < blank.parts }
{
    let mut steps = Steps::<L>::new(blank);
    hashed_pairs(alloc, outer, inner, &mut steps)
}

// The pairs by the hash table of one thread.
fn hashed(alloc: Global, outer: &Rows, inner: &Rows) -> Result<Vec<Pair>, JoinFault> {
    hashed_with::<Brand>(Blank::new(1), alloc, outer, inner)
}

fn nested_with<L: Ledger>(
    blank: Blank,
    alloc: Global,
    outer: &Rows,
    inner: &Rows,
) -> Result<Vec<Pair>, NoMemory>
    requires name { blank.name ≡ L.name }
    requires parts { blank.parts ≡ L.parts }
    requires some { 0 < blank.parts }
{
    let mut steps = Steps::<L>::new(blank);
    nested_pairs(alloc, outer, inner, &mut steps)
}

// The pairs by two nested loops.
fn nested(alloc: Global, outer: &Rows, inner: &Rows) -> Result<Vec<Pair>, NoMemory> {
    nested_with::<Brand>(Blank::new(1), alloc, outer, inner)
}

// A counter for each worker.
fn counters<R: Abort, L: Ledger>(rt: &R, blank: Blank, alloc: Global, workers: u32) -> Vec<Steps<L>>
    requires name { blank.name ≡ L.name }
    requires parts { blank.parts ≡ L.parts }
    requires some { 0 < blank.parts }
    ensures { length result.items ≡ workers }
{
    let first = Steps::<L>::new(blank);
    let mut steps = Vec::new(alloc);
    for _ in 0..workers {
        assert!(rt; steps.push(first.beside()).is_ok());
    }
    assert!(rt; steps.len() == workers as usize);
    steps
}

fn join_with<R: Abort + Threads + Wait + Sync, G: Gate, L: Ledger + Send>(
    rt: &R,
    blank: Blank,
    alloc: Global,
    outer: &Rows,
    inner: &Rows,
    plan: Plan,
    gate: &G,
    tally: &mut LastJoin,
) -> Result<Vec<Pair>, JoinFault>
    requires name { blank.name ≡ L.name }
    requires parts { blank.parts ≡ L.parts }
    requires some { 0 < blank.parts }
{
    let Plan {
        workers,
        buckets,
        mem,
    } = plan;
    assert!(rt; 0 < workers && workers <= 16 && buckets <= 262_144);
    let buckets = buckets.next_power_of_two();
    assert!(rt; buckets <= 262_144);
    let plan = Plan {
        workers,
        buckets,
        mem,
    };
    let mut steps = counters::<R, L>(rt, blank, alloc, workers);
    let done = join_rows(rt, alloc, inner, outer, plan, gate, steps.as_mut_slice())?;
    tally.joined(&done);
    Ok(done.close())
}

// The pairs by workers, of which the tally is told. The join's tables are given back.
fn join<R: Abort + Threads + Wait + Sync, G: Gate>(
    rt: &R,
    alloc: Global,
    outer: &Rows,
    inner: &Rows,
    plan: Plan,
    gate: &G,
    tally: &mut LastJoin,
) -> Result<Vec<Pair>, JoinFault> {
    join_with::<R, G, Brand>(rt, Blank::new(1), alloc, outer, inner, plan, gate, tally)
}

// A plan by which all inner rows are in one batch.
fn one_batch(workers: u32) -> Plan {
    Plan {
        workers,
        buckets: 1024,
        mem: 65_536,
    }
}

// A plan by which more than a hundred inner rows are in more than one batch.
fn many_batches(workers: u32) -> Plan {
    Plan {
        workers,
        buckets: 64,
        mem: 100,
    }
}

#[test]
fn hash_table_and_nested_loops_agree(rt: HostRuntime) -> Result<(), Fail> {
    for (o, keys) in TABLES.iter().enumerate() {
        let outer = table(rt.alloc(), keys)?;
        for (i, keys) in TABLES.iter().enumerate() {
            let inner = table(rt.alloc(), keys)?;
            let pairs = hashed(rt.alloc(), &outer, &inner)?;
            let expected = nested(rt.alloc(), &outer, &inner)?;
            assert_eq!(rt;
                pairs.as_slice(),
                expected.as_slice(),
                "outer {o}, inner {i}"
            );
            assert_eq!(rt; pairs.len(), COUNTS[o][i], "outer {o}, inner {i}");
        }
    }
    Ok(())
}

// A table whose rows have one key.
fn equal_table(alloc: Global, count: usize) -> Result<Rows, Fail> {
    let keys = vec![in alloc; "a"; count]?;
    Ok(table(alloc, keys.as_slice())?)
}

#[test]
fn pairs_past_the_limit_are_refused(rt: HostRuntime) -> Result<(), Fail> {
    let one_more = JoinFault::TooMany {
        counted: PAIR_LIMIT as u64 + 1,
    };
    let cases = [
        (2048, 2048, Ok(PAIR_LIMIT)),
        (2048, 2049, Err(one_more)),
        (3000, 3000, Err(one_more)),
    ];
    for (outer, inner, count) in cases {
        let outer = equal_table(rt.alloc(), outer)?;
        let inner = equal_table(rt.alloc(), inner)?;
        let pairs = hashed(rt.alloc(), &outer, &inner);
        assert_eq!(rt; pairs.map(|pairs| pairs.len()), count);
    }
    Ok(())
}
