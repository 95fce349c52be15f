//! After the build each row with a key is found once, where its hash leads, and no other row is in a
//! list: by one worker, and by threads. Seats at the join's words are forgotten, since no function that
//! lets one go is proved.
ghost use Rattle.std.specs.Prelude.{◌≡◌, ◌≤◌, ◌<◌, ◌*◌, [], Some};
ghost use Rattle.std.specs.Int.{IsPowerOfTwo};
ghost use Rattle.join_party.specs.Workers.{IsAt, IsNumbered};
ghost use Rattle.hash_build.specs.Builds.{Begins};

mod places;
mod threads;

use super::*;
use join_party::open_tables;
use places::{expect_places, find_places};
use proc_table::OpenGate;
use row_model::{Plan, RecordFault, Rows, RowsBuilder};
use std::alloc::Global;
use std::marker::Brand;
use std::mem;
use std::process::Abort;
use std::sync::ledger::Blank;
use std::test::Fail;

// The keys of so many rows.
#[derive(Clone, Copy)]
enum Keys {
    Equal(u32),
    Different(u32),
    Empty(u32),
    // Of four thousand values, of which each sixteenth is empty.
    Mixed(u32),
}

impl Keys {
    fn count(self) -> u32 {
        match self {
            Keys::Equal(count) | Keys::Different(count) | Keys::Empty(count) | Keys::Mixed(count) =>
                count,
        }
    }

    // The number that a row's key is written by, None for an empty key.
    fn of_row(self, row: u32) -> Option<u32> {
        match self {
            Keys::Equal(_) => Some(7),
            Keys::Different(_) => Some(row),
            Keys::Empty(_) => None,
            Keys::Mixed(_) => {
                let drawn = u32::wrapping_mul(row, 2_654_435_761) >> 20;
                if drawn % 16 == 0 { None } else { Some(drawn) }
            }
        }
    }
}

fn push_key(builder: &mut RowsBuilder, key: Option<u32>) -> Result<(), RecordFault> {
    match key {
        None => builder.push_field(b"")?,
        Some(number) => builder.push_field(number.to_le_bytes().as_slice())?,
    }
    builder.end_record()
}

fn rows_of(alloc: Global, keys: Keys) -> Result<Rows, RecordFault> {
    let mut builder = RowsBuilder::new(alloc, b"key")?;
    builder.push_field(b"key")?;
    builder.end_record()?;
    for row in 0..keys.count() {
        push_key(&mut builder, keys.of_row(row))?;
    }
    builder.finish()
}

fn open<'r, R: Abort>(
    rt: &R,
    alloc: Global,
    inner: &'r Rows,
    outer: &'r Rows,
    plan: Plan,
) -> (JoinTables<'r>, JoinSeats<'r>)
    ensures seats { IsAt result.0 result.1 × IsNumbered result.1 0 0 0 }
    ensures begins { Begins result.1 }
{
    assert!(rt; 0 < plan.workers && plan.workers <= 16 && plan.buckets <= 262_144);
    let buckets = plan.buckets.next_power_of_two();
    assert!(rt; buckets <= 262_144);
    let plan = Plan {
        workers: plan.workers,
        buckets,
        mem: plan.mem,
    };
    let Ok(opened) = open_tables(alloc, inner, outer, plan) else {
        panic!(rt; "no memory")
    };
    opened
}

// Builds, and counts no looks.
fn build_uncounted<'r, G: Gate, R: Wait, L: Ledger>(
    rt: &R,
    blank: Blank,
    tables: &JoinTables<'r>,
    seats: &mut JoinSeats<'r>,
    worker: u32,
    gate: &G,
) -> Built
    requires name { blank.name ≡ L.name }
    requires parts { blank.parts ≡ L.parts }
    requires some { 0 < blank.parts }
    requires table { IsAt tables.now seats.old }
    requires begins { Begins seats.old }
    ensures table { seats.new.wait.table_id ≡ tables.now.waits.table_id }
    ensures idle { seats.new.wait.view.place ≡ [] }
{
    let mut steps = Steps::<L>::new(blank);
    build(rt, tables, seats, worker, gate, &mut steps)
}

// Whether one worker is elected, each row is found once in its place, and each row without a key in none.
fn each_row_is_placed<'r, R: Abort>(
    rt: &R,
    alloc: Global,
    tables: &JoinTables<'r>,
    seats: JoinSeats<'r>,
    built: Built,
) -> bool
    requires table { seats.wait.table_id ≡ tables.now.waits.table_id }
    requires idle { seats.wait.view.place ≡ [] }
{
    let (half, found) = find_places(rt, alloc, &tables.waits, seats);
    let Built::Ready {
        buckets,
        batches,
        elected: true,
    } = built
    else {
        return false;
    };
    let expected = expect_places::<R, Brand>(
        rt,
        Blank::new(1),
        alloc,
        tables.waits.party(),
        half,
        buckets,
        batches,
    );
    found.as_slice() == expected.as_slice()
}

// The leader builds alone. What it answers, and whether each row is placed.
fn build_alone<R: Abort + Wait>(
    rt: &R,
    alloc: Global,
    inner: &Rows,
    outer: &Rows,
    plan: Plan,
) -> (Built, bool) {
    let (tables, mut seats) = open(rt, alloc, inner, outer, plan);
    let built = build_uncounted::<OpenGate, R, Brand>(
        rt,
        Blank::new(1),
        &tables,
        &mut seats,
        0,
        &OpenGate,
    );
    let placed = each_row_is_placed(rt, alloc, &tables, seats, built);
    mem::forget(tables);
    (built, placed)
}

#[test]
fn one_worker_places_each_row_once(rt: HostRuntime) -> Result<(), Fail> {
    let cases = [
        (
            Keys::Different(2),
            Keys::Different(3),
            (1, 1024, 65_536),
            (1024, 1),
        ),
        (Keys::Equal(40), Keys::Equal(3), (4, 1, 2), (1, 8)),
        (Keys::Equal(1000), Keys::Equal(3), (4, 1, 2), (1, 8)),
        (Keys::Empty(0), Keys::Empty(0), (1, 1, 1), (1, 1)),
        (Keys::Empty(1), Keys::Different(1), (1, 1, 1), (1, 1)),
        (Keys::Empty(65), Keys::Empty(200), (2, 4, 16), (4, 1)),
        (Keys::Different(64), Keys::Equal(65), (2, 4, 16), (4, 4)),
        (Keys::Different(65), Keys::Empty(64), (16, 16, 1), (16, 64)),
        (
            Keys::Different(65),
            Keys::Different(65),
            (1, 1, 65_536),
            (4, 1),
        ),
        (Keys::Different(60), Keys::Different(60), (4, 1, 8), (1, 8)),
        (Keys::Mixed(1000), Keys::Mixed(1001), (3, 64, 100), (64, 16)),
        (
            Keys::Different(5000),
            Keys::Different(10),
            (1, 1, 1000),
            (1024, 8),
        ),
        (
            Keys::Different(20_000),
            Keys::Different(10),
            (1, 1, 65_536),
            (32_768, 1),
        ),
        (
            Keys::Different(131_072),
            Keys::Different(10),
            (1, 1, 262_144),
            (262_144, 1),
        ),
    ];
    for (inner, outer, (workers, buckets, mem), (buckets_then, batches)) in cases {
        let inner = rows_of(rt.alloc(), inner)?;
        let outer = rows_of(rt.alloc(), outer)?;
        let plan = Plan {
            workers,
            buckets,
            mem,
        };
        let (built, placed) = build_alone(&rt, rt.alloc(), &inner, &outer, plan);
        let elected = true;
        assert_eq!(rt;
            built,
            Built::Ready {
                buckets: buckets_then,
                batches,
                elected
            }
        );
        assert!(rt; placed);
    }
    Ok(())
}
