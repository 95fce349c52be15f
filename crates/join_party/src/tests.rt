//! The tables at the limits of a plan, a worker too many at each of them, and the claiming of rows.
//! Seats at the join's words are forgotten, since no function that lets one go is proved.
ghost use Rattle.std.specs.Prelude.{◌≡◌, ◌+◌, [], Some};
ghost use Rattle.wait_core.specs.Seating.{fresh};
ghost use Rattle.join_law.specs.Views.{first_view};
ghost use Rattle.join_party.specs.Workers.{IsAt, IsNumbered};

mod claiming;

use super::*;
use proc_table::NoMoreProcs;
use row_model::{Plan, RecordFault, Rows, RowsBuilder};
use std::alloc::Global;
use std::mem;
use std::process::Abort;
use std::test::Fail;

// A table of so many rows, all alike.
fn some_rows(alloc: Global, count: u32) -> Result<Rows, RecordFault> {
    let mut builder = RowsBuilder::new(alloc, b"key")?;
    builder.push_field(b"key")?;
    builder.end_record()?;
    for _ in 0..count {
        builder.push_field(b"a")?;
        builder.end_record()?;
    }
    builder.finish()
}

fn open<'r, R: Abort>(
    rt: &R,
    alloc: Global,
    rows: &'r Rows,
    workers: u32,
    buckets: u32,
) -> (JoinTables<'r>, JoinSeats<'r>)
    ensures seats { IsAt result.0 result.1 × IsNumbered result.1 0 0 0 }
    ensures fresh { result.1.wait.view ≡ fresh first_view (Some 0) }
    ensures plan { result.0.plan.workers ≡ workers }
{
    assert!(rt; 0 < workers && workers <= 16 && buckets <= 262_144);
    let buckets = buckets.next_power_of_two();
    assert!(rt; buckets <= 262_144);
    let plan = Plan {
        workers,
        buckets,
        mem: 1,
    };
    let Ok(opened) = open_tables(alloc, rows, rows, plan) else {
        panic!(rt; "no memory")
    };
    opened
}

// Draws so many workers, and says how many were drawn when the next one was refused.
fn draw_all<'r, R: Abort>(
    rt: &R,
    tables: &JoinTables<'r>,
    leader: &mut JoinSeats<'r>,
    workers: u32,
) -> u64
    requires seats { IsAt tables.now leader.old × IsNumbered leader.old 0 0 0 }
    requires idle { leader.old.wait.view.place ≡ [] }
{
    for _ in 0..workers {
        let Ok(worker) = tables.worker(leader) else {
            panic!(rt; "no number")
        };
        mem::forget(worker);
    }
    match tables.worker(leader) {
        Ok(worker) => {
            mem::forget(worker);
            0
        }
        Err(refused) => refused.drawn,
    }
}

#[test]
fn tables_have_room_for_each_worker_of_the_plan(rt: HostRuntime) -> Result<(), Fail> {
    // Workers, buckets and rows, and how many batches the first growth of them brings and how many chains there are.
    let cases = [
        (1, 1, 1, 2, 2),
        (1, 1, 2, 2, 256),
        (3, 1, 2, 8, 256),
        (16, 1, 2, 32, 256),
        (16, 4096, 2, 32, 262_144),
        (16, 16_384, 2, 32, 524_288),
        (1, 262_144, 2, 2, 524_288),
        (16, 262_144, 1, 32, 262_144),
    ];
    for (workers, buckets, count, batches, chains) in cases {
        let rows = some_rows(rt.alloc(), count)?;
        let (tables, mut leader) = open(&rt, rt.alloc(), &rows, workers, buckets);
        assert_eq!(rt; tables.plan.workers, workers);
        assert_eq!(rt; tables.plan.buckets, buckets);
        assert_eq!(rt; tables.waits.party().first_batches, batches);
        assert_eq!(rt; tables.waits.party().chains, chains);
        let drawn = draw_all(&rt, &tables, &mut leader, workers);
        assert_eq!(rt; drawn, u64::from(workers) + 1);
        mem::forget(leader);
        mem::forget(tables);
    }
    Ok(())
}

// One of the tables of a join.
#[derive(Clone, Copy)]
enum Full {
    Locks,
    Waits,
    Signals,
}

// Draws the second number of a table.
fn fill<'r, R: Abort>(rt: &R, tables: &JoinTables<'r>, leader: &mut JoinSeats<'r>, full: Full)
    requires seats { IsAt tables.now leader.old × IsNumbered leader.old 0 0 0 }
    requires idle { leader.old.wait.view.place ≡ [] }
    ensures seats { IsAt tables.now leader.new × IsNumbered leader.new 0 0 0 }
    ensures idle { leader.new.wait.view.place ≡ [] }
{
    match full {
        Full::Locks => {
            assert!(rt; tables.locks.seat(&mut leader.lock).is_ok());
        }
        Full::Waits => {
            let Ok(seat) = tables.waits.seat(&mut leader.wait) else {
                panic!(rt; "no number")
            };
            mem::forget(seat);
        }
        Full::Signals => {
            assert!(rt; tables.signals.seat(&mut leader.signal).is_ok());
        }
    }
}

#[test]
fn a_full_table_refuses_a_worker(rt: HostRuntime) -> Result<(), Fail> {
    let rows = some_rows(rt.alloc(), 0)?;
    for full in [Full::Locks, Full::Waits, Full::Signals] {
        let (tables, mut leader) = open(&rt, rt.alloc(), &rows, 1, 1);
        fill(&rt, &tables, &mut leader, full);
        match tables.worker(&mut leader) {
            Ok(worker) => {
                mem::forget(worker);
                panic!(rt; "a worker where a table is full")
            }
            Err(NoMoreProcs { drawn }) => assert_eq!(rt; drawn, 2),
        }
        let kept = tables.signals.seat(&mut leader.signal).is_ok();
        assert_eq!(rt; kept, !matches!(full, Full::Signals));
        mem::forget(leader);
        mem::forget(tables);
    }
    Ok(())
}
