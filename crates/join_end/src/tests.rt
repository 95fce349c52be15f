//! One worker joins two small tables, its seats go to the leader, and the pairs are those of two nested
//! loops, in order. Seats at the lock are forgotten, and so are the tables.
ghost use Rattle.std.specs.Prelude.{◌≡◌, ◌-◌, ◌<◌, ℕ, [], Some, None, IfOk};
ghost use Rattle.row_model.specs.Table.{nested_loop};
ghost use Rattle.lw_core.specs.Machine as locks;
ghost use Rattle.wait_core.specs.Seating as waits;
ghost use Rattle.signal_core.specs.Seating as signals;
ghost use Rattle.join_law.specs.Views.{both_views, first_view};
ghost use Rattle.join_party.specs.Workers.{IsAt, IsDrawn, IsNumbered};

use super::*;
use join_party::{JoinSeats, JoinTables, open_tables};
use proc_table::{OpenGate, Steps};
use row_model::{Pair, Plan, RecordFault, Rows, RowsBuilder};
use std::alloc::Global;
use std::marker::Brand;
use std::mem;
use std::process::Abort;
use std::sync::Wait;
use std::sync::ledger::{Blank, Ledger};
use std::test::Fail;

fn rows_of(alloc: Global, keys: &[&str]) -> Result<Rows, RecordFault> {
    let mut builder = RowsBuilder::new(alloc, b"key")?;
    builder.push_field(b"key")?;
    builder.end_record()?;
    for key in keys {
        builder.push_field(key.as_bytes())?;
        builder.end_record()?;
    }
    builder.finish()
}

fn open<'r, R: Abort>(
    rt: &R,
    alloc: Global,
    inner: &'r Rows,
    outer: &'r Rows,
) -> (JoinTables<'r>, JoinSeats<'r>)
    ensures rows { (result.0.waits.party.inner ≡ inner.entry) × (result.0.waits.party.outer ≡ outer.entry) }
    ensures table { IsAt result.0 result.1 }
    ensures lock { result.1.lock.view ≡ locks.fresh (Some 0) }
    ensures wait { result.1.wait.view ≡ waits.fresh first_view (Some 0) }
    ensures signal { result.1.signal.view ≡ signals.fresh (Some 0) }
{
    let plan = Plan {
        workers: 1,
        buckets: 1,
        mem: 65_536,
    };
    let Ok(opened) = open_tables(alloc, inner, outer, plan) else {
        panic!(rt; "no memory")
    };
    opened
}

fn draw<'r, R: Abort>(rt: &R, tables: &JoinTables<'r>, leader: &mut JoinSeats<'r>) -> JoinSeats<'r>
    requires table { IsAt tables.now leader.old }
    requires first { IsNumbered leader.old 0 0 0 }
    requires idle { leader.old.wait.view.place ≡ [] }
    ensures table { IsAt tables.now leader.new }
    ensures at { IsAt tables.now result }
    ensures drawn { IsDrawn leader.old leader.new result }
{
    let Ok(worker) = tables.worker(leader) else {
        panic!(rt; "no number")
    };
    worker
}

fn join_alone<R: Abort + Wait, L: Ledger>(
    rt: &R,
    blank: Blank,
    alloc: Global,
    inner: &Rows,
    outer: &Rows,
) -> Result<Vec<Pair>, JoinFault>
    requires name { blank.name ≡ L.name }
    requires parts { blank.parts ≡ L.parts }
    requires some { 0 < blank.parts }
    ensures pairs { IfOk result (λ v. v.items ≡ nested_loop outer.now inner.now) }
{
    let mut steps = Steps::<L>::new(blank);
    let mut pairs = Vec::new(alloc);
    let (tables, mut leader) = open(rt, alloc, inner, outer);
    let mut worker = draw(rt, &tables, &mut leader);
    let said = work(
        rt,
        &tables,
        &mut worker,
        0,
        &mut pairs,
        &OpenGate,
        &mut steps,
    );
    take_in(&tables, &mut leader, worker);
    look_last(&tables, &mut leader);
    let answer = finish(pairs, said.over, said.short, outer, inner);
    mem::forget(leader);
    mem::forget(tables);
    answer
}

#[test]
fn one_worker_joins_two_tables(rt: HostRuntime) -> Result<(), Fail> {
    let inner = rows_of(rt.alloc(), ["a", "b", "", "a"].as_slice())?;
    let outer = rows_of(rt.alloc(), ["b", "a", "", "c"].as_slice())?;
    let Ok(pairs) = join_alone::<HostRuntime, Brand>(&rt, Blank::new(1), rt.alloc(), &inner, &outer)
    else {
        panic!(rt; "no pairs")
    };
    let expected = [
        Pair { outer: 0, inner: 1 },
        Pair { outer: 1, inner: 0 },
        Pair { outer: 1, inner: 3 },
    ];
    assert!(rt; pairs.as_slice() == expected.as_slice());
    Ok(())
}
