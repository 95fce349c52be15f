//! Rows that are claimed come to hand once, whoever claims them.
ghost use Rattle.std.specs.Prelude.{◌≡◌, [], None, Some};
ghost use Rattle.wait_core.specs.Parties.{phase_of};
ghost use Rattle.wait_core.specs.Seating.{party_of};
ghost use Rattle.join_law.specs.Machine.{At, claim_phase};
ghost use Rattle.join_law.specs.Phases.{build};
ghost use Rattle.join_law.specs.Views.{first_view};
ghost use Rattle.row_model.specs.declared.Side.TheVariants.{Inner};

use super::*;
use phase_barrier::{arrive_and_wait, attach};
use proc_table::{BarNo, NoMemory};
use row_model::Side;
use std::sync::Wait;
use std::thread::{Threads, join};

fn the_build() -> BarNo
    ensures { result ≡ 0 }
{
    let Some(bar) = BarNo::new(0) else {
        unreachable!()
    };
    bar
}

// Takes part in the build from its first phase on.
fn take_part<'r, R: Abort + Wait>(rt: &R, tables: &JoinTables<'r>, seats: &mut JoinSeats<'r>)
    requires table { seats.old.wait.table_id ≡ tables.now.waits.table_id }
    requires fresh { (seats.old.wait.view.place ≡ []) × (seats.old.wait.view.target ≡ None) × (seats.old.wait.view.attached ≡ []) × (seats.old.wait.view.client ≡ first_view) }
    ensures table { seats.new.wait.table_id ≡ seats.old.wait.table_id }
    ensures idle { (seats.new.wait.view.place ≡ []) × (seats.new.wait.view.target ≡ None) × (seats.new.wait.view.client ≡ first_view) }
    ensures phase { At (party_of seats.new.wait.view) build 0 }
{
    assert!(rt; attach(rt, &tables.waits, &mut seats.wait, the_build()) == 0);
}

// Arrives, and waits until the next phase, in which sizes are allocated.
fn go_to_allocate<'r, R: Abort + Wait>(rt: &R, tables: &JoinTables<'r>, seats: &mut JoinSeats<'r>)
    requires table { seats.old.wait.table_id ≡ tables.now.waits.table_id }
    requires idle { (seats.old.wait.view.place ≡ []) × (seats.old.wait.view.target ≡ None) × (seats.old.wait.view.client ≡ first_view) }
    requires phase { At (party_of seats.old.wait.view) build 0 }
    ensures table { seats.new.wait.table_id ≡ seats.old.wait.table_id }
    ensures idle { (seats.new.wait.view.place ≡ []) × (seats.new.wait.view.target ≡ None) × (seats.new.wait.view.client ≡ first_view) }
    ensures phase { At (party_of seats.new.wait.view) build 1 }
{
    assert!(rt; arrive_and_wait(rt, &tables.waits, &mut seats.wait, the_build()).is_ok());
}

// And until the one after it, in which inner rows are hashed.
fn go_to_hash<'r, R: Abort + Wait>(rt: &R, tables: &JoinTables<'r>, seats: &mut JoinSeats<'r>)
    requires table { seats.old.wait.table_id ≡ tables.now.waits.table_id }
    requires idle { (seats.old.wait.view.place ≡ []) × (seats.old.wait.view.target ≡ None) × (seats.old.wait.view.client ≡ first_view) }
    requires phase { At (party_of seats.old.wait.view) build 1 }
    ensures table { seats.new.wait.table_id ≡ seats.old.wait.table_id }
    ensures idle { seats.new.wait.view.place ≡ [] }
    ensures phase { At (party_of seats.new.wait.view) build (claim_phase Inner) }
{
    assert!(rt; arrive_and_wait(rt, &tables.waits, &mut seats.wait, the_build()).is_ok());
}

// Claims all inner rows that are left. The chunks in turn, or None where memory is wanting.
fn claim_all<'r, R: Abort>(
    rt: &R,
    alloc: Global,
    tables: &JoinTables<'r>,
    seats: &mut JoinSeats<'r>,
) -> Option<Vec<Chunk>>
    requires table { seats.old.wait.table_id ≡ tables.now.waits.table_id }
    requires idle { seats.old.wait.view.place ≡ [] }
    requires phase { At (party_of seats.old.wait.view) build (claim_phase Inner) }
{
    let mut chunks = Vec::new(alloc);
    for _ in 0..1000u32 {
        let Some(chunk) = claim(tables, seats, Side::Inner) else {
            return Some(chunks);
        };
        if chunks.push(chunk).is_err() {
            return None;
        }
    }
    panic!(rt; "no end of the rows")
}

// Takes part in the build until it has claimed its rows.
fn work<'r, R: Abort + Wait>(
    rt: &R,
    alloc: Global,
    tables: &JoinTables<'r>,
    mut seats: JoinSeats<'r>,
) -> Option<Vec<Chunk>>
    requires table { seats.wait.table_id ≡ tables.now.waits.table_id }
    requires idle { (seats.wait.view.place ≡ []) × (seats.wait.view.target ≡ None) × (seats.wait.view.client ≡ first_view) }
    requires phase { At (party_of seats.wait.view) build 0 }
{
    go_to_allocate(rt, tables, &mut seats);
    go_to_hash(rt, tables, &mut seats);
    let chunks = claim_all(rt, alloc, tables, &mut seats);
    mem::forget(seats);
    chunks
}

// Two seats do so in two threads.
fn work_side_by_side<'r, R: Abort + Threads + Wait + Sync>(
    rt: &R,
    alloc: Global,
    tables: &JoinTables<'r>,
    leader: JoinSeats<'r>,
    worker: JoinSeats<'r>,
) -> (Option<Vec<Chunk>>, Option<Vec<Chunk>>)
    requires table { (leader.wait.table_id ≡ tables.now.waits.table_id) × (worker.wait.table_id ≡ tables.now.waits.table_id) }
    requires leader { (leader.wait.view.place ≡ []) × (leader.wait.view.target ≡ None) × (leader.wait.view.client ≡ first_view) × At (party_of leader.wait.view) build 0 }
    requires worker { (worker.wait.view.place ≡ []) × (worker.wait.view.target ≡ None) × (worker.wait.view.client ≡ first_view) × At (party_of worker.wait.view) build 0 }
{
    join(
        rt,
        move || -> Option<Vec<Chunk>>
            requires { (leader.wait.table_id ≡ tables.now.waits.table_id) × (leader.wait.view.place ≡ []) × (leader.wait.view.target ≡ None) × (leader.wait.view.client ≡ first_view) × At (party_of leader.wait.view) build 0 }
        { work(rt, alloc, tables, leader) },
        move || -> Option<Vec<Chunk>>
            requires { (worker.wait.table_id ≡ tables.now.waits.table_id) × (worker.wait.view.place ≡ []) × (worker.wait.view.target ≡ None) × (worker.wait.view.client ≡ first_view) × At (party_of worker.wait.view) build 0 }
        { work(rt, alloc, tables, worker) },
    )
}

// Counts how often each row is in one of the chunks.
fn count_rows(counts: &mut Vec<u32>, chunks: &[Chunk]) -> bool {
    for chunk in chunks {
        for row in chunk.first..u32::wrapping_add(chunk.first, chunk.count) {
            let Some(count) = counts.get_mut(row as usize) else {
                return false;
            };
            *count = u32::wrapping_add(*count, 1);
        }
    }
    true
}

// Each of so many rows is in one chunk.
fn hand_out_each_row_once(
    alloc: Global,
    rows: u32,
    chunks: &[Option<Vec<Chunk>>],
) -> Result<bool, NoMemory> {
    let mut counts = Vec::new(alloc);
    counts.resize(rows as usize, 0u32)?;
    for claimed in chunks {
        let Some(claimed) = claimed else {
            return Err(NoMemory);
        };
        if !count_rows(&mut counts, claimed.as_slice()) {
            return Ok(false);
        }
    }
    Ok(counts.as_slice().iter().all(|count| *count == 1))
}

#[test]
fn a_seat_claims_each_row_once(rt: HostRuntime) -> Result<(), Fail> {
    for count in [0, 1, 64, 65, 1000] {
        let rows = some_rows(rt.alloc(), count)?;
        let (tables, mut seats) = open(&rt, rt.alloc(), &rows, 1, 1);
        take_part(&rt, &tables, &mut seats);
        let chunks = work(&rt, rt.alloc(), &tables, seats);
        mem::forget(tables);
        let once = hand_out_each_row_once(rt.alloc(), count, [chunks].as_slice())?;
        assert!(rt; once);
    }
    Ok(())
}

#[test]
fn two_seats_claim_each_row_once(rt: HostRuntime) -> Result<(), Fail> {
    let rows = some_rows(rt.alloc(), 10_000)?;
    let (tables, mut leader) = open(&rt, rt.alloc(), &rows, 1, 1);
    let Ok(mut worker) = tables.worker(&mut leader) else {
        panic!(rt; "no number")
    };
    take_part(&rt, &tables, &mut leader);
    take_part(&rt, &tables, &mut worker);
    let (first, second) = work_side_by_side(&rt, rt.alloc(), &tables, leader, worker);
    mem::forget(tables);
    let once = hand_out_each_row_once(rt.alloc(), 10_000, [first, second].as_slice())?;
    assert!(rt; once);
    Ok(())
}
