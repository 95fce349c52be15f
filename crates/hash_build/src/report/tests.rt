//! Reports add up, and say which growth is wanted until it ends.
ghost use Rattle.std.specs.Prelude.{◌≡◌, ◌≤◌, [], None, Some};
ghost use Rattle.lw_core.specs.Machine.{mode_in};

use super::*;
use join_party::open_tables;
use row_model::{Plan, RecordFault, Rows, RowsBuilder};
use std::alloc::Global;
use std::mem;
use std::process::Abort;
use std::test::Fail;

fn no_rows(alloc: Global) -> Result<Rows, RecordFault> {
    let mut builder = RowsBuilder::new(alloc, b"key")?;
    builder.push_field(b"key")?;
    builder.end_record()?;
    builder.finish()
}

fn open<'r, R: Abort>(rt: &R, alloc: Global, rows: &'r Rows) -> (JoinTables<'r>, JoinSeats<'r>)
    ensures table { result.1.lock.table_id ≡ result.0.locks.table_id }
    ensures idle { (result.1.lock.view.place ≡ []) × (mode_in 0 result.1.lock.view ≡ None) }
{
    let plan = Plan {
        workers: 1,
        buckets: 8,
        mem: 10,
    };
    let Ok(opened) = open_tables(alloc, rows, rows, plan) else {
        panic!(rt; "no memory")
    };
    opened
}

// What the lock's words say.
fn read_back<'r, R: Wait>(rt: &R, tables: &JoinTables<'r>, seats: &mut JoinSeats<'r>) -> Reported
    requires table { seats.old.lock.table_id ≡ tables.now.locks.table_id }
    requires idle { (seats.old.lock.view.place ≡ []) × (mode_in 0 seats.old.lock.view ≡ None) }
    ensures table { seats.new.lock.table_id ≡ seats.old.lock.table_id }
    ensures idle { (seats.new.lock.view.place ≡ []) × (mode_in 0 seats.new.lock.view ≡ None) }
{
    let lock = the_lock();
    acquire(rt, &tables.locks, &mut seats.lock, lock, Mode::Exclusive);
    let found = read_words(&tables.locks, &mut seats.lock, lock);
    release(rt, &tables.locks, &mut seats.lock, lock);
    found
}

// Sizes with room for both growths; with 64 batches, and no room for more; with too many chains for two
// times the batches.
#[derive(Clone, Copy)]
enum Room {
    Both,
    NoBatches,
    NoChains,
}

fn sizes_with(room: Room) -> Sizes
    ensures { (result.half ≤ 1) × (result.buckets ≤ 262144) × (result.batches ≤ 64) }
{
    let (buckets, batches) = match room {
        Room::Both => (2, 1),
        Room::NoBatches => (1, 64),
        Room::NoChains => (131_072, 8),
    };
    Sizes {
        half: 0,
        buckets,
        batches,
    }
}

// What a worker says: of a chunk of one row, or that a growth has ended.
#[derive(Clone, Copy)]
enum Said {
    Chunk(Room, u64),
    End(bool, Option<u64>),
}

// Says it, and answers the growth that is wanted then.
fn say<'r, R: Wait>(
    rt: &R,
    tables: &JoinTables<'r>,
    seats: &mut JoinSeats<'r>,
    said: Said,
) -> Option<Growth>
    requires table { seats.old.lock.table_id ≡ tables.now.locks.table_id }
    requires idle { (seats.old.lock.view.place ≡ []) × (mode_in 0 seats.old.lock.view ≡ None) }
    ensures table { seats.new.lock.table_id ≡ seats.old.lock.table_id }
    ensures idle { (seats.new.lock.view.place ≡ []) × (mode_in 0 seats.new.lock.view ≡ None) }
{
    match said {
        Said::Chunk(room, largest) => report(rt, tables, seats, sizes_with(room), 1, largest),
        Said::End(stopped, largest) => {
            end_growth(rt, tables, seats, stopped, largest);
            None
        }
    }
}

#[test]
fn three_reports_add_up(rt: HostRuntime) -> Result<(), Fail> {
    let rows = no_rows(rt.alloc())?;
    let (tables, mut seats) = open(&rt, rt.alloc(), &rows);
    let sizes = sizes_with(Room::Both);
    report(&rt, &tables, &mut seats, sizes, 1, 1);
    report(&rt, &tables, &mut seats, sizes, 64, 0);
    report(&rt, &tables, &mut seats, sizes, 10, 0);
    let found = read_back(&rt, &tables, &mut seats);
    assert_eq!(rt; found.rows, 75);
    assert_eq!(rt; found.wanted, 0);
    assert_eq!(rt; found.largest, 1);
    assert_eq!(rt; found.reports, 3);
    mem::forget(seats);
    mem::forget(tables);
    Ok(())
}

#[test]
fn a_growth_is_wanted_until_it_ends(rt: HostRuntime) -> Result<(), Fail> {
    let rows = no_rows(rt.alloc())?;
    let (tables, mut seats) = open(&rt, rt.alloc(), &rows);
    // What is said, the growth that is wanted then, and the words that say so and which batch is largest.
    let cases = [
        (Said::Chunk(Room::Both, 1), None, 0, 1),
        (Said::Chunk(Room::Both, 2), Some(Growth::Buckets), 1, 2),
        (Said::Chunk(Room::Both, 11), Some(Growth::Buckets), 1, 11),
        (Said::End(false, Some(0)), None, 0, 0),
        (Said::Chunk(Room::Both, 11), Some(Growth::Batches), 2, 11),
        (Said::End(false, None), None, 0, 11),
        (Said::Chunk(Room::NoBatches, 3), None, 0, 11),
        (Said::Chunk(Room::NoChains, 12), None, 0, 12),
        (Said::Chunk(Room::Both, 3), Some(Growth::Batches), 2, 12),
        (Said::End(true, None), None, 3, 12),
        (Said::Chunk(Room::Both, 13), None, 3, 13),
        (Said::End(false, Some(5)), None, 0, 5),
    ];
    for (said, growth, wanted, largest) in cases {
        assert_eq!(rt; say(&rt, &tables, &mut seats, said), growth);
        let found = read_back(&rt, &tables, &mut seats);
        assert_eq!(rt; found.wanted, wanted);
        assert_eq!(rt; found.largest, largest);
    }
    mem::forget(seats);
    mem::forget(tables);
    Ok(())
}
