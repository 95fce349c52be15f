//! What no clause says: how many are elected, and what the words are that all read.
ghost use Rattle.std.specs.Prelude.{◌≡◌, ◌<◌, [], None, Some};
ghost use Rattle.wait_core.specs.Seating.{party_of};
ghost use Rattle.equal_words.specs.declared.Progress.TheVariants.{Fresh};
ghost use Rattle.equal_words.specs.Turns.{IsAt};

use super::*;
use phase_barrier::attach;
use std::process::Abort;
use std::sync::Wait;
use std::test::Fail;
use std::thread;
use wait_core::{WaitSeat, WaitTable};

type Table = WaitTable<EqualWords>;

type Seat = WaitSeat<EqualWords>;

// A seat that is attached to nothing yet.
#[derive(Drop)]
struct Newcomer<'t> {
    table: &'t Table,
    seat: Seat,
    ghost seated: { (seat.table_id ≡ table.now.table_id) × (0 < table.now.bars) },
    ghost idle: { (seat.view.place ≡ []) × (seat.view.target ≡ None) },
    ghost fresh: { (seat.view.attached ≡ []) × (seat.view.client ≡ Fresh) },
}

// Attached in phase 0, and has added to neither word.
#[derive(Drop)]
struct Worker<'t> {
    table: &'t Table,
    seat: Seat,
    ghost seated: { (seat.table_id ≡ table.now.table_id) × (0 < table.now.bars) },
    ghost idle: { (seat.view.place ≡ []) × (seat.view.target ≡ None) },
    ghost turn: { IsAt 0 (party_of seat.view) × (seat.view.client ≡ Fresh) },
}

fn draw<'t, R: Abort>(rt: &R, table: &'t Table, zero: &mut Seat) -> Newcomer<'t>
    requires table { (zero.old.table_id ≡ table.now.table_id) × (0 < table.now.bars) }
    requires zero { zero.old.view.own ≡ Some 0 }
    ensures table { zero.new.table_id ≡ zero.old.table_id }
    ensures zero { zero.new.view.own ≡ Some 0 }
    ensures idle { (zero.new.view.place ≡ zero.old.view.place) × (zero.new.view.target ≡ zero.old.view.target) }
    ensures fresh { (zero.new.view.attached ≡ zero.old.view.attached) × (zero.new.view.client ≡ zero.old.view.client) }
{
    let Ok(seat) = table.seat(zero) else {
        panic!(rt; "no number")
    };
    Newcomer { table, seat }
}

fn begin<'t, R: Abort + Wait>(rt: &R, newcomer: Newcomer<'t>) -> Worker<'t> {
    let Newcomer { table, mut seat } = newcomer;
    if attach(rt, table, &mut seat, the_barrier()) != 0 {
        panic!(rt; "the phase has passed")
    }
    Worker { table, seat }
}

fn work<R: Wait>(rt: &R, worker: Worker<'_>) -> Reading {
    let Worker { table, mut seat } = worker;
    add_both(table, &mut seat);
    arrive_and_read(rt, table, &mut seat)
}

fn come<R: Wait>(rt: &R, newcomer: Newcomer<'_>) -> Reading {
    let Newcomer { table, mut seat } = newcomer;
    take_part(rt, table, &mut seat)
}

fn elected(readings: &[Reading]) -> usize {
    readings.iter().filter(|reading| reading.elected).count()
}

#[test]
fn all_read_what_four_have_added(rt: HostRuntime) -> Result<(), Fail> {
    let Ok((table, mut zero)) = Table::new(rt.alloc(), EqualWords, 5, 1, 1, 0) else {
        panic!(rt; "no memory")
    };
    let mut workers = Vec::new(rt.alloc());
    for _ in 0..4u32 {
        workers.push(begin(&rt, draw(&rt, &table, &mut zero)))?;
    }
    let readings = thread::map_vec(&rt, workers, &|worker| work(&rt, worker))?;
    for reading in &readings {
        assert!(rt; (reading.first, reading.second) == (4, 4));
    }
    assert!(rt; elected(readings.as_slice()) == 1);
    let late = take_part(&rt, &table, &mut zero);
    assert!(rt;
        late == Reading {
            elected: false,
            first: 4,
            second: 4
        }
    );
    Ok(())
}

// Some of them may come when the others have passed the phase.
#[test]
fn whoever_comes_reads_equal_words(rt: HostRuntime) -> Result<(), Fail> {
    let Ok((table, mut zero)) = Table::new(rt.alloc(), EqualWords, 5, 1, 1, 0) else {
        panic!(rt; "no memory")
    };
    let mut newcomers = Vec::new(rt.alloc());
    for _ in 0..4u32 {
        newcomers.push(draw(&rt, &table, &mut zero))?;
    }
    let readings = thread::map_vec(&rt, newcomers, &|newcomer| come(&rt, newcomer))?;
    for reading in &readings {
        assert!(rt; reading.first == reading.second);
    }
    assert!(rt; elected(readings.as_slice()) == 1);
    Ok(())
}
