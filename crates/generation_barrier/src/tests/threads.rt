//! Three workers absorb what a fourth backend emits, which waits for all after each emission.
ghost use Rattle.std.specs.Prelude.{◌≡◌, [], None, Some};
ghost use Rattle.proc_signal.specs.Signals.{joined_at};
ghost use Rattle.generation_barrier.specs.Waiting.{HasNotices};

use super::*;
use std::alloc::AllocError;
use std::sync::Wait;
use std::sync::atomic::{AtomicU64, Ordering};
use std::thread::{self, Threads};
use wait_core::WaitSeat;

// How many emissions are made, of the kinds 0 to 3 in turn.
const EMISSIONS: u32 = 1000;

// Takes each kind, and counts it in its record. It knows the kinds since the last publication, one
// bit each.
#[derive(Drop)]
struct Recorder<'t> {
    kinds: u32,
    record: &'t AtomicU64,
}

impl Absorber for Recorder<'_> {
    ghost meets = { λ _ _ _ _. Unit {0} };

    fn take_kind(&mut self, kind: u32) -> bool {
        self.kinds |= 1 << kind;
        self.record.fetch_add(1, Ordering::SeqCst);
        true
    }
}

// A backend that is in its slot, which it joined with this generation.
#[derive(Drop)]
struct Worker<'t> {
    table: &'t Signals,
    waits: &'t Waits,
    seat: SigSeat,
    wait_seat: WaitSeat<NoParty>,
    joined: u64,
    record: &'t AtomicU64,
    ghost seated: { (seat.table_id ≡ table.now.table_id) × (wait_seat.table_id ≡ waits.now.table_id) },
    ghost idle: { (seat.view.place ≡ None) × (wait_seat.view.place ≡ []) × (wait_seat.view.target ≡ None) },
    ghost inside: { seat.view.slot ≡ joined_at joined },
    ghost notices: { HasNotices table.now.procs waits.now.cvs },
}

// A backend that isn't, and sees the records of the workers.
#[derive(Drop)]
struct Emitter<'t> {
    table: &'t Signals,
    waits: &'t Waits,
    seat: SigSeat,
    wait_seat: WaitSeat<NoParty>,
    records: &'t [AtomicU64],
    ghost seated: { (seat.table_id ≡ table.now.table_id) × (wait_seat.table_id ≡ waits.now.table_id) },
    ghost idle: { (seat.view.place ≡ None) × (wait_seat.view.place ≡ []) × (wait_seat.view.target ≡ None) },
    ghost apart: { seat.view.slot ≡ None },
    ghost notices: { HasNotices table.now.procs waits.now.cvs },
}

// Absorbs until all emissions are published, and leaves its slot. Whether each publication was of
// one emission more, and its kind was taken since the one before.
fn absorb_all<R: Wait>(rt: &R, worker: Worker<'_>) -> bool {
    let Worker {
        table,
        waits,
        mut seat,
        mut wait_seat,
        joined,
        record,
    } = worker;
    let mut takes = Recorder { kinds: 0, record };
    let mut steady = true;
    let mut published: u32 = 0;
    for _ in rt.forever() {
        if published >= EMISSIONS {
            break;
        }
        if let Absorb::Published { generation } = absorb(table, &mut seat, &mut takes) {
            publish_notice(rt, table, &seat, waits, &mut wait_seat);
            steady &= takes.kinds == 1 << (published % 4);
            takes.kinds = 0;
            published += 1;
            steady &= generation == u64::wrapping_add(joined, u64::from(published));
        }
        thread::yield_now();
    }
    leave_slot(rt, table, &mut seat, waits, &mut wait_seat);
    steady
}

// Whether each worker has taken at least so many kinds.
fn all_took(records: &[AtomicU64], count: u64) -> bool {
    for record in records {
        if record.load(Ordering::SeqCst) < count {
            return false;
        }
    }
    true
}

// Emits, and waits after each. Whether all had taken it each time.
fn emit_all<R: Wait>(rt: &R, emitter: Emitter<'_>) -> bool {
    let Emitter {
        table,
        waits,
        mut seat,
        mut wait_seat,
        records,
    } = emitter;
    let mut steady = true;
    for turn in 0..EMISSIONS {
        let Ok(generation) = emit(table, &mut seat, turn % 4, 7) else {
            return false;
        };
        wait_for(rt, table, &mut seat, waits, &mut wait_seat, generation);
        steady &= all_took(records, u64::from(turn) + 1);
    }
    steady
}

// Each worker in a thread of its own.
fn absorb_side_by_side<R: Threads + Wait + Sync>(
    rt: &R,
    workers: Vec<Worker<'_>>,
) -> Result<Vec<bool>, AllocError> {
    thread::map_vec(rt, workers, &|worker| absorb_all(rt, worker))
}

// Whether all was steady for the emitter, and for each worker.
fn run<R: Threads + Wait + Sync>(
    rt: &R,
    emitter: Emitter<'_>,
    workers: Vec<Worker<'_>>,
) -> (bool, Result<Vec<bool>, AllocError>) {
    thread::join(
        rt,
        move || -> bool { emit_all(rt, emitter) },
        move || -> Result<Vec<bool>, AllocError> { absorb_side_by_side(rt, workers) },
    )
}

// A worker with the next number at both tables.
fn draw<'t, R: Abort>(
    rt: &R,
    table: &'t Signals,
    waits: &'t Waits,
    zero: &mut SigSeat,
    waiter: &mut WaitSeat<NoParty>,
    record: &'t AtomicU64,
) -> Worker<'t>
    requires table { (zero.old.table_id ≡ table.now.table_id) × (waiter.old.table_id ≡ waits.now.table_id) }
    requires first { (zero.old.view.own ≡ Some 0) × (waiter.old.view.own ≡ Some 0) }
    requires notices { HasNotices table.now.procs waits.now.cvs }
    ensures table { (zero.new.table_id ≡ table.now.table_id) × (waiter.new.table_id ≡ waits.now.table_id) }
    ensures first { (zero.new.view.own ≡ Some 0) × (waiter.new.view.own ≡ Some 0) }
    ensures idle { (zero.new.view.place ≡ zero.old.view.place) × (zero.new.view.slot ≡ zero.old.view.slot) × (waiter.new.view.place ≡ waiter.old.view.place) × (waiter.new.view.target ≡ waiter.old.view.target) }
{
    let Ok(mut seat) = table.seat(zero) else {
        panic!(rt; "no number")
    };
    let Ok(wait_seat) = waits.seat(waiter) else {
        panic!(rt; "no number")
    };
    let joined = join_slot(table, &mut seat);
    Worker {
        table,
        waits,
        seat,
        wait_seat,
        joined,
        record,
    }
}

#[test]
fn each_emission_is_absorbed_before_it_is_waited_for(rt: HostRuntime) -> Result<(), Fail> {
    let Ok((table, mut zero)) = Signals::new(rt.alloc(), 4, 0) else {
        panic!(rt; "no memory")
    };
    let Ok((waits, mut waiter)) = Waits::new(rt.alloc(), NoParty, 4, 76, 1, 0) else {
        panic!(rt; "no memory")
    };
    let records = [AtomicU64::new(0), AtomicU64::new(0), AtomicU64::new(0)];
    let mut workers = Vec::new(rt.alloc());
    for record in &records {
        workers.push(draw(&rt, &table, &waits, &mut zero, &mut waiter, record))?;
    }
    let emitter = Emitter {
        table: &table,
        waits: &waits,
        seat: zero,
        wait_seat: waiter,
        records: &records,
    };
    let (waited, absorbed) = run(&rt, emitter, workers);
    assert!(rt; waited && absorbed?.as_slice() == [true, true, true].as_slice());
    Ok(())
}
