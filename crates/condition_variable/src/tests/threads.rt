//! Eight sleepers and a hundred broadcasts, while a stranger sets latches.
ghost use Rattle.std.specs.Prelude.{◌≡◌, ◌<◌, [], None, Some};

use super::*;
use crossbeam_utils::Backoff;
use latch::set_latch;
use std::sync::Wait;
use std::sync::atomic::{AtomicBool, Ordering};
use std::thread;
use std::thread::Threads;

// What a worker does.
#[derive(Clone, Copy)]
enum Role {
    // Sleeps on `go` until each broadcast, and signals `done` each time that it woke.
    Sleeper,
    // Wakes all on `go`, as soon as all have signalled `done`.
    Broadcaster,
    // Sets the latches of the sleepers at random, until all broadcasts were made.
    Stranger,
}

// A backend that is in no call yet. The sleepers have the numbers 1 to 8.
#[derive(Drop)]
struct Worker<'t> {
    table: &'t Conditions,
    seat: Seat,
    role: Role,
    go: CvNo,
    done: CvNo,
    over: &'t AtomicBool,
    ghost seated: { seat.table_id ≡ table.now.table_id },
    ghost idle: { (seat.view.place ≡ []) × (seat.view.target ≡ None) },
    ghost room: { (go < table.now.cvs) × (done < table.now.cvs) × (8 < table.now.procs) },
}

// Signals until somebody is popped.
fn signal_somebody<R: Wait>(rt: &R, table: &Conditions, seat: &mut Seat, cv: CvNo)
    requires table { (seat.old.table_id ≡ table.now.table_id) × (cv < table.now.cvs) }
    requires place { seat.old.view.place ≡ [] }
    ensures table { seat.new.table_id ≡ seat.old.table_id }
    ensures place { (seat.new.view.place ≡ []) × (seat.new.view.target ≡ seat.old.view.target) }
{
    for _ in rt.forever() {
        if signal(rt, table, seat, cv).is_some() {
            return;
        }
    }
    unreachable!()
}

// Sleeps a hundred times. How often it was signalled.
fn sleep_often<R: Wait>(rt: &R, worker: Worker<'_>) -> u32 {
    let Worker {
        table,
        mut seat,
        role: _,
        go,
        done,
        over: _,
    } = worker;
    let mut wakes = 0;
    prepare_to_sleep(rt, table, &mut seat, go);
    signal_somebody(rt, table, &mut seat, done);
    for _ in 0..100u32 {
        if sleep(rt, table, &mut seat, go) == Slept::Signalled {
            wakes = u32::wrapping_add(wakes, 1);
        }
        signal_somebody(rt, table, &mut seat, done);
    }
    if cancel_sleep(rt, table, &mut seat) {
        wakes = u32::wrapping_add(wakes, 1);
    }
    wakes
}

// Sleeps until eight have signalled.
fn wait_for_all<R: Wait>(rt: &R, table: &Conditions, seat: &mut Seat, done: CvNo)
    requires table { (seat.old.table_id ≡ table.now.table_id) × (done < table.now.cvs) }
    requires place { (seat.old.view.place ≡ []) × (seat.old.view.target ≡ Some done) }
    ensures table { seat.new.table_id ≡ seat.old.table_id }
    ensures place { (seat.new.view.place ≡ []) × (seat.new.view.target ≡ Some done) }
{
    for _ in 0..8u32 {
        sleep(rt, table, seat, done);
    }
}

// Wakes all a hundred times.
fn broadcast_often<R: Wait>(rt: &R, worker: Worker<'_>) {
    let Worker {
        table,
        mut seat,
        role: _,
        go,
        done,
        over,
    } = worker;
    prepare_to_sleep(rt, table, &mut seat, done);
    for _ in 0..100u32 {
        wait_for_all(rt, table, &mut seat, done);
        broadcast(rt, table, &mut seat, go);
        prepare_to_sleep(rt, table, &mut seat, done);
    }
    wait_for_all(rt, table, &mut seat, done);
    over.store(true, Ordering::SeqCst);
}

// Sets the latches of the backends 1 to 8 at random, until it is over.
fn set_around<R: Wait>(rt: &R, worker: Worker<'_>) {
    let Worker {
        table,
        mut seat,
        role: _,
        go: _,
        done: _,
        over,
    } = worker;
    let backoff = Backoff::new();
    let mut state = 1;
    for _ in rt.forever() {
        if over.load(Ordering::SeqCst) {
            return;
        }
        state = u32::wrapping_add(u32::wrapping_mul(state, 1_664_525), 1_013_904_223);
        if let Some(target) = ProcNo::new(1 + (state >> 29)) {
            set_latch(table, &mut seat, target);
        }
        backoff.snooze();
    }
    unreachable!()
}

// How often the worker was signalled, if it is a sleeper.
fn work<R: Wait>(rt: &R, worker: Worker<'_>) -> u32 {
    match worker.role {
        Role::Sleeper => sleep_often(rt, worker),
        Role::Broadcaster => {
            broadcast_often(rt, worker);
            0
        }
        Role::Stranger => {
            set_around(rt, worker);
            0
        }
    }
}

#[test]
fn each_broadcast_wakes_each_sleeper_once(rt: HostRuntime) -> Result<(), Fail> {
    let Ok((table, mut zero)) = Conditions::new(rt.alloc(), NoParty, 10, 2, 1, 0) else {
        panic!(rt; "no memory")
    };
    let go = CvNo::new(0).ok_or("a condition")?;
    let done = CvNo::new(1).ok_or("a condition")?;
    let over = AtomicBool::new(false);
    let mut workers = Vec::new(rt.alloc());
    for number in 0..9u32 {
        workers.push(Worker {
            table: &table,
            seat: draw(&rt, &table, &mut zero),
            role: if number < 8 {
                Role::Sleeper
            } else {
                Role::Stranger
            },
            go,
            done,
            over: &over,
        })?;
    }
    workers.push(Worker {
        table: &table,
        seat: zero,
        role: Role::Broadcaster,
        go,
        done,
        over: &over,
    })?;
    let wakes = thread::map_vec(&rt, workers, &|worker| work(&rt, worker))?;
    let expected = [100, 100, 100, 100, 100, 100, 100, 100, 0, 0];
    assert!(rt; wakes.as_slice() == expected.as_slice());
    Ok(())
}
