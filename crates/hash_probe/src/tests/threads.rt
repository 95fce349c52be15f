//! Workers join in threads of their own: at will, and three of them when the first batch is in a given phase.
ghost use Rattle.std.specs.Prelude.{◌≡◌, ◌<◌, ◌≤◌, [], ◌∷◌, None};
ghost use Rattle.signal_core.specs.Machine.{IsJoined};
ghost use Rattle.join_law.specs.Phases.{RUN, build as bar};
ghost use Rattle.join_party.specs.Workers.{IsAt, IsNumbered};
ghost use Rattle.hash_build.specs.Builds.{Begins};
ghost use Rattle.hash_probe.specs.Rows.{times_done};
ghost use Rattle.hash_probe.specs.Working.{IsCounted, IsWorking};

use super::*;
use crate::batches::{barrier_of, go_on, leave_last, leave_unless_last};
use crate::loads::load;
use crate::stores::probe_store;
use phase_barrier::attach;
use std::sync::atomic::{AtomicU64, Ordering};
use std::thread::{Threads, map_vec, yield_now};

// A worker that hasn't begun yet.
#[derive(Drop)]
struct Worker<'t, 'r, G> {
    tables: &'t JoinTables<'r>,
    seats: JoinSeats<'r>,
    number: u32,
    gate: &'t G,
    ghost seated: { IsAt tables.now seats },
    ghost begins: { Begins seats },
    ghost signal: { (seats.signal.view.place ≡ None) × (seats.signal.view.slot ≡ None) },
}

fn run<G: Gate, R: Wait>(rt: &R, alloc: Global, worker: Worker<'_, '_, G>) -> Found {
    let Worker {
        tables,
        mut seats,
        number,
        gate,
    } = worker;
    join_slot(&tables.signals, &mut seats.signal);
    let found = work::<G, R, Brand>(rt, Blank::new(1), alloc, tables, &mut seats, number, gate);
    mem::forget(seats);
    found
}

fn draw<'t, 'r, G: Gate, R: Abort>(
    rt: &R,
    tables: &'t JoinTables<'r>,
    leader: &mut JoinSeats<'r>,
    number: u32,
    gate: &'t G,
) -> Worker<'t, 'r, G>
    requires seats { IsAt tables.now leader.old × IsNumbered leader.old 0 0 0 }
    requires idle { leader.old.wait.view.place ≡ [] }
    ensures seats { IsAt tables.now leader.new × IsNumbered leader.new 0 0 0 }
    ensures idle { leader.new.wait.view.place ≡ [] }
{
    let Ok(seats) = tables.worker(leader) else {
        panic!(rt; "no number")
    };
    Worker {
        tables,
        seats,
        number,
        gate,
    }
}

// So many workers, numbered from 0.
fn draw_all<'t, 'r, G: Gate, R: Abort>(
    rt: &R,
    alloc: Global,
    tables: &'t JoinTables<'r>,
    mut leader: JoinSeats<'r>,
    count: u32,
    gate: &'t G,
) -> Vec<Worker<'t, 'r, G>>
    requires seats { IsAt tables.now leader × IsNumbered leader 0 0 0 }
    requires idle { leader.wait.view.place ≡ [] }
{
    let mut workers = Vec::new(alloc);
    for number in 0..count {
        let worker = draw(rt, tables, &mut leader, number, gate);
        if let Err(refused) = workers.push(worker) {
            mem::forget(refused);
            panic!(rt; "no memory")
        }
    }
    mem::forget(leader);
    workers
}

// What each of so many workers found.
fn join_by<G: Gate, R: Abort + Threads + Wait + Sync>(
    rt: &R,
    alloc: Global,
    inner: &Rows,
    outer: &Rows,
    plan: Plan,
    workers: u32,
    gate: &G,
) -> Vec<Found> {
    let (tables, leader) = open(rt, alloc, inner, outer, plan);
    let jobs = draw_all(rt, alloc, &tables, leader, workers, gate);
    let found = map_vec(rt, jobs, &|worker| run(rt, alloc, worker));
    mem::forget(tables);
    let Ok(found) = found else {
        panic!(rt; "no memory")
    };
    found
}

// How many rows all probed, and their pairs in order.
fn gather<R: Abort>(rt: &R, alloc: Global, found: Vec<Found>) -> (u32, Vec<Pair>) {
    let mut probed = 0;
    let mut pairs = Vec::new(alloc);
    for one in found {
        if let Some((said, more)) = one {
            assert!(rt; said == unmarked(said.probed));
            probed = u32::wrapping_add(probed, said.probed);
            assert!(rt; pairs.extend_from_slice(more.as_slice()).is_ok());
        }
    }
    put_in_order(&mut pairs);
    (probed, pairs)
}

#[test]
fn workers_find_each_pair_once(rt: HostRuntime) -> Result<(), Fail> {
    let inner = mixed_keys(rt.alloc(), 5_000)?;
    let outer = mixed_keys(rt.alloc(), 20_000)?;
    let inner_rows = rows_of(rt.alloc(), inner.as_slice())?;
    let outer_rows = rows_of(rt.alloc(), outer.as_slice())?;
    let expected = meeting(&rt, rt.alloc(), inner.as_slice(), outer.as_slice());
    let cases = [
        (1, (1, 1024, 65_536)),
        (1, (16, 64, 100)),
        (4, (4, 1024, 65_536)),
        (4, (4, 64, 100)),
        (4, (16, 64, 100)),
        (16, (16, 1024, 65_536)),
        (16, (16, 64, 100)),
    ];
    for (threads, (workers, buckets, mem)) in cases {
        let plan = Plan {
            workers,
            buckets,
            mem,
        };
        let found = join_by(
            &rt,
            rt.alloc(),
            &inner_rows,
            &outer_rows,
            plan,
            threads,
            &OpenGate,
        );
        let (probed, pairs) = gather(&rt, rt.alloc(), found);
        assert!(rt; probed == count_keyed(outer.as_slice()));
        assert!(rt; pairs.as_slice() == expected.as_slice());
    }
    Ok(())
}

// Waits until the count is so high, by so many looks at most.
fn wait_for(count: &AtomicU64, high: u64) {
    for _ in 0..16_777_216u32 {
        if count.load(Ordering::SeqCst) >= high {
            return;
        }
        yield_now();
    }
}

// Worker 0 goes through the first batch phase by phase, and is held up in one until three others have found
// the batch in it, or have left the join. They begin when it is there.
#[derive(Drop)]
struct PhaseGate {
    phase: u64,
    until_left: bool,
    there: AtomicU64,
    come: AtomicU64,
    left: AtomicU64,
    // How many had come, or left, when worker 0 went on.
    met: AtomicU64,
}

const OTHERS: u64 = 3;

impl PhaseGate {
    fn new(phase: u64, until_left: bool) -> PhaseGate {
        PhaseGate {
            phase,
            until_left,
            there: AtomicU64::new(0),
            come: AtomicU64::new(0),
            left: AtomicU64::new(0),
            met: AtomicU64::new(0),
        }
    }

    // Worker 0 is in a phase of the batch, which doesn't pass before it goes on.
    fn hold(&self, phase: u64) {
        if phase == self.phase {
            self.there.store(1, Ordering::SeqCst);
            let awaited = if self.until_left {
                &self.left
            } else {
                &self.come
            };
            wait_for(awaited, OTHERS);
            self.met
                .store(awaited.load(Ordering::SeqCst), Ordering::SeqCst);
        }
    }

    // Another has found the batch in a phase.
    fn find(&self, phase: u64) {
        if phase == self.phase {
            self.come.fetch_add(1, Ordering::SeqCst);
        }
    }
}

impl Gate for PhaseGate {
    fn at(&self, worker: u32, point: Point) {
        match point {
            _ if worker == 0 => {}
            Point::Started => wait_for(&self.there, 1),
            Point::Batch { batch: 0, phase } => self.find(phase),
            Point::Left => {
                self.left.fetch_add(1, Ordering::SeqCst);
            }
            _ => {}
        }
    }
}

// Goes through the first batch, to which nobody has attached yet.
fn pass_first_batch<'r, R: Abort + Wait, L: Ledger>(
    rt: &R,
    tables: &JoinTables<'r>,
    seats: &mut JoinSeats<'r>,
    table: HashTable,
    pairs: &mut Vec<Pair>,
    marks: &mut Probed,
    gate: &PhaseGate,
    steps: &mut Steps<L>,
)
    requires working { IsWorking tables.now seats.old table ((bar, RUN) ∷ []) }
    requires counted { IsCounted marks.old seats.old }
    ensures working { IsWorking tables.now seats.new table ((bar, RUN) ∷ []) }
    ensures counted { IsCounted marks.new seats.new }
    ensures done { 1 ≤ times_done 0 seats.new.wait.view.client }
{
    let found = attach(rt, &tables.waits, &mut seats.wait, barrier_of(0));
    assert!(rt; found == 0);
    gate.hold(0);
    go_on(rt, tables, seats, 0, 0);
    gate.hold(1);
    go_on(rt, tables, seats, 0, 1);
    gate.hold(2);
    load(rt, tables, seats, table, 0);
    go_on(rt, tables, seats, 0, 2);
    gate.hold(3);
    probe_store(rt, tables, seats, 0, pairs, marks, steps);
    if leave_unless_last(rt, tables, seats, 0) {
        gate.hold(4);
        leave_last(rt, tables, seats, 0);
    }
    gate.hold(5);
}

// Builds, goes through the first batch, and then through the others as any worker.
fn work_ahead<'r, R: Abort + Wait, L: Ledger>(
    rt: &R,
    blank: Blank,
    alloc: Global,
    tables: &JoinTables<'r>,
    seats: &mut JoinSeats<'r>,
    gate: &PhaseGate,
) -> Found
    requires name { blank.name ≡ L.name }
    requires parts { blank.parts ≡ L.parts }
    requires some { 0 < blank.parts }
    requires table { IsAt tables.now seats.old }
    requires begins { Begins seats.old }
    requires slot { (seats.old.signal.view.place ≡ None) × IsJoined seats.old.signal.view.slot }
{
    let mut steps = Steps::<L>::new(blank);
    let mut pairs = Vec::new(alloc);
    let mut marks = unmarked(0);
    let Built::Ready {
        buckets,
        batches,
        ..
    } = build(rt, tables, seats, 0, gate, &mut steps)
    else {
        return None;
    };
    let table = HashTable { buckets, batches };
    pass_first_batch(
        rt, tables, seats, table, &mut pairs, &mut marks, gate, &mut steps,
    );
    probe_batches(
        rt, tables, seats, table, 1, batches, 0, &mut pairs, &mut marks, gate, &mut steps,
    );
    leave(rt, tables, seats);
    Some((marks, pairs))
}

fn run_ahead<R: Abort + Wait>(rt: &R, alloc: Global, worker: Worker<'_, '_, PhaseGate>) -> Found {
    let Worker {
        tables,
        mut seats,
        gate,
        ..
    } = worker;
    join_slot(&tables.signals, &mut seats.signal);
    let found = work_ahead::<R, Brand>(rt, Blank::new(1), alloc, tables, &mut seats, gate);
    mem::forget(seats);
    found
}

fn run_either<R: Abort + Wait>(rt: &R, alloc: Global, worker: Worker<'_, '_, PhaseGate>) -> Found {
    if worker.number == 0 {
        run_ahead(rt, alloc, worker)
    } else {
        run(rt, alloc, worker)
    }
}

// What each of four workers found.
fn join_in_phase<R: Abort + Threads + Wait + Sync>(
    rt: &R,
    alloc: Global,
    inner: &Rows,
    outer: &Rows,
    gate: &PhaseGate,
) -> Vec<Found> {
    let plan = Plan {
        workers: 4,
        buckets: 64,
        mem: 100,
    };
    let (tables, leader) = open(rt, alloc, inner, outer, plan);
    let jobs = draw_all(rt, alloc, &tables, leader, 4, gate);
    let found = map_vec(rt, jobs, &|worker| run_either(rt, alloc, worker));
    mem::forget(tables);
    let Ok(found) = found else {
        panic!(rt; "no memory")
    };
    found
}

#[test]
fn workers_may_come_in_each_phase_of_a_batch(rt: HostRuntime) -> Result<(), Fail> {
    let inner = mixed_keys(rt.alloc(), 400)?;
    let outer = mixed_keys(rt.alloc(), 1_200)?;
    let inner_rows = rows_of(rt.alloc(), inner.as_slice())?;
    let outer_rows = rows_of(rt.alloc(), outer.as_slice())?;
    let expected = meeting(&rt, rt.alloc(), inner.as_slice(), outer.as_slice());
    // A phase of the batch, ELECT to FREE, and whether worker 0 stays in it until the others have left.
    let cases = [
        (0, false),
        (1, false),
        (2, false),
        (3, false),
        (3, true),
        (4, false),
        (4, true),
        (5, false),
    ];
    for (phase, until_left) in cases {
        let gate = PhaseGate::new(phase, until_left);
        let found = join_in_phase(&rt, rt.alloc(), &inner_rows, &outer_rows, &gate);
        let come = gate.come.load(Ordering::SeqCst);
        let met = gate.met.load(Ordering::SeqCst);
        assert!(rt;
            come == OTHERS && met == OTHERS,
            "phase {phase}: {come} came, {met} in time"
        );
        let (probed, pairs) = gather(&rt, rt.alloc(), found);
        assert!(rt; probed == count_keyed(outer.as_slice()), "phase {phase}");
        assert!(rt; pairs.as_slice() == expected.as_slice(), "phase {phase}");
    }
    Ok(())
}

#[test]
fn one_of_four_tells_of_too_many_pairs(rt: HostRuntime) -> Result<(), Fail> {
    let keys = equal_keys(rt.alloc(), 3_000)?;
    let rows = rows_of(rt.alloc(), keys.as_slice())?;
    let plan = Plan {
        workers: 4,
        buckets: 1024,
        mem: 65_536,
    };
    let found = join_by(&rt, rt.alloc(), &rows, &rows, plan, 4, &OpenGate);
    let mut told = 0;
    for one in found {
        if let Some(
            (
                Probed {
                    over: Some(count),
                    ..
                },
                _,
            ),
        ) = one
        {
            assert!(rt; count > 4_194_304 && count <= 9_000_000);
            told = u32::wrapping_add(told, 1);
        }
    }
    assert!(rt; told == 1);
    Ok(())
}
