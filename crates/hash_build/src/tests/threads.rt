//! Workers build in threads of their own: at will, and one of them held up.
ghost use Rattle.std.specs.Prelude.{◌≡◌, []};
ghost use Rattle.join_party.specs.Workers.{IsAt, IsNumbered};
ghost use Rattle.hash_build.specs.Builds.{Begins};

mod under_way;

use super::*;
use proc_table::Point;
use std::sync::atomic::{AtomicU64, Ordering};
use std::thread::{Threads, join, yield_now};

// A worker that hasn't begun yet.
#[derive(Drop)]
struct Worker<'t, 'r, G> {
    tables: &'t JoinTables<'r>,
    seats: JoinSeats<'r>,
    number: u32,
    gate: &'t G,
    ghost seated: { IsAt tables.now seats },
    ghost begins: { Begins seats },
}

// What a worker's build answers.
fn work<G: Gate, R: Wait>(rt: &R, worker: Worker<'_, '_, G>) -> Option<Built> {
    let Worker {
        tables,
        mut seats,
        number,
        gate,
    } = worker;
    let built = build_uncounted::<G, R, Brand>(rt, Blank::new(1), tables, &mut seats, number, gate);
    mem::forget(seats);
    Some(built)
}

fn draw<'t, 'r, G: Gate, R: Abort>(
    rt: &R,
    tables: &'t JoinTables<'r>,
    leader: &mut JoinSeats<'r>,
    number: u32,
    gate: &'t G,
) -> Worker<'t, 'r, G>
    requires seats { IsAt tables.now leader.old × IsNumbered leader.old 0 0 0 }
    requires idle { leader.old.wait.view.place ≡ [] }
    ensures seats { IsAt tables.now leader.new × IsNumbered leader.new 0 0 0 }
    ensures idle { leader.new.wait.view.place ≡ [] }
{
    let Ok(seats) = tables.worker(leader) else {
        panic!(rt; "no number")
    };
    Worker {
        tables,
        seats,
        number,
        gate,
    }
}

type Two<'t, 'r, G> = (Worker<'t, 'r, G>, Worker<'t, 'r, G>);

type Four<'t, 'r, G> = (Two<'t, 'r, G>, Two<'t, 'r, G>);

type Eight<'t, 'r, G> = (Four<'t, 'r, G>, Four<'t, 'r, G>);

fn draw_two<'t, 'r, G: Gate, R: Abort>(
    rt: &R,
    tables: &'t JoinTables<'r>,
    leader: &mut JoinSeats<'r>,
    number: u32,
    gate: &'t G,
) -> Two<'t, 'r, G>
    requires seats { IsAt tables.now leader.old × IsNumbered leader.old 0 0 0 }
    requires idle { leader.old.wait.view.place ≡ [] }
    ensures seats { IsAt tables.now leader.new × IsNumbered leader.new 0 0 0 }
    ensures idle { leader.new.wait.view.place ≡ [] }
{
    let first = draw(rt, tables, leader, number, gate);
    let second = draw(rt, tables, leader, u32::wrapping_add(number, 1), gate);
    (first, second)
}

fn draw_four<'t, 'r, G: Gate, R: Abort>(
    rt: &R,
    tables: &'t JoinTables<'r>,
    leader: &mut JoinSeats<'r>,
    number: u32,
    gate: &'t G,
) -> Four<'t, 'r, G>
    requires seats { IsAt tables.now leader.old × IsNumbered leader.old 0 0 0 }
    requires idle { leader.old.wait.view.place ≡ [] }
    ensures seats { IsAt tables.now leader.new × IsNumbered leader.new 0 0 0 }
    ensures idle { leader.new.wait.view.place ≡ [] }
{
    let first = draw_two(rt, tables, leader, number, gate);
    let second = draw_two(rt, tables, leader, u32::wrapping_add(number, 2), gate);
    (first, second)
}

fn draw_eight<'t, 'r, G: Gate, R: Abort>(
    rt: &R,
    tables: &'t JoinTables<'r>,
    leader: &mut JoinSeats<'r>,
    number: u32,
    gate: &'t G,
) -> Eight<'t, 'r, G>
    requires seats { IsAt tables.now leader.old × IsNumbered leader.old 0 0 0 }
    requires idle { leader.old.wait.view.place ≡ [] }
    ensures seats { IsAt tables.now leader.new × IsNumbered leader.new 0 0 0 }
    ensures idle { leader.new.wait.view.place ≡ [] }
{
    let first = draw_four(rt, tables, leader, number, gate);
    let second = draw_four(rt, tables, leader, u32::wrapping_add(number, 4), gate);
    (first, second)
}

// What both answer, where they answer the same sizes and not both are elected.
fn both(first: Option<Built>, second: Option<Built>) -> Option<Built> {
    let Some(
        Built::Ready {
            buckets,
            batches,
            elected,
        },
    ) = first
    else {
        return None;
    };
    let Some(
        Built::Ready {
            buckets: more_buckets,
            batches: more_batches,
            elected: other,
        },
    ) = second
    else {
        return None;
    };
    if buckets != more_buckets || batches != more_batches || elected && other {
        return None;
    }
    let elected = elected || other;
    Some(Built::Ready {
        buckets,
        batches,
        elected,
    })
}

fn run_two<G: Gate, R: Threads + Wait + Sync>(rt: &R, workers: Two<'_, '_, G>) -> Option<Built> {
    let (first, second) = workers;
    let (one, other) = join(
        rt,
        move || -> Option<Built> { work(rt, first) },
        move || -> Option<Built> { work(rt, second) },
    );
    both(one, other)
}

fn run_four<G: Gate, R: Threads + Wait + Sync>(rt: &R, workers: Four<'_, '_, G>) -> Option<Built> {
    let (first, second) = workers;
    let (one, other) = join(
        rt,
        move || -> Option<Built> { run_two(rt, first) },
        move || -> Option<Built> { run_two(rt, second) },
    );
    both(one, other)
}

fn run_eight<G: Gate, R: Threads + Wait + Sync>(
    rt: &R,
    workers: Eight<'_, '_, G>,
) -> Option<Built> {
    let (first, second) = workers;
    let (one, other) = join(
        rt,
        move || -> Option<Built> { run_four(rt, first) },
        move || -> Option<Built> { run_four(rt, second) },
    );
    both(one, other)
}

fn plan_of(workers: u32) -> Plan {
    Plan {
        workers,
        buckets: 256,
        mem: 1000,
    }
}

// Whether all answer alike, and the leader, who comes only then, finds each row in its place.
fn build_by_two<G: Gate, R: Abort + Threads + Wait + Sync>(
    rt: &R,
    alloc: Global,
    inner: &Rows,
    outer: &Rows,
    gate: &G,
) -> bool {
    let (tables, mut leader) = open(rt, alloc, inner, outer, plan_of(2));
    let workers = draw_two(rt, &tables, &mut leader, 0, gate);
    let built = run_two(rt, workers).unwrap_or(Built::Late);
    let placed = each_row_is_placed(rt, alloc, &tables, leader, built);
    mem::forget(tables);
    placed
}

fn build_by_four<G: Gate, R: Abort + Threads + Wait + Sync>(
    rt: &R,
    alloc: Global,
    inner: &Rows,
    outer: &Rows,
    gate: &G,
) -> bool {
    let (tables, mut leader) = open(rt, alloc, inner, outer, plan_of(4));
    let workers = draw_four(rt, &tables, &mut leader, 0, gate);
    let built = run_four(rt, workers).unwrap_or(Built::Late);
    let placed = each_row_is_placed(rt, alloc, &tables, leader, built);
    mem::forget(tables);
    placed
}

fn build_by_eight<G: Gate, R: Abort + Threads + Wait + Sync>(
    rt: &R,
    alloc: Global,
    inner: &Rows,
    outer: &Rows,
    gate: &G,
) -> bool {
    let (tables, mut leader) = open(rt, alloc, inner, outer, plan_of(8));
    let workers = draw_eight(rt, &tables, &mut leader, 0, gate);
    let built = run_eight(rt, workers).unwrap_or(Built::Late);
    let placed = each_row_is_placed(rt, alloc, &tables, leader, built);
    mem::forget(tables);
    placed
}

#[test]
fn workers_place_each_row_once(rt: HostRuntime) -> Result<(), Fail> {
    let inner = rows_of(rt.alloc(), Keys::Mixed(5_000))?;
    let outer = rows_of(rt.alloc(), Keys::Mixed(20_000))?;
    assert!(rt; build_by_two(&rt, rt.alloc(), &inner, &outer, &OpenGate));
    assert!(rt; build_by_four(&rt, rt.alloc(), &inner, &outer, &OpenGate));
    assert!(rt; build_by_eight(&rt, rt.alloc(), &inner, &outer, &OpenGate));
    Ok(())
}

// A place that workers pass, and where one of them is held up.
#[derive(Clone, Copy, PartialEq, Eq)]
enum Stage {
    Started,
    Attached,
    Chunk,
}

fn stage_of(point: Point) -> Option<Stage> {
    match point {
        Point::Started => Some(Stage::Started),
        Point::Attached { .. } => Some(Stage::Attached),
        Point::Chunk => Some(Stage::Chunk),
        _ => None,
    }
}

// Holds worker 0 where it first comes to a stage, until another has passed there.
#[derive(Drop)]
struct Holding {
    stage: Stage,
    held: AtomicU64,
    passed: AtomicU64,
}

impl Holding {
    // Looks so often at most, so that no worker waits for one that never comes.
    fn hold(&self) {
        for _ in 0..1_048_576u32 {
            if self.passed.load(Ordering::SeqCst) != 0 {
                return;
            }
            yield_now();
        }
    }
}

impl Gate for Holding {
    fn at(&self, worker: u32, point: Point) {
        if stage_of(point) != Some(self.stage) {
            return;
        }
        if worker != 0 {
            self.passed.store(1, Ordering::SeqCst);
        } else if self.held.swap(1, Ordering::SeqCst) == 0 {
            self.hold();
        }
    }
}

#[test]
fn a_worker_that_is_held_up_changes_nothing(rt: HostRuntime) -> Result<(), Fail> {
    let inner = rows_of(rt.alloc(), Keys::Mixed(5_000))?;
    let outer = rows_of(rt.alloc(), Keys::Mixed(20_000))?;
    for stage in [Stage::Started, Stage::Attached, Stage::Chunk] {
        let gate = Holding {
            stage,
            held: AtomicU64::new(0),
            passed: AtomicU64::new(0),
        };
        assert!(rt; build_by_four(&rt, rt.alloc(), &inner, &outer, &gate));
        assert!(rt; gate.passed.load(Ordering::SeqCst) == 1);
    }
    Ok(())
}
