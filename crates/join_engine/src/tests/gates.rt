//! Workers that are held up where they pass the gate: the pairs are the same.

use super::*;
use std::sync::atomic::{AtomicU64, Ordering};
use std::thread::yield_now;

// Waits until the count is so high, by so many looks at most.
fn wait_for(count: &AtomicU64, high: u64) {
    for _ in 0..4_294_967_296u64 {
        if count.load(Ordering::SeqCst) >= high {
            return;
        }
        yield_now();
    }
}

// Three workers beside the one that is held up.
const OTHERS: u64 = 3;

// Worker `held` begins when the others have left.
#[derive(Drop)]
struct BeginsLast {
    held: u32,
    left: AtomicU64,
    // How many had left when it began.
    met: AtomicU64,
    // The phase in which it found the build.
    found: AtomicU64,
}

impl Gate for BeginsLast {
    fn at(&self, worker: u32, point: Point) {
        match point {
            Point::Started if worker == self.held => {
                wait_for(&self.left, OTHERS);
                let left = self.left.load(Ordering::SeqCst);
                self.met.store(left, Ordering::SeqCst);
            }
            Point::Attached { phase } if worker == self.held => {
                self.found.store(phase, Ordering::SeqCst);
            }
            Point::Left => {
                self.left.fetch_add(1, Ordering::SeqCst);
            }
            _ => {}
        }
    }
}

#[test]
fn a_worker_may_begin_when_the_others_have_left(rt: HostRuntime) -> Result<(), Fail> {
    let outer = mixed_table(rt.alloc(), 300, 700)?;
    let inner = mixed_table(rt.alloc(), 200, 700)?;
    let expected = nested(rt.alloc(), &outer, &inner)?;
    for held in 0..4 {
        for plan in [one_batch(4), many_batches(4)] {
            let gate = BeginsLast {
                held,
                left: AtomicU64::new(0),
                met: AtomicU64::new(0),
                found: AtomicU64::new(0),
            };
            let mut tally = LastJoin::new();
            let pairs = join(&rt, rt.alloc(), &outer, &inner, plan, &gate, &mut tally)?;
            assert!(rt; gate.met.load(Ordering::SeqCst) == OTHERS);
            assert!(rt; gate.found.load(Ordering::SeqCst) == 5);
            assert!(rt;
                pairs.as_slice() == expected.as_slice(),
                "{held} of {plan:?}"
            );
        }
    }
    Ok(())
}

// Worker `ahead` is alone until it comes to a second batch, where it stays until worker `held` has come to
// a batch. The first batch that `held` finds in PROBE or a later phase it keeps until all others have left.
#[derive(Drop)]
struct StaysLast {
    held: u32,
    ahead: u32,
    // How many batches `ahead` has come to, and how many `held` has.
    passed: AtomicU64,
    come: AtomicU64,
    left: AtomicU64,
    // How many had left when `held` went on.
    met: AtomicU64,
}

const PROBE: u64 = 3;

impl StaysLast {
    fn find(&self, worker: u32, phase: u64) {
        if worker == self.ahead {
            if self.passed.fetch_add(1, Ordering::SeqCst) == 1 {
                wait_for(&self.come, 1);
            }
        } else if worker == self.held {
            self.come.fetch_add(1, Ordering::SeqCst);
            self.stay(phase);
        }
    }

    fn stay(&self, phase: u64) {
        if phase >= PROBE && self.met.load(Ordering::SeqCst) == 0 {
            wait_for(&self.left, OTHERS);
            let left = self.left.load(Ordering::SeqCst);
            self.met.store(left, Ordering::SeqCst);
        }
    }
}

impl Gate for StaysLast {
    fn at(&self, worker: u32, point: Point) {
        match point {
            Point::Started if worker != self.ahead => wait_for(&self.passed, 2),
            Point::Batch { phase, .. } => self.find(worker, phase),
            Point::Left => {
                self.left.fetch_add(1, Ordering::SeqCst);
            }
            _ => {}
        }
    }
}

#[test]
fn a_worker_may_stay_at_a_batch_when_the_others_have_left(rt: HostRuntime) -> Result<(), Fail> {
    let outer = mixed_table(rt.alloc(), 300, 700)?;
    let inner = mixed_table(rt.alloc(), 200, 700)?;
    let expected = nested(rt.alloc(), &outer, &inner)?;
    for (held, ahead) in [(0, 1), (1, 2), (2, 3), (3, 0)] {
        let gate = StaysLast {
            held,
            ahead,
            passed: AtomicU64::new(0),
            come: AtomicU64::new(0),
            left: AtomicU64::new(0),
            met: AtomicU64::new(0),
        };
        let plan = many_batches(4);
        let mut tally = LastJoin::new();
        let pairs = join(&rt, rt.alloc(), &outer, &inner, plan, &gate, &mut tally)?;
        assert!(rt; gate.met.load(Ordering::SeqCst) == OTHERS, "worker {held}");
        assert!(rt; pairs.as_slice() == expected.as_slice(), "worker {held}");
    }
    Ok(())
}

// Worker `held` makes 65,536 loads at the build and after each chunk.
#[derive(Drop)]
struct IsSlow {
    held: u32,
    stops: AtomicU64,
}

impl Gate for IsSlow {
    fn at(&self, worker: u32, point: Point) {
        if worker == self.held && matches!(point, Point::Attached { .. } | Point::Chunk) {
            self.stops.fetch_add(1, Ordering::SeqCst);
            for _ in 0..65_536u32 {
                self.stops.load(Ordering::SeqCst);
            }
        }
    }
}

#[test]
fn a_worker_may_be_slow(rt: HostRuntime) -> Result<(), Fail> {
    let outer = mixed_table(rt.alloc(), 3_000, 700)?;
    let inner = mixed_table(rt.alloc(), 1_000, 700)?;
    let expected = nested(rt.alloc(), &outer, &inner)?;
    for held in 0..4 {
        for plan in [one_batch(4), many_batches(4)] {
            let stops = AtomicU64::new(0);
            let gate = IsSlow { held, stops };
            let mut tally = LastJoin::new();
            let pairs = join(&rt, rt.alloc(), &outer, &inner, plan, &gate, &mut tally)?;
            assert!(rt; gate.stops.load(Ordering::SeqCst) > 0);
            assert!(rt;
                pairs.as_slice() == expected.as_slice(),
                "{held} of {plan:?}"
            );
        }
    }
    Ok(())
}

// Each of two workers stays at its first chunk, or where it attached to the build, until the other has
// come there too.
#[derive(Drop)]
struct Meeting {
    at_chunk: bool,
    first: AtomicU64,
    second: AtomicU64,
    missed: AtomicU64,
}

impl Meeting {
    fn meet(&self, mine: &AtomicU64, other: &AtomicU64) {
        mine.fetch_add(1, Ordering::SeqCst);
        wait_for(other, 1);
        if other.load(Ordering::SeqCst) == 0 {
            self.missed.fetch_add(1, Ordering::SeqCst);
        }
    }
}

impl Gate for Meeting {
    fn at(&self, worker: u32, point: Point) {
        let stays = match point {
            Point::Attached { .. } => !self.at_chunk,
            Point::Chunk => self.at_chunk,
            _ => false,
        };
        if stays && worker == 0 {
            self.meet(&self.first, &self.second);
        } else if stays {
            self.meet(&self.second, &self.first);
        }
    }
}

#[test]
fn workers_run_side_by_side(rt: HostRuntime) -> Result<(), Fail> {
    let outer = mixed_table(rt.alloc(), 2, 700)?;
    let inner = mixed_table(rt.alloc(), 128, 700)?;
    let expected = nested(rt.alloc(), &outer, &inner)?;
    for at_chunk in [false, true] {
        let gate = Meeting {
            at_chunk,
            first: AtomicU64::new(0),
            second: AtomicU64::new(0),
            missed: AtomicU64::new(0),
        };
        let mut tally = LastJoin::new();
        let pairs = join(
            &rt,
            rt.alloc(),
            &outer,
            &inner,
            one_batch(2),
            &gate,
            &mut tally,
        )?;
        assert!(rt; gate.first.load(Ordering::SeqCst) > 0);
        assert!(rt; gate.second.load(Ordering::SeqCst) > 0);
        assert!(rt; gate.missed.load(Ordering::SeqCst) == 0);
        assert!(rt; pairs.as_slice() == expected.as_slice());
    }
    Ok(())
}
