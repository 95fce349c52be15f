//! Two and four workers that count under one lock, with and without somebody who pokes them.
ghost use Rattle.std.specs.Prelude.{◌≡◌, ◌<◌, [], None, Some};
ghost use Rattle.lw_core.specs.Machine.{mode_in};

use super::*;

// Adds one to the lock's first word, wherever the lock is had at once, and says how often it was.
fn count<R: Wait>(
    rt: &R,
    table: &LwTable<AnyWords>,
    mut seat: LwSeat,
    lock: LockNo,
) -> (LwSeat, u64)
    requires table { (seat.table_id ≡ table.now.table_id) × (lock < table.now.locks) }
    requires idle { (seat.view.place ≡ []) × (mode_in lock seat.view ≡ None) }
    ensures { (result.0.table_id ≡ seat.table_id) × (result.0.view.place ≡ []) }
{
    let mut taken = 0;
    for _ in 0..1000u32 {
        if let Ok(()) = conditional_acquire(rt, table, &mut seat, lock, Mode::Exclusive) {
            let n = table.read_word(&mut seat, lock, 0);
            table.write_word(&mut seat, lock, 0, u64::wrapping_add(n, 1));
            release(rt, table, &mut seat, lock);
            taken = u64::wrapping_add(taken, 1);
        }
    }
    (seat, taken)
}

// Counts by two threads: the seats again, and how often the lock was had by either.
fn count_by_two<R: Threads + Wait + Sync>(
    rt: &R,
    table: &LwTable<AnyWords>,
    first: LwSeat,
    other: LwSeat,
    lock: LockNo,
) -> (LwSeat, LwSeat, u64)
    requires table { (first.table_id ≡ table.now.table_id) × (other.table_id ≡ table.now.table_id)
        × (lock < table.now.locks) }
    requires first { (first.view.place ≡ []) × (mode_in lock first.view ≡ None) }
    requires other { (other.view.place ≡ []) × (mode_in lock other.view ≡ None) }
    ensures { (result.0.table_id ≡ first.table_id) × (result.0.view.place ≡ [])
        × (result.1.table_id ≡ other.table_id) × (result.1.view.place ≡ []) }
{
    let (one, two) = join(
        rt,
        move ||
            requires { (first.table_id ≡ table.now.table_id) × (lock < table.now.locks)
                × (first.view.place ≡ []) × (mode_in lock first.view ≡ None) }
            ensures { (result.0.table_id ≡ first.table_id) × (result.0.view.place ≡ []) }
        { count(rt, table, first, lock) },
        move ||
            requires { (other.table_id ≡ table.now.table_id) × (lock < table.now.locks)
                × (other.view.place ≡ []) × (mode_in lock other.view ≡ None) }
            ensures { (result.0.table_id ≡ other.table_id) × (result.0.view.place ≡ []) }
        { count(rt, table, other, lock) },
    );
    (one.0, two.0, u64::wrapping_add(one.1, two.1))
}

#[test]
fn two_threads_count_each_grant_once(rt: HostRuntime) -> Result<(), Fail> {
    let lock = LockNo::new(1).ok_or("a lock")?;
    let Ok((table, mut first)) = LwTable::<AnyWords>::new(rt.alloc(), 2, 2) else {
        panic!(rt; "no memory")
    };
    let Ok(other) = table.seat(&mut first) else {
        panic!(rt; "no number")
    };
    let (mut first, other, taken) = count_by_two(&rt, &table, first, other, lock);
    assert!(rt; first.holds_nothing() && other.holds_nothing());
    table.join(&mut first, other);
    let closed = table.close(first);
    assert_eq!(rt; closed.word(lock, 0), taken);
    assert!(rt; taken > 0);
    assert_eq!(rt; closed.state(lock), 0x2000_0000);
    Ok(())
}

// Adds one to both words, as an exclusive holder.
fn add_one<R: Wait>(rt: &R, table: &LwTable<Twins>, seat: &mut LwSeat, lock: LockNo)
    requires table { (seat.old.table_id ≡ table.now.table_id) × (lock < table.now.locks) }
    requires idle { (seat.old.view.place ≡ []) × (mode_in lock seat.old.view ≡ None) }
    ensures table { seat.new.table_id ≡ seat.old.table_id }
    ensures idle { (seat.new.view.place ≡ []) × (mode_in lock seat.new.view ≡ None) }
{
    acquire(rt, table, seat, lock, Mode::Exclusive);
    let n = u64::wrapping_add(table.read_word(seat, lock, 0), 1);
    table.write_word(seat, lock, 0, n);
    table.write_word(seat, lock, 1, n);
    release(rt, table, seat, lock);
}

// Whether a shared holder finds the two words equal.
fn words_agree<R: Wait>(rt: &R, table: &LwTable<Twins>, seat: &mut LwSeat, lock: LockNo) -> bool
    requires table { (seat.old.table_id ≡ table.now.table_id) × (lock < table.now.locks) }
    requires idle { (seat.old.view.place ≡ []) × (mode_in lock seat.old.view ≡ None) }
    ensures table { seat.new.table_id ≡ seat.old.table_id }
    ensures idle { (seat.new.view.place ≡ []) × (mode_in lock seat.new.view ≡ None) }
{
    acquire(rt, table, seat, lock, Mode::Shared);
    let n = table.read_word(seat, lock, 0);
    let agree = table.read_word(seat, lock, 1) == n;
    release(rt, table, seat, lock);
    agree
}

// What a worker does with the lock in each round.
#[derive(Clone, Copy)]
pub(crate) enum Job {
    /// Each fourth time it adds one, and else it reads.
    Count,
    /// It wants as many pieces of work done as there were rounds.
    Share,
}

// Does the job in 20,000 rounds. It answers how often the words were as they must be, or how many
// pieces of work it did itself.
fn work<R: Wait>(
    rt: &R,
    table: &LwTable<Twins>,
    mut seat: LwSeat,
    lock: LockNo,
    job: Job,
) -> (LwSeat, u64)
    requires table { (seat.table_id ≡ table.now.table_id) × (lock < table.now.locks) }
    requires idle { (seat.view.place ≡ []) × (mode_in lock seat.view ≡ None) }
    ensures { (result.0.table_id ≡ seat.table_id) × (result.0.view.place ≡ []) }
{
    let mut right = 0;
    for round in 0..20_000u32 {
        let counts = match job {
            Job::Count if round % 4 == 0 => {
                add_one(rt, table, &mut seat, lock);
                true
            }
            Job::Count => words_agree(rt, table, &mut seat, lock),
            Job::Share => { or_wait::has_done(rt, table, &mut seat, lock, u64::from(round) + 1) }
        };
        if counts {
            right = u64::wrapping_add(right, 1);
        }
    }
    (seat, right)
}

// Takes a seat in that holds nothing.
fn merge(table: &LwTable<Twins>, mut into: LwSeat, from: LwSeat) -> LwSeat
    requires table { (into.table_id ≡ table.now.table_id) × (from.table_id ≡ table.now.table_id) }
    requires idle { from.view.place ≡ [] }
    ensures { (result.table_id ≡ into.table_id) × (result.view.place ≡ into.view.place) }
{
    if from.holds_nothing() {
        table.join(&mut into, from);
    }
    into
}

fn work_by_two<R: Threads + Wait + Sync>(
    rt: &R,
    table: &LwTable<Twins>,
    first: LwSeat,
    other: LwSeat,
    lock: LockNo,
    job: Job,
) -> (LwSeat, u64)
    requires table { (first.table_id ≡ table.now.table_id) × (other.table_id ≡ table.now.table_id)
        × (lock < table.now.locks) }
    requires first { (first.view.place ≡ []) × (mode_in lock first.view ≡ None) }
    requires other { (other.view.place ≡ []) × (mode_in lock other.view ≡ None) }
    ensures { (result.0.table_id ≡ first.table_id) × (result.0.view.place ≡ []) }
{
    let (one, two) = join(
        rt,
        move ||
            requires { (first.table_id ≡ table.now.table_id) × (lock < table.now.locks)
                × (first.view.place ≡ []) × (mode_in lock first.view ≡ None) }
            ensures { (result.0.table_id ≡ first.table_id) × (result.0.view.place ≡ []) }
        { work(rt, table, first, lock, job) },
        move ||
            requires { (other.table_id ≡ table.now.table_id) × (lock < table.now.locks)
                × (other.view.place ≡ []) × (mode_in lock other.view ≡ None) }
            ensures { (result.0.table_id ≡ other.table_id) × (result.0.view.place ≡ []) }
        { work(rt, table, other, lock, job) },
    );
    let right = u64::wrapping_add(one.1, two.1);
    (merge(table, one.0, two.0), right)
}

// Two seats that are at hand.
#[derive(Drop)]
struct Pair {
    first: LwSeat,
    other: LwSeat,
}

fn work_by_four<R: Threads + Wait + Sync>(
    rt: &R,
    table: &LwTable<Twins>,
    low: Pair,
    high: Pair,
    lock: LockNo,
    job: Job,
) -> (LwSeat, u64)
    requires table { (low.first.table_id ≡ table.now.table_id) × (low.other.table_id ≡ table.now.table_id)
        × (high.first.table_id ≡ table.now.table_id) × (high.other.table_id ≡ table.now.table_id)
        × (lock < table.now.locks) }
    requires low { (low.first.view.place ≡ []) × (mode_in lock low.first.view ≡ None)
        × (low.other.view.place ≡ []) × (mode_in lock low.other.view ≡ None) }
    requires high { (high.first.view.place ≡ []) × (mode_in lock high.first.view ≡ None)
        × (high.other.view.place ≡ []) × (mode_in lock high.other.view ≡ None) }
    ensures { (result.0.table_id ≡ low.first.table_id) × (result.0.view.place ≡ []) }
{
    let (one, two) = join(
        rt,
        move ||
            requires { (low.first.table_id ≡ table.now.table_id) × (low.other.table_id ≡ table.now.table_id)
                × (lock < table.now.locks)
                × (low.first.view.place ≡ []) × (mode_in lock low.first.view ≡ None)
                × (low.other.view.place ≡ []) × (mode_in lock low.other.view ≡ None) }
            ensures { (result.0.table_id ≡ low.first.table_id) × (result.0.view.place ≡ []) }
        { work_by_two(rt, table, low.first, low.other, lock, job) },
        move ||
            requires { (high.first.table_id ≡ table.now.table_id) × (high.other.table_id ≡ table.now.table_id)
                × (lock < table.now.locks)
                × (high.first.view.place ≡ []) × (mode_in lock high.first.view ≡ None)
                × (high.other.view.place ≡ []) × (mode_in lock high.other.view ≡ None) }
            ensures { (result.0.table_id ≡ high.first.table_id) × (result.0.view.place ≡ []) }
        { work_by_two(rt, table, high.first, high.other, lock, job) },
    );
    let right = u64::wrapping_add(one.1, two.1);
    (merge(table, one.0, two.0), right)
}

// Pokes the backends 1 to 4 in turn.
fn poke_around(table: &LwTable<Twins>, mut seat: LwSeat) -> LwSeat
    requires { (seat.table_id ≡ table.now.table_id) × (seat.view.place ≡ [])
        × (table.now.procs ≡ 64) }
    ensures { (result.table_id ≡ seat.table_id) × (result.view.place ≡ []) }
{
    for round in 0..40_000u32 {
        if let Some(target) = ProcNo::new(1 + round % 4) {
            let _ = poke(table, &mut seat, target);
        }
    }
    seat
}

fn work_under_pokes<R: Threads + Wait + Sync>(
    rt: &R,
    table: &LwTable<Twins>,
    zero: LwSeat,
    low: Pair,
    high: Pair,
    lock: LockNo,
    job: Job,
) -> (LwSeat, u64)
    requires table { (low.first.table_id ≡ table.now.table_id) × (low.other.table_id ≡ table.now.table_id)
        × (high.first.table_id ≡ table.now.table_id) × (high.other.table_id ≡ table.now.table_id)
        × (lock < table.now.locks) }
    requires zero { (zero.table_id ≡ table.now.table_id) × (zero.view.place ≡ [])
        × (table.now.procs ≡ 64) }
    requires low { (low.first.view.place ≡ []) × (mode_in lock low.first.view ≡ None)
        × (low.other.view.place ≡ []) × (mode_in lock low.other.view ≡ None) }
    requires high { (high.first.view.place ≡ []) × (mode_in lock high.first.view ≡ None)
        × (high.other.view.place ≡ []) × (mode_in lock high.other.view ≡ None) }
    ensures { (result.0.table_id ≡ zero.table_id) × (result.0.view.place ≡ []) }
{
    let (zero, worked) = join(
        rt,
        move ||
            requires { (zero.table_id ≡ table.now.table_id) × (zero.view.place ≡ [])
                × (table.now.procs ≡ 64) }
            ensures { (result.table_id ≡ zero.table_id) × (result.view.place ≡ []) }
        { poke_around(table, zero) },
        move ||
            requires { (low.first.table_id ≡ table.now.table_id) × (low.other.table_id ≡ table.now.table_id)
                × (high.first.table_id ≡ table.now.table_id) × (high.other.table_id ≡ table.now.table_id)
                × (lock < table.now.locks)
                × (low.first.view.place ≡ []) × (mode_in lock low.first.view ≡ None)
                × (low.other.view.place ≡ []) × (mode_in lock low.other.view ≡ None)
                × (high.first.view.place ≡ []) × (mode_in lock high.first.view ≡ None)
                × (high.other.view.place ≡ []) × (mode_in lock high.other.view ≡ None) }
            ensures { (result.0.table_id ≡ low.first.table_id) × (result.0.view.place ≡ []) }
        { work_by_four(rt, table, low, high, lock, job) },
    );
    (merge(table, zero, worked.0), worked.1)
}

// Four workers do the job under pokes: the closed table, and what they answered together.
pub(crate) fn four_workers<R: Threads + Wait + Sync + Abort>(
    rt: &R,
    alloc: Global,
    lock: LockNo,
    job: Job,
) -> (LwClosed, u64)
    requires { lock < 2 }
    ensures { result.0.locks ≡ 2 }
{
    let Ok((table, mut zero)) = LwTable::<Twins>::new(alloc, 2, 64) else {
        panic!(rt; "no memory")
    };
    let Ok(first) = table.seat(&mut zero) else {
        panic!(rt; "no number")
    };
    let Ok(other) = table.seat(&mut zero) else {
        panic!(rt; "no number")
    };
    let low = Pair { first, other };
    let Ok(first) = table.seat(&mut zero) else {
        panic!(rt; "no number")
    };
    let Ok(other) = table.seat(&mut zero) else {
        panic!(rt; "no number")
    };
    let high = Pair { first, other };
    let (seat, right) = work_under_pokes(rt, &table, zero, low, high, lock, job);
    assert!(rt; seat.holds_nothing());
    (table.close(seat), right)
}

#[test]
fn four_workers_count_under_pokes(rt: HostRuntime) -> Result<(), Fail> {
    let lock = LockNo::new(1).ok_or("a lock")?;
    let (closed, right) = four_workers(&rt, rt.alloc(), lock, Job::Count);
    assert_eq!(rt; right, 80_000);
    assert_eq!(rt; closed.word(lock, 0), 20_000);
    assert_eq!(rt; closed.word(lock, 1), 20_000);
    assert_eq!(rt; closed.state(lock), 0x2000_0000);
    Ok(())
}
