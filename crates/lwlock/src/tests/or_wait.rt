//! Acquire or wait: who finds the lock free has it, who slept goes on without it, and four workers
//! share each other's work as PostgreSQL's flush of the write-ahead log does.
ghost use Rattle.std.specs.Prelude.{◌≡◌, ◌<◌, [], None};
ghost use Rattle.proc_table.specs.declared.Mode.TheVariants.{Exclusive};
ghost use Rattle.lw_core.specs.Machine.{held, hold_in, mode_in};

use super::runs::{gets, line, queues, wakes};
use super::threads::{Job, four_workers};
use super::*;

#[test]
fn a_free_lock_is_got(rt: HostRuntime) -> Result<(), Fail> {
    let lock = LockNo::new(1).ok_or("a lock")?;
    let Ok((table, mut zero)) = LwTable::<AnyWords>::new(rt.alloc(), 2, 1) else {
        panic!(rt; "no memory")
    };
    assert_eq!(rt;
        acquire_or_wait(&rt, &table, &mut zero, lock, Mode::Exclusive),
        OrWait::Got
    );
    assert_eq!(rt; zero.mode_of(lock), Some(Mode::Exclusive));
    Ok(())
}

#[test]
fn freed_without_the_lock(rt: HostRuntime) -> Result<(), Fail> {
    let lock = LockNo::new(0).ok_or("a lock")?;
    let Ok((table, mut zero)) = LwTable::<AnyWords>::new(rt.alloc(), 1, 2) else {
        panic!(rt; "no memory")
    };
    let Ok(mut one) = table.seat(&mut zero) else {
        panic!(rt; "no number")
    };
    gets(&rt, &table, &mut zero, lock, Mode::Exclusive, 0x2000_0000);
    let begins = Some(Call::AcquireOrWait(lock, Mode::Exclusive));
    line(
        &rt,
        table.step(&mut one, LwStep::Load(lock, begins)),
        0x2100_0000,
        false,
    );
    line(
        &rt,
        table.step(&mut one, LwStep::Refuse(lock, Mode::Exclusive, 0x2100_0000)),
        0x2100_0000,
        true,
    );
    queues(
        &rt,
        &table,
        &mut one,
        lock,
        Mode::Exclusive,
        Want::UntilFree,
        [0x2100_0000, 0x3100_0000, 0x7100_0000, 0x6100_0000],
    );
    line(&rt, table.step(&mut one, LwStep::Look(None)), 0, false);
    wakes(
        &rt,
        &table,
        &mut zero,
        lock,
        [0x6100_0000, 0x6000_0000, 0x7000_0000],
        &[1],
    );
    line(&rt, table.step(&mut one, LwStep::Look(None)), 1, false);
    line(&rt, table.step(&mut one, LwStep::Down), 1, true);
    line(&rt, table.step(&mut one, LwStep::WaitLoad), 0, false);
    let looks = Some(Call::WaitForVar(lock, 0));
    line(
        &rt,
        table.step(&mut one, LwStep::Peek(lock, looks)),
        0x2000_0000,
        false,
    );
    line(
        &rt,
        table.step(&mut zero, LwStep::Look(Some(Call::Down))),
        0,
        false,
    );
    line(
        &rt,
        table.step(&mut one, LwStep::Look(Some(Call::Down))),
        0,
        false,
    );
    Ok(())
}

// How many pieces of work are done.
fn pieces<R: Wait>(rt: &R, table: &LwTable<Twins>, seat: &mut LwSeat, lock: LockNo) -> u64
    requires table { (seat.old.table_id ≡ table.now.table_id) × (lock < table.now.locks) }
    requires idle { (seat.old.view.place ≡ []) × (mode_in lock seat.old.view ≡ None) }
    ensures table { seat.new.table_id ≡ seat.old.table_id }
    ensures idle { (seat.new.view.place ≡ []) × (mode_in lock seat.new.view ≡ None) }
{
    acquire(rt, table, seat, lock, Mode::Shared);
    let done = table.read_word(seat, lock, 0);
    release(rt, table, seat, lock);
    done
}

// As a holder: does one piece of work where fewer than these are done, and lets go of the lock.
fn do_piece<R: Wait>(
    rt: &R,
    table: &LwTable<Twins>,
    seat: &mut LwSeat,
    lock: LockNo,
    wanted: u64,
) -> bool
    requires table { (seat.old.table_id ≡ table.now.table_id) × (lock < table.now.locks) }
    requires held { (seat.old.view.place ≡ []) × (hold_in lock seat.old.view ≡ held Exclusive) }
    ensures table { seat.new.table_id ≡ seat.old.table_id }
    ensures idle { (seat.new.view.place ≡ []) × (mode_in lock seat.new.view ≡ None) }
{
    let done = table.read_word(seat, lock, 0);
    if done >= wanted {
        release(rt, table, seat, lock);
        return false;
    }
    let more = u64::wrapping_add(done, 1);
    table.write_word(seat, lock, 0, more);
    table.write_word(seat, lock, 1, more);
    release(rt, table, seat, lock);
    true
}

// Has this many pieces of work done, by whom it may be, and says whether it did the last one
// itself.
pub(super) fn has_done<R: Wait>(
    rt: &R,
    table: &LwTable<Twins>,
    seat: &mut LwSeat,
    lock: LockNo,
    wanted: u64,
) -> bool
    requires table { (seat.old.table_id ≡ table.now.table_id) × (lock < table.now.locks) }
    requires idle { (seat.old.view.place ≡ []) × (mode_in lock seat.old.view ≡ None) }
    ensures table { seat.new.table_id ≡ seat.old.table_id }
    ensures idle { (seat.new.view.place ≡ []) × (mode_in lock seat.new.view ≡ None) }
{
    for _ in rt.forever() {
        if pieces(rt, table, seat, lock) >= wanted {
            return false;
        }
        if let OrWait::Got = acquire_or_wait(rt, table, seat, lock, Mode::Exclusive) {
            return do_piece(rt, table, seat, lock, wanted);
        }
    }
    unreachable!()
}

#[test]
fn four_workers_share_their_work(rt: HostRuntime) -> Result<(), Fail> {
    let lock = LockNo::new(0).ok_or("a lock")?;
    let (closed, done) = four_workers(&rt, rt.alloc(), lock, Job::Share);
    assert_eq!(rt; done, 20_000);
    assert_eq!(rt; closed.word(lock, 0), 20_000);
    assert_eq!(rt; closed.state(lock), 0x2000_0000);
    Ok(())
}
