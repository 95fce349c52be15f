//! What no clause says: an update wakes a backend that waits for it, line by line; each call once; and
//! three threads follow the values that a fourth one publishes.
ghost use Rattle.std.specs.Prelude.{◌≡◌, ◌<◌, ◌≤◌, ◌==◌, false, true, cond, [], ◌∷◌, None, Some};
ghost use Rattle.proc_table.specs.declared.Mode.TheVariants.{Exclusive};
ghost use Rattle.lw_core.specs.declared.view.Frame.TheVariants.{Asleep, Calling, Comparing, Peeking, Sleeping, TakingList, VarUnqueued};
ghost use Rattle.lw_core.specs.declared.view.Want.TheVariants.{UntilFree};
ghost use Rattle.lw_core.specs.Machine.{mode_in, on_conflict, on_outcome, outer, telling};
ghost use Rattle.lw_core.specs.WaitLists.{AllBelow};
ghost use Rattle.lwlock.specs.Calls.{Went};
ghost use Rattle.lwlock.specs.Wakes.{found_at};

use super::*;
use arrayvec::ArrayVec;
use lw_core::{LwSeen, Waiter, Want};
use lwlock::steps::{is_free_for, list_is_home};
use lwlock::{Held, acquire, conditional_acquire};
use proc_table::{Mode, ProcNo};
use std::process::Abort;
use std::test::Fail;
use std::thread::{Threads, join};

// Every list of words is lawful.
struct AnyWords;

impl Guarded for AnyWords {
    ghost lawful = { λ _ _. Unit {0} };

    ghost zeros = { λ _. tt };
}

// One line of a run: the word that the step found, and whether an exchange took place.
fn line<R: Abort>(rt: &R, seen: LwSeen, old: u64, changed: bool)
    ensures { (seen.old ≡ old) × (seen.changed ≡ changed) }
{
    assert!(rt; seen.old == old && seen.changed == changed);
}

// An exclusive acquire that is granted at once.
fn gets<R: Abort>(rt: &R, table: &LwTable<AnyWords>, seat: &mut LwSeat, lock: LockNo)
    requires table { (seat.old.table_id ≡ table.now.table_id) × (lock < table.now.locks) }
    requires idle { (seat.old.view.place ≡ []) × (mode_in lock seat.old.view ≡ None) }
    ensures table { seat.new.table_id ≡ seat.old.table_id }
    ensures held { (seat.new.view.place ≡ []) × (mode_in lock seat.new.view ≡ Some Exclusive) }
{
    let begins = Some(Call::Acquire(lock, Mode::Exclusive));
    let free = 0x2000_0000;
    line(
        rt,
        table.step(seat, LwStep::Load(lock, begins)),
        free,
        false,
    );
    let grant = LwStep::Grant(lock, Mode::Exclusive, free);
    line(rt, table.step(seat, grant), free, true);
}

// Reads the variable with the list in hand, where the state word is this one.
fn reads<R: Abort>(
    rt: &R,
    table: &LwTable<AnyWords>,
    seat: &mut LwSeat,
    lock: LockNo,
    old: u64,
    word: u64,
    value: u64,
)
    requires table { (seat.old.table_id ≡ table.now.table_id) × (lock < table.now.locks) }
    requires place { seat.old.view.place ≡ TakingList lock ∷ Comparing lock old ∷ outer (outer seat.old.view.place) }
    ensures table { seat.new.table_id ≡ seat.old.table_id }
    ensures view { Went (cond (value == old) (on_conflict (outer (outer seat.old.view.place))) (on_outcome true seat.old.view.surplus (outer (outer seat.old.view.place)))) seat.old.view seat.new.view }
{
    assert!(rt; list_is_home(word));
    line(rt, table.step(seat, LwStep::Lock(lock, None)), word, true);
    line(rt, table.step(seat, LwStep::VarLoad(lock)), value, false);
    let locked = word.wrapping_add(0x1000_0000);
    line(
        rt,
        table.step(seat, LwStep::Unlock(lock, false)),
        locked,
        true,
    );
}

// A wait that finds the value that was seen, queues, finds it again and looks at its semaphore.
fn sleeps<R: Abort>(rt: &R, table: &LwTable<AnyWords>, seat: &mut LwSeat, lock: LockNo)
    requires table { (seat.old.table_id ≡ table.now.table_id) × (lock < table.now.locks) }
    requires idle { (seat.old.view.place ≡ []) × (mode_in lock seat.old.view ≡ None) }
    ensures table { seat.new.table_id ≡ seat.old.table_id }
    ensures place { seat.new.view.place ≡ Asleep ∷ Sleeping lock UntilFree false ∷ Peeking lock 0 ∷ VarUnqueued lock 0 ∷ [] }
    ensures same { (seat.new.view.surplus ≡ 0) × (seat.new.view.holds ≡ seat.old.view.holds) }
{
    let begins = Some(Call::WaitForVar(lock, 0));
    let held = 0x2100_0000;
    line(
        rt,
        table.step(seat, LwStep::Peek(lock, begins)),
        held,
        false,
    );
    reads(rt, table, seat, lock, 0, held, 0);
    line(rt, table.step(seat, LwStep::Lock(lock, None)), held, true);
    line(rt, table.step(seat, LwStep::Flag(lock)), 0x3100_0000, true);
    let own = table.proc_of(seat);
    line(rt, table.step(seat, LwStep::WaitStore(own, 1)), 0, true);
    let waiter = Waiter {
        proc: own.number(),
        want: Want::UntilFree,
    };
    seat.list().items.insert(0, waiter);
    line(
        rt,
        table.step(seat, LwStep::Unlock(lock, false)),
        0x7100_0000,
        true,
    );
    let queued = 0x6100_0000;
    line(
        rt,
        table.step(seat, LwStep::SetReleaseOk(lock)),
        queued,
        true,
    );
    line(
        rt,
        table.step(seat, LwStep::Peek(lock, None)),
        queued,
        false,
    );
    reads(rt, table, seat, lock, 0, queued, 0);
    line(rt, table.step(seat, LwStep::Look(None)), 0, false);
}

fn proc_of<R: Abort>(rt: &R, waiter: &Waiter) -> ProcNo
    ensures { result ≡ waiter.now.proc }
{
    let Some(proc) = ProcNo::new(waiter.proc) else {
        panic!(rt; "no number")
    };
    proc
}

// Marks those whom an update calls, each of which was waiting.
#[tactic(auto, using(lwlock::proofs::Waiting::below_at))]
fn marks<R: Abort>(
    rt: &R,
    table: &LwTable<AnyWords>,
    seat: &mut LwSeat,
    lock: LockNo,
    called: &ArrayVec<Waiter, 64>,
)
    requires table { seat.old.table_id ≡ table.now.table_id }
    requires called { AllBelow table.now.procs called.now.items }
    requires place { seat.old.view.place ≡ Calling lock (found_at seat.old.view.place) [] called.now.items ∷ [] }
    ensures table { seat.new.table_id ≡ seat.old.table_id }
    ensures view { Went (Calling lock (found_at seat.old.view.place) called.now.items [] ∷ []) seat.old.view seat.new.view }
    ensures list { seat.new.list ≡ seat.old.list }
{
    for waiter in called.as_slice() {
        let proc = proc_of(rt, waiter);
        line(rt, table.step(seat, LwStep::WaitStore(proc, 2)), 1, true);
    }
}

// Tells those whom an update called, none of which had a count.
#[tactic(auto, using(lwlock::proofs::Waiting::below_at))]
fn tells<R: Abort>(
    rt: &R,
    table: &LwTable<AnyWords>,
    seat: &mut LwSeat,
    called: &ArrayVec<Waiter, 64>,
)
    requires table { seat.old.table_id ≡ table.now.table_id }
    requires called { AllBelow table.now.procs called.now.items }
    requires place { seat.old.view.place ≡ telling called.now.items [] }
    ensures table { seat.new.table_id ≡ seat.old.table_id }
    ensures view { Went [] seat.old.view seat.new.view }
{
    for waiter in called.as_slice() {
        let proc = proc_of(rt, waiter);
        line(rt, table.step(seat, LwStep::WaitStore(proc, 0)), 2, true);
        line(rt, table.step(seat, LwStep::Post(proc, None)), 0, true);
    }
}

// An update that wakes backend 1 alone.
#[tactic(auto, using(lw_core::proofs::Below::until_free_below))]
fn updates<R: Abort>(rt: &R, table: &LwTable<AnyWords>, seat: &mut LwSeat, lock: LockNo, value: u64)
    requires table { (seat.old.table_id ≡ table.now.table_id) × (lock < table.now.locks) }
    requires held { (seat.old.view.place ≡ []) × (mode_in lock seat.old.view ≡ Some Exclusive) }
    ensures table { seat.new.table_id ≡ seat.old.table_id }
    ensures view { Went [] seat.old.view seat.new.view }
{
    let begins = Some(Call::UpdateVar(lock, value));
    line(
        rt,
        table.step(seat, LwStep::Lock(lock, begins)),
        0x6100_0000,
        true,
    );
    line(rt, table.step(seat, LwStep::VarStore(lock, value)), 0, true);
    let called = take_until_free(&mut seat.list().items);
    assert!(rt; called.len() == 1 && called.as_slice()[0].proc == 1);
    marks(rt, table, seat, lock, &called);
    line(
        rt,
        table.step(seat, LwStep::Unlock(lock, false)),
        0x7100_0000,
        true,
    );
    tells(rt, table, seat, &called);
}

#[test]
fn changed_variable_wakes(rt: HostRuntime) -> Result<(), Fail> {
    let lock = LockNo::new(0).ok_or("a lock")?;
    let Ok((table, mut zero)) = LwTable::<AnyWords>::new(rt.alloc(), 1, 2) else {
        panic!(rt; "no memory")
    };
    let Ok(mut one) = table.seat(&mut zero) else {
        panic!(rt; "no number")
    };
    gets(&rt, &table, &mut zero, lock);
    sleeps(&rt, &table, &mut one, lock);
    updates(&rt, &table, &mut zero, lock, 7);
    line(&rt, table.step(&mut one, LwStep::Look(None)), 1, false);
    line(&rt, table.step(&mut one, LwStep::Down), 1, true);
    line(&rt, table.step(&mut one, LwStep::WaitLoad), 0, false);
    let queued = 0x6100_0000;
    line(
        &rt,
        table.step(&mut one, LwStep::Peek(lock, None)),
        queued,
        false,
    );
    reads(&rt, &table, &mut one, lock, 0, queued, 7);
    assert_eq!(rt;
        conditional_acquire(&rt, &table, &mut one, lock, Mode::Shared),
        Err(Held { seen: 0x6100_0000 })
    );
    Ok(())
}

#[test]
fn a_value_is_seen_and_a_free_lock(rt: HostRuntime) -> Result<(), Fail> {
    let lock = LockNo::new(1).ok_or("a lock")?;
    let Ok((table, mut zero)) = LwTable::<AnyWords>::new(rt.alloc(), 2, 2) else {
        panic!(rt; "no memory")
    };
    let Ok(mut one) = table.seat(&mut zero) else {
        panic!(rt; "no number")
    };
    acquire(&rt, &table, &mut zero, lock, Mode::Exclusive);
    update_var(&rt, &table, &mut zero, lock, 7);
    let changed = wait_for_var(&rt, &table, &mut one, lock, 0);
    assert_eq!(rt; changed, VarWait::Changed { value: 7 });
    release_clear_var(&rt, &table, &mut zero, lock, 9);
    let free = wait_for_var(&rt, &table, &mut one, lock, 9);
    assert_eq!(rt; free, VarWait::Free { seen: 0x2000_0000 });
    acquire(&rt, &table, &mut zero, lock, Mode::Exclusive);
    let cleared = wait_for_var(&rt, &table, &mut one, lock, 7);
    assert_eq!(rt; cleared, VarWait::Changed { value: 9 });
    Ok(())
}

const LAST: u64 = 10_000;

// As the holder: publishes three times each number up to the last, and lets go with one more.
fn publish<R: Wait>(rt: &R, table: &LwTable<AnyWords>, mut seat: LwSeat, lock: LockNo) -> LwSeat
    requires table { (seat.table_id ≡ table.now.table_id) × (lock < table.now.locks) }
    requires held { (seat.view.place ≡ []) × (mode_in lock seat.view ≡ Some Exclusive) }
    ensures { (result.table_id ≡ seat.table_id) × (result.view.place ≡ []) }
{
    for n in 1..=LAST {
        update_var(rt, table, &mut seat, lock, 3 * n);
    }
    release_clear_var(rt, table, &mut seat, lock, 3 * (LAST + 1));
    seat
}

// Follows the values until the lock is free, and says whether each was published and above the one
// before.
fn follow<R: Wait>(
    rt: &R,
    table: &LwTable<AnyWords>,
    mut seat: LwSeat,
    lock: LockNo,
) -> (LwSeat, bool)
    requires table { (seat.table_id ≡ table.now.table_id) × (lock < table.now.locks) }
    requires idle { (seat.view.place ≡ []) × (mode_in lock seat.view ≡ None) }
    ensures { (result.0.table_id ≡ seat.table_id) × (result.0.view.place ≡ []) }
{
    let mut seen = 0;
    let mut rises = true;
    for _ in rt.forever() {
        match wait_for_var(rt, table, &mut seat, lock, seen) {
            VarWait::Free { .. } => return (seat, rises),
            VarWait::Changed { value } => {
                rises = rises && seen < value && value % 3 == 0 && value / 3 <= LAST + 1;
                seen = value;
            }
        }
    }
    unreachable!()
}

// Takes a seat in that holds nothing.
fn merge(table: &LwTable<AnyWords>, mut into: LwSeat, from: LwSeat) -> LwSeat
    requires table { (into.table_id ≡ table.now.table_id) × (from.table_id ≡ table.now.table_id) }
    requires idle { from.view.place ≡ [] }
    ensures { (result.table_id ≡ into.table_id) × (result.view.place ≡ into.view.place) }
{
    if from.holds_nothing() {
        table.join(&mut into, from);
    }
    into
}

fn follow_by_two<R: Threads + Wait + Sync>(
    rt: &R,
    table: &LwTable<AnyWords>,
    first: LwSeat,
    other: LwSeat,
    lock: LockNo,
) -> (LwSeat, bool)
    requires table { (first.table_id ≡ table.now.table_id) × (other.table_id ≡ table.now.table_id)
        × (lock < table.now.locks) }
    requires first { (first.view.place ≡ []) × (mode_in lock first.view ≡ None) }
    requires other { (other.view.place ≡ []) × (mode_in lock other.view ≡ None) }
    ensures { (result.0.table_id ≡ first.table_id) × (result.0.view.place ≡ []) }
{
    let (one, two) = join(
        rt,
        move ||
            requires { (first.table_id ≡ table.now.table_id) × (lock < table.now.locks)
                × (first.view.place ≡ []) × (mode_in lock first.view ≡ None) }
            ensures { (result.0.table_id ≡ first.table_id) × (result.0.view.place ≡ []) }
        { follow(rt, table, first, lock) },
        move ||
            requires { (other.table_id ≡ table.now.table_id) × (lock < table.now.locks)
                × (other.view.place ≡ []) × (mode_in lock other.view ≡ None) }
            ensures { (result.0.table_id ≡ other.table_id) × (result.0.view.place ≡ []) }
        { follow(rt, table, other, lock) },
    );
    (merge(table, one.0, two.0), one.1 && two.1)
}

// The holder beside one who follows.
fn publish_to_one<R: Threads + Wait + Sync>(
    rt: &R,
    table: &LwTable<AnyWords>,
    holder: LwSeat,
    other: LwSeat,
    lock: LockNo,
) -> (LwSeat, bool)
    requires table { (holder.table_id ≡ table.now.table_id) × (other.table_id ≡ table.now.table_id)
        × (lock < table.now.locks) }
    requires holder { (holder.view.place ≡ []) × (mode_in lock holder.view ≡ Some Exclusive) }
    requires other { (other.view.place ≡ []) × (mode_in lock other.view ≡ None) }
    ensures { (result.0.table_id ≡ holder.table_id) × (result.0.view.place ≡ []) }
{
    let (holder, other) = join(
        rt,
        move ||
            requires { (holder.table_id ≡ table.now.table_id) × (lock < table.now.locks)
                × (holder.view.place ≡ []) × (mode_in lock holder.view ≡ Some Exclusive) }
            ensures { (result.table_id ≡ holder.table_id) × (result.view.place ≡ []) }
        { publish(rt, table, holder, lock) },
        move ||
            requires { (other.table_id ≡ table.now.table_id) × (lock < table.now.locks)
                × (other.view.place ≡ []) × (mode_in lock other.view ≡ None) }
            ensures { (result.0.table_id ≡ other.table_id) × (result.0.view.place ≡ []) }
        { follow(rt, table, other, lock) },
    );
    (merge(table, holder, other.0), other.1)
}

// Three who follow.
#[derive(Drop)]
struct Followers {
    one: LwSeat,
    two: LwSeat,
    three: LwSeat,
}

fn publish_to_three<R: Threads + Wait + Sync>(
    rt: &R,
    table: &LwTable<AnyWords>,
    holder: LwSeat,
    followers: Followers,
    lock: LockNo,
) -> (LwSeat, bool)
    requires table { (holder.table_id ≡ table.now.table_id) × (lock < table.now.locks)
        × (followers.one.table_id ≡ table.now.table_id) × (followers.two.table_id ≡ table.now.table_id)
        × (followers.three.table_id ≡ table.now.table_id) }
    requires holder { (holder.view.place ≡ []) × (mode_in lock holder.view ≡ Some Exclusive) }
    requires followers { (followers.one.view.place ≡ []) × (mode_in lock followers.one.view ≡ None)
        × (followers.two.view.place ≡ []) × (mode_in lock followers.two.view ≡ None)
        × (followers.three.view.place ≡ []) × (mode_in lock followers.three.view ≡ None) }
    ensures { (result.0.table_id ≡ holder.table_id) × (result.0.view.place ≡ []) }
{
    let Followers { one, two, three } = followers;
    let (low, high) = join(
        rt,
        move ||
            requires { (holder.table_id ≡ table.now.table_id) × (one.table_id ≡ table.now.table_id)
                × (lock < table.now.locks)
                × (holder.view.place ≡ []) × (mode_in lock holder.view ≡ Some Exclusive)
                × (one.view.place ≡ []) × (mode_in lock one.view ≡ None) }
            ensures { (result.0.table_id ≡ holder.table_id) × (result.0.view.place ≡ []) }
        { publish_to_one(rt, table, holder, one, lock) },
        move ||
            requires { (two.table_id ≡ table.now.table_id) × (three.table_id ≡ table.now.table_id)
                × (lock < table.now.locks)
                × (two.view.place ≡ []) × (mode_in lock two.view ≡ None)
                × (three.view.place ≡ []) × (mode_in lock three.view ≡ None) }
            ensures { (result.0.table_id ≡ two.table_id) × (result.0.view.place ≡ []) }
        { follow_by_two(rt, table, two, three, lock) },
    );
    (merge(table, low.0, high.0), low.1 && high.1)
}

#[test]
fn three_follow_what_the_holder_publishes(rt: HostRuntime) -> Result<(), Fail> {
    let lock = LockNo::new(0).ok_or("a lock")?;
    let Ok((table, mut zero)) = LwTable::<AnyWords>::new(rt.alloc(), 1, 4) else {
        panic!(rt; "no memory")
    };
    let Ok(one) = table.seat(&mut zero) else {
        panic!(rt; "no number")
    };
    let Ok(two) = table.seat(&mut zero) else {
        panic!(rt; "no number")
    };
    let Ok(three) = table.seat(&mut zero) else {
        panic!(rt; "no number")
    };
    acquire(&rt, &table, &mut zero, lock, Mode::Exclusive);
    let followers = Followers { one, two, three };
    let (seat, rose) = publish_to_three(&rt, &table, zero, followers, lock);
    assert!(rt; rose && seat.holds_nothing());
    let closed = table.close(seat);
    assert_eq!(rt; closed.state(lock), 0x2000_0000);
    Ok(())
}
