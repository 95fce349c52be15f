//! Three runs of two and three backends by one thread, step by step: what each step finds, and whether
//! an exchange took place.
ghost use Rattle.std.specs.Prelude.{◌≡◌, ◌<◌, ◌≤◌, false, [], ◌∷◌, None, Some, IsSome};
ghost use Rattle.lw_core.specs.WaitLists.{AllBelow};
ghost use Rattle.lwlock.specs.Calls.{Went};
ghost use Rattle.lwlock.specs.Wakes.{found_at};
ghost use Rattle.lw_core.specs.declared.view.Frame.TheVariants.{Attempting, Looking, Marking, Queued, Queueing, Sleeping, TakingList};
ghost use Rattle.lw_core.specs.Machine.{mode_in, on_waking, telling, want_of};

use super::*;

// One line of a run: the word that the step found, and whether an exchange took place.
pub(crate) fn line<R: Abort>(rt: &R, seen: LwSeen, old: u64, changed: bool)
    ensures { (seen.old ≡ old) × (seen.changed ≡ changed) }
{
    assert!(rt; seen.old == old && seen.changed == changed);
}

// An acquire that is granted at once.
pub(crate) fn gets<R: Abort>(
    rt: &R,
    table: &LwTable<AnyWords>,
    seat: &mut LwSeat,
    lock: LockNo,
    mode: Mode,
    word: u64,
)
    requires table { (seat.old.table_id ≡ table.now.table_id) × (lock < table.now.locks) }
    requires idle { (seat.old.view.place ≡ []) × (mode_in lock seat.old.view ≡ None) }
    ensures table { seat.new.table_id ≡ seat.old.table_id }
    ensures held { (seat.new.view.place ≡ []) × (mode_in lock seat.new.view ≡ Some mode) }
    ensures same { (seat.new.view.own ≡ seat.old.view.own) × (seat.new.view.pokes ≡ seat.old.view.pokes) }
{
    let begins = Some(Call::Acquire(lock, mode));
    line(
        rt,
        table.step(seat, LwStep::Load(lock, begins)),
        word,
        false,
    );
    assert!(rt; is_free_for(mode, word));
    line(
        rt,
        table.step(seat, LwStep::Grant(lock, mode, word)),
        word,
        true,
    );
}

// An acquire that is refused twice, with the words that its steps on the state word find.
fn is_refused<R: Abort>(
    rt: &R,
    table: &LwTable<AnyWords>,
    seat: &mut LwSeat,
    lock: LockNo,
    mode: Mode,
    found: [u64; 4],
)
    requires table { (seat.old.table_id ≡ table.now.table_id) × (lock < table.now.locks) }
    requires idle { (seat.old.view.place ≡ []) × (mode_in lock seat.old.view ≡ None) }
    ensures table { seat.new.table_id ≡ seat.old.table_id }
    ensures sleeps { seat.new.view.place ≡ Looking ∷ Sleeping lock (want_of mode) false ∷ on_waking (want_of mode) lock mode [] }
    ensures same { (seat.new.view.own ≡ seat.old.view.own) × (seat.new.view.surplus ≡ 0) }
{
    let word = found[0];
    let begins = Some(Call::Acquire(lock, mode));
    line(
        rt,
        table.step(seat, LwStep::Load(lock, begins)),
        word,
        false,
    );
    assert!(rt; !is_free_for(mode, word));
    line(
        rt,
        table.step(seat, LwStep::Refuse(lock, mode, word)),
        word,
        true,
    );
    queues(rt, table, seat, lock, mode, wanted(mode), found);
}

// A refused backend queues, and is refused again.
pub(crate) fn queues<R: Abort>(
    rt: &R,
    table: &LwTable<AnyWords>,
    seat: &mut LwSeat,
    lock: LockNo,
    mode: Mode,
    want: Want,
    found: [u64; 4],
)
    requires table { (seat.old.table_id ≡ table.now.table_id) × (lock < table.now.locks) }
    requires place { seat.old.view.place ≡ TakingList lock ∷ Queueing lock want ∷ Attempting lock mode ∷ Queued lock mode want ∷ [] }
    ensures table { seat.new.table_id ≡ seat.old.table_id }
    ensures sleeps { seat.new.view.place ≡ Looking ∷ Sleeping lock want false ∷ on_waking want lock mode [] }
    ensures same { (seat.new.view.own ≡ seat.old.view.own) × (seat.new.view.surplus ≡ seat.old.view.surplus) }
    ensures holds { seat.new.view.holds ≡ seat.old.view.holds }
{
    let [word, flagged, queued, again] = found;
    assert!(rt; list_is_home(word));
    line(rt, table.step(seat, LwStep::Lock(lock, None)), word, true);
    line(rt, table.step(seat, LwStep::Flag(lock)), flagged, true);
    let own = table.proc_of(seat);
    line(rt, table.step(seat, LwStep::WaitStore(own, 1)), 0, true);
    let waiter = Waiter {
        proc: own.number(),
        want,
    };
    join_list(&mut seat.list().items, waiter);
    line(
        rt,
        table.step(seat, LwStep::Unlock(lock, false)),
        queued,
        true,
    );
    line(rt, table.step(seat, LwStep::Load(lock, None)), again, false);
    assert!(rt; !is_free_for(mode, again));
    line(
        rt,
        table.step(seat, LwStep::Refuse(lock, mode, again)),
        again,
        true,
    );
}

fn are(waiters: &[Waiter], procs: &[u32]) -> bool {
    if waiters.len() != procs.len() {
        return false;
    }
    for at in 0..procs.len() {
        if waiters[at].proc != procs[at] {
            return false;
        }
    }
    true
}

// Marks those that a wake takes, each of which was waiting.
#[tactic(auto, using(crate::proofs::Waiting::below_at))]
fn marks<R: Abort>(
    rt: &R,
    table: &LwTable<AnyWords>,
    seat: &mut LwSeat,
    lock: LockNo,
    taken: &ArrayVec<Waiter, 64>,
)
    requires table { (seat.old.table_id ≡ table.now.table_id) × (table.now.procs ≤ 64) }
    requires taken { AllBelow table.now.procs taken.now.items }
    requires place { seat.old.view.place ≡ Marking lock false (found_at seat.old.view.place) [] taken.now.items ∷ [] }
    ensures table { seat.new.table_id ≡ seat.old.table_id }
    ensures view { Went (Marking lock false (found_at seat.old.view.place) taken.now.items [] ∷ []) seat.old.view seat.new.view }
    ensures list { seat.new.list ≡ seat.old.list }
{
    for waiter in taken.as_slice() {
        line(
            rt,
            table.step(seat, LwStep::WaitStore(proc_of(waiter), 2)),
            1,
            true,
        );
    }
}

// Tells those that a wake took, none of which had a count.
#[tactic(auto, using(crate::proofs::Waiting::below_at))]
fn tells<R: Abort>(
    rt: &R,
    table: &LwTable<AnyWords>,
    seat: &mut LwSeat,
    taken: &ArrayVec<Waiter, 64>,
)
    requires table { (seat.old.table_id ≡ table.now.table_id) × (table.now.procs ≤ 64) }
    requires taken { AllBelow table.now.procs taken.now.items }
    requires place { seat.old.view.place ≡ telling taken.now.items [] }
    ensures table { seat.new.table_id ≡ seat.old.table_id }
    ensures view { Went [] seat.old.view seat.new.view }
{
    for waiter in taken.as_slice() {
        let proc = proc_of(waiter);
        line(rt, table.step(seat, LwStep::WaitStore(proc, 0)), 2, true);
        line(rt, table.step(seat, LwStep::Post(proc, None)), 0, true);
    }
}

// A release that wakes these backends, with the words that its steps on the state word find.
#[tactic(auto, using(lw_core::proofs::Below::taken_below))]
pub(crate) fn wakes<R: Abort>(
    rt: &R,
    table: &LwTable<AnyWords>,
    seat: &mut LwSeat,
    lock: LockNo,
    found: [u64; 3],
    procs: &[u32],
)
    requires table { (seat.old.table_id ≡ table.now.table_id) × (lock < table.now.locks) }
    requires held { (seat.old.view.place ≡ []) × IsSome (mode_in lock seat.old.view) }
    ensures table { seat.new.table_id ≡ seat.old.table_id }
    ensures idle { (seat.new.view.place ≡ []) × (mode_in lock seat.new.view ≡ None) }
{
    let [held, word, locked] = found;
    let Some(mode) = seat.mode_of(lock) else {
        unreachable!()
    };
    let begins = Some(Call::Release(lock));
    line(
        rt,
        table.step(seat, LwStep::Sub(lock, mode, begins)),
        held,
        true,
    );
    assert!(rt; wakes_after(left_word(held, mode)) && list_is_home(word));
    line(rt, table.step(seat, LwStep::Lock(lock, None)), word, true);
    let taken = part(&mut seat.list().items);
    assert!(rt; are(taken.as_slice(), procs));
    marks(rt, table, seat, lock, &taken);
    let none = seat.list().items.is_empty();
    line(
        rt,
        table.step(seat, LwStep::Load(lock, None)),
        locked,
        false,
    );
    let to = woken(locked, locker_among(&taken), none);
    line(
        rt,
        table.step(seat, LwStep::Wake(lock, locked, to)),
        locked,
        true,
    );
    tells(rt, table, seat, &taken);
}

#[test]
fn last_release_wakes_the_waiter(rt: HostRuntime) -> Result<(), Fail> {
    let lock = LockNo::new(0).ok_or("a lock")?;
    let Ok((table, mut zero)) = LwTable::<AnyWords>::new(rt.alloc(), 1, 3) else {
        panic!(rt; "no memory")
    };
    let Ok(mut one) = table.seat(&mut zero) else {
        panic!(rt; "no number")
    };
    let Ok(mut two) = table.seat(&mut zero) else {
        panic!(rt; "no number")
    };
    gets(&rt, &table, &mut zero, lock, Mode::Shared, 0x2000_0000);
    gets(&rt, &table, &mut one, lock, Mode::Shared, 0x2000_0001);
    is_refused(
        &rt,
        &table,
        &mut two,
        lock,
        Mode::Exclusive,
        [0x2000_0002, 0x3000_0002, 0x7000_0002, 0x6000_0002],
    );
    line(&rt, table.step(&mut two, LwStep::Look(None)), 0, false);
    line(
        &rt,
        table.step(
            &mut zero,
            LwStep::Sub(lock, Mode::Shared, Some(Call::Release(lock))),
        ),
        0x6000_0002,
        true,
    );
    wakes(
        &rt,
        &table,
        &mut one,
        lock,
        [0x6000_0001, 0x6000_0000, 0x7000_0000],
        &[2],
    );
    line(&rt, table.step(&mut two, LwStep::Look(None)), 1, false);
    line(&rt, table.step(&mut two, LwStep::Down), 1, true);
    line(&rt, table.step(&mut two, LwStep::WaitLoad), 0, false);
    line(
        &rt,
        table.step(&mut two, LwStep::SetReleaseOk(lock)),
        0,
        true,
    );
    line(
        &rt,
        table.step(&mut two, LwStep::Load(lock, None)),
        0x2000_0000,
        false,
    );
    line(
        &rt,
        table.step(&mut two, LwStep::Grant(lock, Mode::Exclusive, 0x2000_0000)),
        0x2000_0000,
        true,
    );
    assert_eq!(rt;
        conditional_acquire(&rt, &table, &mut zero, lock, Mode::Shared),
        Err(Held { seen: 0x2100_0000 })
    );
    Ok(())
}

#[test]
fn surplus_is_given_back(rt: HostRuntime) -> Result<(), Fail> {
    let lock = LockNo::new(0).ok_or("a lock")?;
    let Ok((table, mut zero)) = LwTable::<AnyWords>::new(rt.alloc(), 1, 2) else {
        panic!(rt; "no memory")
    };
    let Ok(mut one) = table.seat(&mut zero) else {
        panic!(rt; "no number")
    };
    let own = zero.proc();
    gets(&rt, &table, &mut one, lock, Mode::Exclusive, 0x2000_0000);
    line(
        &rt,
        table.step(&mut one, LwStep::Post(own, Some(Call::Poke(own)))),
        0,
        true,
    );
    line(
        &rt,
        table.step(&mut one, LwStep::Post(own, Some(Call::Poke(own)))),
        1,
        true,
    );
    is_refused(
        &rt,
        &table,
        &mut zero,
        lock,
        Mode::Exclusive,
        [0x2100_0000, 0x3100_0000, 0x7100_0000, 0x6100_0000],
    );
    line(&rt, table.step(&mut zero, LwStep::Look(None)), 2, false);
    line(&rt, table.step(&mut zero, LwStep::Down), 2, true);
    line(&rt, table.step(&mut zero, LwStep::WaitLoad), 1, false);
    line(&rt, table.step(&mut zero, LwStep::Look(None)), 1, false);
    line(&rt, table.step(&mut zero, LwStep::Down), 1, true);
    line(&rt, table.step(&mut zero, LwStep::WaitLoad), 1, false);
    line(&rt, table.step(&mut zero, LwStep::Look(None)), 0, false);
    wakes(
        &rt,
        &table,
        &mut one,
        lock,
        [0x6100_0000, 0x6000_0000, 0x7000_0000],
        &[0],
    );
    line(&rt, table.step(&mut zero, LwStep::Look(None)), 1, false);
    line(&rt, table.step(&mut zero, LwStep::Down), 1, true);
    line(&rt, table.step(&mut zero, LwStep::WaitLoad), 0, false);
    line(
        &rt,
        table.step(&mut zero, LwStep::SetReleaseOk(lock)),
        0,
        true,
    );
    line(
        &rt,
        table.step(&mut zero, LwStep::Load(lock, None)),
        0x2000_0000,
        false,
    );
    line(
        &rt,
        table.step(&mut zero, LwStep::Grant(lock, Mode::Exclusive, 0x2000_0000)),
        0x2000_0000,
        true,
    );
    line(&rt, table.step(&mut zero, LwStep::Post(own, None)), 0, true);
    line(&rt, table.step(&mut zero, LwStep::Post(own, None)), 1, true);
    line(
        &rt,
        table.step(&mut zero, LwStep::Look(Some(Call::Down))),
        2,
        false,
    );
    Ok(())
}

#[test]
fn shared_waiters_pass_an_exclusive(rt: HostRuntime) -> Result<(), Fail> {
    let lock = LockNo::new(0).ok_or("a lock")?;
    let Ok((table, mut zero)) = LwTable::<AnyWords>::new(rt.alloc(), 1, 4) else {
        panic!(rt; "no memory")
    };
    gets(&rt, &table, &mut zero, lock, Mode::Exclusive, 0x2000_0000);
    let waiters = [
        (
            Mode::Shared,
            [0x2100_0000, 0x3100_0000, 0x7100_0000, 0x6100_0000],
        ),
        (
            Mode::Exclusive,
            [0x6100_0000, 0x7100_0000, 0x7100_0000, 0x6100_0000],
        ),
        (
            Mode::Shared,
            [0x6100_0000, 0x7100_0000, 0x7100_0000, 0x6100_0000],
        ),
    ];
    for (mode, found) in waiters {
        let Ok(mut seat) = table.seat(&mut zero) else {
            panic!(rt; "no number")
        };
        is_refused(&rt, &table, &mut seat, lock, mode, found);
        line(&rt, table.step(&mut seat, LwStep::Look(None)), 0, false);
    }
    wakes(
        &rt,
        &table,
        &mut zero,
        lock,
        [0x6100_0000, 0x6000_0000, 0x7000_0000],
        &[1, 3],
    );
    let begins = Some(Call::Try(lock, Mode::Shared));
    line(
        &rt,
        table.step(&mut zero, LwStep::Load(lock, begins)),
        0x4000_0000,
        false,
    );
    Ok(())
}
