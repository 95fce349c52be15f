//! What no clause says: the words of one broadcast and three signals step by step, those of a cancel
//! against a broadcast, a signal between a preparation and a sleep, and threads.
ghost use Rattle.std.specs.Prelude.{◌≡◌, ◌<◌, ◌≤◌, [], ◌∷◌, None, Some, true, false};
ghost use Rattle.wait_core.specs.declared.step.Call.TheVariants as call;
ghost use Rattle.wait_core.specs.declared.view.Frame.TheVariants.{Rousing, Signalling, Taking};
ghost use Rattle.wait_core.specs.declared.view.Job.TheVariants as job;
ghost use Rattle.wait_core.specs.Jobs.{resumed};
ghost use Rattle.wait_core.specs.Machine.{MayBegin};

use super::*;
use crate::list::{is_on, join, join_others, leave, other_than_own, pop};
use latch::latch_is_set;
use proc_table::{CvNo, ProcNo};
use std::process::Abort;
use std::test::Fail;
use wait_core::{Call, NoParty, Spot, WaitSeat, WaitSeen, WaitStep, WaitTable};

mod threads;

type Conditions = WaitTable<NoParty>;

type Seat = WaitSeat<NoParty>;

fn expect<R: Abort>(rt: &R, seen: WaitSeen, old: u64, changed: bool)
    ensures { seen.old ≡ old }
{
    assert!(rt; seen.old == old && seen.changed == changed);
}

fn draw<R: Abort>(rt: &R, table: &Conditions, zero: &mut Seat) -> Seat
    requires { (zero.old.table_id ≡ table.now.table_id) × (zero.old.view.own ≡ Some 0) }
    ensures zero { (zero.new.table_id ≡ table.now.table_id) × (zero.new.view.own ≡ Some 0) × (zero.new.view.place ≡ zero.old.view.place) × (zero.new.view.target ≡ zero.old.view.target) }
    ensures drawn { (result.table_id ≡ table.now.table_id) × (result.view.place ≡ []) × (result.view.target ≡ None) }
{
    let Ok(seat) = table.seat(zero) else {
        panic!(rt; "no number")
    };
    seat
}

// A backend goes to the end of the list.
fn prepares<R: Abort>(rt: &R, table: &Conditions, seat: &mut Seat, cv: CvNo)
    requires table { (seat.old.table_id ≡ table.now.table_id) × (cv < table.now.cvs) }
    requires idle { (seat.old.view.place ≡ []) × (seat.old.view.target ≡ None) }
    ensures table { seat.new.table_id ≡ seat.old.table_id }
    ensures idle { (seat.new.view.place ≡ []) × (seat.new.view.target ≡ Some cv) }
{
    let take = WaitStep::Take(Spot::Cv(cv), Some(Call::Prepare(cv)));
    expect(rt, table.step(seat, take), 0, true);
    assert!(rt; seat.list().items.len() < 64);
    join(seat);
    let free = WaitStep::Free(Spot::Cv(cv), Some(cv));
    expect(rt, table.step(seat, free), 1, true);
}

// Takes the list that a signal pops this backend from.
fn signals<R: Abort>(rt: &R, table: &Conditions, seat: &mut Seat, cv: CvNo, first: ProcNo)
    requires table { (seat.old.table_id ≡ table.now.table_id) × (cv < table.now.cvs) × (table.now.procs ≡ 6) }
    requires idle { (seat.old.view.place ≡ []) × (seat.old.view.target ≡ None) }
    ensures table { seat.new.table_id ≡ seat.old.table_id }
    ensures popped { seat.new.view.place ≡ Signalling cv first ∷ [] }
    ensures target { seat.new.view.target ≡ None }
{
    let take = WaitStep::Take(Spot::Cv(cv), Some(Call::Signal(cv)));
    expect(rt, table.step(seat, take), 0, true);
    assert!(rt; pop(seat) == Some(first));
    let free = WaitStep::Free(Spot::Cv(cv), None);
    expect(rt, table.step(seat, free), 1, true);
}

// A broadcast pops this backend first, and stands behind others.
fn broadcasts<R: Abort>(rt: &R, table: &Conditions, seat: &mut Seat, cv: CvNo, first: ProcNo)
    requires table { (seat.old.table_id ≡ table.now.table_id) × (cv < table.now.cvs) × (table.now.procs ≡ 6) }
    requires idle { (seat.old.view.place ≡ []) × (seat.old.view.target ≡ None) }
    ensures table { seat.new.table_id ≡ seat.old.table_id }
    ensures popped { seat.new.view.place ≡ Rousing cv first true ∷ [] }
    ensures target { seat.new.view.target ≡ None }
{
    let take = WaitStep::Take(Spot::Cv(cv), Some(Call::Broadcast(cv)));
    expect(rt, table.step(seat, take), 0, true);
    assert!(rt; pop(seat) == Some(first));
    assert!(rt; seat.list().items.len() < 64);
    assert!(rt; join_others(seat));
    let free = WaitStep::Free(Spot::Cv(cv), None);
    expect(rt, table.step(seat, free), 1, true);
}

// It goes on: it pops this backend, and finds itself off the list.
fn goes_on<R: Abort>(rt: &R, table: &Conditions, seat: &mut Seat, cv: CvNo, first: ProcNo)
    requires table { (seat.old.table_id ≡ table.now.table_id) × (cv < table.now.cvs) × (table.now.procs ≡ 6) }
    requires place { (seat.old.view.place ≡ Taking (job.Rebroadcast cv) ∷ []) × (seat.old.view.target ≡ None) }
    ensures table { seat.new.table_id ≡ seat.old.table_id }
    ensures popped { seat.new.view.place ≡ Rousing cv first false ∷ [] }
{
    let take = WaitStep::Take(Spot::Cv(cv), None);
    expect(rt, table.step(seat, take), 0, true);
    let popped = pop(seat);
    assert!(rt; other_than_own(seat, popped) == Some(first));
    assert!(rt; !is_on(seat));
    let free = WaitStep::Free(Spot::Cv(cv), None);
    expect(rt, table.step(seat, free), 1, true);
}

// The popped backend's latch is set; it isn't asleep.
fn sets<R: Abort>(rt: &R, table: &Conditions, seat: &mut Seat, popped: ProcNo)
    requires table { seat.old.table_id ≡ table.now.table_id }
    requires place { MayBegin (call.Set popped) seat.old.view.place }
    ensures table { seat.new.table_id ≡ seat.old.table_id }
    ensures resumed { seat.new.view.place ≡ resumed seat.old.view.place }
    ensures target { seat.new.view.target ≡ seat.old.view.target }
{
    assert!(rt; popped.number() < table.procs());
    let load = WaitStep::Sload(popped, Some(Call::Set(popped)));
    expect(rt, table.step(seat, load), 0, false);
    expect(rt, table.step(seat, WaitStep::Sset(popped)), 0, true);
    expect(rt, table.step(seat, WaitStep::Mload(popped)), 0, false);
}

#[test]
fn signal_pops_the_sentinel(rt: HostRuntime) -> Result<(), Fail> {
    let Ok((table, mut zero)) = Conditions::new(rt.alloc(), NoParty, 6, 1, 1, 0) else {
        panic!(rt; "no memory")
    };
    let Some(cv) = CvNo::new(0) else {
        panic!(rt; "no condition")
    };
    let mut one = draw(&rt, &table, &mut zero);
    let mut two = draw(&rt, &table, &mut zero);
    let mut three = draw(&rt, &table, &mut zero);
    let mut four = draw(&rt, &table, &mut zero);
    let mut five = draw(&rt, &table, &mut zero);
    prepares(&rt, &table, &mut zero, cv);
    prepares(&rt, &table, &mut one, cv);
    prepares(&rt, &table, &mut two, cv);
    broadcasts(&rt, &table, &mut three, cv, zero.proc());
    sets(&rt, &table, &mut three, zero.proc());
    prepares(&rt, &table, &mut five, cv);
    signals(&rt, &table, &mut four, cv, one.proc());
    sets(&rt, &table, &mut four, one.proc());
    signals(&rt, &table, &mut four, cv, two.proc());
    sets(&rt, &table, &mut four, two.proc());
    signals(&rt, &table, &mut four, cv, three.proc());
    sets(&rt, &table, &mut four, three.proc());
    goes_on(&rt, &table, &mut three, cv, five.proc());
    sets(&rt, &table, &mut three, five.proc());
    assert!(rt; signal(&rt, &table, &mut four, cv).is_none());
    assert!(rt; latch_is_set(&table, &mut zero) && latch_is_set(&table, &mut one));
    assert!(rt; latch_is_set(&table, &mut two) && latch_is_set(&table, &mut three));
    assert!(rt; !latch_is_set(&table, &mut four) && latch_is_set(&table, &mut five));
    Ok(())
}

// A broadcast pops this backend first, and stands behind others. Meanwhile one of those cancels: it
// finds the list in another's hand, and leaves it as soon as it is free.
fn broadcast_meets_cancel<R: Abort>(
    rt: &R,
    table: &Conditions,
    seat: &mut Seat,
    leaver: &mut Seat,
    cv: CvNo,
    first: ProcNo,
)
    requires table { (seat.old.table_id ≡ table.now.table_id) × (leaver.old.table_id ≡ table.now.table_id) × (cv < table.now.cvs) × (table.now.procs ≡ 6) }
    requires idle { (seat.old.view.place ≡ []) × (seat.old.view.target ≡ None) }
    requires prepared { (leaver.old.view.place ≡ []) × (leaver.old.view.target ≡ Some cv) }
    ensures table { (seat.new.table_id ≡ seat.old.table_id) × (leaver.new.table_id ≡ leaver.old.table_id) }
    ensures popped { seat.new.view.place ≡ Rousing cv first true ∷ [] }
    ensures target { seat.new.view.target ≡ None }
    ensures left { leaver.new.view.place ≡ [] }
{
    let take = WaitStep::Take(Spot::Cv(cv), Some(Call::Broadcast(cv)));
    expect(rt, table.step(seat, take), 0, true);
    let take = WaitStep::Take(Spot::Cv(cv), Some(Call::Cancel));
    expect(rt, table.step(leaver, take), 1, true);
    expect(
        rt,
        table.step(leaver, WaitStep::Spin(Spot::Cv(cv))),
        1,
        false,
    );
    assert!(rt; pop(seat) == Some(first));
    assert!(rt; seat.list().items.len() < 64);
    assert!(rt; join_others(seat));
    expect(
        rt,
        table.step(seat, WaitStep::Free(Spot::Cv(cv), None)),
        1,
        true,
    );
    expect(
        rt,
        table.step(leaver, WaitStep::Spin(Spot::Cv(cv))),
        0,
        false,
    );
    expect(
        rt,
        table.step(leaver, WaitStep::Take(Spot::Cv(cv), None)),
        0,
        true,
    );
    assert!(rt; !leave(leaver));
    expect(
        rt,
        table.step(leaver, WaitStep::Free(Spot::Cv(cv), None)),
        1,
        true,
    );
}

// A broadcast goes on: it finds itself alone on the list, and ends.
fn finds_itself<R: Abort>(rt: &R, table: &Conditions, seat: &mut Seat, cv: CvNo)
    requires table { (seat.old.table_id ≡ table.now.table_id) × (cv < table.now.cvs) × (table.now.procs ≡ 6) }
    requires place { (seat.old.view.place ≡ Taking (job.Rebroadcast cv) ∷ []) × (seat.old.view.target ≡ None) }
    ensures table { seat.new.table_id ≡ seat.old.table_id }
    ensures ended { seat.new.view.place ≡ [] }
{
    let take = WaitStep::Take(Spot::Cv(cv), None);
    expect(rt, table.step(seat, take), 0, true);
    let popped = pop(seat);
    assert!(rt; popped == Some(seat.proc()) && other_than_own(seat, popped).is_none());
    assert!(rt; seat.list().items.is_empty());
    expect(
        rt,
        table.step(seat, WaitStep::Free(Spot::Cv(cv), None)),
        1,
        true,
    );
}

#[test]
fn cancel_meets_a_broadcast(rt: HostRuntime) -> Result<(), Fail> {
    let Ok((table, mut zero)) = Conditions::new(rt.alloc(), NoParty, 6, 1, 1, 0) else {
        panic!(rt; "no memory")
    };
    let Some(cv) = CvNo::new(0) else {
        panic!(rt; "no condition")
    };
    let mut one = draw(&rt, &table, &mut zero);
    let mut two = draw(&rt, &table, &mut zero);
    prepares(&rt, &table, &mut zero, cv);
    prepares(&rt, &table, &mut one, cv);
    broadcast_meets_cancel(&rt, &table, &mut two, &mut one, cv, zero.proc());
    sets(&rt, &table, &mut two, zero.proc());
    finds_itself(&rt, &table, &mut two, cv);
    assert!(rt; cancel_sleep(&rt, &table, &mut zero));
    assert!(rt; latch_is_set(&table, &mut zero) && !latch_is_set(&table, &mut one));
    assert!(rt; !latch_is_set(&table, &mut two));
    Ok(())
}

#[test]
fn signal_between_prepare_and_sleep(rt: HostRuntime) -> Result<(), Fail> {
    let Ok((table, mut zero)) = Conditions::new(rt.alloc(), NoParty, 2, 1, 1, 0) else {
        panic!(rt; "no memory")
    };
    let mut one = draw(&rt, &table, &mut zero);
    let Some(cv) = CvNo::new(0) else {
        panic!(rt; "no condition")
    };
    prepare_to_sleep(&rt, &table, &mut zero, cv);
    assert!(rt; signal(&rt, &table, &mut one, cv) == Some(zero.proc()));
    assert!(rt; signal(&rt, &table, &mut one, cv).is_none());
    assert!(rt; sleep(&rt, &table, &mut zero, cv) == Slept::Signalled);
    broadcast(&rt, &table, &mut one, cv);
    assert!(rt; cancel_sleep(&rt, &table, &mut zero));
    assert!(rt; !cancel_sleep(&rt, &table, &mut zero));
    Ok(())
}
