//! Three runs of one to three backends by one thread, step by step: what each step finds, and whether
//! it writes.
ghost use Rattle.std.specs.Prelude.{◌≡◌, ◌<◌, ◌==◌, cond, [], ◌∷◌, None, Some, true};
ghost use Rattle.wait_core.specs.declared.step.Until.TheVariants.{Latch};
ghost use Rattle.wait_core.specs.declared.view.Frame.TheVariants.{Asleep, Dozing, Passing, Returning, Rousing, Settling, SleepWaiting, Taking};
ghost use Rattle.wait_core.specs.declared.view.Job.TheVariants as job;
ghost use Rattle.wait_core.specs.Jobs.{away_from};
ghost use Rattle.wait_core.specs.Parties.{phase_of};
ghost use Rattle.wait_core.specs.Words.{last_phase};

use super::*;
use crate::visit::condition_of;
use proc_table::ProcNo;
use wait_core::{Call, Record, Spot, WaitSeen, WaitStep};

// One line of a run: the word that the step found, and whether it wrote.
fn line<R: Abort>(rt: &R, seen: WaitSeen, old: u64, changed: bool)
    ensures { seen.old ≡ old }
{
    assert!(rt; seen.old == old && seen.changed == changed);
}

fn record(phase: u64, participants: u32, arrived: u32, elected: u64) -> Record
    ensures { result ≡ record { phase = phase; participants = participants; arrived = arrived; elected = elected } }
{
    Record {
        phase,
        participants,
        arrived,
        elected,
    }
}

// Attaches to a barrier whose record it finds so.
fn attaches<R: Abort>(rt: &R, table: &Barriers, seat: &mut Seat, bar: BarNo, before: Record)
    requires table { (seat.old.table_id ≡ table.now.table_id) × (bar < table.now.bars) }
    requires away { (seat.old.view.place ≡ []) × (seat.old.view.target ≡ None) × (phase_of seat.old.view.attached bar ≡ None) }
    requires few { before.participants < 64 }
    ensures table { seat.new.table_id ≡ seat.old.table_id }
    ensures attached { (seat.new.view.place ≡ []) × (seat.new.view.target ≡ None) × (seat.new.view.attached ≡ (bar, before.phase) ∷ seat.old.view.attached) }
{
    let take = WaitStep::Take(Spot::Bar(bar), Some(Call::Attach(bar)));
    line(rt, table.step(seat, take), 0, true);
    let found = seat.record_mut();
    assert!(rt; *found == before);
    found.participants = before.participants + 1;
    let free = WaitStep::Free(Spot::Bar(bar), None);
    line(rt, table.step(seat, free), 1, true);
}

// Arrives at phase 0 after so many of three, and isn't the last.
fn arrives<R: Abort>(rt: &R, table: &Barriers, seat: &mut Seat, bar: BarNo, arrived: u32)
    requires table { (seat.old.table_id ≡ table.now.table_id) × (bar < table.now.bars) }
    requires there { (seat.old.view.place ≡ []) × (seat.old.view.target ≡ None) × (phase_of seat.old.view.attached bar ≡ Some 0) }
    requires few { arrived < 2 }
    ensures table { seat.new.table_id ≡ seat.old.table_id }
    ensures arrived { (seat.new.view.place ≡ Settling bar 0 ∷ []) × (seat.new.view.target ≡ None) × (seat.new.view.attached ≡ seat.old.view.attached) }
{
    let take = WaitStep::Take(Spot::Bar(bar), Some(Call::Arrive(bar)));
    line(rt, table.step(seat, take), 0, true);
    let found = seat.record_mut();
    assert!(rt; *found == record(0, 3, arrived, 0));
    *found = record(0, 3, arrived + 1, 0);
    let free = WaitStep::Free(Spot::Bar(bar), None);
    line(rt, table.step(seat, free), 1, true);
}

// Goes to the end of the list, finds that the phase hasn't passed, and falls asleep.
fn falls_asleep<R: Abort>(rt: &R, table: &Barriers, seat: &mut Seat, bar: BarNo, arrived: u32)
    requires table { (seat.old.table_id ≡ table.now.table_id) × (bar < table.now.bars) × (bar < table.now.cvs) }
    requires arrived { (seat.old.view.place ≡ Settling bar 0 ∷ []) × (seat.old.view.target ≡ None) × (phase_of seat.old.view.attached bar ≡ Some 0) }
    ensures table { seat.new.table_id ≡ seat.old.table_id }
    ensures asleep { (seat.new.view.place ≡ Asleep Latch ∷ SleepWaiting bar ∷ Dozing bar 0 ∷ []) × (seat.new.view.target ≡ Some bar) × (seat.new.view.attached ≡ seat.old.view.attached) }
{
    let own = seat.proc();
    let condition = condition_of(bar);
    let take = WaitStep::Take(Spot::Cv(condition), Some(Call::Prepare(condition)));
    line(rt, table.step(seat, take), 0, true);
    let list = seat.list();
    assert!(rt; list.items.len() < 64);
    list.items.push(own.number());
    let free = WaitStep::Free(Spot::Cv(condition), Some(condition));
    line(rt, table.step(seat, free), 1, true);
    let take = WaitStep::Take(Spot::Bar(bar), None);
    line(rt, table.step(seat, take), 0, true);
    assert!(rt; *seat.record_mut() == record(0, 3, arrived, 0));
    let free = WaitStep::Free(Spot::Bar(bar), Some(condition));
    line(rt, table.step(seat, free), 1, true);
    let sleep = Some(Call::Sleep(condition));
    line(rt, table.step(seat, WaitStep::Sload(own, sleep)), 0, false);
    line(rt, table.step(seat, WaitStep::Mstore(true)), 0, true);
    line(rt, table.step(seat, WaitStep::Sload(own, None)), 0, false);
    line(rt, table.step(seat, WaitStep::Look), 0, false);
}

// Wakes up, finds the list empty, and is on it again.
fn wakes_up<R: Abort>(rt: &R, table: &Barriers, seat: &mut Seat, bar: BarNo)
    requires table { (seat.old.table_id ≡ table.now.table_id) × (bar < table.now.bars) × (bar < table.now.cvs) }
    requires asleep { (seat.old.view.place ≡ Asleep Latch ∷ SleepWaiting bar ∷ Dozing bar 0 ∷ []) × (seat.old.view.target ≡ Some bar) }
    ensures table { seat.new.table_id ≡ seat.old.table_id }
    ensures awake { (seat.new.view.place ≡ Taking (job.Notice bar 0) ∷ []) × (seat.new.view.target ≡ Some bar) × (seat.new.view.attached ≡ seat.old.view.attached) }
{
    let own = seat.proc();
    let condition = condition_of(bar);
    line(rt, table.step(seat, WaitStep::Look), 1, false);
    line(rt, table.step(seat, WaitStep::Mstore(false)), 1, true);
    line(rt, table.step(seat, WaitStep::Drain), 1, true);
    line(rt, table.step(seat, WaitStep::Sload(own, None)), 1, false);
    line(rt, table.step(seat, WaitStep::Reset(None)), 1, true);
    let take = WaitStep::Take(Spot::Cv(condition), None);
    line(rt, table.step(seat, take), 0, true);
    let list = seat.list();
    assert!(rt; list.items.is_empty());
    list.items.push(own.number());
    let free = WaitStep::Free(Spot::Cv(condition), Some(condition));
    line(rt, table.step(seat, free), 1, true);
}

// Notices that the phase has passed, is elected unless another was, and leaves the list.
fn notices<R: Abort>(rt: &R, table: &Barriers, seat: &mut Seat, bar: BarNo, elected: u64)
    requires table { (seat.old.table_id ≡ table.now.table_id) × (bar < table.now.bars) × (bar < table.now.cvs) }
    requires awake { (seat.old.view.place ≡ Taking (job.Notice bar 0) ∷ []) × (seat.old.view.target ≡ Some bar) }
    ensures table { seat.new.table_id ≡ seat.old.table_id }
    ensures returned { (seat.new.view.place ≡ []) × (seat.new.view.target ≡ None) }
    ensures elected { seat.new.view.elections ≡ cond (elected == 1) seat.old.view.elections ((bar, 1) ∷ seat.old.view.elections) }
{
    let own = seat.proc();
    let condition = condition_of(bar);
    let take = WaitStep::Take(Spot::Bar(bar), None);
    line(rt, table.step(seat, take), 0, true);
    let found = seat.record_mut();
    assert!(rt; *found == record(1, 2, 0, elected));
    *found = record(1, 2, 0, 1);
    let free = WaitStep::Free(Spot::Bar(bar), Some(condition));
    line(rt, table.step(seat, free), 1, true);
    let take = WaitStep::Take(Spot::Cv(condition), Some(Call::Cancel));
    line(rt, table.step(seat, take), 0, true);
    let list = seat.list();
    assert!(rt; list.items.as_slice() == [own.number()].as_slice());
    list.items.clear();
    let free = WaitStep::Free(Spot::Cv(condition), None);
    line(rt, table.step(seat, free), 1, true);
}

// Leaves the barrier, where all others have arrived: the phase passes.
fn leaves<R: Abort>(rt: &R, table: &Barriers, seat: &mut Seat, bar: BarNo)
    requires table { (seat.old.table_id ≡ table.now.table_id) × (bar < table.now.bars) }
    requires there { (seat.old.view.place ≡ []) × (seat.old.view.target ≡ None) × (phase_of seat.old.view.attached bar ≡ Some 0) }
    ensures table { seat.new.table_id ≡ seat.old.table_id }
    ensures passes { (seat.new.view.place ≡ Passing bar 0 ∷ []) × (seat.new.view.target ≡ None) × (seat.new.view.attached ≡ away_from bar seat.old.view.attached) }
    ensures elected { seat.new.view.elections ≡ seat.old.view.elections }
{
    let take = WaitStep::Take(Spot::Bar(bar), Some(Call::Detach(bar)));
    line(rt, table.step(seat, take), 0, true);
    let found = seat.record_mut();
    assert!(rt; *found == record(0, 3, 2, 0));
    *found = record(1, 2, 0, 0);
    let free = WaitStep::Free(Spot::Bar(bar), None);
    line(rt, table.step(seat, free), 1, true);
}

// Its broadcast finds two on the list, pops the first and stands behind the second.
fn pops_the_first<R: Abort>(
    rt: &R,
    table: &Barriers,
    seat: &mut Seat,
    bar: BarNo,
    first: ProcNo,
    second: ProcNo,
)
    requires table { (seat.old.table_id ≡ table.now.table_id) × (bar < table.now.cvs) }
    requires passes { (seat.old.view.place ≡ Passing bar 0 ∷ []) × (seat.old.view.target ≡ None) }
    ensures table { seat.new.table_id ≡ seat.old.table_id }
    ensures popped { (seat.new.view.place ≡ Rousing bar first true ∷ Passing bar 0 ∷ []) × (seat.new.view.target ≡ None) × (seat.new.view.attached ≡ seat.old.view.attached) }
{
    let own = seat.proc();
    let condition = condition_of(bar);
    let take = WaitStep::Take(Spot::Cv(condition), Some(Call::Broadcast(condition)));
    line(rt, table.step(seat, take), 0, true);
    let list = seat.list();
    assert!(rt; list.items.as_slice() == [first.number(), second.number()].as_slice());
    list.items.clear();
    list.items.push(second.number());
    list.items.push(own.number());
    let free = WaitStep::Free(Spot::Cv(condition), None);
    line(rt, table.step(seat, free), 1, true);
}

// It pops the second, which stands before itself.
fn pops_the_second<R: Abort>(rt: &R, table: &Barriers, seat: &mut Seat, bar: BarNo, second: ProcNo)
    requires table { (seat.old.table_id ≡ table.now.table_id) × (bar < table.now.cvs) }
    requires passes { (seat.old.view.place ≡ Taking (job.Rebroadcast bar) ∷ Passing bar 0 ∷ []) × (seat.old.view.target ≡ None) }
    ensures table { seat.new.table_id ≡ seat.old.table_id }
    ensures popped { (seat.new.view.place ≡ Rousing bar second true ∷ Passing bar 0 ∷ []) × (seat.new.view.target ≡ None) × (seat.new.view.attached ≡ seat.old.view.attached) }
{
    let own = seat.proc();
    assert!(rt; own != second);
    let condition = condition_of(bar);
    let take = WaitStep::Take(Spot::Cv(condition), None);
    line(rt, table.step(seat, take), 0, true);
    let list = seat.list();
    assert!(rt; list.items.as_slice() == [second.number(), own.number()].as_slice());
    list.items.clear();
    list.items.push(own.number());
    let free = WaitStep::Free(Spot::Cv(condition), None);
    line(rt, table.step(seat, free), 1, true);
}

// It pops itself, and ends.
fn pops_itself<R: Abort>(rt: &R, table: &Barriers, seat: &mut Seat, bar: BarNo)
    requires table { (seat.old.table_id ≡ table.now.table_id) × (bar < table.now.cvs) }
    requires passes { (seat.old.view.place ≡ Taking (job.Rebroadcast bar) ∷ Passing bar 0 ∷ []) × (seat.old.view.target ≡ None) }
    ensures table { seat.new.table_id ≡ seat.old.table_id }
    ensures ended { (seat.new.view.place ≡ []) × (seat.new.view.target ≡ None) × (seat.new.view.attached ≡ seat.old.view.attached) }
{
    let own = seat.proc();
    let condition = condition_of(bar);
    let take = WaitStep::Take(Spot::Cv(condition), None);
    line(rt, table.step(seat, take), 0, true);
    let list = seat.list();
    assert!(rt; list.items.as_slice() == [own.number()].as_slice());
    list.items.clear();
    let free = WaitStep::Free(Spot::Cv(condition), None);
    line(rt, table.step(seat, free), 1, true);
}

// Sets the latch of the backend that it popped, which is asleep, and wakes it.
fn wakes<R: Abort>(rt: &R, table: &Barriers, seat: &mut Seat, bar: BarNo, popped: ProcNo)
    requires table { seat.old.table_id ≡ table.now.table_id }
    requires popped { (seat.old.view.place ≡ Rousing bar popped true ∷ Passing bar 0 ∷ []) × (seat.old.view.target ≡ None) }
    ensures table { seat.new.table_id ≡ seat.old.table_id }
    ensures goes_on { (seat.new.view.place ≡ Taking (job.Rebroadcast bar) ∷ Passing bar 0 ∷ []) × (seat.new.view.target ≡ None) × (seat.new.view.attached ≡ seat.old.view.attached) }
{
    assert!(rt; popped.number() < table.procs());
    let set = Some(Call::Set(popped));
    line(rt, table.step(seat, WaitStep::Sload(popped, set)), 0, false);
    line(rt, table.step(seat, WaitStep::Sset(popped)), 0, true);
    line(rt, table.step(seat, WaitStep::Mload(popped)), 1, false);
    line(rt, table.step(seat, WaitStep::Byte(popped)), 0, true);
}

#[test]
fn a_detach_releases_two_and_one_is_elected(rt: HostRuntime) -> Result<(), Fail> {
    let Ok((table, mut zero)) = Barriers::new(rt.alloc(), NoParty, 3, 1, 1, 0) else {
        panic!(rt; "no memory")
    };
    let bar = BarNo::new(0).ok_or("a barrier")?;
    let mut one = draw(&rt, &table, &mut zero);
    let mut two = draw(&rt, &table, &mut zero);
    attaches(&rt, &table, &mut zero, bar, record(0, 0, 0, 0));
    attaches(&rt, &table, &mut one, bar, record(0, 1, 0, 0));
    attaches(&rt, &table, &mut two, bar, record(0, 2, 0, 0));
    arrives(&rt, &table, &mut zero, bar, 0);
    falls_asleep(&rt, &table, &mut zero, bar, 1);
    arrives(&rt, &table, &mut one, bar, 1);
    falls_asleep(&rt, &table, &mut one, bar, 2);
    leaves(&rt, &table, &mut two, bar);
    pops_the_first(&rt, &table, &mut two, bar, zero.proc(), one.proc());
    wakes(&rt, &table, &mut two, bar, zero.proc());
    pops_the_second(&rt, &table, &mut two, bar, one.proc());
    wakes(&rt, &table, &mut two, bar, one.proc());
    pops_itself(&rt, &table, &mut two, bar);
    wakes_up(&rt, &table, &mut one, bar);
    notices(&rt, &table, &mut one, bar, 0);
    wakes_up(&rt, &table, &mut zero, bar);
    notices(&rt, &table, &mut zero, bar, 1);
    attaches(&rt, &table, &mut two, bar, record(1, 2, 0, 1));
    Ok(())
}

// Arrives and leaves, the only one there: the phase passes, and there is nobody to be woken.
fn leaves_as_the_last<R: Abort>(rt: &R, table: &Barriers, seat: &mut Seat, bar: BarNo)
    requires table { (seat.old.table_id ≡ table.now.table_id) × (bar < table.now.bars) × (bar < table.now.cvs) }
    requires there { (seat.old.view.place ≡ []) × (seat.old.view.target ≡ None) × (phase_of seat.old.view.attached bar ≡ Some 0) }
    ensures table { seat.new.table_id ≡ seat.old.table_id }
    ensures away { (seat.new.view.place ≡ []) × (seat.new.view.target ≡ None) × (seat.new.view.attached ≡ away_from bar seat.old.view.attached) }
    ensures elected { seat.new.view.elections ≡ seat.old.view.elections }
{
    let take = WaitStep::Take(Spot::Bar(bar), Some(Call::ArriveDetach(bar)));
    line(rt, table.step(seat, take), 0, true);
    let found = seat.record_mut();
    assert!(rt; *found == record(0, 1, 0, 0));
    *found = record(1, 0, 0, 0);
    let free = WaitStep::Free(Spot::Bar(bar), None);
    line(rt, table.step(seat, free), 1, true);
    let condition = condition_of(bar);
    let take = WaitStep::Take(Spot::Cv(condition), Some(Call::Broadcast(condition)));
    line(rt, table.step(seat, take), 0, true);
    assert!(rt; seat.list().items.is_empty());
    let free = WaitStep::Free(Spot::Cv(condition), None);
    line(rt, table.step(seat, free), 1, true);
}

#[test]
fn a_sole_participant_leaves_and_elects_nobody(rt: HostRuntime) -> Result<(), Fail> {
    let Ok((table, mut zero)) = Barriers::new(rt.alloc(), NoParty, 1, 1, 1, 0) else {
        panic!(rt; "no memory")
    };
    let bar = BarNo::new(0).ok_or("a barrier")?;
    attaches(&rt, &table, &mut zero, bar, record(0, 0, 0, 0));
    leaves_as_the_last(&rt, &table, &mut zero, bar);
    attaches(&rt, &table, &mut zero, bar, record(1, 0, 0, 0));
    Ok(())
}

// Arrives at the last phase: the record goes home as it was.
fn finds_it_worn<R: Abort>(rt: &R, table: &Barriers, seat: &mut Seat, bar: BarNo)
    requires table { (seat.old.table_id ≡ table.now.table_id) × (bar < table.now.bars) }
    requires there { (seat.old.view.place ≡ []) × (seat.old.view.target ≡ None) × (phase_of seat.old.view.attached bar ≡ Some last_phase) }
    ensures table { seat.new.table_id ≡ seat.old.table_id }
    ensures there { (seat.new.view.place ≡ []) × (seat.new.view.target ≡ None) × (seat.new.view.attached ≡ seat.old.view.attached) }
{
    let take = WaitStep::Take(Spot::Bar(bar), Some(Call::Arrive(bar)));
    line(rt, table.step(seat, take), 0, true);
    let worn = 0x4000_0000_0000_0000;
    assert!(rt; *seat.record_mut() == record(worn, 1, 0, worn));
    let free = WaitStep::Free(Spot::Bar(bar), None);
    line(rt, table.step(seat, free), 1, true);
}

#[test]
fn a_worn_phase_stays(rt: HostRuntime) -> Result<(), Fail> {
    let worn = 0x4000_0000_0000_0000;
    let Ok((table, mut zero)) = Barriers::new(rt.alloc(), NoParty, 1, 1, 1, worn) else {
        panic!(rt; "no memory")
    };
    let bar = BarNo::new(0).ok_or("a barrier")?;
    attaches(&rt, &table, &mut zero, bar, record(worn, 0, 0, worn));
    finds_it_worn(&rt, &table, &mut zero, bar);
    finds_it_worn(&rt, &table, &mut zero, bar);
    Ok(())
}
