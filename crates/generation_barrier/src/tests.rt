//! What no clause says: the words of two emissions step by step, each call once, and threads.
ghost use Rattle.std.specs.Prelude.{◌≡◌, None, Some};
ghost use Rattle.signal_core.specs.declared.view.Frame.TheVariants.{Posting, Swapping, Telling};
ghost use Rattle.signal_core.specs.Machine.{IsJoined};

use super::*;
use proc_signal::{emit, join_slot};
use proc_table::ProcNo;
use signal_core::{Call, Kinds, SigSeat, SigSeen, SigStep, SigTable};
use std::process::Abort;
use std::test::Fail;
use wait_core::{NoParty, WaitTable};

mod threads;

struct Anything;

impl Kinds for Anything {
    ghost shows = { λ _ _. Unit {0} };
}

type Signals = SigTable<Anything>;

type Waits = WaitTable<NoParty>;

// Answers as told, and counts.
#[derive(Drop)]
struct Counter {
    answer: bool,
    asked: u32,
}

impl Absorber for Counter {
    ghost meets = { λ _ _ _ _. Unit {0} };

    fn take_kind(&mut self, _kind: u32) -> bool {
        self.asked = self.asked.saturating_add(1);
        self.answer
    }
}

fn expect<R: Abort>(rt: &R, seen: SigSeen, old: u64)
    ensures { seen.old ≡ old }
{
    assert!(rt; seen.old == old);
}

#[test]
fn emitted_absorbed_waited(rt: HostRuntime) -> Result<(), Fail> {
    let Ok((table, mut zero)) = Signals::new(rt.alloc(), 2, 0) else {
        panic!(rt; "no memory")
    };
    let Ok((waits, mut waiter)) = Waits::new(rt.alloc(), NoParty, 2, 74, 1, 0) else {
        panic!(rt; "no memory")
    };
    let (Ok(mut one), Ok(mut notifier)) = (table.seat(&mut zero), waits.seat(&mut waiter)) else {
        panic!(rt; "no number")
    };
    assert!(rt; join_slot(&table, &mut one) == 0);
    assert!(rt; emit(&table, &mut zero, 0, 4_194_305).ok() == Some(1));
    let mut takes = Counter {
        answer: true,
        asked: 0,
    };
    assert!(rt; absorb(&table, &mut one, &mut takes) == Absorb::Published { generation: 1 });
    publish_notice(&rt, &table, &one, &waits, &mut notifier);
    wait_for(&rt, &table, &mut zero, &waits, &mut waiter, 1);
    assert!(rt; absorb(&table, &mut one, &mut takes) == Absorb::Idle { generation: 1 });
    assert!(rt; emit(&table, &mut zero, 3, 7).ok() == Some(2));
    leave_slot(&rt, &table, &mut one, &waits, &mut notifier);
    wait_for(&rt, &table, &mut zero, &waits, &mut waiter, 2);
    assert!(rt; takes.asked == 1);
    table.settle(&mut zero);
    Ok(())
}

#[test]
fn kinds_that_fail_are_kept(rt: HostRuntime) -> Result<(), Fail> {
    let Ok((table, mut zero)) = Signals::new(rt.alloc(), 2, 0) else {
        panic!(rt; "no memory")
    };
    let Ok(mut one) = table.seat(&mut zero) else {
        panic!(rt; "no number")
    };
    join_slot(&table, &mut one);
    assert!(rt; emit(&table, &mut zero, 3, 7).ok() == Some(1));
    assert!(rt; emit(&table, &mut zero, 5, 7).ok() == Some(2));
    let mut takes = Counter {
        answer: false,
        asked: 0,
    };
    assert!(rt; absorb(&table, &mut one, &mut takes) == Absorb::Kept { failed: 40 });
    takes.answer = true;
    assert!(rt; absorb(&table, &mut one, &mut takes) == Absorb::Published { generation: 2 });
    assert!(rt; takes.asked == 4);
    Ok(())
}

// An emission tells the first of two backends, who alone is in its slot.
fn tells<R: Abort>(rt: &R, table: &Signals, seat: &mut SigSeat, first: ProcNo, second: ProcNo)
    requires table { (seat.old.table_id ≡ table.now.table_id) × (table.now.procs ≡ 2) }
    requires slots { (first ≡ 0) × (second ≡ 1) }
    requires place { seat.old.view.place ≡ Some (Telling 0) }
    ensures table { seat.new.table_id ≡ seat.old.table_id }
    ensures place { seat.new.view.place ≡ None }
{
    expect(rt, table.step(seat, SigStep::Pload(first)), 1);
    expect(rt, table.step(seat, SigStep::Pend(first)), 0);
    expect(rt, table.step(seat, SigStep::Pload(second)), 0);
}

// A backend begins to absorb, and is to swap its mask out.
fn begins_to_absorb<R: Abort>(rt: &R, table: &Signals, seat: &mut SigSeat, own: ProcNo)
    requires table { (seat.old.table_id ≡ table.now.table_id) × (seat.old.view.own ≡ Some own) }
    requires place { (seat.old.view.place ≡ None) × IsJoined seat.old.view.slot }
    ensures table { seat.new.table_id ≡ seat.old.table_id }
    ensures place { (seat.new.view.place ≡ Some (Swapping 1)) × IsJoined seat.new.view.slot }
{
    let absorbs = Some(Call::Absorb);
    expect(rt, table.step(seat, SigStep::Pswap(absorbs)), 1);
    expect(rt, table.step(seat, SigStep::Gload(own, None)), 0);
    expect(rt, table.step(seat, SigStep::Hload(None)), 1);
}

// An emission is posted at both slots, which have the kind 3, and takes its generation.
fn posts_beside<R: Abort>(
    rt: &R,
    table: &Signals,
    seat: &mut SigSeat,
    first: ProcNo,
    second: ProcNo,
)
    requires table { (seat.old.table_id ≡ table.now.table_id) × (table.now.procs ≡ 2) }
    requires slots { (first ≡ 0) × (second ≡ 1) }
    requires place { seat.old.view.place ≡ None }
    ensures table { seat.new.table_id ≡ seat.old.table_id }
    ensures place { seat.new.view.place ≡ Some (Telling 0) }
{
    let emits = Some(Call::Emit(5, 7));
    expect(rt, table.step(seat, SigStep::Hload(emits)), 1);
    expect(rt, table.step(seat, SigStep::Mor(first, 5, None)), 8);
    expect(rt, table.step(seat, SigStep::Mor(second, 5, None)), 8);
    expect(rt, table.step(seat, SigStep::Hadd), 1);
}

// The backend finds both kinds, and publishes what it read before.
fn publishes_the_older<R: Abort>(rt: &R, table: &Signals, seat: &mut SigSeat)
    requires table { seat.old.table_id ≡ table.now.table_id }
    requires place { (seat.old.view.place ≡ Some (Swapping 1)) × IsJoined seat.old.view.slot }
    ensures table { seat.new.table_id ≡ seat.old.table_id }
    ensures place { (seat.new.view.place ≡ None) × IsJoined seat.new.view.slot }
{
    expect(rt, table.step(seat, SigStep::Mswap(None)), 40);
    expect(rt, table.step(seat, SigStep::Gstore(1, None)), 0);
}

#[test]
fn an_emission_between_two_steps_of_absorb(rt: HostRuntime) -> Result<(), Fail> {
    let Ok((table, mut zero)) = Signals::new(rt.alloc(), 2, 0) else {
        panic!(rt; "no memory")
    };
    let Ok(mut one) = table.seat(&mut zero) else {
        panic!(rt; "no number")
    };
    let p = table.proc_of(&zero);
    let q = table.proc_of(&one);
    assert!(rt; join_slot(&table, &mut zero) == 0);
    assert!(rt; emit(&table, &mut one, 3, 7).ok() == Some(1));
    begins_to_absorb(&rt, &table, &mut zero, p);
    posts_beside(&rt, &table, &mut one, p, q);
    publishes_the_older(&rt, &table, &mut zero);
    tells(&rt, &table, &mut one, p, q);
    let mut takes = Counter {
        answer: false,
        asked: 0,
    };
    assert!(rt; absorb(&table, &mut zero, &mut takes) == Absorb::Published { generation: 2 });
    assert!(rt; takes.asked == 0);
    assert!(rt; emit(&table, &mut one, 3, 7).ok() == Some(3));
    assert!(rt; absorb(&table, &mut zero, &mut takes) == Absorb::Kept { failed: 8 });
    Ok(())
}

// An emission is posted at the first of two slots.
fn posts_at_first<R: Abort>(rt: &R, table: &Signals, seat: &mut SigSeat, first: ProcNo)
    requires table { (seat.old.table_id ≡ table.now.table_id) × (table.now.procs ≡ 2) × (first ≡ 0) }
    requires place { seat.old.view.place ≡ None }
    ensures table { seat.new.table_id ≡ seat.old.table_id }
    ensures place { seat.new.view.place ≡ Some (Posting 0 7 1) }
{
    let emits = Some(Call::Emit(0, 7));
    expect(rt, table.step(seat, SigStep::Hload(emits)), 0);
    expect(rt, table.step(seat, SigStep::Mor(first, 0, None)), 0);
}

// The first backend joins its slot, and clears what was posted.
fn joins<R: Abort>(rt: &R, table: &Signals, seat: &mut SigSeat)
    requires table { (seat.old.table_id ≡ table.now.table_id) × (seat.old.view.own ≡ Some 0) }
    requires place { (seat.old.view.place ≡ None) × (seat.old.view.slot ≡ None) }
    ensures table { seat.new.table_id ≡ seat.old.table_id }
    ensures place { (seat.new.view.place ≡ None) × IsJoined seat.new.view.slot }
{
    let joins = Some(Call::Join);
    expect(rt, table.step(seat, SigStep::Mswap(joins)), 1);
    expect(rt, table.step(seat, SigStep::Hload(None)), 0);
    expect(rt, table.step(seat, SigStep::Gstore(0, None)), u64::MAX);
    expect(rt, table.step(seat, SigStep::Pstore(1)), 0);
}

#[test]
fn a_post_before_the_joiners_clearing(rt: HostRuntime) -> Result<(), Fail> {
    let Ok((table, mut zero)) = Signals::new(rt.alloc(), 2, 0) else {
        panic!(rt; "no memory")
    };
    let Ok(mut one) = table.seat(&mut zero) else {
        panic!(rt; "no number")
    };
    let p = table.proc_of(&zero);
    let q = table.proc_of(&one);
    posts_at_first(&rt, &table, &mut one, p);
    joins(&rt, &table, &mut zero);
    expect(&rt, table.step(&mut one, SigStep::Mor(q, 0, None)), 0);
    expect(&rt, table.step(&mut one, SigStep::Hadd), 0);
    tells(&rt, &table, &mut one, p, q);
    let mut takes = Counter {
        answer: false,
        asked: 0,
    };
    assert!(rt; absorb(&table, &mut zero, &mut takes) == Absorb::Published { generation: 1 });
    assert!(rt; takes.asked == 0);
    Ok(())
}

#[test]
fn a_worn_header_refuses_emissions(rt: HostRuntime) -> Result<(), Fail> {
    let worn = 0x4000_0000_0000_0000;
    let Ok((table, mut zero)) = Signals::new(rt.alloc(), 1, worn) else {
        panic!(rt; "no memory")
    };
    let emits = Some(Call::Emit(0, 7));
    expect(&rt, table.step(&mut zero, SigStep::Hload(emits)), worn);
    let Err(refused) = emit(&table, &mut zero, 0, 7) else {
        panic!(rt; "a generation")
    };
    assert!(rt; refused.at == worn);
    let Err(none) = table.seat(&mut zero) else {
        panic!(rt; "a number")
    };
    assert_eq!(rt; none.drawn, 1);
    table.close(zero);
    Ok(())
}
