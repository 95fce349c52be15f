ghost use Rattle.std.specs.Prelude.{◌≡◌, ◌<◌, []};

use super::*;
use proc_table::ProcNo;
use std::process::Abort;
use std::sync::Wait;
use std::test::Fail;
use std::thread::{Threads, join};
use wait_core::{Call, NoParty, Until, WaitSeat, WaitSeen, WaitStep, WaitTable};

type Latches = WaitTable<NoParty>;

type Seat = WaitSeat<NoParty>;

fn expect<R: Abort>(rt: &R, seen: WaitSeen, old: u64, changed: bool)
    ensures { seen.old ≡ old }
{
    assert!(rt; seen.old == old && seen.changed == changed);
}

#[test]
fn set_before_the_second_look(rt: HostRuntime) -> Result<(), Fail> {
    let Ok((table, mut zero)) = Latches::new(rt.alloc(), NoParty, 2, 1, 1, 0) else {
        panic!(rt; "no memory")
    };
    let Ok(mut one) = table.seat(&mut zero) else {
        panic!(rt; "no number")
    };
    let p = zero.proc();
    let wait = Some(Call::Wait(Until::LatchOrShutdown));
    let set = Some(Call::Set(p));
    expect(
        &rt,
        table.step(&mut zero, WaitStep::Sload(p, wait)),
        0,
        false,
    );
    expect(&rt, table.step(&mut zero, WaitStep::Mstore(true)), 0, true);
    expect(&rt, table.step(&mut one, WaitStep::Sload(p, set)), 0, false);
    expect(&rt, table.step(&mut one, WaitStep::Sset(p)), 0, true);
    expect(
        &rt,
        table.step(&mut zero, WaitStep::Sload(p, None)),
        1,
        false,
    );
    expect(&rt, table.step(&mut zero, WaitStep::Mstore(false)), 1, true);
    expect(&rt, table.step(&mut one, WaitStep::Mload(p)), 0, false);
    assert!(rt; latch_is_set(&table, &mut zero));
    Ok(())
}

#[test]
fn set_after_the_look_drains(rt: HostRuntime) -> Result<(), Fail> {
    let Ok((table, mut zero)) = Latches::new(rt.alloc(), NoParty, 2, 1, 1, 0) else {
        panic!(rt; "no memory")
    };
    let Ok(mut one) = table.seat(&mut zero) else {
        panic!(rt; "no number")
    };
    let p = zero.proc();
    let wait = Some(Call::Wait(Until::LatchOrShutdown));
    let set = Some(Call::Set(p));
    expect(
        &rt,
        table.step(&mut zero, WaitStep::Sload(p, wait)),
        0,
        false,
    );
    expect(&rt, table.step(&mut zero, WaitStep::Mstore(true)), 0, true);
    expect(
        &rt,
        table.step(&mut zero, WaitStep::Sload(p, None)),
        0,
        false,
    );
    expect(&rt, table.step(&mut zero, WaitStep::Shload(None)), 0, false);
    expect(&rt, table.step(&mut zero, WaitStep::Look), 0, false);
    expect(&rt, table.step(&mut one, WaitStep::Sload(p, set)), 0, false);
    expect(&rt, table.step(&mut one, WaitStep::Sset(p)), 0, true);
    expect(&rt, table.step(&mut one, WaitStep::Mload(p)), 1, false);
    expect(&rt, table.step(&mut one, WaitStep::Byte(p)), 0, true);
    expect(&rt, table.step(&mut zero, WaitStep::Look), 1, false);
    expect(&rt, table.step(&mut zero, WaitStep::Mstore(false)), 1, true);
    expect(&rt, table.step(&mut zero, WaitStep::Drain), 1, true);
    expect(
        &rt,
        table.step(&mut zero, WaitStep::Sload(p, None)),
        1,
        false,
    );
    assert!(rt; latch_is_set(&table, &mut zero));
    reset_latch(&table, &mut zero);
    assert!(rt; !latch_is_set(&table, &mut zero));
    Ok(())
}

#[test]
fn one_backend_has_one_number(rt: HostRuntime) -> Result<(), Fail> {
    let Ok((table, mut zero)) = Latches::new(rt.alloc(), NoParty, 1, 1, 1, 0) else {
        panic!(rt; "no memory")
    };
    let Err(none) = table.seat(&mut zero) else {
        panic!(rt; "a number")
    };
    assert_eq!(rt; none.drawn, 1);
    Ok(())
}

// Waits for its turn and gives it to the other, many times.
fn pass_turns<R: Wait>(rt: &R, table: &Latches, mut seat: Seat, other: ProcNo) -> Seat
    requires table { (seat.table_id ≡ table.now.table_id) × (other < table.now.procs) }
    requires place { seat.view.place ≡ [] }
    ensures { (result.table_id ≡ seat.table_id) × (result.view.place ≡ []) }
{
    for _ in 0..1000u32 {
        wait_latch_only(rt, table, &mut seat);
        reset_latch(table, &mut seat);
        set_latch(table, &mut seat, other);
    }
    seat
}

fn both_pass<R: Threads + Wait + Sync>(
    rt: &R,
    table: &Latches,
    zero: Seat,
    one: Seat,
    first: ProcNo,
    second: ProcNo,
) -> (Seat, Seat)
    requires table { (zero.table_id ≡ table.now.table_id) × (one.table_id ≡ table.now.table_id) × (first < table.now.procs) × (second < table.now.procs) }
    requires place { (zero.view.place ≡ []) × (one.view.place ≡ []) }
    ensures { (result.0.table_id ≡ zero.table_id) × (result.0.view.place ≡ []) × (result.1.table_id ≡ one.table_id) × (result.1.view.place ≡ []) }
{
    join(
        rt,
        move || -> Seat
            requires { (zero.table_id ≡ table.now.table_id) × (second < table.now.procs) × (zero.view.place ≡ []) }
            ensures { (result.table_id ≡ zero.table_id) × (result.view.place ≡ []) }
        { pass_turns(rt, table, zero, second) },
        move || -> Seat
            requires { (one.table_id ≡ table.now.table_id) × (first < table.now.procs) × (one.view.place ≡ []) }
            ensures { (result.table_id ≡ one.table_id) × (result.view.place ≡ []) }
        { pass_turns(rt, table, one, first) },
    )
}

#[test]
fn two_threads_pass_a_turn(rt: HostRuntime) -> Result<(), Fail> {
    let Ok((table, mut zero)) = Latches::new(rt.alloc(), NoParty, 2, 1, 1, 0) else {
        panic!(rt; "no memory")
    };
    let Ok(one) = table.seat(&mut zero) else {
        panic!(rt; "no number")
    };
    let (first, second) = (zero.proc(), one.proc());
    set_latch(&table, &mut zero, second);
    let (mut zero, mut one) = both_pass(&rt, &table, zero, one, first, second);
    assert!(rt; !latch_is_set(&table, &mut zero) && latch_is_set(&table, &mut one));
    Ok(())
}

fn woken<R: Wait>(rt: &R, table: &Latches, mut seat: Seat) -> Woke
    requires table { seat.table_id ≡ table.now.table_id }
    requires place { seat.view.place ≡ [] }
{
    wait_latch(rt, table, &mut seat)
}

fn stops(table: &Latches, mut seat: Seat)
    requires table { seat.table_id ≡ table.now.table_id }
    requires place { seat.view.place ≡ [] }
{
    shut_down(table, &mut seat);
}

fn sleep_and_stop<R: Threads + Wait + Sync>(rt: &R, table: &Latches, zero: Seat, one: Seat) -> Woke
    requires table { (zero.table_id ≡ table.now.table_id) × (one.table_id ≡ table.now.table_id) }
    requires place { (zero.view.place ≡ []) × (one.view.place ≡ []) }
{
    let (woke, ()) = join(
        rt,
        move || -> Woke
            requires { (zero.table_id ≡ table.now.table_id) × (zero.view.place ≡ []) }
        { woken(rt, table, zero) },
        move ||
            requires { (one.table_id ≡ table.now.table_id) × (one.view.place ≡ []) }
        { stops(table, one) },
    );
    woke
}

#[test]
fn shutdown_wakes_a_sleeper(rt: HostRuntime) -> Result<(), Fail> {
    let Ok((table, mut zero)) = Latches::new(rt.alloc(), NoParty, 2, 1, 1, 0) else {
        panic!(rt; "no memory")
    };
    let Ok(one) = table.seat(&mut zero) else {
        panic!(rt; "no number")
    };
    let woke = sleep_and_stop(&rt, &table, zero, one);
    assert!(rt; woke == Woke::Shutdown);
    Ok(())
}
