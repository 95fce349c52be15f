//! What no clause says: which calls pass a phase, one after the other and in threads, and that each
//! phase elects one.
ghost use Rattle.std.specs.Prelude.{◌≡◌, ◌<◌, [], None, Some};
ghost use Rattle.wait_core.specs.Parties.{phase_of};

mod runs;
mod threads;

use super::*;
use proc_table::{BarNo, Worn};
use std::process::Abort;
use std::sync::Wait;
use std::test::Fail;
use wait_core::{NoParty, WaitSeat, WaitTable};

type Barriers = WaitTable<NoParty>;

type Seat = WaitSeat<NoParty>;

// A backend in no call, which isn't attached to the barrier.
#[derive(Drop)]
struct Away<'t> {
    table: &'t Barriers,
    seat: Seat,
    bar: BarNo,
    ghost seated: { seat.table_id ≡ table.now.table_id },
    ghost idle: { (seat.view.place ≡ []) × (seat.view.target ≡ None) },
    ghost away: { phase_of seat.view.attached bar ≡ None },
    ghost room: { bar < table.now.bars },
}

// A backend in no call, which is.
#[derive(Drop)]
struct There<'t> {
    table: &'t Barriers,
    seat: Seat,
    bar: BarNo,
    ghost seated: { seat.table_id ≡ table.now.table_id },
    ghost idle: { (seat.view.place ≡ []) × (seat.view.target ≡ None) },
    ghost there: { phase_of seat.view.attached bar ≡ None → ⊥ },
    ghost room: { bar < table.now.bars },
}

fn draw<R: Abort>(rt: &R, table: &Barriers, zero: &mut Seat) -> Seat
    requires { (zero.old.table_id ≡ table.now.table_id) × (zero.old.view.own ≡ Some 0) }
    ensures zero { (zero.new.table_id ≡ table.now.table_id) × (zero.new.view.own ≡ Some 0) × (zero.new.view.place ≡ zero.old.view.place) × (zero.new.view.target ≡ zero.old.view.target) × (zero.new.view.attached ≡ zero.old.view.attached) }
    ensures drawn { (result.table_id ≡ table.now.table_id) × (result.view.place ≡ []) × (result.view.target ≡ None) × (result.view.attached ≡ []) }
{
    let Ok(seat) = table.seat(zero) else {
        panic!(rt; "no number")
    };
    seat
}

fn come<'t, R: Wait>(rt: &R, away: Away<'t>) -> (There<'t>, u64) {
    let Away {
        table,
        mut seat,
        bar,
    } = away;
    let phase = attach(rt, table, &mut seat, bar);
    (There { table, seat, bar }, phase)
}

fn wait<'t, R: Wait>(rt: &R, there: There<'t>) -> (There<'t>, Result<bool, Worn>) {
    let There {
        table,
        mut seat,
        bar,
    } = there;
    let answer = arrive_and_wait(rt, table, &mut seat, bar);
    (There { table, seat, bar }, answer)
}

// Whether nobody else was attached.
fn leave<'t, R: Wait>(rt: &R, there: There<'t>) -> (Away<'t>, bool) {
    let There {
        table,
        mut seat,
        bar,
    } = there;
    let last = detach(rt, table, &mut seat, bar);
    (Away { table, seat, bar }, last)
}

// None where the phase is worn.
fn arrive_and_leave<'t, R: Wait>(rt: &R, there: There<'t>) -> Option<(Away<'t>, bool)> {
    let There {
        table,
        mut seat,
        bar,
    } = there;
    let Ok(last) = arrive_and_detach(rt, table, &mut seat, bar) else {
        return None;
    };
    Some((Away { table, seat, bar }, last))
}

// Who stays is the only one; None where the phase is worn.
fn leave_unless_only<'t, R: Wait>(rt: &R, there: There<'t>) -> Option<Result<There<'t>, Away<'t>>> {
    let There {
        table,
        mut seat,
        bar,
    } = there;
    let Ok(only) = arrive_and_detach_except_last(rt, table, &mut seat, bar) else {
        return None;
    };
    Some(if only {
        Ok(There { table, seat, bar })
    } else {
        Err(Away { table, seat, bar })
    })
}

#[test]
fn a_sole_participant_passes_the_phase(rt: HostRuntime) -> Result<(), Fail> {
    let Ok((table, seat)) = Barriers::new(rt.alloc(), NoParty, 1, 2, 2, 7) else {
        panic!(rt; "no memory")
    };
    let bar = BarNo::new(1).ok_or("a barrier")?;
    let table = &table;
    let (there, phase) = come(&rt, Away { table, seat, bar });
    assert!(rt; phase == 7);
    let (there, answer) = wait(&rt, there);
    assert!(rt; answer == Ok(true));
    let Some((away, last)) = arrive_and_leave(&rt, there) else {
        panic!(rt; "worn")
    };
    assert!(rt; last);
    let (there, phase) = come(&rt, away);
    assert!(rt; phase == 9);
    let Some(Ok(there)) = leave_unless_only(&rt, there) else {
        panic!(rt; "not the only one")
    };
    let (away, last) = leave(&rt, there);
    assert!(rt; last);
    let (_, phase) = come(&rt, away);
    assert!(rt; phase == 10);
    Ok(())
}

#[test]
fn the_last_phase_is_worn(rt: HostRuntime) -> Result<(), Fail> {
    let Ok((table, seat)) = Barriers::new(rt.alloc(), NoParty, 1, 1, 1, 0x4000_0000_0000_0000)
    else {
        panic!(rt; "no memory")
    };
    let bar = BarNo::new(0).ok_or("a barrier")?;
    let table = &table;
    let (there, phase) = come(&rt, Away { table, seat, bar });
    assert!(rt; phase == 0x4000_0000_0000_0000);
    let (there, answer) = wait(&rt, there);
    assert!(rt; answer == Err(Worn { at: phase }));
    let (_, last) = leave(&rt, there);
    assert!(rt; last);
    Ok(())
}
