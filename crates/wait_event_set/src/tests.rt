ghost use Rattle.std.specs.Prelude.{◌≡◌, ◌<◌, []};

use super::*;
use latch::set_latch;
use std::test::Fail;
use wait_core::{NoParty, WaitTable};

type Latches = WaitTable<NoParty>;

#[test]
fn a_second_latch_and_a_fifth_member_are_refused(rt: HostRuntime) -> Result<(), Fail> {
    let mut set = EventSet::new();
    assert!(rt; set.add(Event::Latch, 0) == Ok(0));
    assert!(rt; set.add(Event::Latch, 0) == Err(AddFault::SecondLatch { at: 0 }));
    assert!(rt; set.add(Event::Shutdown, 0) == Ok(1));
    assert!(rt; set.add(Event::Shutdown, 0) == Ok(2));
    assert!(rt; set.add(Event::Shutdown, 0) == Ok(3));
    assert!(rt; set.add(Event::Shutdown, 0) == Err(AddFault::Full));
    assert!(rt; set.add(Event::Latch, 0) == Err(AddFault::SecondLatch { at: 0 }));
    Ok(())
}

#[test]
fn a_set_reports_what_is_ready(rt: HostRuntime) -> Result<(), Fail> {
    let Ok((table, mut zero)) = Latches::new(rt.alloc(), NoParty, 1, 1, 1, 0) else {
        panic!(rt; "no memory")
    };
    let own = zero.proc();
    let mut set = EventSet::new();
    assert!(rt; set.add(Event::Latch, 9) == Ok(0));
    assert!(rt; set.poll(&table, &mut zero).is_none());
    set_latch(&table, &mut zero, own);
    let latch = Occurred {
        position: 0,
        user: 9,
        flags: 1,
    };
    assert!(rt; set.poll(&table, &mut zero) == Some(latch));
    assert!(rt; set.len() > 0);
    let waited = set.wait(&rt, &table, &mut zero);
    assert!(rt; waited == latch);
    Ok(())
}

#[test]
fn a_set_of_shutdowns_reports_the_first(rt: HostRuntime) -> Result<(), Fail> {
    let Ok((table, mut zero)) = Latches::new(rt.alloc(), NoParty, 1, 1, 1, 0) else {
        panic!(rt; "no memory")
    };
    let own = zero.proc();
    let mut set = EventSet::new();
    assert!(rt; set.add(Event::Shutdown, 5) == Ok(0));
    assert!(rt; set.add(Event::Shutdown, 6) == Ok(1));
    set_latch(&table, &mut zero, own);
    assert!(rt; set.poll(&table, &mut zero).is_none());
    latch::shut_down(&table, &mut zero);
    let stopped = Occurred {
        position: 0,
        user: 5,
        flags: 16,
    };
    assert!(rt; set.len() > 0);
    let waited = set.wait(&rt, &table, &mut zero);
    assert!(rt; waited == stopped);
    assert!(rt; set.poll(&table, &mut zero) == Some(stopped));
    Ok(())
}
