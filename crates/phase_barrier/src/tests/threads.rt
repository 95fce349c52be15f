//! Workers in threads.
ghost use Rattle.std.specs.Prelude.{◌≡◌, ◌<◌, [], None, Some};

use super::*;
use std::sync::atomic::{AtomicU64, Ordering};
use std::thread;

// Arrives and waits so often, and counts its elections among those of all. Whether each was counted
// before the next phase passed: whoever is elected finds all those before it, and nobody finds more
// than one behind these.
fn arrive_often<R: Wait>(rt: &R, worker: (There<'_>, u32, &AtomicU64)) -> bool {
    let (mut there, phases, elections) = worker;
    let mut steady = true;
    for phase in 0..phases {
        let (still, answer) = wait(rt, there);
        there = still;
        let before = u64::from(phase);
        if answer == Ok(true) {
            steady &= elections.fetch_add(1, Ordering::SeqCst) == before;
        } else {
            let counted = elections.load(Ordering::SeqCst);
            steady &= answer.is_ok() && (counted == before || counted == before + 1);
        }
    }
    steady
}

// So many workers, all attached before any arrives, go through so many phases.
#[test]
fn each_phase_elects_one(rt: HostRuntime) -> Result<(), Fail> {
    let bar = BarNo::new(0).ok_or("a barrier")?;
    for (workers, phases) in [(4u32, 10_000u32), (16, 100)] {
        let Ok((table, mut zero)) = Barriers::new(rt.alloc(), NoParty, 17, 1, 1, 0) else {
            panic!(rt; "no memory")
        };
        let table = &table;
        let elections = AtomicU64::new(0);
        let mut arriving = Vec::new(rt.alloc());
        for _ in 0..workers {
            let seat = draw(&rt, table, &mut zero);
            let (there, _) = come(&rt, Away { table, seat, bar });
            arriving.push((there, phases, &elections))?;
        }
        let steady = thread::map_vec(&rt, arriving, &|worker| arrive_often(&rt, worker))?;
        assert!(rt; steady.as_slice().iter().all(|each| *each));
        assert_eq!(rt; elections.load(Ordering::SeqCst), u64::from(phases));
        let seat = zero;
        let (_, phase) = come(&rt, Away { table, seat, bar });
        assert!(rt; phase == u64::from(phases));
    }
    Ok(())
}

// Comes and goes, and goes on in another way each time: it waits for none, one, two or three phases,
// and leaves by arriving or not.
fn come_and_go<'t, R: Wait>(rt: &R, worker: (Away<'t>, u32)) -> bool {
    let (mut away, mut state) = worker;
    let mut steady = true;
    let mut known = 0u64;
    for _ in 0..300u32 {
        state = u32::wrapping_add(u32::wrapping_mul(state, 1_664_525), 1_013_904_223);
        let (mut there, phase) = come(rt, away);
        steady &= known <= phase;
        known = phase;
        for _ in 0..(state >> 16) % 4 {
            let (still, answer) = wait(rt, there);
            there = still;
            steady &= answer.is_ok();
        }
        if (state >> 24) % 2 == 0 {
            away = leave(rt, there).0;
        } else {
            let Some((left, _)) = arrive_and_leave(rt, there) else {
                return false;
            };
            away = left;
        }
    }
    steady
}

#[test]
fn late_and_early_participants(rt: HostRuntime) -> Result<(), Fail> {
    let Ok((table, mut zero)) = Barriers::new(rt.alloc(), NoParty, 5, 1, 1, 0) else {
        panic!(rt; "no memory")
    };
    let bar = BarNo::new(0).ok_or("a barrier")?;
    let table = &table;
    let mut workers = Vec::new(rt.alloc());
    for seed in 0..4u32 {
        let seat = draw(&rt, table, &mut zero);
        workers.push((Away { table, seat, bar }, seed))?;
    }
    let steady = thread::map_vec(&rt, workers, &|worker| come_and_go(&rt, worker))?;
    assert!(rt; steady.as_slice() == [true, true, true, true].as_slice());
    let seat = zero;
    let (there, _) = come(&rt, Away { table, seat, bar });
    let (_, last) = leave(&rt, there);
    assert!(rt; last);
    Ok(())
}
