//! What no clause says: a backend waits until somebody pokes it.
ghost use Rattle.std.specs.Prelude.{◌≡◌, ◌<◌, []};

use super::*;
use std::test::Fail;
use std::thread::{Threads, join};

// Every list of words is lawful.
struct AnyWords;

impl Guarded for AnyWords {
    ghost lawful = { λ _ _. Unit {0} };

    ghost zeros = { λ _. tt };
}

fn twice_down<R: Wait>(rt: &R, table: &LwTable<AnyWords>, mut seat: LwSeat) -> LwSeat
    requires { (seat.table_id ≡ table.now.table_id) × (seat.view.place ≡ []) }
    ensures { (result.table_id ≡ seat.table_id) × (result.view.place ≡ []) }
{
    down(rt, table, &mut seat);
    down(rt, table, &mut seat);
    seat
}

fn poke_thrice(table: &LwTable<AnyWords>, mut seat: LwSeat, target: ProcNo) -> (LwSeat, bool)
    requires { (seat.table_id ≡ table.now.table_id) × (target < table.now.procs)
        × (seat.view.place ≡ []) }
    ensures { (result.0.table_id ≡ seat.table_id) × (result.0.view.place ≡ []) }
{
    let first = poke(table, &mut seat, target);
    let second = poke(table, &mut seat, target);
    let third = poke(table, &mut seat, target);
    (seat, first.is_ok() && second.is_ok() && third.is_ok())
}

// The seat that goes down, and the other, with whether its pokes were made.
fn side_by_side<R: Threads + Wait + Sync>(
    rt: &R,
    table: &LwTable<AnyWords>,
    zero: LwSeat,
    one: LwSeat,
    target: ProcNo,
) -> (LwSeat, LwSeat, bool)
    requires table { (zero.table_id ≡ table.now.table_id) × (one.table_id ≡ table.now.table_id)
        × (target < table.now.procs) }
    requires idle { (zero.view.place ≡ []) × (one.view.place ≡ []) }
    ensures { (result.0.table_id ≡ zero.table_id) × (result.0.view.place ≡ [])
        × (result.1.table_id ≡ one.table_id) × (result.1.view.place ≡ []) }
{
    let (zero, one) = join(
        rt,
        move ||
            requires { (zero.table_id ≡ table.now.table_id) × (zero.view.place ≡ []) }
            ensures { (result.table_id ≡ zero.table_id) × (result.view.place ≡ []) }
        { twice_down(rt, table, zero) },
        move ||
            requires { (one.table_id ≡ table.now.table_id) × (target < table.now.procs)
                × (one.view.place ≡ []) }
            ensures { (result.0.table_id ≡ one.table_id) × (result.0.view.place ≡ []) }
        { poke_thrice(table, one, target) },
    );
    (zero, one.0, one.1)
}

#[test]
fn each_down_takes_one_poke(rt: HostRuntime) -> Result<(), Fail> {
    let Ok((table, mut zero)) = LwTable::<AnyWords>::new(rt.alloc(), 1, 2) else {
        panic!(rt; "no memory")
    };
    let Ok(one) = table.seat(&mut zero) else {
        panic!(rt; "no number")
    };
    let target = table.proc_of(&zero);
    let (mut zero, one, poked) = side_by_side(&rt, &table, zero, one, target);
    assert!(rt; poked && one.pokes() == 3);
    assert_eq!(rt;
        table.step(&mut zero, LwStep::Look(Some(Call::Down))).old,
        1
    );
    Ok(())
}
