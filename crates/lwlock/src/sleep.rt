//! Sleep until the own wake came, and giving back the wakes that were for somebody else's poke.
ghost use Rattle.std.specs.Prelude.{◌≡◌, ◌+◌, ◌<◌, ◌^◌, [], ◌∷◌};
ghost use Rattle.lw_core.specs.declared.view.Frame.TheVariants.{GivingBack};
ghost use Rattle.lw_core.specs.Machine.{outer, resumed};
ghost use Rattle.lw_core.specs.Programs.{BeginsNone};
ghost use Rattle.lwlock.specs.Calls.{FoundClear, WentWith, IsSleep};
ghost use Rattle.semaphore.specs.Calls.{StoresNone};

use lw_core::{Guarded, LwSeat, LwStep, LwTable};
use semaphore::{down_in_sleep, post};
use std::sync::Wait;

/// Sleeps until the seat's waiting field is 0. It answers how many wakes came before, which weren't
/// for it.
pub fn sleep<G: Guarded, R: Wait>(rt: &R, table: &LwTable<G>, seat: &mut LwSeat) -> u64
    requires table { seat.old.table_id ≡ table.now.table_id }
    requires place { IsSleep seat.old.view.place }
    ensures table { (seat.new.table_id ≡ seat.old.table_id) × (seat.new.id ≡ seat.old.id) }
    ensures view { WentWith (resumed seat.new.view.surplus (outer (outer seat.old.view.place))) seat.new.view.surplus seat.old.view seat.new.view }
    ensures clear { FoundClear seat.old.view seat.new.view }
    ensures stores { StoresNone seat.old.view seat.new.view }
    ensures surplus { seat.new.view.surplus ≡ seat.old.view.surplus + result }
    ensures small { seat.new.view.surplus < 2 ^ 32 }
    ensures program { BeginsNone seat.old.view seat.new.view }
{
    let mut surplus = 0;
    for _ in rt.forever() {
        down_in_sleep(rt, table, seat);
        if table.step(seat, LwStep::WaitLoad).old == 0 {
            return surplus;
        }
        surplus += 1;
    }
    unreachable!()
}

/// Posts the own semaphore, as often as a wake came that wasn't for the seat.
pub fn give_back<G: Guarded>(table: &LwTable<G>, seat: &mut LwSeat, surplus: u64)
    requires table { seat.old.table_id ≡ table.now.table_id }
    requires surplus { seat.old.view.surplus ≡ surplus }
    requires place { seat.old.view.place ≡ resumed surplus (GivingBack ∷ []) }
    ensures table { (seat.new.table_id ≡ seat.old.table_id) × (seat.new.id ≡ seat.old.id) }
    ensures view { WentWith [] 0 seat.old.view seat.new.view }
    ensures program { BeginsNone seat.old.view seat.new.view }
{
    let own = table.proc_of(seat);
    for _given in 0..surplus {
        post(table, seat, own);
    }
}
