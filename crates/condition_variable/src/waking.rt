//! Wakes the first.
ghost use Rattle.std.specs.Prelude.{◌≡◌, ◌<◌, List};
ghost use Rattle.wait_core.specs.declared.step.Call.TheVariants as call;
ghost use Rattle.wait_core.specs.declared.view.Made.{Made};
ghost use Rattle.wait_core.specs.Jobs.{resumed};
ghost use Rattle.wait_core.specs.Machine.{MayBegin};
ghost use Rattle.latch.specs.Reads.{ended};
ghost use Rattle.condition_variable.specs.Calls.{Signals};

use crate::list::{pop, wake};
use crate::taking::take_spot;
use proc_table::{CvNo, ProcNo};
use std::sync::Wait;
use wait_core::{Call, Party, Spot, WaitSeat, WaitStep, WaitTable};

/// Takes the first off the condition's list and sets its latch (`ConditionVariableSignal`). None
/// where nobody was on the list.
pub fn signal<P: Party, R: Wait>(
    rt: &R,
    table: &WaitTable<P>,
    seat: &mut WaitSeat<P>,
    cv: CvNo,
) -> Option<ProcNo>
    requires table { seat.old.table_id ≡ table.now.table_id }
    requires condition { cv < table.now.cvs }
    requires place { MayBegin (call.Signal cv) seat.old.view.place }
    ensures table { (seat.new.table_id ≡ seat.old.table_id) × (seat.new.id ≡ seat.old.id) }
    ensures signalled { (more : List Made) × (seat.new.view ≡ ended seat.old.view more) × Signals cv seat.old.view.target result more }
{
    take_spot(rt, table, seat, Spot::Cv(cv), Some(Call::Signal(cv)));
    let target = seat.target();
    let woken = pop(seat);
    table.step(seat, WaitStep::Free(Spot::Cv(cv), target));
    wake(table, seat, woken)
}
