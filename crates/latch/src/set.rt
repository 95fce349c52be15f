//! Calls that never wait.
ghost use Rattle.std.specs.Prelude.{◌≡◌, ◌<◌, ℕ, List, Some, if◌then◌else◌};
ghost use Rattle.wait_core.specs.Seats.{size_of};
ghost use Rattle.wait_core.specs.declared.step.Call.TheVariants as call;
ghost use Rattle.wait_core.specs.declared.step.WaitStep.TheVariants as kind;
ghost use Rattle.wait_core.specs.declared.view.Made.{Made};
ghost use Rattle.wait_core.specs.Jobs.{resumed};
ghost use Rattle.wait_core.specs.Machine.{MayBegin, next};
ghost use Rattle.latch.specs.Reads.{later, HasSet, ShutSteps};

use proc_table::ProcNo;
use wait_core::{Call, Party, WaitSeat, WaitStep, WaitTable};

/// Sets the latch of the backend `target`, and wakes it where it may sleep (`SetLatch`).
pub fn set_latch<P: Party>(table: &WaitTable<P>, seat: &mut WaitSeat<P>, target: ProcNo)
    requires table { seat.old.table_id ≡ table.now.table_id }
    requires target { target < table.now.procs }
    requires place { MayBegin (call.Set target) seat.old.view.place }
    ensures table { (seat.new.table_id ≡ seat.old.table_id) × (seat.new.id ≡ seat.old.id) }
    ensures place { seat.new.view.place ≡ resumed seat.old.view.place }
    ensures set { HasSet (size_of table.now) target seat.old.view seat.new.view }
{
    let begins = Some(Call::Set(target));
    if table.step(seat, WaitStep::Sload(target, begins)).old == 1 {
        return;
    }
    table.step(seat, WaitStep::Sset(target));
    if table.step(seat, WaitStep::Mload(target)).old == 1 {
        table.step(seat, WaitStep::Byte(target));
    }
}

/// Resets the seat's own latch (`ResetLatch`).
pub fn reset_latch<P: Party>(table: &WaitTable<P>, seat: &mut WaitSeat<P>)
    requires table { seat.old.table_id ≡ table.now.table_id }
    requires place { MayBegin call.Reset seat.old.view.place }
    ensures table { (seat.new.table_id ≡ seat.old.table_id) × (seat.new.id ≡ seat.old.id) }
    ensures reset { (n : ℕ) × (seat.new.view ≡ next (size_of table.now) (kind.Reset (Some call.Reset)) seat.old.view n) }
{
    table.step(seat, WaitStep::Reset(Some(Call::Reset)));
}

/// What one load of the seat's own latch read.
pub fn latch_is_set<P: Party>(table: &WaitTable<P>, seat: &mut WaitSeat<P>) -> bool
    requires table { seat.old.table_id ≡ table.now.table_id }
    requires place { MayBegin call.IsSet seat.old.view.place }
    ensures table { (seat.new.table_id ≡ seat.old.table_id) × (seat.new.id ≡ seat.old.id) }
    ensures read { (p : ℕ) × (seat.old.view.own ≡ Some p) × (seat.new.view ≡ next (size_of table.now) (kind.Sload p (Some call.IsSet)) seat.old.view (if result then 1 else 0)) }
{
    let own = seat.proc();
    let begins = Some(Call::IsSet);
    table.step(seat, WaitStep::Sload(own, begins)).old == 1
}

/// What one load of the shutdown word read.
pub fn read_shutdown<P: Party>(table: &WaitTable<P>, seat: &mut WaitSeat<P>) -> bool
    requires table { seat.old.table_id ≡ table.now.table_id }
    requires place { MayBegin call.IsShut seat.old.view.place }
    ensures table { (seat.new.table_id ≡ seat.old.table_id) × (seat.new.id ≡ seat.old.id) }
    ensures read { seat.new.view ≡ next (size_of table.now) (kind.Shload (Some call.IsShut)) seat.old.view (if result then 1 else 0) }
{
    let begins = Some(Call::IsShut);
    table.step(seat, WaitStep::Shload(begins)).old == 1
}

/// Stores the shutdown word, and then the wake byte of each backend.
pub fn shut_down<P: Party>(table: &WaitTable<P>, seat: &mut WaitSeat<P>)
    requires table { seat.old.table_id ≡ table.now.table_id }
    requires place { MayBegin call.Shut seat.old.view.place }
    ensures table { (seat.new.table_id ≡ seat.old.table_id) × (seat.new.id ≡ seat.old.id) }
    ensures shut { (more : List Made) × (seat.new.view ≡ later seat.old.view more) × ShutSteps table.now.procs more }
{
    table.step(seat, WaitStep::Shstore(Some(Call::Shut)));
    let procs = table.procs();
    for at in 0..procs {
        let Some(target) = ProcNo::new(at) else {
            unreachable!()
        };
        table.step(seat, WaitStep::Byte(target));
    }
}
