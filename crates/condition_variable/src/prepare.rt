//! How a backend goes to the list of a condition, and leaves that of its target.
ghost use Rattle.std.specs.Prelude.{◌≡◌, ◌<◌, ◌++◌, ◌∷◌, [], List, ℕ, None, Some, true, false, not, MatchOption};
ghost use Rattle.wait_core.specs.declared.step.Call.TheVariants as call;
ghost use Rattle.wait_core.specs.declared.view.Job.TheVariants as job;
ghost use Rattle.wait_core.specs.declared.view.Made.{Made};
ghost use Rattle.wait_core.specs.Fits.{IsTarget};
ghost use Rattle.wait_core.specs.Jobs.{resumed};
ghost use Rattle.wait_core.specs.Lists.{is_listed};
ghost use Rattle.wait_core.specs.Machine.{MayBegin, number_of, outer};
ghost use Rattle.wait_core.specs.Seats.{size_of};
ghost use Rattle.condition_variable.specs.Visits.{MayTakeFor, Visits, entering, stands};
ghost use Rattle.condition_variable.specs.Calls.{Cancels, IsListing, Lists};

use crate::list::{join, leave};
use crate::taking::take_spot;
use proc_table::CvNo;
use std::sync::Wait;
use wait_core::{Call, Party, Spot, WaitSeat, WaitStep, WaitTable};

/// Goes to the end of the condition's list, which is the target then
/// (`ConditionVariablePrepareToSleep`). An earlier target is cancelled.
pub fn prepare_to_sleep<P: Party, R: Wait>(
    rt: &R,
    table: &WaitTable<P>,
    seat: &mut WaitSeat<P>,
    cv: CvNo,
)
    requires table { seat.old.table_id ≡ table.now.table_id }
    requires condition { cv < table.now.cvs }
    requires target { IsTarget table.now.cvs seat.old.view.target }
    requires place { MayBegin (call.Prepare cv) seat.old.view.place }
    ensures table { (seat.new.table_id ≡ seat.old.table_id) × (seat.new.id ≡ seat.old.id) }
    ensures listed { (more : List Made) × (seat.new.view ≡ stands seat.old.view (resumed seat.old.view.place) (Some cv) true more) × Lists (number_of seat.old.view.own) cv seat.old.view.target (call.Prepare cv) more }
{
    go_to_list(rt, table, seat, cv, Call::Prepare(cv));
}

/// Leaves the list of the target, if there is one (`ConditionVariableCancelSleep`). Whether it was
/// signalled: there was a target, and the backend wasn't on its list any more.
pub fn cancel_sleep<P: Party, R: Wait>(rt: &R, table: &WaitTable<P>, seat: &mut WaitSeat<P>) -> bool
    requires table { seat.old.table_id ≡ table.now.table_id }
    requires target { IsTarget table.now.cvs seat.old.view.target }
    requires place { MayBegin call.Cancel seat.old.view.place }
    ensures table { (seat.new.table_id ≡ seat.old.table_id) × (seat.new.id ≡ seat.old.id) }
    ensures left { MatchOption seat.old.view.target ((result ≡ false) × (seat.new ≡ seat.old)) (λ t. (found : List ℕ) × (more : List Made) × (seat.new.view ≡ stands seat.old.view (resumed seat.old.view.place) None seat.old.view.heeds more) × Cancels (number_of seat.old.view.own) t call.Cancel found more × (result ≡ not (is_listed (number_of seat.old.view.own) found))) }
{
    match seat.target() {
        None => false,
        Some(target) => leave_target(rt, table, seat, target, Call::Cancel),
    }
}

// Leaves the list of the target, with which a call begins. Whether it was off the list already.
pub(crate) fn leave_target<P: Party, R: Wait>(
    rt: &R,
    table: &WaitTable<P>,
    seat: &mut WaitSeat<P>,
    target: CvNo,
    begins: Call,
) -> bool
    requires table { seat.old.table_id ≡ table.now.table_id }
    requires target { (seat.old.view.target ≡ Some target) × (target < table.now.cvs) }
    requires take { MayTakeFor (size_of table.now) target (Some begins) (job.Cancel target) seat.old.view }
    ensures table { (seat.new.table_id ≡ seat.old.table_id) × (seat.new.id ≡ seat.old.id) }
    ensures left { (found : List ℕ) × (more : List Made) × (seat.new.view ≡ stands seat.old.view (resumed (outer (entering (Some begins) seat.old.view.target seat.old.view.place))) None seat.old.view.heeds more) × Cancels (number_of seat.old.view.own) target begins found more × (result ≡ not (is_listed (number_of seat.old.view.own) found)) }
{
    take_spot(rt, table, seat, Spot::Cv(target), Some(begins));
    let off = leave(seat);
    table.step(seat, WaitStep::Free(Spot::Cv(target), None));
    off
}

// Goes to the end of the list of the condition, once there is no other target.
fn join_list<P: Party, R: Wait>(
    rt: &R,
    table: &WaitTable<P>,
    seat: &mut WaitSeat<P>,
    cv: CvNo,
    begins: Option<Call>,
)
    requires table { seat.old.table_id ≡ table.now.table_id }
    requires condition { cv < table.now.cvs }
    requires target { seat.old.view.target ≡ None }
    requires take { MayTakeFor (size_of table.now) cv begins (job.Prepare cv) seat.old.view }
    ensures table { (seat.new.table_id ≡ seat.old.table_id) × (seat.new.id ≡ seat.old.id) }
    ensures joined { (found : List ℕ) × (more : List Made) × (seat.new.view ≡ stands seat.old.view (resumed (outer (entering begins seat.old.view.target seat.old.view.place))) (Some cv) true more) × Visits cv begins found (found ++ number_of seat.old.view.own ∷ []) (Some cv) more }
{
    take_spot(rt, table, seat, Spot::Cv(cv), begins);
    join(seat);
    table.step(seat, WaitStep::Free(Spot::Cv(cv), Some(cv)));
}

// Goes to the end of the list of the condition; a call begins with it. An earlier target is
// cancelled.
pub(crate) fn go_to_list<P: Party, R: Wait>(
    rt: &R,
    table: &WaitTable<P>,
    seat: &mut WaitSeat<P>,
    cv: CvNo,
    begins: Call,
)
    requires table { seat.old.table_id ≡ table.now.table_id }
    requires condition { cv < table.now.cvs }
    requires target { IsTarget table.now.cvs seat.old.view.target }
    requires place { MayBegin begins seat.old.view.place }
    requires begins { IsListing cv seat.old.view.target begins }
    ensures table { (seat.new.table_id ≡ seat.old.table_id) × (seat.new.id ≡ seat.old.id) }
    ensures listed { (more : List Made) × (seat.new.view ≡ stands seat.old.view (resumed seat.old.view.place) (Some cv) true more) × Lists (number_of seat.old.view.own) cv seat.old.view.target begins more }
{
    match seat.target() {
        None => join_list(rt, table, seat, cv, Some(begins)),
        Some(target) => {
            leave_target(rt, table, seat, target, begins);
            join_list(rt, table, seat, cv, None);
        }
    }
}
