//! Wakes all.
ghost use Rattle.std.specs.Prelude.{◌≡◌, ◌<◌, List, [], ◌∷◌, ℕ, None, Some, not, cond};
ghost use Rattle.wait_core.specs.declared.step.Call.TheVariants as call;
ghost use Rattle.wait_core.specs.declared.view.Frame.TheVariants.{Taking};
ghost use Rattle.wait_core.specs.declared.view.Job.TheVariants as job;
ghost use Rattle.wait_core.specs.declared.view.Made.{Made};
ghost use Rattle.wait_core.specs.Fits.{IsTarget};
ghost use Rattle.wait_core.specs.Jobs.{resumed};
ghost use Rattle.wait_core.specs.Lists.{is_empty, is_listed, rest_of};
ghost use Rattle.wait_core.specs.Machine.{MayBegin, number_of, outer};
ghost use Rattle.wait_core.specs.Seats.{size_of};
ghost use Rattle.latch.specs.Reads.{went};
ghost use Rattle.condition_variable.specs.Visits.{MayTakeFor, Rouses, entering, head_of, stands};
ghost use Rattle.condition_variable.specs.Calls.{Broadcasts, Round, RousesAll, UntilOff, signed};

use crate::list::{is_on, join_others, other_than_own, pop, wake};
use crate::prepare::leave_target;
use crate::taking::take_spot;
use proc_table::CvNo;
use std::sync::Wait;
use wait_core::{Call, Party, Spot, WaitSeat, WaitStep, WaitTable};

/// Wakes all who are on the condition's list (`ConditionVariableBroadcast`). Where others remain
/// when the first is popped, this backend stands behind them until it is off the list, so that
/// those who come later can't keep it going for ever. An earlier target is cancelled.
pub fn broadcast<P: Party, R: Wait>(rt: &R, table: &WaitTable<P>, seat: &mut WaitSeat<P>, cv: CvNo)
    requires table { seat.old.table_id ≡ table.now.table_id }
    requires condition { cv < table.now.cvs }
    requires target { IsTarget table.now.cvs seat.old.view.target }
    requires place { MayBegin (call.Broadcast cv) seat.old.view.place }
    ensures table { (seat.new.table_id ≡ seat.old.table_id) × (seat.new.id ≡ seat.old.id) }
    ensures woken { (more : List Made) × (seat.new.view ≡ stands seat.old.view (resumed seat.old.view.place) None seat.old.view.heeds more) × Broadcasts (number_of seat.old.view.own) cv seat.old.view.target more }
{
    let begins = Call::Broadcast(cv);
    match seat.target() {
        None => rouse_all(rt, table, seat, cv, Some(begins)),
        Some(target) => {
            leave_target(rt, table, seat, target, begins);
            rouse_all(rt, table, seat, cv, None);
        }
    }
}

// Wakes all, once there is no target.
fn rouse_all<P: Party, R: Wait>(
    rt: &R,
    table: &WaitTable<P>,
    seat: &mut WaitSeat<P>,
    cv: CvNo,
    begins: Option<Call>,
)
    requires table { seat.old.table_id ≡ table.now.table_id }
    requires condition { cv < table.now.cvs }
    requires target { seat.old.view.target ≡ None }
    requires take { MayTakeFor (size_of table.now) cv begins (job.Broadcast cv) seat.old.view }
    ensures table { (seat.new.table_id ≡ seat.old.table_id) × (seat.new.id ≡ seat.old.id) }
    ensures roused { (more : List Made) × (seat.new.view ≡ went seat.old.view (resumed (outer (entering begins seat.old.view.target seat.old.view.place))) more) × RousesAll (number_of seat.old.view.own) cv begins more }
{
    if !rouse_first(rt, table, seat, cv, begins) {
        return;
    }
    rouse_others(rt, table, seat, cv);
}

// Pops the first and wakes it. Whether others remained: then this backend stands behind them.
fn rouse_first<P: Party, R: Wait>(
    rt: &R,
    table: &WaitTable<P>,
    seat: &mut WaitSeat<P>,
    cv: CvNo,
    begins: Option<Call>,
) -> bool
    requires table { seat.old.table_id ≡ table.now.table_id }
    requires condition { cv < table.now.cvs }
    requires target { seat.old.view.target ≡ None }
    requires take { MayTakeFor (size_of table.now) cv begins (job.Broadcast cv) seat.old.view }
    ensures table { (seat.new.table_id ≡ seat.old.table_id) × (seat.new.id ≡ seat.old.id) }
    ensures roused { (found : List ℕ) × (more : List Made) × (result ≡ not (is_empty (rest_of found))) × (seat.new.view ≡ went seat.old.view (cond result (Taking (job.Rebroadcast cv) ∷ outer (entering begins seat.old.view.target seat.old.view.place)) (resumed (outer (entering begins seat.old.view.target seat.old.view.place)))) more) × Rouses cv begins found (signed (number_of seat.old.view.own) found) None (head_of found) more }
{
    take_spot(rt, table, seat, Spot::Cv(cv), begins);
    let woken = pop(seat);
    let others = join_others(seat);
    table.step(seat, WaitStep::Free(Spot::Cv(cv), None));
    wake(table, seat, woken);
    others
}

// Pops and wakes until this backend is off the list.
fn rouse_others<P: Party, R: Wait>(rt: &R, table: &WaitTable<P>, seat: &mut WaitSeat<P>, cv: CvNo)
    requires table { seat.old.table_id ≡ table.now.table_id }
    requires condition { cv < table.now.cvs }
    requires target { seat.old.view.target ≡ None }
    requires place { seat.old.view.place ≡ Taking (job.Rebroadcast cv) ∷ outer seat.old.view.place }
    ensures table { (seat.new.table_id ≡ seat.old.table_id) × (seat.new.id ≡ seat.old.id) }
    ensures roused { (more : List Made) × (seat.new.view ≡ went seat.old.view (resumed (outer seat.old.view.place)) more) × UntilOff (number_of seat.old.view.own) cv more }
{
    for _ in rt.forever() {
        if !rouse_next(rt, table, seat, cv) {
            return;
        }
    }
    unreachable!()
}

// Pops the first and wakes it, unless it is this backend itself. Whether that is still on the list.
fn rouse_next<P: Party, R: Wait>(
    rt: &R,
    table: &WaitTable<P>,
    seat: &mut WaitSeat<P>,
    cv: CvNo,
) -> bool
    requires table { seat.old.table_id ≡ table.now.table_id }
    requires condition { cv < table.now.cvs }
    requires target { seat.old.view.target ≡ None }
    requires place { seat.old.view.place ≡ Taking (job.Rebroadcast cv) ∷ outer seat.old.view.place }
    ensures table { (seat.new.table_id ≡ seat.old.table_id) × (seat.new.id ≡ seat.old.id) }
    ensures roused { (found : List ℕ) × (more : List Made) × (result ≡ is_listed (number_of seat.old.view.own) (rest_of found)) × (seat.new.view ≡ went seat.old.view (cond result (Taking (job.Rebroadcast cv) ∷ outer seat.old.view.place) (resumed (outer seat.old.view.place))) more) × Round (number_of seat.old.view.own) cv found more }
{
    take_spot(rt, table, seat, Spot::Cv(cv), None);
    let popped = pop(seat);
    let listed = is_on(seat);
    table.step(seat, WaitStep::Free(Spot::Cv(cv), None));
    let woken = other_than_own(seat, popped);
    wake(table, seat, woken);
    listed
}
