//! Sleeps on a condition.
ghost use Rattle.std.specs.Prelude.{◌≡◌, ◌≢◌, ◌<◌, ◌∷◌, List, ℕ, None, Some, true, false, not, cond};
ghost use Rattle.wait_core.specs.declared.step.Call.TheVariants as call;
ghost use Rattle.wait_core.specs.declared.view.Frame.TheVariants.{Resetting, SleepWaiting};
ghost use Rattle.wait_core.specs.declared.view.Made.{Made};
ghost use Rattle.wait_core.specs.declared.step.WaitStep.TheVariants as kind;
ghost use Rattle.wait_core.specs.Fits.{IsTarget};
ghost use Rattle.wait_core.specs.Jobs.{resumed};
ghost use Rattle.wait_core.specs.Lists.{is_listed};
ghost use Rattle.wait_core.specs.Machine.{MayBegin, made, number_of, outer};
ghost use Rattle.condition_variable.specs.Visits.{Visits, stands};
ghost use Rattle.condition_variable.specs.Calls.{Sleeps, relisted};

use crate::list::rejoin;
use crate::prepare::go_to_list;
use crate::taking::take_spot;
use latch::{wait_in_sleep, wait_latch_only};
use proc_table::CvNo;
use std::sync::Wait;
use wait_core::{Call, Party, Spot, WaitSeat, WaitStep, WaitTable};

/// What a sleep did.
#[derive(Debug, Clone, Copy, PartialEq, Eq)]
pub enum Slept {
    /// The condition wasn't the target, and is now.
    Prepared,
    /// Somebody took the backend off the list. It is on it again, at the end.
    Signalled,
}

/// Sleeps until the condition is signalled (`ConditionVariableSleep`). Where it isn't the target
/// the call only prepares, and returns at once.
pub fn sleep<P: Party, R: Wait>(
    rt: &R,
    table: &WaitTable<P>,
    seat: &mut WaitSeat<P>,
    cv: CvNo,
) -> Slept
    requires table { seat.old.table_id ≡ table.now.table_id }
    requires condition { cv < table.now.cvs }
    requires target { IsTarget table.now.cvs seat.old.view.target }
    requires place { MayBegin (call.Sleep cv) seat.old.view.place }
    ensures table { (seat.new.table_id ≡ seat.old.table_id) × (seat.new.id ≡ seat.old.id) }
    ensures slept { (more : List Made) × (seat.new.view ≡ stands seat.old.view (resumed seat.old.view.place) (Some cv) true more) × Sleeps (number_of seat.old.view.own) cv seat.old.view.target result more }
{
    if !sleeps_on(seat.target(), cv) {
        go_to_list(rt, table, seat, cv, Call::Sleep(cv));
        return Slept::Prepared;
    }
    wait_in_sleep(rt, table, seat, cv);
    for _ in rt.forever() {
        if was_signalled(rt, table, seat, cv) {
            return Slept::Signalled;
        }
        wait_latch_only(rt, table, seat);
    }
    unreachable!()
}

// Whether the condition is the target.
fn sleeps_on(target: Option<CvNo>, cv: CvNo) -> bool
    ensures is { result ≡ true → target ≡ Some cv }
    ensures other { result ≡ false → target ≢ Some cv }
{
    match target {
        Some(target) => target.number() == cv.number(),
        None => false,
    }
}

// Resets the latch, and looks whether this backend was taken off the list. Then it goes to the end
// of it again.
fn was_signalled<P: Party, R: Wait>(
    rt: &R,
    table: &WaitTable<P>,
    seat: &mut WaitSeat<P>,
    cv: CvNo,
) -> bool
    requires table { seat.old.table_id ≡ table.now.table_id }
    requires condition { cv < table.now.cvs }
    requires target { seat.old.view.target ≡ Some cv }
    requires place { seat.old.view.place ≡ Resetting cv ∷ outer seat.old.view.place }
    ensures table { (seat.new.table_id ≡ seat.old.table_id) × (seat.new.id ≡ seat.old.id) }
    ensures looked { (found : List ℕ) × (word : ℕ) × (look : List Made) × (result ≡ not (is_listed (number_of seat.old.view.own) found)) × (seat.new.view ≡ stands seat.old.view (cond result (resumed (outer seat.old.view.place)) (SleepWaiting cv ∷ outer seat.old.view.place)) (Some cv) (cond result true seat.old.view.heeds) (made (kind.Reset None) word ∷ look)) × Visits cv None found (relisted (number_of seat.old.view.own) found) (Some cv) look }
{
    table.step(seat, WaitStep::Reset(None));
    take_spot(rt, table, seat, Spot::Cv(cv), None);
    let off = rejoin(seat);
    table.step(seat, WaitStep::Free(Spot::Cv(cv), Some(cv)));
    off
}
