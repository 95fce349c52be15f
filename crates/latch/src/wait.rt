//! Calls that wait for the own latch.
ghost use Rattle.std.specs.Prelude.{◌≡◌, ℕ, ◌∷◌, List, Some, false, MatchOption};
ghost use Rattle.wait_core.specs.declared.step.Call.TheVariants as call;
ghost use Rattle.wait_core.specs.declared.step.Until.TheVariants.{Latch, LatchOrShutdown};
ghost use Rattle.wait_core.specs.declared.view.Frame.TheVariants.{Announcing, Looking, Repeating, Resetting};
ghost use Rattle.wait_core.specs.declared.view.Made.{Made};
ghost use Rattle.wait_core.specs.Jobs.{resumed};
ghost use Rattle.wait_core.specs.Machine.{MayBegin, behind_wait, top, outer};
ghost use Rattle.wait_core.specs.Places.{may_sleep};
ghost use Rattle.latch.specs.Reads.{went, later, ended, BeginsWait, IsWaitOf, OnlyWaits, ReadLatch, WaitSteps, WasRead};
ghost use Rattle.latch.specs.declared.wait.Woke.TheVariants.{LatchSet};

use proc_table::{CvNo, ProcNo};
use std::sync::Wait;
use wait_core::{Call, Party, Until, WaitSeat, WaitStep, WaitTable};

/// What ended a wait.
#[derive(Debug, Clone, Copy, PartialEq, Eq)]
pub enum Woke {
    LatchSet,
    Shutdown,
}

/// Waits until the own latch is set or there is a shutdown (`WaitLatch` with `WL_LATCH_SET` and
/// `WL_POSTMASTER_DEATH`). The latch stays set.
pub fn wait_latch<P: Party, R: Wait>(rt: &R, table: &WaitTable<P>, seat: &mut WaitSeat<P>) -> Woke
    requires table { seat.old.table_id ≡ table.now.table_id }
    requires place { MayBegin (call.Wait LatchOrShutdown) seat.old.view.place }
    ensures table { (seat.new.table_id ≡ seat.old.table_id) × (seat.new.id ≡ seat.old.id) }
    ensures woke { (p : ℕ) × (more : List Made) × (seat.old.view.own ≡ Some p) × (seat.new.view ≡ later seat.old.view more) × WaitSteps p LatchOrShutdown more × WasRead p result more }
    ensures may { may_sleep (top seat.new.view.place) ≡ false }
{
    let own = seat.proc();
    let until = Until::LatchOrShutdown;
    wait_until(rt, table, seat, own, until, Call::Wait(until))
}

/// Waits until the own latch is set. A shutdown doesn't end it.
pub fn wait_latch_only<P: Party, R: Wait>(rt: &R, table: &WaitTable<P>, seat: &mut WaitSeat<P>)
    requires table { seat.old.table_id ≡ table.now.table_id }
    requires place { MayBegin (call.Wait Latch) seat.old.view.place }
    ensures table { (seat.new.table_id ≡ seat.old.table_id) × (seat.new.id ≡ seat.old.id) }
    ensures set { (p : ℕ) × (more : List Made) × (seat.old.view.own ≡ Some p) × (seat.new.view ≡ ended seat.old.view more) × WaitSteps p Latch more × ReadLatch p 1 more }
    ensures may { may_sleep (top seat.new.view.place) ≡ false }
{
    let own = seat.proc();
    wait_until(rt, table, seat, own, Until::Latch, Call::Wait(Until::Latch));
}

/// The first wait of a sleep on the condition that is the target: the step with which it begins
/// begins the sleep.
pub fn wait_in_sleep<P: Party, R: Wait>(
    rt: &R,
    table: &WaitTable<P>,
    seat: &mut WaitSeat<P>,
    condition: CvNo,
)
    requires table { seat.old.table_id ≡ table.now.table_id }
    requires target { seat.old.view.target ≡ Some condition }
    requires place { MayBegin (call.Sleep condition) seat.old.view.place }
    ensures table { (seat.new.table_id ≡ seat.old.table_id) × (seat.new.id ≡ seat.old.id) }
    ensures set { (p : ℕ) × (more : List Made) × (seat.old.view.own ≡ Some p) × (seat.new.view ≡ went seat.old.view (Resetting condition ∷ seat.old.view.place) more) × BeginsWait p (call.Sleep condition) Latch more × ReadLatch p 1 more }
{
    let own = seat.proc();
    wait_until(rt, table, seat, own, Until::Latch, Call::Sleep(condition));
}

fn wait_until<P: Party, R: Wait>(
    rt: &R,
    table: &WaitTable<P>,
    seat: &mut WaitSeat<P>,
    own: ProcNo,
    until: Until,
    begins: Call,
) -> Woke
    requires table { seat.old.table_id ≡ table.now.table_id }
    requires own { seat.old.view.own ≡ Some own }
    requires place { MayBegin begins seat.old.view.place }
    requires begins { IsWaitOf until seat.old.view.target begins }
    ensures table { (seat.new.table_id ≡ seat.old.table_id) × (seat.new.id ≡ seat.old.id) }
    ensures woke { (more : List Made) × (seat.new.view ≡ went seat.old.view (resumed (behind_wait begins seat.old.view.place)) more) × BeginsWait own begins until more × WasRead own result more }
    ensures only { until ≡ Latch → result ≡ LatchSet }
{
    if table.step(seat, WaitStep::Sload(own, Some(begins))).old == 1 {
        return Woke::LatchSet;
    }
    for _ in rt.forever() {
        if let Some(woke) = look_and_sleep(rt, table, seat, own, until) {
            return woke;
        }
        if table.step(seat, WaitStep::Sload(own, None)).old == 1 {
            return Woke::LatchSet;
        }
    }
    unreachable!()
}

// From where the latch was found clear: says that this backend may sleep, looks again, and sleeps.
// None where it was woken, and has to look as at first.
fn look_and_sleep<P: Party, R: Wait>(
    rt: &R,
    table: &WaitTable<P>,
    seat: &mut WaitSeat<P>,
    own: ProcNo,
    until: Until,
) -> Option<Woke>
    requires table { seat.old.table_id ≡ table.now.table_id }
    requires own { seat.old.view.own ≡ Some own }
    requires place { top seat.old.view.place ≡ Some (Announcing until) }
    ensures table { (seat.new.table_id ≡ seat.old.table_id) × (seat.new.id ≡ seat.old.id) }
    ensures woke { MatchOption result ((more : List Made) × (seat.new.view ≡ went seat.old.view (Repeating until ∷ outer seat.old.view.place) more) × OnlyWaits own until more) (λ w. (more : List Made) × (seat.new.view ≡ went seat.old.view (resumed (outer seat.old.view.place)) more) × WasRead own w more × (until ≡ Latch → w ≡ LatchSet) × OnlyWaits own until more) }
{
    table.step(seat, WaitStep::Mstore(true));
    let again = table.step(seat, WaitStep::Sload(own, None));
    if again.old == 1 {
        table.step(seat, WaitStep::Mstore(false));
        return Some(Woke::LatchSet);
    }
    if let Until::LatchOrShutdown = until {
        if table.step(seat, WaitStep::Shload(None)).old == 1 {
            table.step(seat, WaitStep::Mstore(false));
            return Some(Woke::Shutdown);
        }
    }
    sleep(rt, table, seat, until);
    None
}

// Looks at the wake byte until it is 1, and clears it. That this backend may sleep is taken back
// before, so that a setter stores no byte that nobody waits for.
fn sleep<P: Party, R: Wait>(rt: &R, table: &WaitTable<P>, seat: &mut WaitSeat<P>, until: Until)
    requires table { seat.old.table_id ≡ table.now.table_id }
    requires place { top seat.old.view.place ≡ Some (Looking until) }
    ensures table { (seat.new.table_id ≡ seat.old.table_id) × (seat.new.id ≡ seat.old.id) }
    ensures woken { (more : List Made) × (seat.new.view ≡ went seat.old.view (Repeating until ∷ outer seat.old.view.place) more) × ((p : ℕ) → OnlyWaits p until more) }
{
    for _ in rt.forever() {
        if table.step(seat, WaitStep::Look).old == 1 {
            table.step(seat, WaitStep::Mstore(false));
            table.step(seat, WaitStep::Drain);
            return;
        }
        table.park(rt, seat);
    }
    unreachable!()
}
