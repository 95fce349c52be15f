//! How a backend arrives at a barrier, and waits for the others.
ghost use Rattle.std.specs.Prelude.{◌≡◌, ◌<◌, ◌+◌, ◌++◌, ◌∷◌, [], List, ℕ, Bool, None, Some, MatchResult};
ghost use Rattle.wait_core.specs.declared.step.Call.TheVariants as call;
ghost use Rattle.wait_core.specs.declared.view.Frame.TheVariants.{Taking};
ghost use Rattle.wait_core.specs.declared.view.Job.TheVariants as job;
ghost use Rattle.wait_core.specs.declared.view.Made.{Made};
ghost use Rattle.wait_core.specs.Barriers.{IsDone, LetsPass};
ghost use Rattle.wait_core.specs.Fits.{IsTarget};
ghost use Rattle.wait_core.specs.Jobs.{at_phase};
ghost use Rattle.wait_core.specs.Machine.{number_of};
ghost use Rattle.wait_core.specs.Parties.{phase_of};
ghost use Rattle.wait_core.specs.Seating.{party_of};
ghost use Rattle.wait_core.specs.Words.{last_phase};
ghost use Rattle.phase_barrier.specs.Calls.{Arrived, IsWorn, LooksOut, ended, won};

use crate::visit::{Purpose, condition_of, has_passed, is_last, is_worn, visit};
use condition_variable::{broadcast, cancel_sleep, prepare_to_sleep, sleep};
use proc_table::{BarNo, Worn};
use std::sync::Wait;
use wait_core::{Party, WaitSeat, WaitTable};

/// Arrives, and waits until all others who are attached have arrived or left
/// (`BarrierArriveAndWait`): then the phase is one higher, and of all who arrived in it one is elected.
/// Whether this backend is. Worn exactly where the phase is 2^62: nothing changes.
pub fn arrive_and_wait<P: Party, R: Wait>(
    rt: &R,
    table: &WaitTable<P>,
    seat: &mut WaitSeat<P>,
    bar: BarNo,
) -> Result<bool, Worn>
    requires table { seat.old.table_id ≡ table.now.table_id }
    requires barrier { bar < table.now.bars }
    requires target { IsTarget table.now.cvs seat.old.view.target }
    requires place { seat.old.view.place ≡ [] }
    requires client { IsDone (P.means table.now.party) bar (LetsPass (P.means table.now.party) bar) (party_of seat.old.view) }
    ensures table { (seat.new.table_id ≡ seat.old.table_id) × (seat.new.id ≡ seat.old.id) }
    ensures arrived { MatchResult result (λ elected. Arrived bar elected seat.old.view seat.new.view) (λ e. IsWorn bar (call.Arrive bar) e.at seat.old.view seat.new.view) }
{
    let found = visit(rt, table, seat, bar, Purpose::Arrive);
    if is_worn(found) {
        return Err(Worn { at: found.phase });
    }
    if is_last(found) {
        broadcast(rt, table, seat, condition_of(bar));
        return Ok(true);
    }
    prepare_to_sleep(rt, table, seat, condition_of(bar));
    Ok(wait_out(rt, table, seat, bar, found.phase))
}

// Looks whether the phase has passed, and sleeps until it has. Whether this backend is elected.
fn wait_out<P: Party, R: Wait>(
    rt: &R,
    table: &WaitTable<P>,
    seat: &mut WaitSeat<P>,
    bar: BarNo,
    phase: u64,
) -> bool
    requires table { seat.old.table_id ≡ table.now.table_id }
    requires barrier { (bar < table.now.bars) × (bar < table.now.cvs) }
    requires phase { phase < last_phase }
    requires target { seat.old.view.target ≡ Some bar }
    requires place { seat.old.view.place ≡ Taking (job.Notice bar phase) ∷ [] }
    requires known { phase_of seat.old.view.attached bar ≡ Some phase }
    ensures table { (seat.new.table_id ≡ seat.old.table_id) × (seat.new.id ≡ seat.old.id) }
    ensures out { (heeds : Bool) × (more : List Made) × (seat.new.view ≡ ended seat.old.view (at_phase bar (phase + 1) seat.old.view.attached) (won result bar (phase + 1) seat.old.view.elections) ((bar, phase) ∷ seat.old.view.passed) None heeds more) × LooksOut (number_of seat.old.view.own) bar more }
{
    for _ in rt.forever() {
        let found = visit(rt, table, seat, bar, Purpose::Notice(phase));
        if has_passed(phase, found) {
            cancel_sleep(rt, table, seat);
            return found.elected != phase + 1;
        }
        sleep(rt, table, seat, condition_of(bar));
    }
    unreachable!()
}
