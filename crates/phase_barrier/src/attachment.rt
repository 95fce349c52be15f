//! How a backend attaches to a barrier, and leaves it.
ghost use Rattle.std.specs.Prelude.{◌≡◌, ◌<◌, ◌∷◌, [], List, ℕ, None, Some, MatchResult};
ghost use Rattle.wait_core.specs.declared.step.Call.TheVariants as call;
ghost use Rattle.wait_core.specs.declared.view.Made.{Made};
ghost use Rattle.wait_core.specs.declared.view.Record.{Record};
ghost use Rattle.wait_core.specs.Barriers.{IsDone, LetsBoth, LetsLeave, LetsPass};
ghost use Rattle.wait_core.specs.Fits.{IsTarget};
ghost use Rattle.wait_core.specs.Jobs.{is_awaited, is_last, is_only};
ghost use Rattle.wait_core.specs.Parties.{phase_of};
ghost use Rattle.wait_core.specs.Seating.{party_of};
ghost use Rattle.wait_core.specs.Seats.{size_of};
ghost use Rattle.wait_core.specs.Told.{CountsAttached};
ghost use Rattle.phase_barrier.specs.Calls.{Departed, DepartedUnlessOnly, IsBefore, IsWorn, attaching};
ghost use Rattle.phase_barrier.specs.Visits.{Visits};

use crate::visit::{condition_of, is_awaited, is_last, is_only, is_worn, visit, Purpose};
use condition_variable::broadcast;
use proc_table::{BarNo, Worn};
use std::sync::Wait;
use wait_core::{Party, WaitSeat, WaitTable};

/// Attaches to the barrier (`BarrierAttach`): from then on its record counts this backend. The
/// phase that was found, which is the one that the backend takes part from.
pub fn attach<P: Party, R: Wait>(
    rt: &R,
    table: &WaitTable<P>,
    seat: &mut WaitSeat<P>,
    bar: BarNo,
) -> u64
    requires table { seat.old.table_id ≡ table.now.table_id }
    requires barrier { bar < table.now.bars }
    requires place { seat.old.view.place ≡ [] }
    requires away { phase_of seat.old.view.attached bar ≡ None }
    requires client { (P.means table.now.party).enters (party_of seat.old.view) bar }
    ensures table { (seat.new.table_id ≡ seat.old.table_id) × (seat.new.id ≡ seat.old.id) }
    ensures attached { (more : List Made) × (seat.new.view ≡ attaching seat.old.view ((bar, result) ∷ seat.old.view.attached) more) × Visits bar (Some (call.Attach bar)) seat.old.view.target more }
{
    visit(rt, table, seat, bar, Purpose::Attach).phase
}

/// Leaves the barrier (`BarrierDetach`), at a phase in which a seat may leave. Where all others have
/// arrived the phase passes, and they are woken. Whether nobody else was attached.
pub fn detach<P: Party, R: Wait>(
    rt: &R,
    table: &WaitTable<P>,
    seat: &mut WaitSeat<P>,
    bar: BarNo,
) -> bool
    requires table { seat.old.table_id ≡ table.now.table_id }
    requires barrier { bar < table.now.bars }
    requires target { IsTarget table.now.cvs seat.old.view.target }
    requires place { seat.old.view.place ≡ [] }
    requires client { IsDone (P.means table.now.party) bar (LetsLeave (P.means table.now.party) bar) (party_of seat.old.view) }
    ensures table { (seat.new.table_id ≡ seat.old.table_id) × (seat.new.id ≡ seat.old.id) }
    ensures detached { (found : Record) × CountsAttached (P.means table.now.party) (size_of table.now) table.now.phase (P.word_count table.now.party) bar seat.old.id (party_of seat.old.view) found × (result ≡ is_only found) × Departed bar (call.Detach bar) (is_awaited found) seat.old.view seat.new.view }
{
    let found = visit(rt, table, seat, bar, Purpose::Detach);
    if is_awaited(found) {
        broadcast(rt, table, seat, condition_of(bar));
    }
    is_only(found)
}

/// Arrives and leaves (`BarrierArriveAndDetach`): as `detach`, but the phase passes also where
/// nobody else is attached. Worn exactly where the phase is 2^62: nothing changes, and the backend
/// stays attached.
pub fn arrive_and_detach<P: Party, R: Wait>(
    rt: &R,
    table: &WaitTable<P>,
    seat: &mut WaitSeat<P>,
    bar: BarNo,
) -> Result<bool, Worn>
    requires table { seat.old.table_id ≡ table.now.table_id }
    requires barrier { bar < table.now.bars }
    requires target { IsTarget table.now.cvs seat.old.view.target }
    requires place { seat.old.view.place ≡ [] }
    requires client { IsDone (P.means table.now.party) bar (LetsBoth (P.means table.now.party) bar) (party_of seat.old.view) }
    ensures table { (seat.new.table_id ≡ seat.old.table_id) × (seat.new.id ≡ seat.old.id) }
    ensures detached { MatchResult result (λ last. IsBefore bar seat.old.view × ((found : Record) × CountsAttached (P.means table.now.party) (size_of table.now) table.now.phase (P.word_count table.now.party) bar seat.old.id (party_of seat.old.view) found × (last ≡ is_only found) × Departed bar (call.ArriveDetach bar) (is_last found) seat.old.view seat.new.view)) (λ e. IsWorn bar (call.ArriveDetach bar) e.at seat.old.view seat.new.view) }
{
    let found = visit(rt, table, seat, bar, Purpose::ArriveDetach);
    if is_worn(found) {
        return Err(Worn { at: found.phase });
    }
    if is_last(found) {
        broadcast(rt, table, seat, condition_of(bar));
    }
    Ok(is_only(found))
}

/// Leaves the barrier unless nobody else is attached (`BarrierArriveAndDetachExceptLast`): then the
/// backend stays, the phase passes, and the answer is true. It wakes nobody. Worn exactly where the
/// phase is 2^62: nothing changes, and the backend stays attached.
pub fn arrive_and_detach_except_last<P: Party, R: Wait>(
    rt: &R,
    table: &WaitTable<P>,
    seat: &mut WaitSeat<P>,
    bar: BarNo,
) -> Result<bool, Worn>
    requires table { seat.old.table_id ≡ table.now.table_id }
    requires barrier { bar < table.now.bars }
    requires place { seat.old.view.place ≡ [] }
    requires client { IsDone (P.means table.now.party) bar (LetsPass (P.means table.now.party) bar) (party_of seat.old.view) }
    ensures table { (seat.new.table_id ≡ seat.old.table_id) × (seat.new.id ≡ seat.old.id) }
    ensures left { MatchResult result (λ only. (found : Record) × CountsAttached (P.means table.now.party) (size_of table.now) table.now.phase (P.word_count table.now.party) bar seat.old.id (party_of seat.old.view) found × (only ≡ is_only found) × DepartedUnlessOnly bar only seat.old.view seat.new.view) (λ e. IsWorn bar (call.ExceptLast bar) e.at seat.old.view seat.new.view) }
{
    let found = visit(rt, table, seat, bar, Purpose::ExceptLast);
    if is_worn(found) {
        return Err(Worn { at: found.phase });
    }
    Ok(is_only(found))
}
