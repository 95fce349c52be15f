//! How a spin word is taken in hand.
ghost use Rattle.std.specs.Prelude.{◌≡◌, ◌≤◌, List, ◌∷◌, ◌++◌, [], None, true};
ghost use Rattle.wait_core.specs.declared.step.WaitStep.TheVariants as kind;
ghost use Rattle.wait_core.specs.declared.view.Made.{Made};
ghost use Rattle.wait_core.specs.Barriers.{StepSuits, waits_at};
ghost use Rattle.wait_core.specs.Machine.{Allowed, IsSpot, MaySpin, MayTake, as_kept, made_with, number_of, spun, taken, top};
ghost use Rattle.wait_core.specs.Seating.{party_of};
ghost use Rattle.wait_core.specs.Seats.{size_of};
ghost use Rattle.wait_core.specs.Stances.{belongs_at};
ghost use Rattle.wait_core.specs.Told.{TellsList, TellsRecord};
ghost use Rattle.wait_core.specs.Words.{slot_of};
ghost use Rattle.latch.specs.Reads.{went};
ghost use Rattle.condition_variable.specs.Visits.{OnlySpins, Takes, entering};

use crossbeam_utils::Backoff;
use std::sync::Wait;
use wait_core::{Call, Party, Spot, WaitSeat, WaitStep, WaitTable};

/// Takes what a spin word guards in hand (`SpinLockAcquire`), and waits for it where another has it.
/// A call may begin with it.
pub fn take_spot<P: Party, R: Wait>(
    rt: &R,
    table: &WaitTable<P>,
    seat: &mut WaitSeat<P>,
    spot: Spot,
    begins: Option<Call>,
)
    requires table { seat.old.table_id ≡ table.now.table_id }
    requires spot { IsSpot (size_of table.now) spot }
    requires place { Allowed (size_of table.now) (kind.Take spot begins) seat.old.view }
    requires client { StepSuits (P.means table.now.party) (kind.Take spot begins) seat.old.view }
    requires job { MayTake spot (top (entering begins seat.old.view.target seat.old.view.place)) }
    ensures table { (seat.new.table_id ≡ seat.old.table_id) × (seat.new.id ≡ seat.old.id) }
    ensures view { (more : List Made) × (seat.new.view ≡ went seat.old.view (taken true (as_kept seat.new.list seat.new.record) (entering begins seat.old.view.target seat.old.view.place)) more) × Takes spot begins seat.new.list more }
    ensures list { TellsList (size_of table.now) (number_of seat.old.view.own) (belongs_at seat.old.view.target (entering begins seat.old.view.target seat.old.view.place)) (slot_of spot) seat.new.list }
    ensures barrier { TellsRecord (P.means table.now.party) (size_of table.now) table.now.phase (P.word_count table.now.party) spot seat.old.id (waits_at seat.old.view.place) (party_of seat.old.view) seat.new.record }
    ensures few { table.now.procs ≤ 64 }
{
    let _procs = table.procs();
    let here = &spot;
    let take = WaitStep::Take(*here, begins);
    if table.step(seat, take).old == 0 {
        return;
    }
    wait_for_spot(rt, table, seat, here);
}

// The same, once it was found in another's hand.
fn wait_for_spot<P: Party, R: Wait>(
    rt: &R,
    table: &WaitTable<P>,
    seat: &mut WaitSeat<P>,
    spot: &Spot,
)
    requires table { seat.old.table_id ≡ table.now.table_id }
    requires spot { IsSpot (size_of table.now) spot.now }
    requires place { MaySpin spot.now (top seat.old.view.place) }
    ensures table { (seat.new.table_id ≡ seat.old.table_id) × (seat.new.id ≡ seat.old.id) }
    ensures view { (spins : List Made) × (seat.new.view ≡ went seat.old.view (taken true (as_kept seat.new.list seat.new.record) (spun true seat.old.view.place)) (spins ++ made_with (kind.Take spot.now None) 0 seat.new.list ∷ [])) × OnlySpins spot.now spins }
    ensures list { TellsList (size_of table.now) (number_of seat.old.view.own) (belongs_at seat.old.view.target (spun true seat.old.view.place)) (slot_of spot.now) seat.new.list }
    ensures barrier { TellsRecord (P.means table.now.party) (size_of table.now) table.now.phase (P.word_count table.now.party) spot.now seat.old.id (waits_at seat.old.view.place) (party_of seat.old.view) seat.new.record }
{
    let backoff = Backoff::new();
    for _ in rt.forever() {
        spin(rt, table, seat, spot, &backoff);
        let take = WaitStep::Take(*spot, None);
        if table.step(seat, take).old == 0 {
            return;
        }
    }
    unreachable!()
}

// Loads the spin word until it is free.
fn spin<P: Party, R: Wait>(
    rt: &R,
    table: &WaitTable<P>,
    seat: &mut WaitSeat<P>,
    spot: &Spot,
    backoff: &Backoff,
)
    requires table { seat.old.table_id ≡ table.now.table_id }
    requires spot { IsSpot (size_of table.now) spot.now }
    requires place { MaySpin spot.now (top seat.old.view.place) }
    ensures table { (seat.new.table_id ≡ seat.old.table_id) × (seat.new.id ≡ seat.old.id) }
    ensures view { (spins : List Made) × (seat.new.view ≡ went seat.old.view (spun true seat.old.view.place) spins) × OnlySpins spot.now spins }
{
    for _ in rt.forever() {
        backoff.snooze();
        if table.step(seat, WaitStep::Spin(*spot)).old == 0 {
            return;
        }
    }
    unreachable!()
}
