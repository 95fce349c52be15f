//! How a barrier's record is taken in hand, changed and sent home.
ghost use Rattle.std.specs.Prelude.{◌≡◌, ◌<◌, ◌≤◌, ◌==◌, ℕ, List};
ghost use Rattle.wait_core.specs.declared.view.Made.{Made};
ghost use Rattle.wait_core.specs.Barriers.{JobSuits, asked, waits_at};
ghost use Rattle.wait_core.specs.Jobs.{departed, has_passed, is_awaited, is_last, is_only, is_worn, left_record};
ghost use Rattle.wait_core.specs.Words.{last_phase};
ghost use Rattle.wait_core.specs.Parties.{phase_of};
ghost use Rattle.wait_core.specs.Seating.{party_of};
ghost use Rattle.wait_core.specs.Seats.{size_of};
ghost use Rattle.wait_core.specs.Told.{CountsAttached, CountsSeat, IsInside};
ghost use Rattle.phase_barrier.specs.Visits.{IsKnown, MayLeave, MayVisit, Visits, begins_with, job_for, visited};

use condition_variable::take_spot;
use proc_table::{BarNo, CvNo};
use std::sync::Wait;
use wait_core::{Call, Party, Record, Spot, WaitSeat, WaitStep, WaitTable};

/// What a barrier's record is taken in hand for: by a call that begins with it, or in an arrival
/// that waits from a phase.
#[derive(Debug, Clone, Copy)]
pub(crate) enum Purpose {
    Attach,
    Arrive,
    Notice(u64),
    Detach,
    ArriveDetach,
    ExceptLast,
}

impl Purpose {
    // The call that begins.
    fn begins(self, bar: BarNo) -> Option<Call>
        ensures { result ≡ begins_with self bar }
    {
        match self {
            Purpose::Attach => Some(Call::Attach(bar)),
            Purpose::Arrive => Some(Call::Arrive(bar)),
            Purpose::Notice(_) => None,
            Purpose::Detach => Some(Call::Detach(bar)),
            Purpose::ArriveDetach => Some(Call::ArriveDetach(bar)),
            Purpose::ExceptLast => Some(Call::ExceptLast(bar)),
        }
    }

    // The record that goes home, where it was found so.
    fn leaves(self, found: Record) -> Record
        requires inside { IsInside found }
        requires may { MayLeave self found }
        ensures { (b : ℕ) → result ≡ left_record (job_for self b) found }
    {
        match self {
            Purpose::Attach => with_participants(found, found.participants + 1),
            Purpose::Arrive => {
                if is_worn(found) {
                    found
                } else if is_last(found) {
                    Record {
                        phase: found.phase + 1,
                        participants: found.participants,
                        arrived: 0,
                        elected: found.phase + 1,
                    }
                } else {
                    Record {
                        phase: found.phase,
                        participants: found.participants,
                        arrived: found.arrived + 1,
                        elected: found.elected,
                    }
                }
            }
            Purpose::Notice(phase) => {
                if has_passed(phase, found) {
                    Record {
                        phase: found.phase,
                        participants: found.participants,
                        arrived: found.arrived,
                        elected: found.phase,
                    }
                } else {
                    found
                }
            }
            Purpose::Detach => departed(found, is_awaited(found)),
            Purpose::ArriveDetach => {
                if is_worn(found) {
                    found
                } else {
                    departed(found, is_last(found))
                }
            }
            Purpose::ExceptLast => {
                if is_worn(found) {
                    found
                } else if is_only(found) {
                    Record {
                        phase: found.phase + 1,
                        participants: found.participants,
                        arrived: found.arrived,
                        elected: found.elected,
                    }
                } else {
                    with_participants(found, found.participants - 1)
                }
            }
        }
    }
}

fn with_participants(found: Record, participants: u32) -> Record
    ensures { result ≡ record found { participants = participants } }
{
    Record {
        phase: found.phase,
        participants,
        arrived: found.arrived,
        elected: found.elected,
    }
}

// One participant less, and the phase passes or it doesn't.
fn departed(found: Record, passes: bool) -> Record
    requires inside { IsInside found }
    requires counted { 1 ≤ found.participants }
    ensures { result ≡ departed passes found }
{
    if passes {
        Record {
            phase: found.phase + 1,
            participants: found.participants - 1,
            arrived: 0,
            elected: found.elected,
        }
    } else {
        with_participants(found, found.participants - 1)
    }
}

// The phase from which somebody waits has passed.
pub(crate) fn has_passed(phase: u64, found: Record) -> bool
    requires { phase < last_phase }
    ensures { result ≡ has_passed phase found }
{
    found.phase == phase + 1
}

// Its phase is never passed.
pub(crate) fn is_worn(found: Record) -> bool
    ensures { result ≡ is_worn found }
{
    found.phase == 0x4000_0000_0000_0000
}

// All who take part but one have arrived.
pub(crate) fn is_last(found: Record) -> bool
    requires { found.arrived ≤ 64 }
    ensures { result ≡ is_last found }
{
    found.arrived + 1 == found.participants
}

// There is no other who takes part.
pub(crate) fn is_only(found: Record) -> bool
    ensures { result ≡ is_only found }
{
    found.participants == 1
}

// All others have arrived, and there are some.
pub(crate) fn is_awaited(found: Record) -> bool
    requires { found.arrived ≤ 64 }
    ensures { result ≡ is_awaited found }
{
    is_last(found) && 1 < found.participants
}

// The condition on which those who arrived sleep.
pub(crate) fn condition_of(bar: BarNo) -> CvNo
    ensures { result ≡ bar }
{
    let Some(condition) = CvNo::new(bar.number()) else {
        unreachable!()
    };
    condition
}

/// Takes the record in hand, changes it as the purpose says, and sends it home. The record as it was
/// found.
pub(crate) fn visit<P: Party, R: Wait>(
    rt: &R,
    table: &WaitTable<P>,
    seat: &mut WaitSeat<P>,
    bar: BarNo,
    purpose: Purpose,
) -> Record
    requires table { seat.old.table_id ≡ table.now.table_id }
    requires barrier { bar < table.now.bars }
    requires place { MayVisit purpose bar seat.old.view.place }
    requires known { IsKnown purpose bar seat.old.view.attached }
    requires client { JobSuits (P.means table.now.party) (asked (job_for purpose bar)) (party_of seat.old.view) }
    ensures table { (seat.new.table_id ≡ seat.old.table_id) × (seat.new.id ≡ seat.old.id) }
    ensures visited { (more : List Made) × (seat.new.view ≡ visited (job_for purpose bar) result seat.old.view more) × Visits bar (begins_with purpose bar) seat.old.view.target more }
    ensures condition { bar < table.now.cvs }
    ensures inside { IsInside result }
    ensures counted { CountsSeat (waits_at seat.old.view.place) (phase_of seat.old.view.attached bar) result × CountsAttached (P.means table.now.party) (size_of table.now) table.now.phase (P.word_count table.now.party) bar seat.old.id (party_of seat.old.view) result }
{
    let begins = purpose.begins(bar);
    take_spot(rt, table, seat, Spot::Bar(bar), begins);
    let record = seat.record_mut();
    let found = *record;
    *record = purpose.leaves(found);
    let target = seat.target();
    table.step(seat, WaitStep::Free(Spot::Bar(bar), target));
    found
}
