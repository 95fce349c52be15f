//! How a worker that hashes inner rows takes part in a growth of batches or of buckets (PostgreSQL's
//! `ExecParallelHashIncreaseNumBatches` and `ExecParallelHashIncreaseNumBuckets`): it is attached to both
//! barriers, helps a growth that it finds under way, and goes through one that is wanted, phase by phase.
ghost use Rattle.std.specs.Prelude.{◌≡◌, ◌+◌, ◌<◌, ◌≤◌, true, [], ◌∷◌, None};
ghost use Rattle.wait_core.specs.Parties.{Elected};
ghost use Rattle.wait_core.specs.Seating.{party_of};
ghost use Rattle.join_law.specs.Phases.{HASH_INNER, build, growth_phase};
ghost use Rattle.join_law.specs.Quiet.{QuietAtGrowth};
ghost use Rattle.join_party.specs.Joins.{join};
ghost use Rattle.join_party.specs.Workers.{IsAt};
ghost use Rattle.shared_tuples.specs.declared.sizes.Growth.TheVariants.{Batches};
ghost use Rattle.shared_tuples.specs.Growing.{bar_of};
ghost use Rattle.hash_build.specs.Growths.{AreElecting, Grows, IsElecting, IsGrowing, IsMoving, MayMove, SameOther, last_of, passed, phase_at};
ghost use Rattle.hash_build.specs.Hashing.{IsFree, SameWaitNumbers};

use crate::moves::move_rows;
use crate::resize::{decide, resize};
use crate::sizes::read_sizes;
use join_party::{JoinSeats, JoinTables};
use phase_barrier::{arrive_and_wait, attach, detach};
use proc_table::BarNo;
use shared_tuples::Growth;
use std::sync::Wait;

// Phases of a growth, after ELECT; the last two of a growth of batches.
const REALLOCATE: u64 = 1;

const REINSERT: u64 = 2;

const DECIDE: u64 = 3;

/// The phases of both growth barriers, which a worker knows that is attached to them.
#[derive(Debug, Clone, Copy, PartialEq, Eq)]
pub(crate) struct GrowthPhases {
    batches: u64,
    buckets: u64,
}

impl GrowthPhases {
    // The phase at a growth's barrier.
    pub(crate) fn at(self, growth: Growth) -> u64
        ensures { result ≡ phase_at growth self }
    {
        match growth {
            Growth::Batches => self.batches,
            Growth::Buckets => self.buckets,
        }
    }

    // What that phase is called.
    pub(crate) fn named(self, growth: Growth) -> u64
        ensures { result ≡ growth_phase (bar_of growth) (phase_at growth self) }
    {
        match growth {
            Growth::Batches => self.batches % 5,
            Growth::Buckets => self.buckets % 3,
        }
    }

    // Once that phase has passed.
    fn passed(self, growth: Growth) -> GrowthPhases
        requires { phase_at growth self < last_of growth }
        ensures { result ≡ passed growth self }
    {
        match growth {
            Growth::Batches => GrowthPhases {
                batches: self.batches + 1,
                buckets: self.buckets,
            },
            Growth::Buckets => GrowthPhases {
                batches: self.batches,
                buckets: self.buckets + 1,
            },
        }
    }
}

// The ELECT phase in which nobody takes part in a growth any more.
pub(crate) fn last_of(growth: Growth) -> u64
    ensures { result ≡ last_of growth }
{
    match growth {
        Growth::Batches => 1_000_000,
        Growth::Buckets => 999_999,
    }
}

// The barrier of a growth.
fn barrier_of(growth: Growth) -> BarNo
    ensures { result ≡ bar_of growth }
{
    let Some(bar) = BarNo::new(growth.bar()) else {
        unreachable!()
    };
    bar
}

// Attaches to both barriers.
pub(crate) fn attach_both<'r, R: Wait>(
    rt: &R,
    tables: &JoinTables<'r>,
    seats: &mut JoinSeats<'r>,
) -> GrowthPhases
    requires table { IsAt tables.now seats.old }
    requires idle { (seats.old.wait.view.place ≡ []) × (seats.old.wait.view.target ≡ None) × IsFree seats.old.lock.view }
    requires attached { seats.old.wait.view.attached ≡ (build, HASH_INNER) ∷ [] }
    requires hand { seats.old.wait.view.client.hand ≡ [] }
    ensures growing { IsGrowing tables.now seats.new result × (seats.new.wait.id ≡ seats.old.wait.id) }
    ensures grows { Grows seats.old seats.new }
{
    let bar = barrier_of(Growth::Batches);
    let batches = attach(rt, &tables.waits, &mut seats.wait, bar);
    let bar = barrier_of(Growth::Buckets);
    let buckets = attach(rt, &tables.waits, &mut seats.wait, bar);
    // A load tells that no phase is past the last one.
    let _sizes = read_sizes(tables, seats);
    GrowthPhases { batches, buckets }
}

// Arrives at a growth's barrier and waits until all have. Whether it is elected.
fn arrive<'r, R: Wait>(
    rt: &R,
    tables: &JoinTables<'r>,
    seats: &mut JoinSeats<'r>,
    growth: Growth,
    phases: GrowthPhases,
) -> bool
    requires growing { IsGrowing tables.now seats.old phases }
    requires before { phase_at growth phases < last_of growth }
    requires quiet { QuietAtGrowth (join tables.now.waits.party) (party_of seats.old.wait.view) (bar_of growth) (phase_at growth phases) }
    ensures growing { IsGrowing tables.now seats.new (passed growth phases) × (seats.new.wait.id ≡ seats.old.wait.id) }
    ensures elected { result ≡ true → Elected seats.new.wait.view.elections (bar_of growth) (phase_at growth phases + 1) }
    ensures client { seats.new.wait.view.client ≡ seats.old.wait.view.client }
    ensures grows { Grows seats.old seats.new }
{
    let bar = barrier_of(growth);
    let Ok(elected) = arrive_and_wait(rt, &tables.waits, &mut seats.wait, bar) else {
        unreachable!()
    };
    elected
}

// Moves rows where the growth is in REINSERT.
fn move_if_due<'r, R: Wait>(
    rt: &R,
    tables: &JoinTables<'r>,
    seats: &mut JoinSeats<'r>,
    growth: Growth,
    phases: GrowthPhases,
)
    requires growing { IsGrowing tables.now seats.old phases }
    requires place { IsMoving growth phases → MayMove growth phases }
    ensures growing { IsGrowing tables.now seats.new phases × (seats.new.wait.id ≡ seats.old.wait.id) }
    ensures quiet { QuietAtGrowth (join tables.now.waits.party) (party_of seats.new.wait.view) (bar_of growth) (phase_at growth phases) }
    ensures grows { Grows seats.old seats.new }
{
    if phases.named(growth) == REINSERT {
        move_rows(rt, tables, seats, growth, phases);
    }
}

// Goes from a phase after ELECT to the next one: rows are moved before REINSERT passes, and whoever is
// elected for DECIDE decides.
pub(crate) fn pass<'r, R: Wait>(
    rt: &R,
    tables: &JoinTables<'r>,
    seats: &mut JoinSeats<'r>,
    growth: Growth,
    phases: GrowthPhases,
) -> GrowthPhases
    requires growing { IsGrowing tables.now seats.old phases }
    requires begun { 1 ≤ growth_phase (bar_of growth) (phase_at growth phases) }
    requires place { IsMoving growth phases → MayMove growth phases }
    ensures growing { IsGrowing tables.now seats.new result × (seats.new.wait.id ≡ seats.old.wait.id) }
    ensures next { result ≡ passed growth phases }
    ensures grows { Grows seats.old seats.new }
{
    move_if_due(rt, tables, seats, growth, phases);
    let elected = arrive(rt, tables, seats, growth, phases);
    let next = phases.passed(growth);
    if elected && growth == Growth::Batches && next.named(growth) == DECIDE {
        decide(rt, tables, seats, next);
    }
    next
}

// Goes through a growth from the phase in which it stands, to the next ELECT.
pub(crate) fn go_through<'r, R: Wait>(
    rt: &R,
    tables: &JoinTables<'r>,
    seats: &mut JoinSeats<'r>,
    growth: Growth,
    phases: GrowthPhases,
) -> GrowthPhases
    requires growing { IsGrowing tables.now seats.old phases }
    requires place { MayMove growth phases }
    ensures growing { IsGrowing tables.now seats.new result × (seats.new.wait.id ≡ seats.old.wait.id) }
    ensures elect { IsElecting growth result × SameOther growth phases result }
    ensures grows { Grows seats.old seats.new }
{
    let mut at = phases;
    while at.named(growth) != 0 {
        at = pass(rt, tables, seats, growth, at);
    }
    at
}

// Goes on to where rows may move for a growth of batches, if the growth of buckets is in REALLOCATE.
pub(crate) fn pass_reallocate<'r, R: Wait>(
    rt: &R,
    tables: &JoinTables<'r>,
    seats: &mut JoinSeats<'r>,
    phases: GrowthPhases,
) -> GrowthPhases
    requires growing { IsGrowing tables.now seats.old phases }
    ensures growing { IsGrowing tables.now seats.new result × (seats.new.wait.id ≡ seats.old.wait.id) }
    ensures place { MayMove Batches result }
    ensures grows { Grows seats.old seats.new }
{
    if phases.named(Growth::Buckets) == REALLOCATE {
        pass(rt, tables, seats, Growth::Buckets, phases)
    } else {
        phases
    }
}

// Attaches to both barriers, and helps the growth that is under way.
pub(crate) fn enter_growths<'r, R: Wait>(
    rt: &R,
    tables: &JoinTables<'r>,
    seats: &mut JoinSeats<'r>,
) -> GrowthPhases
    requires table { IsAt tables.now seats.old }
    requires idle { (seats.old.wait.view.place ≡ []) × (seats.old.wait.view.target ≡ None) × IsFree seats.old.lock.view }
    requires attached { seats.old.wait.view.attached ≡ (build, HASH_INNER) ∷ [] }
    requires hand { seats.old.wait.view.client.hand ≡ [] }
    ensures growing { IsGrowing tables.now seats.new result × (seats.new.wait.id ≡ seats.old.wait.id) }
    ensures elect { AreElecting result }
    ensures grows { Grows seats.old seats.new }
{
    let phases = attach_both(rt, tables, seats);
    let phases = pass_reallocate(rt, tables, seats, phases);
    let phases = go_through(rt, tables, seats, Growth::Batches, phases);
    go_through(rt, tables, seats, Growth::Buckets, phases)
}

// Arrives at ELECT, and does what is to do in REALLOCATE if it is elected for that.
pub(crate) fn begin<'r, R: Wait>(
    rt: &R,
    tables: &JoinTables<'r>,
    seats: &mut JoinSeats<'r>,
    growth: Growth,
    phases: GrowthPhases,
) -> GrowthPhases
    requires growing { IsGrowing tables.now seats.old phases }
    requires elect { AreElecting phases }
    requires before { phase_at growth phases < last_of growth }
    ensures growing { IsGrowing tables.now seats.new result × (seats.new.wait.id ≡ seats.old.wait.id) }
    ensures next { result ≡ passed growth phases }
    ensures grows { Grows seats.old seats.new }
{
    let elected = arrive(rt, tables, seats, growth, phases);
    let next = phases.passed(growth);
    if elected {
        resize(rt, tables, seats, growth, next);
    }
    next
}

// Takes part in a growth that is wanted, until it has ended. Nothing is done in the last ELECT.
pub(crate) fn take_part<'r, R: Wait>(
    rt: &R,
    tables: &JoinTables<'r>,
    seats: &mut JoinSeats<'r>,
    growth: Growth,
    phases: GrowthPhases,
) -> GrowthPhases
    requires growing { IsGrowing tables.now seats.old phases }
    requires elect { AreElecting phases }
    ensures growing { IsGrowing tables.now seats.new result × (seats.new.wait.id ≡ seats.old.wait.id) }
    ensures elect { AreElecting result }
    ensures grows { Grows seats.old seats.new }
{
    if phases.at(growth) >= last_of(growth) {
        return phases;
    }
    let next = begin(rt, tables, seats, growth, phases);
    go_through(rt, tables, seats, growth, next)
}

// Leaves both barriers, at ELECT.
pub(crate) fn leave_growths<'r, R: Wait>(
    rt: &R,
    tables: &JoinTables<'r>,
    seats: &mut JoinSeats<'r>,
    phases: GrowthPhases,
)
    requires growing { IsGrowing tables.now seats.old phases }
    requires elect { AreElecting phases }
    ensures table { IsAt tables.now seats.new × (seats.new.wait.id ≡ seats.old.wait.id) }
    ensures idle { (seats.new.wait.view.place ≡ []) × (seats.new.wait.view.target ≡ None) }
    ensures others { (seats.new.lock ≡ seats.old.lock) × (seats.new.signal ≡ seats.old.signal) }
    ensures attached { seats.new.wait.view.attached ≡ (build, HASH_INNER) ∷ [] }
    ensures client { seats.new.wait.view.client ≡ seats.old.wait.view.client }
    ensures numbers { SameWaitNumbers seats.old.wait.view seats.new.wait.view }
{
    detach(
        rt,
        &tables.waits,
        &mut seats.wait,
        barrier_of(Growth::Batches),
    );
    detach(
        rt,
        &tables.waits,
        &mut seats.wait,
        barrier_of(Growth::Buckets),
    );
}
