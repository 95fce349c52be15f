//! What a worker does in each phase of the build, and how it goes on to the next.
ghost use Rattle.std.specs.Prelude.{◌≡◌, ◌≤◌, ◌<◌, ◌+◌, ℕ, true, [], ◌∷◌, None};
ghost use Rattle.wait_core.specs.Parties.{Elected};
ghost use Rattle.wait_core.specs.Seating.{party_of};
ghost use Rattle.join_law.specs.Phases.{FREE, build};
ghost use Rattle.join_law.specs.Quiet.{QuietAtBuild};
ghost use Rattle.join_party.specs.Joins.{join};
ghost use Rattle.join_party.specs.Workers.{IsAt};
ghost use Rattle.hash_build.specs.Hashing.{IsFree, Reached, SameWaitNumbers, with_late};

use crate::chunks::{hash_inner, hash_outer};
use join_party::{HashStep, JoinSeats, JoinTables, Look};
use phase_barrier::{arrive_and_wait, detach};
use proc_table::{BarNo, Gate, Steps};
use std::sync::Wait;
use std::sync::ledger::Ledger;

// Phases of the build, after ELECT and ALLOCATE.
const HASH_INNER: u64 = 2;

const HASH_OUTER: u64 = 3;

pub(crate) const RUN: u64 = 4;

pub(crate) const FREE: u64 = 5;

pub(crate) fn the_build() -> BarNo
    ensures { result ≡ 0 }
{
    let Some(bar) = BarNo::new(0) else {
        unreachable!()
    };
    bar
}

// Leaves a build that is at FREE.
pub(crate) fn leave_late<'r, R: Wait>(rt: &R, tables: &JoinTables<'r>, seats: &mut JoinSeats<'r>)
    requires table { seats.old.wait.table_id ≡ tables.now.waits.table_id }
    requires idle { (seats.old.wait.view.place ≡ []) × (seats.old.wait.view.target ≡ None) }
    requires phase { (ph : ℕ) × (FREE ≤ ph) × (seats.old.wait.view.attached ≡ (build, ph) ∷ []) }
    requires hand { seats.old.wait.view.client.hand ≡ [] }
    ensures table { (seats.new.wait.table_id ≡ seats.old.wait.table_id) × (seats.new.wait.id ≡ seats.old.wait.id) }
    ensures others { (seats.new.lock ≡ seats.old.lock) × (seats.new.signal ≡ seats.old.signal) }
    ensures idle { (seats.new.wait.view.place ≡ []) × (seats.new.wait.view.target ≡ None) }
    ensures away { seats.new.wait.view.attached ≡ [] }
    ensures late { seats.new.wait.view.client ≡ with_late seats.old.wait.view.client }
    ensures numbers { SameWaitNumbers seats.old.wait.view seats.new.wait.view }
{
    tables
        .waits
        .client(&mut seats.wait, HashStep::Load(Look::Late));
    detach(rt, &tables.waits, &mut seats.wait, the_build());
}

// Does what is to do in a phase before RUN. The first sizes stand in the words from the opening on, so
// there is nothing in ELECT and ALLOCATE.
pub(crate) fn work<'r, G: Gate, R: Wait, L: Ledger>(
    rt: &R,
    tables: &JoinTables<'r>,
    seats: &mut JoinSeats<'r>,
    phase: u64,
    worker: u32,
    gate: &G,
    steps: &mut Steps<L>,
)
    requires table { IsAt tables.now seats.old }
    requires idle { (seats.old.wait.view.place ≡ []) × (seats.old.wait.view.target ≡ None) × IsFree seats.old.lock.view }
    requires phase { (phase < 4) × (seats.old.wait.view.attached ≡ (build, phase) ∷ []) }
    requires hand { seats.old.wait.view.client.hand ≡ [] }
    ensures table { IsAt tables.now seats.new × (seats.new.wait.id ≡ seats.old.wait.id) }
    ensures idle { (seats.new.wait.view.place ≡ []) × (seats.new.wait.view.target ≡ None) }
    ensures attached { seats.new.wait.view.attached ≡ seats.old.wait.view.attached }
    ensures reached { Reached seats.old seats.new steps.old steps.new }
    ensures quiet { QuietAtBuild (join tables.now.waits.party) (party_of seats.new.wait.view) phase }
{
    if phase == HASH_INNER {
        hash_inner(rt, tables, seats, worker, gate, steps);
    } else if phase == HASH_OUTER {
        hash_outer(rt, tables, seats, worker, gate, steps);
    }
}

// Arrives at the end of a phase before RUN, and waits until all have. Whether it is elected.
pub(crate) fn go_on<'r, R: Wait>(
    rt: &R,
    tables: &JoinTables<'r>,
    seats: &mut JoinSeats<'r>,
    phase: u64,
) -> bool
    requires table { seats.old.wait.table_id ≡ tables.now.waits.table_id }
    requires idle { (seats.old.wait.view.place ≡ []) × (seats.old.wait.view.target ≡ None) }
    requires phase { (phase < 4) × (seats.old.wait.view.attached ≡ (build, phase) ∷ []) }
    requires quiet { (seats.old.wait.view.client.hand ≡ []) × QuietAtBuild (join tables.now.waits.party) (party_of seats.old.wait.view) phase }
    ensures table { (seats.new.wait.table_id ≡ seats.old.wait.table_id) × (seats.new.wait.id ≡ seats.old.wait.id) }
    ensures others { (seats.new.lock ≡ seats.old.lock) × (seats.new.signal ≡ seats.old.signal) }
    ensures idle { (seats.new.wait.view.place ≡ []) × (seats.new.wait.view.target ≡ None) }
    ensures phase { seats.new.wait.view.attached ≡ (build, phase + 1) ∷ [] }
    ensures elected { result ≡ true → Elected seats.new.wait.view.elections build (phase + 1) }
    ensures client { seats.new.wait.view.client ≡ seats.old.wait.view.client }
    ensures numbers { SameWaitNumbers seats.old.wait.view seats.new.wait.view }
{
    let Ok(elected) = arrive_and_wait(rt, &tables.waits, &mut seats.wait, the_build()) else {
        unreachable!()
    };
    elected
}
