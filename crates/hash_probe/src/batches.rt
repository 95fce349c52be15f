//! How a worker goes through the batches (`ExecParallelHashJoinNewBatch`), and how it leaves the join.
ghost use Rattle.std.specs.Prelude.{◌≡◌, ◌<◌, ◌≤◌, ◌+◌, cond, ℕ, [], ◌∷◌, None};
ghost use Rattle.seat_roster.specs.Roster.{times};
ghost use Rattle.wait_core.specs.Seating.{client_moved, party_of};
ghost use Rattle.join_law.specs.Phases.{LOAD, PROBE, RUN, SCAN, batch_bar, build};
ghost use Rattle.join_law.specs.Quiet.{Quiet, QuietAtBatch};
ghost use Rattle.join_party.specs.Joins.{join};
ghost use Rattle.join_party.specs.Workers.{IsAt};
ghost use Rattle.generation_barrier.specs.Waiting.{HasLeft};
ghost use Rattle.hash_build.specs.Hashing.{SameWaitNumbers, for_good};
ghost use Rattle.hash_probe.specs.Loads.{ProbesNone};
ghost use Rattle.hash_probe.specs.Rows.{found_done, times_done};
ghost use Rattle.hash_probe.specs.Working.{IsAwake, IsCounted, IsWorking, Worked};

use crate::loads::load;
use crate::stores::probe_store;
use crate::{HashTable, Probed};
use generation_barrier::leave_slot;
use join_party::{HashStep, JoinSeats, JoinTables, Look};
use phase_barrier::{
    arrive_and_detach, arrive_and_detach_except_last, arrive_and_wait, attach, detach,
};
use proc_table::{BarNo, Gate, Point, Steps};
use row_model::Pair;
use std::sync::Wait;
use std::sync::ledger::Ledger;

// Phases of a batch, after ELECT and ALLOCATE.
const LOAD: u64 = 2;

const PROBE: u64 = 3;

const SCAN: u64 = 4;

// The barrier of a batch, and that of the build.
pub(crate) fn barrier_of(batch: u32) -> BarNo
    requires few { batch < 64 }
    ensures { result ≡ batch_bar batch }
{
    let Some(bar) = BarNo::new(batch + 3) else {
        unreachable!()
    };
    bar
}

fn the_build() -> BarNo
    ensures { result ≡ build }
{
    let Some(bar) = BarNo::new(0) else {
        unreachable!()
    };
    bar
}

// Leaves a batch that was found at SCAN or FREE.
fn skip_batch<'r, R: Wait>(rt: &R, tables: &JoinTables<'r>, seats: &mut JoinSeats<'r>, batch: u32)
    requires awake { IsAwake tables.now seats.old }
    requires few { batch < 64 }
    requires attached { (phase : ℕ) × (SCAN ≤ phase) × (seats.old.wait.view.attached ≡ (batch_bar batch, phase) ∷ (build, RUN) ∷ []) }
    requires hand { seats.old.wait.view.client.hand ≡ [] }
    ensures awake { IsAwake tables.now seats.new × (seats.new.wait.id ≡ seats.old.wait.id) }
    ensures others { (seats.new.lock ≡ seats.old.lock) × (seats.new.signal ≡ seats.old.signal) }
    ensures attached { seats.new.wait.view.attached ≡ (build, RUN) ∷ [] }
    ensures client { seats.new.wait.view.client ≡ found_done batch seats.old.wait.view.client }
    ensures numbers { SameWaitNumbers seats.old.wait.view seats.new.wait.view }
{
    tables
        .waits
        .client(&mut seats.wait, HashStep::Load(Look::Done { batch }));
    detach(rt, &tables.waits, &mut seats.wait, barrier_of(batch));
}

// Arrives at the end of a phase before PROBE, and waits until all have.
pub(crate) fn go_on<'r, R: Wait>(
    rt: &R,
    tables: &JoinTables<'r>,
    seats: &mut JoinSeats<'r>,
    batch: u32,
    phase: u64,
)
    requires awake { IsAwake tables.now seats.old }
    requires few { batch < 64 }
    requires attached { (phase < 3) × (seats.old.wait.view.attached ≡ (batch_bar batch, phase) ∷ (build, RUN) ∷ []) }
    requires quiet { (seats.old.wait.view.client.hand ≡ []) × QuietAtBatch (party_of seats.old.wait.view) batch phase }
    ensures awake { IsAwake tables.now seats.new × (seats.new.wait.id ≡ seats.old.wait.id) }
    ensures others { (seats.new.lock ≡ seats.old.lock) × (seats.new.signal ≡ seats.old.signal) }
    ensures attached { seats.new.wait.view.attached ≡ (batch_bar batch, phase + 1) ∷ (build, RUN) ∷ [] }
    ensures client { seats.new.wait.view.client ≡ seats.old.wait.view.client }
    ensures numbers { SameWaitNumbers seats.old.wait.view seats.new.wait.view }
{
    if arrive_and_wait(rt, &tables.waits, &mut seats.wait, barrier_of(batch)).is_err() {
        unreachable!()
    }
}

// Passes through the phases of a batch up to PROBE. Nothing is to do in ELECT and ALLOCATE, since the
// heads of all chains stand in the words from the opening on.
fn pass_to_probe<'r, R: Wait>(
    rt: &R,
    tables: &JoinTables<'r>,
    seats: &mut JoinSeats<'r>,
    table: HashTable,
    batch: u32,
    found: u64,
)
    requires working { IsWorking tables.now seats.old table ((batch_bar batch, found) ∷ (build, RUN) ∷ []) }
    requires few { (batch < 64) × (found ≤ PROBE) }
    ensures working { IsWorking tables.now seats.new table ((batch_bar batch, PROBE) ∷ (build, RUN) ∷ []) × (seats.new.wait.id ≡ seats.old.wait.id) }
    ensures others { (seats.new.lock ≡ seats.old.lock) × (seats.new.signal ≡ seats.old.signal) }
    ensures none { ProbesNone seats.old.wait.view.client seats.new.wait.view.client }
    ensures numbers { SameWaitNumbers seats.old.wait.view seats.new.wait.view }
{
    for phase in found..PROBE {
        if phase == LOAD {
            load(rt, tables, seats, table, batch);
        }
        go_on(rt, tables, seats, batch, phase);
    }
}

// Leaves a batch whose outer store is at its end, unless nobody else is attached: then the batch is at
// SCAN, and the answer is true.
pub(crate) fn leave_unless_last<'r, R: Wait>(
    rt: &R,
    tables: &JoinTables<'r>,
    seats: &mut JoinSeats<'r>,
    batch: u32,
) -> bool
    requires awake { IsAwake tables.now seats.old }
    requires few { batch < 64 }
    requires attached { seats.old.wait.view.attached ≡ (batch_bar batch, PROBE) ∷ (build, RUN) ∷ [] }
    requires quiet { (seats.old.wait.view.client.hand ≡ []) × (1 ≤ times batch seats.old.wait.view.client.drained) }
    ensures awake { IsAwake tables.now seats.new × (seats.new.wait.id ≡ seats.old.wait.id) }
    ensures others { (seats.new.lock ≡ seats.old.lock) × (seats.new.signal ≡ seats.old.signal) }
    ensures attached { seats.new.wait.view.attached ≡ cond result ((batch_bar batch, SCAN) ∷ (build, RUN) ∷ []) ((build, RUN) ∷ []) }
    ensures client { seats.new.wait.view.client ≡ seats.old.wait.view.client }
    ensures numbers { SameWaitNumbers seats.old.wait.view seats.new.wait.view }
{
    let bar = barrier_of(batch);
    let Ok(last) = arrive_and_detach_except_last(rt, &tables.waits, &mut seats.wait, bar) else {
        unreachable!()
    };
    last
}

// Leaves a batch at SCAN, which makes it FREE where nobody attached meanwhile.
pub(crate) fn leave_last<'r, R: Wait>(
    rt: &R,
    tables: &JoinTables<'r>,
    seats: &mut JoinSeats<'r>,
    batch: u32,
)
    requires awake { IsAwake tables.now seats.old }
    requires few { batch < 64 }
    requires attached { seats.old.wait.view.attached ≡ (batch_bar batch, SCAN) ∷ (build, RUN) ∷ [] }
    requires hand { seats.old.wait.view.client.hand ≡ [] }
    ensures awake { IsAwake tables.now seats.new × (seats.new.wait.id ≡ seats.old.wait.id) }
    ensures others { (seats.new.lock ≡ seats.old.lock) × (seats.new.signal ≡ seats.old.signal) }
    ensures attached { seats.new.wait.view.attached ≡ (build, RUN) ∷ [] }
    ensures client { seats.new.wait.view.client ≡ seats.old.wait.view.client }
    ensures numbers { SameWaitNumbers seats.old.wait.view seats.new.wait.view }
{
    if arrive_and_detach(rt, &tables.waits, &mut seats.wait, barrier_of(batch)).is_err() {
        unreachable!()
    }
}

// Leaves a batch whose outer store is at its end. Nobody waits there.
fn leave_batch<'r, R: Wait>(rt: &R, tables: &JoinTables<'r>, seats: &mut JoinSeats<'r>, batch: u32)
    requires awake { IsAwake tables.now seats.old }
    requires few { batch < 64 }
    requires attached { seats.old.wait.view.attached ≡ (batch_bar batch, PROBE) ∷ (build, RUN) ∷ [] }
    requires quiet { (seats.old.wait.view.client.hand ≡ []) × (1 ≤ times batch seats.old.wait.view.client.drained) }
    ensures awake { IsAwake tables.now seats.new × (seats.new.wait.id ≡ seats.old.wait.id) }
    ensures others { (seats.new.lock ≡ seats.old.lock) × (seats.new.signal ≡ seats.old.signal) }
    ensures attached { seats.new.wait.view.attached ≡ (build, RUN) ∷ [] }
    ensures client { seats.new.wait.view.client ≡ seats.old.wait.view.client }
    ensures numbers { SameWaitNumbers seats.old.wait.view seats.new.wait.view }
{
    if leave_unless_last(rt, tables, seats, batch) {
        leave_last(rt, tables, seats, batch);
    }
}

// Takes part in a batch from the phase on in which it finds it.
fn probe_batch<'r, G: Gate, R: Wait, L: Ledger>(
    rt: &R,
    tables: &JoinTables<'r>,
    seats: &mut JoinSeats<'r>,
    table: HashTable,
    batch: u32,
    worker: u32,
    pairs: &mut Vec<Pair>,
    marks: &mut Probed,
    gate: &G,
    steps: &mut Steps<L>,
)
    requires working { IsWorking tables.now seats.old table ((build, RUN) ∷ []) }
    requires few { batch < 64 }
    requires counted { IsCounted marks.old seats.old }
    ensures working { IsWorking tables.now seats.new table ((build, RUN) ∷ []) × (seats.new.wait.id ≡ seats.old.wait.id) }
    ensures worked { Worked tables.now seats.old seats.new marks.old marks.new pairs.old.items pairs.new.items steps.old steps.new }
    ensures done { 1 ≤ times_done batch seats.new.wait.view.client }
{
    let phase = attach(rt, &tables.waits, &mut seats.wait, barrier_of(batch));
    gate.at(worker, Point::Batch { batch, phase });
    if phase >= SCAN {
        skip_batch(rt, tables, seats, batch);
    } else {
        pass_to_probe(rt, tables, seats, table, batch, phase);
        probe_store(rt, tables, seats, batch, pairs, marks, steps);
        leave_batch(rt, tables, seats, batch);
    }
}

// Takes part in some batches, one after the other.
pub(crate) fn probe_batches<'r, G: Gate, R: Wait, L: Ledger>(
    rt: &R,
    tables: &JoinTables<'r>,
    seats: &mut JoinSeats<'r>,
    table: HashTable,
    first: u32,
    end: u32,
    worker: u32,
    pairs: &mut Vec<Pair>,
    marks: &mut Probed,
    gate: &G,
    steps: &mut Steps<L>,
)
    requires working { IsWorking tables.now seats.old table ((build, RUN) ∷ []) }
    requires few { end ≤ 64 }
    requires counted { IsCounted marks.old seats.old }
    ensures working { IsWorking tables.now seats.new table ((build, RUN) ∷ []) × (seats.new.wait.id ≡ seats.old.wait.id) }
    ensures worked { Worked tables.now seats.old seats.new marks.old marks.new pairs.old.items pairs.new.items steps.old steps.new }
    ensures done { (b : ℕ) → first ≤ b → b < end → 1 ≤ times_done b seats.new.wait.view.client }
{
    for batch in first..end {
        probe_batch(
            rt, tables, seats, table, batch, worker, pairs, marks, gate, steps,
        );
    }
}

// Leaves the build, which the last one makes FREE, and the slot of signals.
pub(crate) fn leave<'r, R: Wait>(rt: &R, tables: &JoinTables<'r>, seats: &mut JoinSeats<'r>)
    requires awake { IsAwake tables.now seats.old }
    requires attached { seats.old.wait.view.attached ≡ (build, RUN) ∷ [] }
    requires known { (word : ℕ) × (seats.old.wait.view.client.known ≡ for_good word) }
    requires quiet { Quiet (join tables.now.waits.party) (party_of seats.old.wait.view) build RUN }
    ensures table { IsAt tables.now seats.new × (seats.new.wait.id ≡ seats.old.wait.id) }
    ensures idle { (seats.new.wait.view.place ≡ []) × (seats.new.wait.view.target ≡ None) }
    ensures left { (seats.new.wait.view.attached ≡ []) × (seats.new.signal.view.place ≡ None) × (seats.new.signal.view.slot ≡ None) }
    ensures quiet { Quiet (join tables.now.waits.party) (party_of seats.new.wait.view) build RUN }
    ensures client { seats.new.wait.view.client ≡ seats.old.wait.view.client }
    ensures numbers { SameWaitNumbers seats.old.wait.view seats.new.wait.view }
    ensures lock { seats.new.lock ≡ seats.old.lock }
    ensures signal { HasLeft seats.old.signal.view seats.new.signal.view }
{
    if arrive_and_detach(rt, &tables.waits, &mut seats.wait, the_build()).is_err() {
        unreachable!()
    }
    leave_slot(
        rt,
        &tables.signals,
        &mut seats.signal,
        &tables.waits,
        &mut seats.wait,
    );
}
