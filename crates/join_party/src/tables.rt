//! The tables of a parallel join: its lock, its barriers and words, and its signals; and a worker's
//! seats at them.
ghost use Rattle.std.specs.Prelude.{◌≡◌, ◌+◌, ◌*◌, ◌<◌, ◌≤◌, Some, [], length, IfOk, IfErr};
ghost use Rattle.std.specs.Int.{IsPowerOfTwo};
ghost use Rattle.lw_core.specs.Machine as lock;
ghost use Rattle.wait_core.specs.Seating as wait;
ghost use Rattle.signal_core.specs.Seating as signal;
ghost use Rattle.row_model.specs.declared.Side.{Side};
ghost use Rattle.join_law.specs.Views.{first_view};
ghost use Rattle.join_party.specs.Claims.{MayStillEnd};
ghost use Rattle.join_party.specs.Plans.{IsLeastPowerFrom};
ghost use Rattle.join_party.specs.Powers.{power_in_one_way};

use crate::party::HashParty;
use lw_core::{Guarded, LwSeat, LwTable};
use proc_table::{NoMemory, NoMoreProcs};
use row_model::{Plan, Rows};
use signal_core::{Kinds, SigSeat, SigTable};
use std::alloc::Global;
use wait_core::{WaitSeat, WaitTable};

/// Says what stands in the guarded words of the join's one lock.
pub struct JoinGuard;

impl Guarded for JoinGuard {
    ghost use Rattle.join_party.specs.Guards.{IsReported, nothing_reported};

    ghost lawful = { λ _. IsReported };

    ghost zeros = { λ _. nothing_reported };
}

/// Says what the join's signals show. Kind 0 is STOP.
pub struct JoinKinds;

impl Kinds for JoinKinds {
    ghost use Rattle.join_party.specs.Guards.{stop_shows};

    ghost shows = { stop_shows };
}

/// The tables of a join: one lock, 67 barriers with their conditions, and a number for the leader and
/// for each worker.
#[derive(Drop)]
pub struct JoinTables<'r> {
    pub locks: LwTable<JoinGuard>,
    pub waits: WaitTable<HashParty<'r>>,
    pub signals: SigTable<JoinKinds>,
    pub plan: Plan,
    ghost workers: { (0 < plan.workers) × (plan.workers ≤ 16) },
    ghost lock: { (locks.locks ≡ 1) × (locks.procs ≡ plan.workers + 1) },
    ghost barriers: { (waits.procs ≡ plan.workers + 1) × (waits.cvs ≡ plan.workers + 73) × (waits.bars ≡ 67) × (waits.phase ≡ 0) },
    ghost slots: { (signals.procs ≡ plan.workers + 1) × (signals.generation ≡ 0) },
    ghost first: { (2 ≤ waits.party.first_batches) × (waits.party.first_batches ≤ 64) },
    ghost power: { IsPowerOfTwo waits.party.first_batches } by { power_in_one_way waits.party.first_batches },
}

/// A worker's seats, one at each table.
#[derive(Drop)]
pub struct JoinSeats<'r> {
    pub lock: LwSeat,
    pub wait: WaitSeat<HashParty<'r>>,
    pub signal: SigSeat,
    ghost ends: { (side : Side) → MayStillEnd wait.view.client side },
}

// How many chains there may ever be in a half: as many buckets as the plan has, or more than there are
// inner rows; in one batch, or in as many as there may be where the rows are past the plan's budget.
fn most_chains(rows: u32, plan: Plan) -> u32
    requires rows { rows ≤ 1073741824 }
    requires buckets { plan.buckets ≤ 262144 }
    ensures range { (plan.buckets ≤ result) × (result ≤ 524288) }
{
    let needed = u32::min(rows, 262_143) + 1;
    let buckets = u32::max(plan.buckets, needed.next_power_of_two());
    let batches = if plan.mem < rows { 64 } else { 1 };
    u32::min(buckets * batches, 524_288)
}

/// The tables of a join of these rows by this plan, and the leader's seats, with the number 0. It begins
/// with the plan's buckets in one batch, and has room for as many as growth may bring.
pub fn open_tables<'r>(
    alloc: Global,
    inner: &'r Rows,
    outer: &'r Rows,
    plan: Plan,
) -> Result<(JoinTables<'r>, JoinSeats<'r>), NoMemory>
    requires workers { (0 < plan.workers) × (plan.workers ≤ 16) }
    requires buckets { IsPowerOfTwo plan.buckets × (plan.buckets ≤ 262144) }
    ensures rows { IfOk result (λ t. (t.0.waits.party.inner ≡ inner.entry) × (t.0.waits.party.outer ≡ outer.entry)) }
    ensures plan { IfOk result (λ t. (t.0.plan ≡ plan) × (t.0.waits.party.buckets ≡ plan.buckets)) }
    ensures batches { IfOk result (λ t. IsLeastPowerFrom (2 * plan.workers) t.0.waits.party.first_batches) }
    ensures lock { IfOk result (λ t. (t.1.lock.table_id ≡ t.0.locks.table_id) × (t.1.lock.view ≡ lock.fresh (Some 0))) }
    ensures wait { IfOk result (λ t. (t.1.wait.table_id ≡ t.0.waits.table_id) × (t.1.wait.view ≡ wait.fresh first_view (Some 0))) }
    ensures signal { IfOk result (λ t. (t.1.signal.table_id ≡ t.0.signals.table_id) × (t.1.signal.view ≡ signal.fresh (Some 0))) }
{
    // A table tells by its length that it is within its limits.
    let _rows = inner.len() + outer.len();
    let party = HashParty {
        inner,
        outer,
        chains: most_chains(inner.len(), plan),
        buckets: plan.buckets,
        first_batches: (2 * plan.workers).next_power_of_two(),
    };
    let procs = plan.workers + 1;
    let (locks, lock) = LwTable::new(alloc, 1, procs)?;
    let (signals, signal) = SigTable::new(alloc, procs, 0)?;
    let (waits, wait) = WaitTable::new(alloc, party, procs, procs + 72, 67, 0)?;
    let tables = JoinTables {
        locks,
        waits,
        signals,
        plan,
    };
    Ok((tables, JoinSeats { lock, wait, signal }))
}

impl<'r> JoinTables<'r> {
    ghost use Rattle.join_party.specs.Workers.{IsAt, IsNumbered, IsDrawn, IsRefused};

    /// The rows of the inner side.
    pub fn inner(&self) -> &'r Rows
        ensures { result ≡ self.now.waits.party.inner }
    {
        self.waits.party().inner
    }

    /// The rows of the outer side.
    pub fn outer(&self) -> &'r Rows
        ensures { result ≡ self.now.waits.party.outer }
    {
        self.waits.party().outer
    }

    /// Draws a seat at each table for a worker; only the leader's seats, with the number 0, do.
    /// Where one is refused, those drawn before are taken in again, and their numbers aren't given
    /// any more.
    pub fn worker(&self, from: &mut JoinSeats<'r>) -> Result<JoinSeats<'r>, NoMoreProcs>
        requires table { IsAt self.now from.old }
        requires first { IsNumbered from.old 0 0 0 }
        requires idle { from.old.wait.view.place ≡ [] }
        ensures table { IsAt self.now from.new }
        ensures at { IfOk result (λ s. IsAt self.now s) }
        ensures drawn { IfOk result (λ s. IsDrawn from.old from.new s) }
        ensures full { IfErr result (λ e. e.drawn ≡ self.now.plan.workers + 1) }
        ensures refused { IfErr result (λ e. IsRefused from.old from.new e.drawn) }
    {
        let lock = self.locks.seat(&mut from.lock)?;
        let wait = match self.waits.seat(&mut from.wait) {
            Ok(wait) => wait,
            Err(refused) => {
                self.locks.join(&mut from.lock, lock);
                return Err(refused);
            }
        };
        match self.signals.seat(&mut from.signal) {
            Ok(signal) => Ok(JoinSeats { lock, wait, signal }),
            Err(refused) => {
                self.locks.join(&mut from.lock, lock);
                self.waits.join(&mut from.wait, wait);
                Err(refused)
            }
        }
    }
}
