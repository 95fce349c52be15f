//! Probing the hash table of a parallel hash join, batch by batch (PostgreSQL's
//! `ExecParallelHashJoinNewBatch` and `ExecScanHashBucket` in nodeHashjoin.c and nodeHash.c): workers, who
//! may come to a batch at any phase, load it, probe it and leave it, until no batch is left.
#![tactic(auto)]

ghost use Rattle.std.specs.Prelude.{◌≡◌, [], None};
ghost use Rattle.wait_core.specs.Seating.{party_of};
ghost use Rattle.join_law.specs.Phases.{RUN, build};
ghost use Rattle.join_law.specs.Quiet.{Quiet};
ghost use Rattle.join_party.specs.Joins.{join};
ghost use Rattle.join_party.specs.Workers.{IsAt};
ghost use Rattle.hash_probe.specs.Probes.{AsBuilt, Probes};

mod batches;
mod loads;
mod marks;
mod rows;
mod stores;
#[cfg(test)]
mod tests;
mod walks;

use batches::{leave, probe_batches};
use hash_build::{Built, draw_start};
use join_party::{JoinSeats, JoinTables};
use proc_table::{Gate, Point, Steps};
use row_model::Pair;
use std::sync::Wait;
use std::sync::ledger::Ledger;

// How many buckets and batches the table has.
#[derive(Clone, Copy)]
struct HashTable {
    buckets: u32,
    batches: u32,
}

/// What a worker that probed has to say.
#[derive(Debug, Clone, Copy, PartialEq, Eq)]
pub struct Probed {
    /// How many outer rows it probed.
    pub probed: u32,
    /// The count of all pairs, where it carried that past 4,194,304.
    pub over: Option<u64>,
    /// The generation that it published when it absorbed STOP.
    pub stopped: Option<u64>,
    /// That memory ran out at a row.
    pub out_of_memory: bool,
}

/// Probes the outer rows of every batch, of which the worker takes its share, and leaves the build and
/// the slot of signals. The pairs go behind those that `pairs` has: for each row that it probed, that row
/// with each inner row that it meets, once. Between two rows it absorbs signals. Where it carries the count of all
/// pairs past 4,194,304 it emits STOP with the count. After that, after STOP, and after a row at which
/// memory ran out, of which no pair is kept, it gives up each row that it has in hand or takes.
pub fn probe<'r, G: Gate, R: Wait, L: Ledger>(
    rt: &R,
    tables: &JoinTables<'r>,
    seats: &mut JoinSeats<'r>,
    built: Built,
    worker: u32,
    pairs: &mut Vec<Pair>,
    gate: &G,
    steps: &mut Steps<L>,
) -> Probed
    requires built { AsBuilt tables.now built seats.old }
    ensures table { IsAt tables.now seats.new × (seats.new.wait.id ≡ seats.old.wait.id) }
    ensures idle { (seats.new.wait.view.place ≡ []) × (seats.new.wait.view.target ≡ None) }
    ensures left { (seats.new.wait.view.attached ≡ []) × (seats.new.signal.view.place ≡ None) × (seats.new.signal.view.slot ≡ None) }
    ensures quiet { Quiet (join tables.now.waits.party) (party_of seats.new.wait.view) build RUN }
    ensures probed { Probes tables.now seats.old seats.new result pairs.old.items pairs.new.items steps.old steps.new }
{
    let Built::Ready {
        buckets,
        batches,
        elected,
    } = built
    else {
        unreachable!()
    };
    let table = HashTable { buckets, batches };
    let mut marks = Probed {
        probed: 0,
        over: None,
        stopped: None,
        out_of_memory: false,
    };
    let first = u32::from(elected);
    probe_batches(
        rt, tables, seats, table, 0, first, worker, pairs, &mut marks, gate, steps,
    );
    // The batch from which it goes round.
    let start = draw_start(tables, seats, batches);
    let from = u32::max(first, start);
    probe_batches(
        rt, tables, seats, table, from, batches, worker, pairs, &mut marks, gate, steps,
    );
    probe_batches(
        rt, tables, seats, table, first, start, worker, pairs, &mut marks, gate, steps,
    );
    leave(rt, tables, seats);
    gate.at(worker, Point::Left);
    marks
}
