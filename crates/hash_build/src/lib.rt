//! The build of a parallel hash join's table (PostgreSQL's `MultiExecParallelHash` in nodeHash.c, and of
//! the outer rows `ExecParallelHashJoinPartitionOuter` in nodeHashjoin.c): workers, who may start at
//! any phase, hash the inner rows and then the outer rows, chunk by chunk.
#![tactic(auto)]

ghost use Rattle.std.specs.Prelude.{◌≡◌};
ghost use Rattle.join_party.specs.Joins.{join};
ghost use Rattle.join_party.specs.Workers.{IsAt};
ghost use Rattle.hash_build.specs.Builds.{Begins, Builds};

mod batches;
mod chunks;
mod growths;
mod moves;
mod phases;
mod report;
mod resize;
mod rows;
mod sizes;
mod starts;
#[cfg(test)]
mod tests;
mod wanted;

use join_party::{JoinSeats, JoinTables};
use phase_barrier::attach;
use phases::{FREE, RUN, go_on, leave_late, the_build, work};
use proc_table::{Gate, Point, Steps};
use sizes::read_sizes;
pub use starts::draw_start;
use std::sync::Wait;
use std::sync::ledger::Ledger;

/// How a build ended: the join was found at its end, or the table is built and has so many buckets
/// and batches. Of those who waited for its last phase to pass one is elected.
#[derive(Debug, Clone, Copy, PartialEq, Eq)]
pub enum Built {
    Late,
    Ready {
        buckets: u32,
        batches: u32,
        elected: bool,
    },
}

/// Takes part in the build from the phase on in which it finds it, until the table is built: then the
/// seat is attached to the build in RUN. Late exactly where it finds the build at FREE: then it is
/// attached to nothing. It looks at the key of each row that it claims, once, and counts that in `steps`.
pub fn build<'r, G: Gate, R: Wait, L: Ledger>(
    rt: &R,
    tables: &JoinTables<'r>,
    seats: &mut JoinSeats<'r>,
    worker: u32,
    gate: &G,
    steps: &mut Steps<L>,
) -> Built
    requires table { IsAt tables.now seats.old }
    requires begins { Begins seats.old }
    ensures table { IsAt tables.now seats.new × (seats.new.wait.id ≡ seats.old.wait.id) }
    ensures built { Builds (join tables.now.waits.party) result seats.old seats.new steps.old steps.new }
{
    gate.at(worker, Point::Started);
    let found = attach(rt, &tables.waits, &mut seats.wait, the_build());
    gate.at(worker, Point::Attached { phase: found });
    if found >= FREE {
        leave_late(rt, tables, seats);
        return Built::Late;
    }
    let mut elected = false;
    for phase in found..RUN {
        work(rt, tables, seats, phase, worker, gate, steps);
        elected = go_on(rt, tables, seats, phase);
    }
    let sizes = read_sizes(tables, seats);
    Built::Ready {
        buckets: sizes.buckets,
        batches: sizes.batches,
        elected,
    }
}
