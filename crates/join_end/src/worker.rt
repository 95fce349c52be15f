//! One worker of a join, from its slot of signals on until it has left, and how its seats are taken in.
ghost use Rattle.std.specs.Prelude.{◌≡◌, ◌-◌, ℕ, [], None};
ghost use Rattle.lw_core.specs.Machine.{HoldsNothing};
ghost use Rattle.lw_core.specs.Runs as locks;
ghost use Rattle.wait_core.specs.Seating as waits;
ghost use Rattle.signal_core.specs.Machine.{IsJoined};
ghost use Rattle.signal_core.specs.Seating as signals;
ghost use Rattle.join_law.specs.Views.{both_views};
ghost use Rattle.join_party.specs.Workers.{IsAt};
ghost use Rattle.hash_build.specs.Builds.{Begins};
ghost use Rattle.generation_barrier.specs.Waiting.{HasLeft};
ghost use Rattle.hash_build.specs.Hashing.{HoldsNoMore, SameWaitNumbers};
ghost use Rattle.join_end.specs.Workers.{HasGone, IsNew, KeepsNumbers};
ghost use Rattle.join_end.specs.Works.{HasDone, work_of};

use crate::order::sort;
use generation_barrier::leave_slot;
use hash_build::{Built, build};
use hash_probe::probe;
use join_party::{JoinSeats, JoinTables};
use proc_signal::join_slot;
use proc_table::{Gate, Point, Steps};
use row_model::Pair;
use std::sync::Wait;
use std::sync::ledger::Ledger;

/// What a worker has to say at its end: the count of all pairs, where it carried that past 4,194,304, and
/// whether memory ran out.
#[derive(Debug, Clone, Copy, PartialEq, Eq)]
pub struct Said {
    pub over: Option<u64>,
    pub short: bool,
}

/// A new worker takes part in a join from whatever phase it finds, until nothing is left to do for it,
/// and leaves it. Its pairs are in `pairs`, sorted, so that all workers sort at once and the pairs of all are so
/// many runs.
pub fn work<'r, G: Gate, R: Wait, L: Ledger>(
    rt: &R,
    tables: &JoinTables<'r>,
    seats: &mut JoinSeats<'r>,
    worker: u32,
    pairs: &mut Vec<Pair>,
    gate: &G,
    steps: &mut Steps<L>,
) -> Said
    requires table { IsAt tables.now seats.old }
    requires begins { Begins seats.old }
    requires new { (m : ℕ) × (n : ℕ) × IsNew seats.old m n }
    requires slot { (seats.old.signal.view.place ≡ None) × (seats.old.signal.view.slot ≡ None) }
    requires pairs { pairs.old.items ≡ [] }
    ensures table { IsAt tables.now seats.new × (seats.new.wait.id ≡ seats.old.wait.id) }
    ensures gone { HasGone seats.new }
    ensures holds { HoldsNoMore seats.old.lock.view seats.new.lock.view }
    ensures done { HasDone tables.now.waits.party (work_of seats.new pairs.new.items result.over result.short (steps.new - steps.old)) }
    ensures numbers { (m n : ℕ) → IsNew seats.old m n → KeepsNumbers seats.new m n }
{
    enter(tables, seats);
    let built = build(rt, tables, seats, worker, gate, steps);
    match built {
        Built::Late => {
            leave_late(rt, tables, seats);
            gate.at(worker, Point::Left);
            Said {
                over: None,
                short: false,
            }
        }
        Built::Ready { .. } => {
            let said = probe(rt, tables, seats, built, worker, pairs, gate, steps);
            sort(pairs);
            Said {
                over: said.over,
                short: said.out_of_memory,
            }
        }
    }
}

// Joins the slot of signals.
fn enter<'r>(tables: &JoinTables<'r>, seats: &mut JoinSeats<'r>)
    requires table { IsAt tables.now seats.old }
    requires slot { (seats.old.signal.view.place ≡ None) × (seats.old.signal.view.slot ≡ None) }
    requires new { (m : ℕ) × (n : ℕ) × IsNew seats.old m n }
    ensures table { IsAt tables.now seats.new × (seats.new.wait.id ≡ seats.old.wait.id) }
    ensures others { (seats.new.wait ≡ seats.old.wait) × (seats.new.lock ≡ seats.old.lock) }
    ensures slot { (seats.new.signal.view.place ≡ None) × IsJoined seats.new.signal.view.slot }
    ensures new { (m n : ℕ) → IsNew seats.old m n → IsNew seats.new m n }
{
    join_slot(&tables.signals, &mut seats.signal);
}

// Leaves the slot of signals, where the join was found done.
fn leave_late<'r, R: Wait>(rt: &R, tables: &JoinTables<'r>, seats: &mut JoinSeats<'r>)
    requires table { IsAt tables.now seats.old }
    requires idle { (seats.old.wait.view.place ≡ []) × (seats.old.wait.view.target ≡ None) }
    requires slot { (seats.old.signal.view.place ≡ None) × IsJoined seats.old.signal.view.slot }
    ensures table { IsAt tables.now seats.new × (seats.new.wait.id ≡ seats.old.wait.id) }
    ensures idle { (seats.new.wait.view.place ≡ []) × (seats.new.wait.view.target ≡ None) }
    ensures slot { (seats.new.signal.view.place ≡ None) × (seats.new.signal.view.slot ≡ None) }
    ensures same { (seats.new.wait.view.client ≡ seats.old.wait.view.client) × (seats.new.wait.view.attached ≡ seats.old.wait.view.attached) × SameWaitNumbers seats.old.wait.view seats.new.wait.view }
    ensures lock { seats.new.lock ≡ seats.old.lock }
    ensures signal { HasLeft seats.old.signal.view seats.new.signal.view }
{
    leave_slot(
        rt,
        &tables.signals,
        &mut seats.signal,
        &tables.waits,
        &mut seats.wait,
    );
}

/// Takes in the seats of a worker that has gone: what it did, this seat has done.
pub fn take_in<'r>(tables: &JoinTables<'r>, into: &mut JoinSeats<'r>, from: JoinSeats<'r>)
    requires table { IsAt tables.now into.old × IsAt tables.now from }
    requires idle { into.old.wait.view.place ≡ [] }
    requires gone { HasGone from }
    requires free { (from.lock.view.place ≡ []) × HoldsNothing from.lock.view }
    ensures table { IsAt tables.now into.new × (into.new.wait.id ≡ into.old.wait.id) }
    ensures wait { into.new.wait.view ≡ waits.took_in both_views into.old.wait.view from.entry.wait.view }
    ensures signal { into.new.signal.view ≡ signals.took_in into.old.signal.view from.entry.signal.view }
    ensures lock { into.new.lock.view ≡ locks.both into.old.lock.view from.entry.lock.view }
{
    let JoinSeats { lock, wait, signal } = from;
    tables.locks.join(&mut into.lock, lock);
    tables.waits.join(&mut into.wait, wait);
    tables.signals.join(&mut into.signal, signal);
}
