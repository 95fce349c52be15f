//! The workers of a join in threads of their own, and how the leader takes in what they did.

ghost use Rattle.std.specs.Prelude.{◌≡◌, ◌++◌, ◌+◌, ◌-◌, ◌<◌, ◌≤◌, true, false, [], length, sum};
ghost use Rattle.std.specs.Thread.{IsSend, IsSync};
ghost use Rattle.lw_core.specs.Machine.{HoldsNothing};
ghost use Rattle.join_party.specs.Workers.{IsAt};
ghost use Rattle.join_end.specs.Workers.{HasGone};
ghost use Rattle.join_end.specs.Works.{either_over};
ghost use Rattle.join_engine.specs.Workers.{Adds, HasWorked, IsIdle, IsLeader, IsReady, TakesIn, Together};

use join_end::{Said, take_in, work};
use join_party::{JoinSeats, JoinTables};
use proc_table::{Gate, Steps};
use row_model::Pair;
use std::alloc::Global;
use std::marker::{Send, Sync};
use std::sync::Wait;
use std::sync::ledger::Ledger;
use std::thread::{Threads, join_mut};

/// What all workers share.
#[derive(Drop)]
pub(crate) struct Shared<'t, 'r, R, G> {
    pub(crate) rt: &'t R,
    pub(crate) tables: &'t JoinTables<'r>,
    pub(crate) gate: &'t G,
}

// Draws the seats of the next worker, for which there is a number.
fn draw<'r>(tables: &JoinTables<'r>, leader: &mut JoinSeats<'r>, number: u32) -> JoinSeats<'r>
    requires table { IsAt tables.now leader.old }
    requires leader { IsLeader leader.old number 0 }
    requires idle { IsIdle leader.old }
    requires room { number < tables.now.plan.workers }
    ensures table { IsAt tables.now leader.new }
    ensures leader { IsLeader leader.new (number + 1) 0 }
    ensures idle { IsIdle leader.new }
    ensures at { IsAt tables.now result }
    ensures ready { IsReady result (number + 1) }
{
    let Ok(worker) = tables.worker(leader) else {
        unreachable!()
    };
    worker
}

// One worker's part of the join.
fn run<'r, R: Wait, G: Gate, L: Ledger>(
    shared: &Shared<'_, 'r, R, G>,
    seats: &mut JoinSeats<'r>,
    number: u32,
    pairs: &mut Vec<Pair>,
    steps: &mut Steps<L>,
) -> Said
    requires table { IsAt shared.now.tables.now seats.old }
    requires ready { IsReady seats.old (number + 1) }
    requires pairs { pairs.old.items ≡ [] }
    ensures table { IsAt shared.now.tables.now seats.new }
    ensures worked { HasWorked shared.now.tables.now seats.new (number + 1) pairs.new.items result steps.old steps.new }
{
    work(
        shared.rt,
        shared.tables,
        seats,
        number,
        pairs,
        shared.gate,
        steps,
    )
}

// Whether there was room for the other pairs behind these.
fn append(pairs: &mut Vec<Pair>, mut other: Vec<Pair>) -> bool
    ensures { result ≡ true → pairs.new.items ≡ pairs.old.items ++ other.items }
{
    if pairs.is_empty() {
        *pairs = other;
        return true;
    }
    pairs.append(&mut other).is_ok()
}

// What both say, where their pairs were kept or not.
fn both(said: Said, told: Said, kept: bool) -> Said
    ensures over { result.over ≡ either_over said.over told.over }
    ensures short { result.short ≡ false → (said.short ≡ false) × (told.short ≡ false) × (kept ≡ true) }
{
    Said {
        over: said.over.or(told.over),
        short: said.short || told.short || !kept,
    }
}

// The leader takes in a worker that has left.
fn gather<'r>(
    tables: &JoinTables<'r>,
    leader: &mut JoinSeats<'r>,
    pairs: &mut Vec<Pair>,
    said: Said,
    worker: JoinSeats<'r>,
    found: Vec<Pair>,
    told: Said,
) -> Said
    requires table { IsAt tables.now leader.old × IsAt tables.now worker }
    requires leader { HasGone leader.old }
    requires worker { HasGone worker × HoldsNothing worker.lock.view }
    ensures table { IsAt tables.now leader.new }
    ensures leader { TakesIn leader.old worker.entry leader.new }
    ensures together { Adds tables.now leader.old pairs.old.items said worker.entry found.items told leader.new pairs.new.items result }
{
    take_in(tables, leader, worker);
    let kept = append(pairs, found);
    both(said, told, kept)
}

// The last workers of the plan, as many as there are counters, each in a thread of its own where one can
// be made. The leader takes them in when they have left, and their pairs are put behind one another.
#[cycle(workers)]
pub(crate) fn run_last<'r, R: Threads + Wait + Sync, G: Gate, L: Ledger + Send>(
    shared: &Shared<'_, 'r, R, G>,
    alloc: Global,
    leader: &mut JoinSeats<'r>,
    pairs: &mut Vec<Pair>,
    steps: &mut [Steps<L>],
) -> Said
    requires table { IsAt shared.now.tables.now leader.old }
    requires few { length steps.old ≤ shared.now.tables.now.plan.workers }
    requires leader { IsLeader leader.old (shared.now.tables.now.plan.workers - length steps.old) 0 }
    requires idle { IsIdle leader.old }
    requires pairs { pairs.old.items ≡ [] }
    ensures table { IsAt shared.now.tables.now leader.new }
    ensures leader { IsLeader leader.new shared.now.tables.now.plan.workers (length steps.old) }
    ensures together { Together shared.now.tables.now leader.new (length steps.old) pairs.new.items result (sum steps.old) (sum steps.new) }
{
    let number = shared.tables.plan.workers - steps.len() as u32;
    let Some((first, rest)) = steps.split_first_mut() else {
        return Said {
            over: None,
            short: false,
        };
    };
    let mut seats = draw(shared.tables, leader, number);
    let mut found = Vec::new(alloc);
    let (told, said) = join_mut(
        shared.rt,
        &mut || -> Said
            requires { IsSync R.row × IsSync G.row × IsSend L.row × IsAt shared.now.tables.now seats × IsReady seats (number + 1) × (found.items ≡ []) }
            ensures { IsAt shared.entry.now.tables.now seats.exit × HasWorked shared.entry.now.tables.now seats.exit (number + 1) found.exit.items result first.entry.now first.exit.now }
        { run(shared, &mut seats, number, &mut found, first) },
        &mut || -> Said
            requires { IsSync R.row × IsSync G.row × IsSend L.row × IsAt shared.now.tables.now leader.now × (length rest.now ≤ shared.now.tables.now.plan.workers) × IsLeader leader.now (shared.now.tables.now.plan.workers - length rest.now) 0 × IsIdle leader.now × (pairs.now.items ≡ []) }
            ensures { IsAt shared.entry.now.tables.now leader.exit.now × IsLeader leader.exit.now shared.entry.now.tables.now.plan.workers (length rest.entry.now) × Together shared.entry.now.tables.now leader.exit.now (length rest.entry.now) pairs.exit.now.items result (sum rest.entry.now) (sum rest.exit.now) }
        { run_last(shared, alloc, leader, pairs, rest) },
    );
    gather(shared.tables, leader, pairs, said, seats, found, told)
}
