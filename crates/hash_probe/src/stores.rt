//! How the outer rows of a batch are probed: some at a time are taken out of their store, and then each is probed.
ghost use Rattle.std.specs.Prelude.{◌≡◌, ◌<◌, ◌≤◌, ℕ, [], ◌∷◌, Some, true};
ghost use Rattle.seat_roster.specs.Roster.{times};
ghost use Rattle.wait_core.specs.Seating.{client_moved, party_of};
ghost use Rattle.join_law.specs.Phases.{PROBE, RUN, batch_bar, build};
ghost use Rattle.join_law.specs.Views.{without};
ghost use Rattle.join_party.specs.Joins.{join};
ghost use Rattle.hash_build.specs.Hashing.{for_good};
ghost use Rattle.hash_probe.specs.Holding.{HoldsRows};
ghost use Rattle.hash_probe.specs.Loads.{ProbesNone};
ghost use Rattle.hash_probe.specs.Marks.{CountsRow, IsUnmarked};
ghost use Rattle.hash_probe.specs.Probing.{MayProbe, with_given};
ghost use Rattle.hash_probe.specs.Working.{HandlesRow, IsAwake, IsCounted, Worked};

use crate::Probed;
use crate::marks::{MOST_PAIRS, heed, tell_over};
use crate::rows::probe_row;
use arrayvec::ArrayVec;
use join_party::{HashStep, JoinSeats, JoinTables, Look};
use proc_table::Steps;
use row_model::{Pair, Side};
use shared_tuples::{StoreNo, hash_word, take};
use std::sync::Wait;
use std::sync::ledger::Ledger;

// An outer row in hand, and the hash of its key.
#[derive(Clone, Copy, Default)]
struct Held {
    row: u32,
    hash: u32,
}

// At most so many rows are taken before they are handled.
type HeldRows = ArrayVec<Held, 64>;

// Gives up an outer row in hand.
fn give_up<'r>(tables: &JoinTables<'r>, seats: &mut JoinSeats<'r>, row: u32)
    requires table { seats.old.wait.table_id ≡ tables.now.waits.table_id }
    requires idle { seats.old.wait.view.place ≡ [] }
    requires row { MayProbe (join tables.now.waits.party) (party_of seats.old.wait.view) row }
    ensures table { (seats.new.wait.table_id ≡ seats.old.wait.table_id) × (seats.new.wait.id ≡ seats.old.wait.id) }
    ensures others { (seats.new.lock ≡ seats.old.lock) × (seats.new.signal ≡ seats.old.signal) }
    ensures given { seats.new.wait.view ≡ client_moved seats.old.wait.view (with_given seats.old.wait.view.client row) }
{
    tables
        .waits
        .client(&mut seats.wait, HashStep::Load(Look::GiveUp { row }));
}

// Counts a row that was probed. Where its pairs carried the count of all past the limit, it says so and
// tells all workers to stop.
fn count_row<'r>(
    tables: &JoinTables<'r>,
    seats: &mut JoinSeats<'r>,
    marks: &mut Probed,
    count: u64,
    added: u64,
)
    requires awake { IsAwake tables.now seats.old }
    requires few { (marks.old.probed < 1073741824) × (added ≤ count) }
    ensures awake { IsAwake tables.now seats.new }
    ensures others { (seats.new.lock ≡ seats.old.lock) × (seats.new.wait ≡ seats.old.wait) }
    ensures counts { CountsRow tables.now.signals.procs count added marks.old marks.new seats.old.signal.view seats.new.signal.view }
{
    marks.probed += 1;
    if count > MOST_PAIRS && count - added <= MOST_PAIRS {
        marks.over = Some(count);
        tell_over(tables, seats, count);
    }
}

// Probes an outer row in hand.
fn probe_next<'r, R: Wait, L: Ledger>(
    rt: &R,
    tables: &JoinTables<'r>,
    seats: &mut JoinSeats<'r>,
    row: u32,
    hash: u32,
    pairs: &mut Vec<Pair>,
    marks: &mut Probed,
    steps: &mut Steps<L>,
)
    requires awake { IsAwake tables.now seats.old }
    requires unmarked { IsUnmarked marks.old }
    requires counted { IsCounted marks.old seats.old }
    requires row { MayProbe (join tables.now.waits.party) (party_of seats.old.wait.view) row }
    requires hash { (join tables.now.waits.party).hash row ≡ Some hash }
    ensures awake { IsAwake tables.now seats.new × (seats.new.wait.id ≡ seats.old.wait.id) }
    ensures hand { seats.new.wait.view.client.hand ≡ without row seats.old.wait.view.client.hand }
    ensures handles { HandlesRow tables.now seats.old seats.new marks.old marks.new pairs.old.items pairs.new.items steps.old steps.new }
{
    let before = pairs.len();
    match probe_row(rt, &tables.waits, &mut seats.wait, row, hash, pairs, steps) {
        Ok(count) => count_row(tables, seats, marks, count, (pairs.len() - before) as u64),
        Err(_) => marks.out_of_memory = true,
    }
}

// Hears whether it is to stop, and probes an outer row in hand, or gives it up.
fn handle_row<'r, R: Wait, L: Ledger>(
    rt: &R,
    tables: &JoinTables<'r>,
    seats: &mut JoinSeats<'r>,
    row: u32,
    hash: u32,
    pairs: &mut Vec<Pair>,
    marks: &mut Probed,
    steps: &mut Steps<L>,
)
    requires awake { IsAwake tables.now seats.old }
    requires counted { IsCounted marks.old seats.old }
    requires row { MayProbe (join tables.now.waits.party) (party_of seats.old.wait.view) row }
    requires hash { (join tables.now.waits.party).hash row ≡ Some hash }
    ensures awake { IsAwake tables.now seats.new × (seats.new.wait.id ≡ seats.old.wait.id) }
    ensures hand { seats.new.wait.view.client.hand ≡ without row seats.old.wait.view.client.hand }
    ensures attached { seats.new.wait.view.attached ≡ seats.old.wait.view.attached }
    ensures drained { seats.new.wait.view.client.drained ≡ seats.old.wait.view.client.drained }
    ensures worked { Worked tables.now seats.old seats.new marks.old marks.new pairs.old.items pairs.new.items steps.old steps.new }
{
    heed(rt, tables, seats, marks);
    if marks.goes_on() {
        probe_next(rt, tables, seats, row, hash, pairs, marks, steps);
    } else {
        give_up(tables, seats, row);
    }
}

// Takes outer rows of a batch until there is no room for more, or the store is found empty. Whether it was. The hash
// words are read here, since a seat knows only of the row that it took last that its word is right.
fn take_some<'r, R: Wait>(
    rt: &R,
    tables: &JoinTables<'r>,
    seats: &mut JoinSeats<'r>,
    batch: u32,
    held: &mut HeldRows,
) -> bool
    requires table { seats.old.wait.table_id ≡ tables.now.waits.table_id }
    requires idle { seats.old.wait.view.place ≡ [] }
    requires few { batch < 64 }
    requires holds { HoldsRows (join tables.now.waits.party) (party_of seats.old.wait.view) batch held.old.items }
    ensures table { (seats.new.wait.table_id ≡ seats.old.wait.table_id) × (seats.new.wait.id ≡ seats.old.wait.id) }
    ensures others { (seats.new.lock ≡ seats.old.lock) × (seats.new.signal ≡ seats.old.signal) }
    ensures view { seats.new.wait.view ≡ client_moved seats.old.wait.view seats.new.wait.view.client }
    ensures none { ProbesNone seats.old.wait.view.client seats.new.wait.view.client }
    ensures holds { HoldsRows (join tables.now.waits.party) (party_of seats.new.wait.view) batch held.new.items }
    ensures drained { result ≡ true → 1 ≤ times batch seats.new.wait.view.client.drained }
{
    let store = StoreNo {
        side: Side::Outer,
        batch,
    };
    while !held.is_full() {
        let Some(row) = take(rt, tables, seats, store) else {
            return true;
        };
        let hash = hash_word(&tables.waits, &mut seats.wait, row);
        held.push(Held { row, hash });
    }
    false
}

// Handles the rows in hand, the first one taken first.
fn handle_held<'r, R: Wait, L: Ledger>(
    rt: &R,
    tables: &JoinTables<'r>,
    seats: &mut JoinSeats<'r>,
    rows: &[Held],
    pairs: &mut Vec<Pair>,
    marks: &mut Probed,
    steps: &mut Steps<L>,
)
    requires awake { IsAwake tables.now seats.old }
    requires counted { IsCounted marks.old seats.old }
    requires holds { (batch : ℕ) × HoldsRows (join tables.now.waits.party) (party_of seats.old.wait.view) batch rows.now }
    ensures awake { IsAwake tables.now seats.new × (seats.new.wait.id ≡ seats.old.wait.id) }
    ensures attached { seats.new.wait.view.attached ≡ seats.old.wait.view.attached }
    ensures hand { seats.new.wait.view.client.hand ≡ [] }
    ensures drained { seats.new.wait.view.client.drained ≡ seats.old.wait.view.client.drained }
    ensures worked { Worked tables.now seats.old seats.new marks.old marks.new pairs.old.items pairs.new.items steps.old steps.new }
{
    for held in rows {
        handle_row(rt, tables, seats, held.row, held.hash, pairs, marks, steps);
    }
}

// Probes the outer rows of a batch, until its outer store is at its end. While a worker takes some rows,
// the line of a cache with the store's head stays with it; otherwise it would go to another worker at nearly each row.
pub(crate) fn probe_store<'r, R: Wait, L: Ledger>(
    rt: &R,
    tables: &JoinTables<'r>,
    seats: &mut JoinSeats<'r>,
    batch: u32,
    pairs: &mut Vec<Pair>,
    marks: &mut Probed,
    steps: &mut Steps<L>,
)
    requires awake { IsAwake tables.now seats.old }
    requires attached { seats.old.wait.view.attached ≡ (batch_bar batch, PROBE) ∷ (build, RUN) ∷ [] }
    requires hand { seats.old.wait.view.client.hand ≡ [] }
    requires known { (word : ℕ) × (seats.old.wait.view.client.known ≡ for_good word) }
    requires few { batch < 64 }
    requires counted { IsCounted marks.old seats.old }
    ensures awake { IsAwake tables.now seats.new × (seats.new.wait.id ≡ seats.old.wait.id) }
    ensures attached { seats.new.wait.view.attached ≡ seats.old.wait.view.attached }
    ensures hand { seats.new.wait.view.client.hand ≡ [] }
    ensures worked { Worked tables.now seats.old seats.new marks.old marks.new pairs.old.items pairs.new.items steps.old steps.new }
    ensures drained { 1 ≤ times batch seats.new.wait.view.client.drained }
{
    for _ in rt.forever() {
        let mut held = ArrayVec::new();
        let empty = take_some(rt, tables, seats, batch, &mut held);
        handle_held(rt, tables, seats, &held, pairs, marks, steps);
        if empty {
            return;
        }
    }
    unreachable!()
}
