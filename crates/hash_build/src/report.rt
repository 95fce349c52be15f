//! What workers say of the inner rows in the guarded words of the join's lock: how many a chunk had, and which
//! growth is wanted.
ghost use Rattle.std.specs.Prelude.{◌≡◌, ◌≤◌, ◌<◌, [], None, Some, slice_set};
ghost use Rattle.proc_table.specs.declared.Mode.TheVariants.{Exclusive};
ghost use Rattle.lw_core.specs.Machine.{LeavesLawful, held, hold_in, known_at, mode_in};
ghost use Rattle.join_party.specs.Guards.{IsReported};
ghost use Rattle.hash_build.specs.Reports.{EndsGrowth, ReportsChunk, Touched, after_growth, after_report, changing, knowing, reading, storing, words_of};

use crate::wanted::{STOPPED, growth_wanted, wanted_of, word_of};
use join_party::{JoinGuard, JoinSeats, JoinTables};
use lw_core::{GuardOp, LwSeat, LwStep, LwTable};
use lwlock::{acquire, release};
use proc_table::{LockNo, Mode};
use shared_tuples::{Growth, Sizes};
use std::sync::Wait;

#[cfg(test)]
mod tests;

// How many reports are counted.
const MOST_REPORTS: u64 = 262_144;

// The places of the lock's words.
const ROWS: u32 = 0;

const WANTED: u32 = 1;

const LARGEST: u32 = 2;

const REPORTS: u32 = 3;

// What the lock's words say: how many inner rows were counted, the growth that is wanted, the
// largest batch size seen, and how many reports were made.
#[derive(Clone, Copy)]
struct Reported {
    rows: u64,
    wanted: u64,
    largest: u64,
    reports: u64,
}

// The join's lock.
fn the_lock() -> LockNo
    ensures { result ≡ 0 }
{
    let Some(lock) = LockNo::new(0) else {
        unreachable!()
    };
    lock
}

// Reads all four words, so that they are known to be lawful.
fn read_words(table: &LwTable<JoinGuard>, seat: &mut LwSeat, lock: LockNo) -> Reported
    requires table { seat.old.table_id ≡ table.now.table_id }
    requires lock { lock < table.now.locks }
    requires held { (seat.old.view.place ≡ []) × (hold_in lock seat.old.view ≡ held Exclusive) }
    ensures table { (seat.new.table_id ≡ seat.old.table_id) × (seat.new.id ≡ seat.old.id) }
    ensures steps { Touched lock (reading lock result) seat.old.view seat.new.view }
    ensures known { (seat.new.view.place ≡ []) × (hold_in lock seat.new.view ≡ knowing result) }
    ensures lawful { IsReported (words_of result) }
{
    let rows = table.read_word(seat, lock, ROWS);
    let wanted = table.read_word(seat, lock, WANTED);
    let largest = table.read_word(seat, lock, LARGEST);
    let reports = table.read_word(seat, lock, REPORTS);
    Reported {
        rows,
        wanted,
        largest,
        reports,
    }
}

impl Reported {
    // What the words say after a report of so many rows, where the largest batch of the chunk has so many.
    fn after_report<'r>(
        self,
        tables: &JoinTables<'r>,
        sizes: Sizes,
        count: u32,
        largest: u64,
    ) -> Reported
        requires sizes { (sizes.half ≤ 1) × (sizes.buckets ≤ 262144) × (sizes.batches ≤ 64) }
        requires count { (1 ≤ count) × (count ≤ 64) }
        requires lawful { IsReported (words_of self) }
        ensures after { result ≡ after_report tables.now sizes count largest self }
        ensures lawful { IsReported (words_of result) }
    {
        let counts = self.reports < MOST_REPORTS;
        let largest = u64::max(self.largest, largest);
        Reported {
            rows: if counts {
                self.rows + u64::from(count)
            } else {
                self.rows
            },
            wanted: if self.wanted == 0 {
                word_of(growth_wanted(tables, sizes, largest))
            } else {
                self.wanted
            },
            largest,
            reports: if counts {
                self.reports + 1
            } else {
                self.reports
            },
        }
    }

    // What they say after the end of a growth.
    fn after_growth(self, stopped: bool, largest: Option<u64>) -> Reported
        requires lawful { IsReported (words_of self) }
        ensures after { result ≡ after_growth stopped largest self }
        ensures lawful { IsReported (words_of result) }
    {
        Reported {
            wanted: if stopped { STOPPED } else { 0 },
            largest: largest.unwrap_or(self.largest),
            ..self
        }
    }
}

// Stores one of the words, where it is to say something else.
fn store_change(
    table: &LwTable<JoinGuard>,
    seat: &mut LwSeat,
    lock: LockNo,
    at: u32,
    old: u64,
    new: u64,
)
    requires table { seat.old.table_id ≡ table.now.table_id }
    requires lock { (lock < table.now.locks) × (at < 4) }
    requires held { (seat.old.view.place ≡ []) × (mode_in lock seat.old.view ≡ Some Exclusive) }
    requires old { known_at (hold_in lock seat.old.view) at ≡ Some old }
    ensures table { (seat.new.table_id ≡ seat.old.table_id) × (seat.new.id ≡ seat.old.id) }
    ensures steps { Touched lock (changing lock at old new) seat.old.view seat.new.view }
    ensures held { (seat.new.view.place ≡ []) × (mode_in lock seat.new.view ≡ Some Exclusive) }
    ensures known { (hold_in lock seat.new.view).known ≡ slice_set (hold_in lock seat.old.view).known at (Some new) }
{
    if old != new {
        table.step(seat, LwStep::Guard(lock, at, GuardOp::Store(new)));
    }
}

// Makes the words, which were found so, say what is next.
fn store_changes(
    table: &LwTable<JoinGuard>,
    seat: &mut LwSeat,
    lock: LockNo,
    found: Reported,
    next: Reported,
)
    requires table { seat.old.table_id ≡ table.now.table_id }
    requires lock { lock < table.now.locks }
    requires known { (seat.old.view.place ≡ []) × (hold_in lock seat.old.view ≡ knowing found) }
    requires lawful { IsReported (words_of next) }
    ensures table { (seat.new.table_id ≡ seat.old.table_id) × (seat.new.id ≡ seat.old.id) }
    ensures steps { Touched lock (storing lock found next) seat.old.view seat.new.view }
    ensures held { (seat.new.view.place ≡ []) × (mode_in lock seat.new.view ≡ Some Exclusive) }
    ensures lawful { LeavesLawful IsReported (hold_in lock seat.new.view) }
{
    store_change(table, seat, lock, ROWS, found.rows, next.rows);
    store_change(table, seat, lock, REPORTS, found.reports, next.reports);
    store_change(table, seat, lock, LARGEST, found.largest, next.largest);
    store_change(table, seat, lock, WANTED, found.wanted, next.wanted);
}

/// Reports a chunk of 1 to 64 inner rows: counts its rows and the report, where fewer than 262,144
/// reports were counted; raises the largest batch size seen, where the chunk's batches have a larger one;
/// and says which growth is wanted, where nothing is said yet. Answers the growth that is wanted then.
pub(crate) fn report<'r, R: Wait>(
    rt: &R,
    tables: &JoinTables<'r>,
    seats: &mut JoinSeats<'r>,
    sizes: Sizes,
    count: u32,
    largest: u64,
) -> Option<Growth>
    requires table { seats.old.lock.table_id ≡ tables.now.locks.table_id }
    requires idle { seats.old.lock.view.place ≡ [] }
    requires free { mode_in 0 seats.old.lock.view ≡ None }
    requires sizes { (sizes.half ≤ 1) × (sizes.buckets ≤ 262144) × (sizes.batches ≤ 64) }
    requires count { (1 ≤ count) × (count ≤ 64) }
    ensures table { (seats.new.lock.table_id ≡ seats.old.lock.table_id) × (seats.new.lock.id ≡ seats.old.lock.id) }
    ensures wait { seats.new.wait ≡ seats.old.wait }
    ensures signal { seats.new.signal ≡ seats.old.signal }
    ensures idle { seats.new.lock.view.place ≡ [] }
    ensures free { mode_in 0 seats.new.lock.view ≡ None }
    ensures view { ReportsChunk 0 tables.now sizes count largest result seats.old.lock.view seats.new.lock.view }
{
    let lock = the_lock();
    acquire(rt, &tables.locks, &mut seats.lock, lock, Mode::Exclusive);
    let found = read_words(&tables.locks, &mut seats.lock, lock);
    let next = found.after_report(tables, sizes, count, largest);
    store_changes(&tables.locks, &mut seats.lock, lock, found, next);
    release(rt, &tables.locks, &mut seats.lock, lock);
    wanted_of(next.wanted)
}

/// Says that a growth has ended: growth is stopped for good, or none is wanted. The largest batch size
/// becomes the given one, where one is.
pub(crate) fn end_growth<'r, R: Wait>(
    rt: &R,
    tables: &JoinTables<'r>,
    seats: &mut JoinSeats<'r>,
    stopped: bool,
    largest: Option<u64>,
)
    requires table { seats.old.lock.table_id ≡ tables.now.locks.table_id }
    requires idle { seats.old.lock.view.place ≡ [] }
    requires free { mode_in 0 seats.old.lock.view ≡ None }
    ensures table { (seats.new.lock.table_id ≡ seats.old.lock.table_id) × (seats.new.lock.id ≡ seats.old.lock.id) }
    ensures wait { seats.new.wait ≡ seats.old.wait }
    ensures signal { seats.new.signal ≡ seats.old.signal }
    ensures idle { seats.new.lock.view.place ≡ [] }
    ensures free { mode_in 0 seats.new.lock.view ≡ None }
    ensures view { EndsGrowth 0 stopped largest seats.old.lock.view seats.new.lock.view }
{
    let lock = the_lock();
    acquire(rt, &tables.locks, &mut seats.lock, lock, Mode::Exclusive);
    let found = read_words(&tables.locks, &mut seats.lock, lock);
    let next = found.after_growth(stopped, largest);
    store_changes(&tables.locks, &mut seats.lock, lock, found, next);
    release(rt, &tables.locks, &mut seats.lock, lock);
}
