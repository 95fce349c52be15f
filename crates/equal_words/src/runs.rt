//! How a seat takes part: it adds to both words, arrives and waits, and reads them.
ghost use Rattle.std.specs.Prelude.{◌≡◌, ◌<◌, [], None};
ghost use Rattle.wait_core.specs.Fits.{IsTarget};
ghost use Rattle.wait_core.specs.Parties.{phase_of};
ghost use Rattle.wait_core.specs.Seating.{party_of};
ghost use Rattle.phase_barrier.specs.Calls.{won};
ghost use Rattle.equal_words.specs.declared.Progress.TheVariants.{Fresh, Done, Read};
ghost use Rattle.equal_words.specs.Turns.{IsAt, IsPast, Reads};

use crate::{EqualWords, Move};
use phase_barrier::{arrive_and_wait, attach};
use proc_table::BarNo;
use std::sync::Wait;
use wait_core::{WaitSeat, WaitTable};

type Table = WaitTable<EqualWords>;

type Seat = WaitSeat<EqualWords>;

/// What a seat that took part found.
#[derive(Debug, Clone, Copy, PartialEq, Eq)]
pub struct Reading {
    /// Of all who arrived in phase 0 it is the one that was elected.
    pub elected: bool,
    pub first: u64,
    pub second: u64,
}

/// The barrier that all take part in.
pub fn the_barrier() -> BarNo
    ensures { result ≡ 0 }
{
    let Some(bar) = BarNo::new(0) else {
        unreachable!()
    };
    bar
}

/// In phase 0 the seat adds 1 to each word.
pub fn add_both(table: &Table, seat: &mut Seat)
    requires table { seat.old.table_id ≡ table.now.table_id }
    requires place { seat.old.view.place ≡ [] }
    requires turn { IsAt 0 (party_of seat.old.view) × (seat.old.view.client ≡ Fresh) }
    ensures table { (seat.new.table_id ≡ seat.old.table_id) × (seat.new.id ≡ seat.old.id) }
    ensures view { seat.new.view ≡ record seat.old.view { client = Done } }
{
    table.client(seat, Move::AddFirst);
    table.client(seat, Move::AddSecond);
}

/// Past phase 0 the seat reads the first word and then the second, while others do as they like. The
/// two are equal.
pub fn read_both(table: &Table, seat: &mut Seat) -> (u64, u64)
    requires table { seat.old.table_id ≡ table.now.table_id }
    requires place { seat.old.view.place ≡ [] }
    requires past { IsPast (party_of seat.old.view) }
    ensures table { (seat.new.table_id ≡ seat.old.table_id) × (seat.new.id ≡ seat.old.id) }
    ensures view { seat.new.view ≡ record seat.old.view { client = Read result.1 } }
    ensures read { Reads table.now seat.old.id 0 result.0 × Reads table.now seat.old.id 1 result.1 }
    ensures equal { result.0 ≡ result.1 }
{
    let first = table.client(seat, Move::LookFirst).old;
    let second = table.client(seat, Move::LookSecond).old;
    (first, second)
}

/// A seat that has added to both words arrives, waits until all others who are attached have
/// arrived or left, and reads both words. The two are equal.
pub fn arrive_and_read<R: Wait>(rt: &R, table: &Table, seat: &mut Seat) -> Reading
    requires table { seat.old.table_id ≡ table.now.table_id }
    requires barrier { 0 < table.now.bars }
    requires target { IsTarget table.now.cvs seat.old.view.target }
    requires place { seat.old.view.place ≡ [] }
    requires done { IsAt 0 (party_of seat.old.view) × (seat.old.view.client ≡ Done) }
    ensures table { (seat.new.table_id ≡ seat.old.table_id) × (seat.new.id ≡ seat.old.id) }
    ensures place { (seat.new.view.place ≡ []) × (seat.new.view.target ≡ None) }
    ensures past { IsAt 1 (party_of seat.new.view) }
    ensures elected { seat.new.view.elections ≡ won result.elected 0 1 seat.old.view.elections }
    ensures read { Reads table.now seat.old.id 0 result.first × Reads table.now seat.old.id 1 result.second }
    ensures equal { result.first ≡ result.second }
{
    let Ok(elected) = arrive_and_wait(rt, table, seat, the_barrier()) else {
        unreachable!()
    };
    let (first, second) = read_both(table, seat);
    Reading {
        elected,
        first,
        second,
    }
}

/// The seat takes part from the phase that it finds. In phase 0 it adds to both words and waits for
/// the others; past that it comes late, and only reads. Either way the two that it reads are equal.
pub fn take_part<R: Wait>(rt: &R, table: &Table, seat: &mut Seat) -> Reading
    requires table { seat.old.table_id ≡ table.now.table_id }
    requires barrier { 0 < table.now.bars }
    requires target { IsTarget table.now.cvs seat.old.view.target }
    requires place { seat.old.view.place ≡ [] }
    requires fresh { (phase_of seat.old.view.attached 0 ≡ None) × (seat.old.view.client ≡ Fresh) }
    ensures table { (seat.new.table_id ≡ seat.old.table_id) × (seat.new.id ≡ seat.old.id) }
    ensures past { (seat.new.view.place ≡ []) × IsPast (party_of seat.new.view) }
    ensures elected { seat.new.view.elections ≡ won result.elected 0 1 seat.old.view.elections }
    ensures read { Reads table.now seat.old.id 0 result.first × Reads table.now seat.old.id 1 result.second }
    ensures equal { result.first ≡ result.second }
{
    if attach(rt, table, seat, the_barrier()) == 0 {
        add_both(table, seat);
        return arrive_and_read(rt, table, seat);
    }
    let (first, second) = read_both(table, seat);
    Reading {
        elected: false,
        first,
        second,
    }
}
