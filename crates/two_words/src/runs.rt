//! A seat takes its turn, and what the words are at the end.
ghost use Rattle.std.specs.Prelude.{◌≡◌, ◌<◌, [], IfOk};
ghost use Rattle.two_words.specs.declared.Turn.TheVariants.{First};
ghost use Rattle.two_words.specs.Balance.{progress, turned};

use crate::{Turn, TwoWords};
use proc_table::NoMemory;
use std::alloc::Global;
use wait_core::{WaitSeat, WaitTable};

type Table = WaitTable<TwoWords>;

type Seat = WaitSeat<TwoWords>;

/// The seat adds 1 to each word.
pub fn take_turn(table: &Table, seat: &mut Seat)
    requires table { seat.old.table_id ≡ table.now.table_id }
    requires place { seat.old.view.place ≡ [] }
    requires turn { seat.old.view.client ≡ progress 1 0 0 }
    ensures table { (seat.new.table_id ≡ seat.old.table_id) × (seat.new.id ≡ seat.old.id) }
    ensures view { seat.new.view ≡ record seat.old.view { client = progress 0 0 1 } }
{
    table.client(seat, Turn::First);
    table.client(seat, Turn::Second);
}

/// The seat takes the first half of a turn, and answers what it found in the first word: fewer
/// turns than there may ever be seats.
pub fn half_turn(table: &Table, seat: &mut Seat) -> u64
    requires table { seat.old.table_id ≡ table.now.table_id }
    requires place { seat.old.view.place ≡ [] }
    requires turn { 0 < seat.old.view.client.left }
    ensures table { (seat.new.table_id ≡ seat.old.table_id) × (seat.new.id ≡ seat.old.id) }
    ensures view { seat.new.view ≡ record seat.old.view { client = turned seat.old.view.client First } }
    ensures few { result < 64 }
{
    table.client(seat, Turn::First).old
}

/// Two seats, each with its turn, one after the other: both words are 2 at the end.
pub fn two_turns(alloc: Global) -> Result<(u64, u64), NoMemory>
    ensures { IfOk result (λ r. (r.0 ≡ 2) × (r.1 ≡ 2)) }
{
    let (table, mut zero) = WaitTable::new(alloc, TwoWords, 2, 1, 1, 0)?;
    let Ok(mut one) = table.seat(&mut zero) else {
        unreachable!()
    };
    take_turn(&table, &mut one);
    take_turn(&table, &mut zero);
    table.join(&mut zero, one);
    let closed = table.close(zero);
    Ok((closed.word(0), closed.word(1)))
}
