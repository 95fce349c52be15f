//! The one place where a word of a running table is read or changed.
ghost use Rattle.std.specs.Prelude.{◌≡◌, ◌<◌};
ghost use Rattle.lw_core.specs.Ops.{about, result_of, TableAllows};
ghost use Rattle.lw_core.specs.Told.{does};

use crate::rule::{Does, Doing, Guarded, LwRule};
use crate::step::WordOp;
use crate::view::{Size, View, Waiters};
use atomic_table::{Seat, Shared};

/// Makes the step, which is on this word, by this operation, and answers the word before it.
#[inline(always)]
pub(crate) fn turn<K: Doing, G: Guarded>(
    shared: &Shared<Waiters, View, Size, LwRule<G>>,
    seat: &mut Seat<Waiters, View>,
    word: usize,
    op: WordOp,
) -> u64
    requires table { (seat.old.table_id ≡ shared.now.table_id)
        × (word < shared.now.table_id.words) }
    requires size { K.size ≡ shared.now.key }
    requires allowed { TableAllows G.lawful shared.now.key shared.now.table_id.slots seat.old.id seat.old.me word (result_of op) K.step }
    ensures table { (seat.new.table_id ≡ seat.old.table_id) × (seat.new.id ≡ seat.old.id) }
    ensures told { does G.lawful shared.now.key K.step about seat.old.me result seat.new.me }
{
    match op {
        WordOp::Load => shared.load::<Does<K, G>>(seat, word),
        WordOp::Store(value) => shared.swap::<Does<K, G>>(seat, word, value),
        WordOp::Add(by) => shared.fetch_add::<Does<K, G>>(seat, word, by),
        WordOp::Sub(by) => shared.fetch_sub::<Does<K, G>>(seat, word, by),
        WordOp::And(mask) => shared.fetch_and::<Does<K, G>>(seat, word, mask),
        WordOp::Or(bits) => shared.fetch_or::<Does<K, G>>(seat, word, bits),
        WordOp::Change(from, to) => shared.compare_exchange::<Does<K, G>>(seat, word, from, to),
    }
}
