//! What a join answers.
ghost use Rattle.std.specs.Prelude.{◌≡◌, ◌≤◌, length, false, None, IfOk, IfErr, MatchOption, ⊤};
ghost use Rattle.row_model.specs.Table.{nested_loop};
ghost use Rattle.hash_probe.specs.Marks.{most_pairs};
ghost use Rattle.join_end.specs.Pairs.{SamePairs};
ghost use Rattle.join_end.specs.Works.{IsOver};
ghost use Rattle.join_end.specs.Answers.{Refuses};

use crate::order::put_in_order;
use proc_table::NoMemory;
use row_model::{Pair, Rows};

/// Why a join has no pairs to give.
#[derive(Debug, Clone, Copy, PartialEq, Eq)]
pub enum JoinFault {
    /// There are more than 4,194,304 pairs; `counted` of them were counted.
    TooMany { counted: u64 },
    NoMemory,
}

impl From<NoMemory> for JoinFault {
    ghost use Rattle.join_end.specs.declared.answer.JoinFault.TheVariants as fault;

    ghost from_gives = { λ _ given. given ≡ fault.NoMemory };

    fn from(_error: NoMemory) -> JoinFault {
        JoinFault::NoMemory
    }
}

/// What a join answers, from the pairs that all its workers found, the count that one of them carried past
/// 4,194,304, and whether one of them wanted memory. Too many pairs come first; then want of memory;
/// else the pairs are those of the nested loop, in its order, unless these are too many.
pub fn finish(
    mut pairs: Vec<Pair>,
    over: Option<u64>,
    short: bool,
    outer: &Rows,
    inner: &Rows,
) -> Result<Vec<Pair>, JoinFault>
    requires over { MatchOption over ⊤ (IsOver outer.now inner.now) }
    requires whole { over ≡ None → short ≡ false → SamePairs pairs.items (nested_loop outer.now inner.now) }
    ensures pairs { IfOk result (λ v. v.items ≡ nested_loop outer.now inner.now) }
    ensures few { IfOk result (λ v. length v.items ≤ most_pairs) }
    ensures unmarked { IfOk result (λ _. (over ≡ None) × (short ≡ false)) }
    ensures refused { IfErr result (Refuses outer.now inner.now short) }
{
    if let Some(counted) = over {
        return Err(JoinFault::TooMany { counted });
    }
    if short {
        return Err(JoinFault::NoMemory);
    }
    put_in_order(&mut pairs, outer, inner);
    if pairs.len() > 4_194_304 {
        return Err(JoinFault::TooMany {
            counted: pairs.len() as u64,
        });
    }
    Ok(pairs)
}
