//! How the chain of an outer row is walked, from inner row to inner row.
ghost use Rattle.std.specs.Prelude.{◌≡◌, ◌≤◌, ◌<◌, ◌+◌, ◌++◌, ◌∷◌, [], MatchResult, OnErr, OnOk};
ghost use Rattle.wait_core.specs.Seating.{party_of};
ghost use Rattle.join_law.specs.Machine.{HasReached};
ghost use Rattle.join_party.specs.Joins.{join};
ghost use Rattle.hash_probe.specs.Looks.{agreeing_among};
ghost use Rattle.hash_probe.specs.Walks.{IsKeyed, MayWalk, ReachesEnd, RunsShort, pairs_among};

use join_party::{HashParty, HashStep, Look, Word};
use proc_table::{NoMemory, Steps};
use row_model::{Pair, same};
use std::sync::Wait;
use std::sync::ledger::Ledger;
use wait_core::{WaitSeat, WaitTable};

// Adds the pair of an outer row and an inner row of its hash, if they meet.
fn confirm<L: Ledger>(
    party: &HashParty<'_>,
    row: u32,
    hash: u32,
    inner: u32,
    pairs: &mut Vec<Pair>,
    steps: &mut Steps<L>,
) -> Result<(), NoMemory>
    requires row { IsKeyed (join party.now) row hash }
    requires inner { inner < (join party.now).inner }
    ensures pairs { OnOk result (pairs.new.items ≡ pairs.old.items ++ pairs_among (join party.now) row (inner ∷ [])) }
    ensures kept { OnErr result (pairs.new.items ≡ pairs.old.items) }
    ensures look { steps.new ≡ steps.old + 1 }
{
    let outer = row - party.inner.len();
    if same(party.outer, outer, party.inner, inner, steps) {
        pairs.push(Pair { outer, inner })?;
    }
    Ok(())
}

// Compares an outer row with the inner row where its walk stands: at the keys only where the hash words
// are equal.
fn compare<'r, L: Ledger>(
    waits: &WaitTable<HashParty<'r>>,
    seat: &mut WaitSeat<HashParty<'r>>,
    row: u32,
    hash: u32,
    inner: u32,
    pairs: &mut Vec<Pair>,
    steps: &mut Steps<L>,
) -> Result<(), NoMemory>
    requires table { seat.old.table_id ≡ waits.now.table_id }
    requires idle { seat.old.view.place ≡ [] }
    requires row { IsKeyed (join waits.now.party) row hash }
    requires inner { inner < (join waits.now.party).inner }
    requires reached { HasReached seat.old.view.client.walk inner }
    ensures table { (seat.new.table_id ≡ seat.old.table_id) × (seat.new.id ≡ seat.old.id) }
    ensures view { seat.new.view ≡ seat.old.view }
    ensures pairs { OnOk result (pairs.new.items ≡ pairs.old.items ++ pairs_among (join waits.now.party) row (inner ∷ [])) }
    ensures kept { OnErr result (pairs.new.items ≡ pairs.old.items) }
    ensures looks { steps.new ≤ steps.old + agreeing_among waits.now.party.inner.now waits.now.party.buckets hash (inner ∷ []) }
{
    let found = waits
        .client(seat, HashStep::Load(Look::Plain(Word::Hash(inner))))
        .old;
    if found != u64::from(hash) {
        return Ok(());
    }
    confirm(waits.party(), row, hash, inner, pairs, steps)
}

// Walks the chain at a head, and adds the pairs of the row with the inner rows of it.
pub(crate) fn walk<'r, R: Wait, L: Ledger>(
    rt: &R,
    waits: &WaitTable<HashParty<'r>>,
    seat: &mut WaitSeat<HashParty<'r>>,
    row: u32,
    hash: u32,
    head: u32,
    pairs: &mut Vec<Pair>,
    steps: &mut Steps<L>,
) -> Result<(), NoMemory>
    requires table { seat.old.table_id ≡ waits.now.table_id }
    requires idle { seat.old.view.place ≡ [] }
    requires row { IsKeyed (join waits.now.party) row hash }
    requires may { MayWalk (join waits.now.party) (party_of seat.old.view) row head }
    ensures table { (seat.new.table_id ≡ seat.old.table_id) × (seat.new.id ≡ seat.old.id) }
    ensures walked { MatchResult result (λ _. ReachesEnd waits.now.party seat.old.view seat.new.view row hash pairs.old.items pairs.new.items steps.old steps.new) (λ _. RunsShort waits.now.party seat.old.view seat.new.view row hash pairs.old.items pairs.new.items steps.old steps.new) }
{
    let mut next = waits
        .client(seat, HashStep::Load(Look::WalkHead { row, head }))
        .old;
    for _ in rt.forever() {
        if next == 0 {
            return Ok(());
        }
        let inner = (next - 1) as u32;
        compare(waits, seat, row, hash, inner, pairs, steps)?;
        next = waits
            .client(seat, HashStep::Load(Look::WalkNext { inner }))
            .old;
    }
    unreachable!()
}
