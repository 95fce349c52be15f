//! How a row goes to the front of a list, and how the first row of one is taken.
ghost use Rattle.std.specs.Prelude.{◌≡◌, ◌<◌, [], MatchOption, Some};
ghost use Rattle.wait_core.specs.Seating.{client_moved, party_of};
ghost use Rattle.join_law.specs.Layout.{rows};
ghost use Rattle.join_law.specs.Machine.{saw_end, took};
ghost use Rattle.join_law.specs.Views.{dropped};
ghost use Rattle.join_party.specs.Joins.{join};
ghost use Rattle.shared_tuples.specs.Lists.{MayPushTo, MayTakeFrom, IsFrom};
ghost use Rattle.shared_tuples.specs.Tuples.{IsReady};

use crossbeam_utils::Backoff;
use join_party::{HashParty, HashStep, Look, Source, Word};
use std::sync::Wait;
use wait_core::{WaitSeat, WaitTable};

// How often a worker spins after an exchange that failed, each time longer up to a limit.
const SPINS: u32 = 12;

// Stays away from a head for a while, where an exchange of it failed. Its line of a cache is then left to another
// worker, who puts or takes many rows meanwhile; to look at it at once would take the line away from them.
#[inline(never)]
fn give_way() {
    let backoff = Backoff::new();
    for _ in 0..SPINS {
        backoff.spin();
    }
}

// Puts a row in hand, whose hash is stored, in front of the list at a head. Its next word is stored
// before the head is exchanged for it, so who finds the row finds the rows after it.
pub(crate) fn push<'r, R: Wait>(
    rt: &R,
    waits: &WaitTable<HashParty<'r>>,
    seat: &mut WaitSeat<HashParty<'r>>,
    head: u32,
    row: u32,
)
    requires table { seat.old.table_id ≡ waits.now.table_id }
    requires idle { seat.old.view.place ≡ [] }
    requires may { MayPushTo (join waits.now.party) (party_of seat.old.view) head row }
    ensures table { (seat.new.table_id ≡ seat.old.table_id) × (seat.new.id ≡ seat.old.id) }
    ensures view { seat.new.view ≡ client_moved seat.old.view (dropped seat.old.view.client row) }
{
    for _ in rt.forever() {
        let first = waits
            .client(seat, HashStep::Load(Look::Plain(Word::Head(head))))
            .old;
        waits.client(seat, HashStep::StoreNext { row, next: first });
        let pushed = waits.client(
            seat,
            HashStep::Push {
                row,
                head,
                found: first,
            },
        );
        if pushed.changed {
            return;
        }
        give_way();
    }
    unreachable!()
}

// Takes the first row of a list that only gives rows away. None where it was found empty.
pub(crate) fn take_first<'r, R: Wait>(
    rt: &R,
    waits: &WaitTable<HashParty<'r>>,
    seat: &mut WaitSeat<HashParty<'r>>,
    source: Source,
) -> Option<u32>
    requires table { seat.old.table_id ≡ waits.now.table_id }
    requires idle { seat.old.view.place ≡ [] }
    requires may { MayTakeFrom (join waits.now.party) (party_of seat.old.view) source }
    ensures table { (seat.new.table_id ≡ seat.old.table_id) × (seat.new.id ≡ seat.old.id) }
    ensures taken { MatchOption result (seat.new.view ≡ client_moved seat.old.view (saw_end (party_of seat.old.view) source)) (λ row. seat.new.view ≡ client_moved seat.old.view (took seat.old.view.client row)) }
    ensures row { MatchOption result (Unit {0}) (λ row. IsFrom (join waits.now.party) (party_of seat.old.view) source row) }
{
    let head = waits.party().source_head(source) as u32;
    for _ in rt.forever() {
        let first = waits
            .client(seat, HashStep::Load(Look::TakeHead(source)))
            .old;
        if first == 0 {
            return None;
        }
        let row = (first - 1) as u32;
        let next = waits
            .client(seat, HashStep::Load(Look::TakeNext { row }))
            .old;
        let seen = waits.client(seat, HashStep::Take { row, head, next });
        if seen.changed {
            return Some(row);
        }
        give_way();
    }
    unreachable!()
}

/// The hash of the key of a row in hand whose hash word is stored, and known to the seat.
pub fn hash_word<'r>(
    waits: &WaitTable<HashParty<'r>>,
    seat: &mut WaitSeat<HashParty<'r>>,
    row: u32,
) -> u32
    requires table { seat.old.table_id ≡ waits.now.table_id }
    requires idle { seat.old.view.place ≡ [] }
    requires row { IsReady (party_of seat.old.view) row × (row < rows (join waits.now.party)) }
    ensures table { (seat.new.table_id ≡ seat.old.table_id) × (seat.new.id ≡ seat.old.id) }
    ensures view { seat.new.view ≡ seat.old.view }
    ensures hash { (join waits.now.party).hash row ≡ Some result }
{
    waits
        .client(seat, HashStep::Load(Look::Plain(Word::Hash(row))))
        .old as u32
}
