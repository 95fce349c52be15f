//! How a worker reads the sizes in force.
ghost use Rattle.std.specs.Prelude.{◌≡◌, ◌≤◌, ℕ, true, []};
ghost use Rattle.wait_core.specs.Parties.{Elected};
ghost use Rattle.wait_core.specs.Seating.{client_moved, party_of};
ghost use Rattle.join_law.specs.Machine.{At};
ghost use Rattle.join_law.specs.Phases.{batch_growth, bucket_growth, last_batch_growth, last_bucket_growth, settled};
ghost use Rattle.join_party.specs.Joins.{join};
ghost use Rattle.hash_build.specs.Hashing.{KnowsForGood, KnowsThese, ReadsSizes, with_known};

use join_party::{HashStep, JoinSeats, JoinTables, Look};
use shared_tuples::Sizes;

// Reads the sizes. The seat knows them then: past HASH_INNER for good, else as long as the phases of both growth
// barriers stand.
pub(crate) fn read_sizes<'r>(tables: &JoinTables<'r>, seats: &mut JoinSeats<'r>) -> Sizes
    requires table { seats.old.wait.table_id ≡ tables.now.waits.table_id }
    requires idle { seats.old.wait.view.place ≡ [] }
    ensures table { (seats.new.wait.table_id ≡ seats.old.wait.table_id) × (seats.new.wait.id ≡ seats.old.wait.id) }
    ensures others { (seats.new.lock ≡ seats.old.lock) × (seats.new.signal ≡ seats.old.signal) }
    ensures known { ReadsSizes (party_of seats.old.wait.view) → KnowsThese (join tables.now.waits.party) (party_of seats.new.wait.view) result }
    ensures good { settled (party_of seats.old.wait.view) ≡ true → KnowsForGood (join tables.now.waits.party) seats.new.wait.view.client.known result }
    ensures view { seats.new.wait.view ≡ client_moved seats.old.wait.view (with_known seats.old.wait.view.client seats.new.wait.view.client.known) }
    ensures ends { (ph : ℕ) → (At (party_of seats.old.wait.view) batch_growth ph → ph ≤ last_batch_growth) × (At (party_of seats.old.wait.view) bucket_growth ph → ph ≤ last_bucket_growth) }
    ensures stored { (bar ph later : ℕ) → At (party_of seats.old.wait.view) bar ph → Elected seats.old.wait.view.client.stored bar later → later ≤ ph }
{
    let word = tables
        .waits
        .client(&mut seats.wait, HashStep::Load(Look::Sizes))
        .old;
    Sizes::of(word)
}
