//! How a worker gets rows: it claims them at the cursor of their side.
ghost use Rattle.std.specs.Prelude.{◌≡◌, ◌≤◌, ◌+◌, [], MatchOption};
ghost use Rattle.wait_core.specs.Seating.{party_of};
ghost use Rattle.join_law.specs.Phases.{build};
ghost use Rattle.join_law.specs.Machine.{At, claim_phase};
ghost use Rattle.join_party.specs.Claims.{Claimed, FoundEnd, count_of, first_of};
ghost use Rattle.join_party.specs.Joins.{join};

use crate::party::HashParty;
use crate::tables::{JoinSeats, JoinTables};
use join_law::{HashStep, Look};
use row_model::Side;

/// Rows that came to hand: so many from the first on, where the outer rows are numbered behind the
/// inner rows.
#[derive(Debug, Clone, Copy, PartialEq, Eq)]
pub struct Chunk {
    pub first: u32,
    pub count: u32,
}

// The number of the side's first row, and how many rows it has.
fn rows_of(party: &HashParty<'_>, side: Side) -> (u32, u32)
    ensures rows { (result.0 ≡ first_of (join party.now) side) × (result.1 ≡ count_of (join party.now) side) }
    ensures few { result.0 + result.1 ≤ 1073741824 }
{
    match side {
        Side::Inner => (0, party.inner.len()),
        Side::Outer => (party.inner.len(), party.outer.len()),
    }
}

/// Claims the next rows of a side, 64 at most; the seat is attached to the build in the phase that
/// hashes them. None only where the side's cursor was read, or drawn, at its end.
pub fn claim<'r>(tables: &JoinTables<'r>, seats: &mut JoinSeats<'r>, side: Side) -> Option<Chunk>
    requires table { seats.old.wait.table_id ≡ tables.now.waits.table_id }
    requires idle { seats.old.wait.view.place ≡ [] }
    requires phase { At (party_of seats.old.wait.view) build (claim_phase side) }
    ensures table { (seats.new.wait.table_id ≡ seats.old.wait.table_id) × (seats.new.wait.id ≡ seats.old.wait.id) }
    ensures others { (seats.new.lock ≡ seats.old.lock) × (seats.new.signal ≡ seats.old.signal) }
    ensures claimed { MatchOption result (FoundEnd side seats.old.wait.view seats.new.wait.view) (λ c. Claimed (join tables.now.waits.party) side seats.old.wait.view seats.new.wait.view c.first c.count) }
{
    let (begin, rows) = rows_of(tables.waits.party(), side);
    let read = HashStep::Load(Look::Cursor(side));
    let seen = tables.waits.client(&mut seats.wait, read).old;
    if seen >= u64::from(rows) {
        return None;
    }
    let found = tables
        .waits
        .client(&mut seats.wait, HashStep::Claim(side))
        .old;
    if found >= u64::from(rows) {
        return None;
    }
    let found = found as u32;
    Some(Chunk {
        first: begin + found,
        count: u32::min(64, rows - found),
    })
}
