//! Where a worker begins to go round, so that workers who come together begin apart.
ghost use Rattle.std.specs.Prelude.{◌≡◌, ◌<◌, []};

use join_party::{HashStep, JoinSeats, JoinTables};

/// Draws where to begin to go round so many places (PostgreSQL's `distributor` of a parallel hash join).
pub fn draw_start<'r>(tables: &JoinTables<'r>, seats: &mut JoinSeats<'r>, places: u32) -> u32
    requires table { seats.old.wait.table_id ≡ tables.now.waits.table_id }
    requires idle { seats.old.wait.view.place ≡ [] }
    requires some { 0 < places }
    ensures start { result < places }
    ensures same { (seats.new.wait.table_id ≡ seats.old.wait.table_id) × (seats.new.wait.id ≡ seats.old.wait.id) × (seats.new.wait.view ≡ seats.old.wait.view) × (seats.new.lock ≡ seats.old.lock) × (seats.new.signal ≡ seats.old.signal) }
{
    let drawn = tables.waits.client(&mut seats.wait, HashStep::Draw).old;
    (drawn % u64::from(places)) as u32
}
