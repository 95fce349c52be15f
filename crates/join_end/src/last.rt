//! The last look at a join.
ghost use Rattle.std.specs.Prelude.{◌≡◌};
ghost use Rattle.join_party.specs.Workers.{IsAt};
ghost use Rattle.join_end.specs.AtTheEnd.{AtTheEnd};
ghost use Rattle.join_end.specs.Last.{IsLast};
ghost use Rattle.join_end.specs.Works.{HasDone, Work};

use join_party::{HashStep, JoinSeats, JoinTables, Look, Word};

/// The leader's seats, once they have taken in those of all workers, look once more at the tables, and
/// stay as they are. What all did together is then known of a state of the join in which nobody else
/// has a number.
pub fn look_last<'r>(tables: &JoinTables<'r>, seats: &mut JoinSeats<'r>)
    requires table { IsAt tables.now seats.old }
    requires last { IsLast seats.old }
    ensures table { IsAt tables.now seats.new }
    ensures same { (seats.new.wait.view ≡ seats.old.wait.view) × (seats.new.signal ≡ seats.old.signal) × (seats.new.lock ≡ seats.old.lock) }
    ensures end { (w : Work) → w.wait ≡ seats.old.wait.view → w.signal ≡ seats.old.signal.view → HasDone tables.now.waits.party w → AtTheEnd tables.now.waits.party w }
{
    tables.waits.client(&mut seats.wait, HashStep::Load(Look::Plain(Word::Results)));
    tables.signals.settle(&mut seats.signal);
}
