//! What is left of a join that is done, and how its tables end.

ghost use Rattle.std.specs.Prelude.{◌≡◌};
ghost use Rattle.lw_core.specs.Machine.{HoldsNothing};
ghost use Rattle.join_party.specs.Workers.{IsAt};
ghost use Rattle.join_end.specs.Workers.{HasGone};

use join_party::{JoinSeats, JoinTables};
use row_model::Pair;

/// A join that is done: its pairs, by the numbers of their rows; its tables; and the leader's seats at
/// them, which took in those of all workers.
#[derive(Drop)]
pub struct Joined<'r> {
    pub pairs: Vec<Pair>,
    pub tables: JoinTables<'r>,
    pub seats: JoinSeats<'r>,
    ghost at: { IsAt tables seats },
    ghost gone: { HasGone seats },
    ghost free: { HoldsNothing seats.lock.view },
}

impl Joined<'_> {
    /// Ends the tables, whose memory goes back, and gives the pairs.
    pub fn close(self) -> Vec<Pair>
        ensures { result.items ≡ self.entry.pairs.items }
    {
        let Joined {
            pairs,
            tables,
            seats,
        } = self;
        close(tables, seats);
        pairs
    }
}

// Ends the tables of a join, with the seats that took in all others.
pub(crate) fn close<'r>(tables: JoinTables<'r>, seats: JoinSeats<'r>)
    requires at { IsAt tables seats }
    requires gone { HasGone seats }
    requires free { HoldsNothing seats.lock.view }
{
    let JoinTables {
        locks,
        waits,
        signals,
        plan: _,
    } = tables;
    let JoinSeats { lock, wait, signal } = seats;
    drop(locks.close(lock));
    drop(waits.close(wait));
    signals.close(signal);
}
