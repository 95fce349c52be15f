//! The rounds of a wait for a lock's variable: queueing, a second look and a sleep. A value that was
//! stored between the first look and the queueing woke nobody, so the second look may not be left
//! out.
ghost use Rattle.std.specs.Prelude.{◌≡◌, ◌<◌, [], ◌∷◌};
ghost use Rattle.lw_core.specs.declared.view.Frame.TheVariants.{GivingBack};
ghost use Rattle.lw_core.specs.Machine.{resumed};
ghost use Rattle.lw_core.specs.Programs.{BeginsNone};
ghost use Rattle.lwlock.specs.Calls.{WentWith};
ghost use Rattle.lwlock_variable.specs.Waits.{WaitEnds, RoundAnswers, RoundEnds, queues};

use crate::VarWait;
use crate::compare::compare;
use lw_core::{Guarded, LwSeat, LwStep, LwTable, Want};
use lwlock::steps::{dequeue, queue, sleep};
use proc_table::LockNo;
use std::sync::Wait;

// How a round ended, with the wakes that weren't for the backend.
#[derive(Clone, Copy)]
pub(crate) enum Round {
    Ended { answer: VarWait, surplus: u64 },
    Woken { surplus: u64 },
}

// A round after a look that found no outcome: the backend queues, lets the next release wake, and
// looks again. Where that has an outcome it leaves the list; else it sleeps until it is woken.
pub(crate) fn run_round<G: Guarded, R: Wait>(
    rt: &R,
    table: &LwTable<G>,
    seat: &mut LwSeat,
    lock: LockNo,
    old: u64,
) -> Round
    requires table { seat.old.table_id ≡ table.now.table_id }
    requires lock { lock < table.now.locks }
    requires place { seat.old.view.place ≡ queues lock old }
    ensures table { (seat.new.table_id ≡ seat.old.table_id) × (seat.new.id ≡ seat.old.id) }
    ensures view { RoundEnds lock old result seat.old.view seat.new.view }
    ensures answer { RoundAnswers lock old result seat.old.view seat.new.view }
    ensures program { BeginsNone seat.old.view seat.new.view }
{
    queue(rt, table, seat, lock, Want::UntilFree);
    table.step(seat, LwStep::SetReleaseOk(lock));
    match compare(rt, table, seat, lock, old, None) {
        Some(answer) => {
            let surplus = dequeue(rt, table, seat, lock, Want::UntilFree);
            Round::Ended { answer, surplus }
        }
        None => {
            let surplus = sleep(rt, table, seat);
            Round::Woken { surplus }
        }
    }
}

// How a wait ended, with the wakes that weren't for the backend.
#[derive(Clone, Copy)]
pub(crate) struct Ended {
    pub(crate) answer: VarWait,
    pub(crate) surplus: u64,
}

// A wait from its first look on, which found no outcome.
pub(crate) fn wait<G: Guarded, R: Wait>(
    rt: &R,
    table: &LwTable<G>,
    seat: &mut LwSeat,
    lock: LockNo,
    old: u64,
) -> Ended
    requires table { seat.old.table_id ≡ table.now.table_id }
    requires lock { lock < table.now.locks }
    requires place { seat.old.view.place ≡ queues lock old }
    requires surplus { seat.old.view.surplus ≡ 0 }
    ensures table { (seat.new.table_id ≡ seat.old.table_id) × (seat.new.id ≡ seat.old.id) }
    ensures view { WentWith (resumed result.surplus (GivingBack ∷ [])) result.surplus seat.old.view seat.new.view }
    ensures ends { WaitEnds lock old result.answer seat.old.view seat.new.view }
    ensures program { BeginsNone seat.old.view seat.new.view }
{
    let mut surplus = 0;
    for _ in rt.forever() {
        match run_round(rt, table, seat, lock, old) {
            Round::Ended {
                answer,
                surplus: more,
            } => {
                return Ended {
                    answer,
                    surplus: surplus + more,
                };
            }
            Round::Woken { surplus: more } => surplus += more,
        }
        if let Some(answer) = compare(rt, table, seat, lock, old, None) {
            return Ended { answer, surplus };
        }
    }
    unreachable!()
}
