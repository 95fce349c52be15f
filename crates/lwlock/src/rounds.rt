//! The rounds of an acquire: an attempt, and where it is refused, queueing, a second attempt and a
//! sleep. A lock that was let go between the first attempt and the queueing woke nobody, so the
//! second attempt may not be left out.
ghost use Rattle.std.specs.Prelude.{◌≡◌, ◌<◌, ◌^◌, false, [], ◌∷◌};
ghost use Rattle.lw_core.specs.declared.view.Frame.TheVariants.{Attempting, Queued, Queueing, TakingList, Trying, Unqueued};
ghost use Rattle.lw_core.specs.Machine.{held, hold_in, want_of};
ghost use Rattle.lw_core.specs.Programs.{BeginsNone};
ghost use Rattle.lwlock.specs.Rounds.{RoundEnds, RoundFreed, RoundsEnd};

use crate::attempt::attempt;
use crate::queue::{dequeue, queue};
use crate::sleep::sleep;
use lw_core::{Guarded, LwSeat, LwStep, LwTable, Want};
use proc_table::{LockNo, Mode};
use std::sync::Wait;

// How a round of a backend that queued ended, with the wakes that weren't for it. Where it slept
// `seen` is the word that its attempt found.
#[derive(Clone, Copy)]
pub(crate) enum Round {
    Granted { surplus: u64 },
    Woken { seen: u64, surplus: u64 },
}

pub(crate) fn wanted(mode: Mode) -> Want
    ensures { result ≡ want_of mode }
{
    match mode {
        Mode::Shared => Want::Shared,
        Mode::Exclusive => Want::Exclusive,
    }
}

// A round after a refused attempt: the backend queues and tries again. Where that is granted it
// leaves the list; where it is refused it sleeps until it is woken.
pub(crate) fn run_round<G: Guarded, R: Wait>(
    rt: &R,
    table: &LwTable<G>,
    seat: &mut LwSeat,
    lock: LockNo,
    mode: Mode,
    want: Want,
) -> Round
    requires table { seat.old.table_id ≡ table.now.table_id }
    requires lock { lock < table.now.locks }
    requires place { seat.old.view.place ≡ TakingList lock ∷ Queueing lock want ∷ Attempting lock mode ∷ Queued lock mode want ∷ [] }
    ensures table { (seat.new.table_id ≡ seat.old.table_id) × (seat.new.id ≡ seat.old.id) }
    ensures view { RoundEnds lock mode want result seat.old.view seat.new.view }
    ensures freed { RoundFreed lock mode result seat.old.view seat.new.view }
    ensures program { BeginsNone seat.old.view seat.new.view }
{
    queue(rt, table, seat, lock, want);
    let word = table.step(seat, LwStep::Load(lock, None)).old;
    match attempt(rt, table, seat, lock, mode, word) {
        Ok(()) => {
            let surplus = dequeue(rt, table, seat, lock, want);
            Round::Granted { surplus }
        }
        Err(seen) => {
            let surplus = sleep(rt, table, seat);
            Round::Woken { seen, surplus }
        }
    }
}

// How an acquire's rounds ended: whether the backend slept, and the wakes that weren't for it.
#[derive(Clone, Copy)]
pub(crate) struct Rounds {
    pub(crate) waited: bool,
    pub(crate) surplus: u64,
}

// An acquire from its first exchange on, where `word` was found.
pub(crate) fn try_until_granted<G: Guarded, R: Wait>(
    rt: &R,
    table: &LwTable<G>,
    seat: &mut LwSeat,
    lock: LockNo,
    mode: Mode,
    mut word: u64,
) -> Rounds
    requires table { seat.old.table_id ≡ table.now.table_id }
    requires lock { lock < table.now.locks }
    requires word { word < 2 ^ 32 }
    requires place { seat.old.view.place ≡ Trying lock mode word ∷ Unqueued lock mode (want_of mode) false ∷ [] }
    requires surplus { seat.old.view.surplus ≡ 0 }
    ensures table { (seat.new.table_id ≡ seat.old.table_id) × (seat.new.id ≡ seat.old.id) }
    ensures view { RoundsEnd lock mode result seat.old.view seat.new.view }
    ensures held { hold_in lock seat.new.view ≡ held mode }
    ensures program { BeginsNone seat.old.view seat.new.view }
{
    let want = wanted(mode);
    let mut waited = false;
    let mut surplus = 0;
    for _ in rt.forever() {
        if attempt(rt, table, seat, lock, mode, word).is_ok() {
            return Rounds { waited, surplus };
        }
        match run_round(rt, table, seat, lock, mode, want) {
            Round::Granted { surplus: more } => {
                return Rounds {
                    waited,
                    surplus: surplus + more,
                };
            }
            Round::Woken { surplus: more, .. } => surplus += more,
        }
        waited = true;
        table.step(seat, LwStep::SetReleaseOk(lock));
        word = table.step(seat, LwStep::Load(lock, None)).old;
    }
    unreachable!()
}
