//! Each backend's semaphore (PostgreSQL's posix_sema.c), a word of the table of locks. Its backend
//! takes it down by one and waits where it is 0; anybody raises it.
#![tactic(auto)]

ghost use Rattle.std.specs.Prelude.{◌≡◌, ◌↔◌, ℕ, ◌-◌, ◌<◌, List, [], ◌∷◌, None, Some, IsOk, IfErr, OnOk, OnErr};
ghost use Rattle.lw_core.specs.declared.step.Call.TheVariants as call;
ghost use Rattle.lw_core.specs.declared.step.LwStep.TheVariants as kind;
ghost use Rattle.lw_core.specs.declared.view.Frame.TheVariants.{GivingBack, Looking, Posting};
ghost use Rattle.lw_core.specs.declared.view.Waiter.{Waiter};
ghost use Rattle.lw_core.specs.Machine.{MayLook, Owes, next, outer, top};
ghost use Rattle.lw_core.specs.Programs.{BeginsNone, Makes, MakesFrom};
ghost use Rattle.lw_core.specs.Stances.{owed_at};
ghost use Rattle.semaphore.specs.Calls.{CountFell, Poked, StoresNone};

use lw_core::{Call, Guarded, LwSeat, LwStep, LwTable};
use proc_table::{ProcNo, Worn};
use std::sync::Wait;

/// How often a seat may poke.
pub const MOST_POKES: u32 = 1_048_576;

/// Takes the seat's own semaphore down by one, and waits while it is 0 (`PGSemaphoreLock`).
pub fn down<G: Guarded, R: Wait>(rt: &R, table: &LwTable<G>, seat: &mut LwSeat)
    requires table { seat.old.table_id ≡ table.now.table_id }
    requires idle { seat.old.view.place ≡ [] }
    ensures table { (seat.new.table_id ≡ seat.old.table_id) × (seat.new.id ≡ seat.old.id) }
    ensures fell { CountFell seat.old.view seat.new.view }
    ensures program { Makes call.Down seat.old.view seat.new.view }
    ensures list { seat.new.list ≡ seat.old.list }
{
    take_down(rt, table, seat, Some(Call::Down));
}

/// The same as a part of a sleep.
pub fn down_in_sleep<G: Guarded, R: Wait>(rt: &R, table: &LwTable<G>, seat: &mut LwSeat)
    requires table { seat.old.table_id ≡ table.now.table_id }
    requires place { top seat.old.view.place ≡ Some Looking }
    ensures table { (seat.new.table_id ≡ seat.old.table_id) × (seat.new.id ≡ seat.old.id) }
    ensures fell { CountFell seat.old.view seat.new.view }
    ensures stores { StoresNone seat.old.view seat.new.view }
    ensures program { BeginsNone seat.old.view seat.new.view }
    ensures list { seat.new.list ≡ seat.old.list }
{
    take_down(rt, table, seat, None);
}

// Both, by the call that begins with the first look.
fn take_down<G: Guarded, R: Wait>(
    rt: &R,
    table: &LwTable<G>,
    seat: &mut LwSeat,
    begins: Option<Call>,
)
    requires table { seat.old.table_id ≡ table.now.table_id }
    requires place { MayLook begins seat.old.view.place }
    ensures table { (seat.new.table_id ≡ seat.old.table_id) × (seat.new.id ≡ seat.old.id) }
    ensures fell { CountFell seat.old.view seat.new.view }
    ensures stores { StoresNone seat.old.view seat.new.view }
    ensures program { MakesFrom begins seat.old.view seat.new.view }
    ensures list { seat.new.list ≡ seat.old.list }
{
    let mut count = table.step(seat, LwStep::Look(begins)).old;
    for _ in rt.forever() {
        if count != 0 {
            table.step(seat, LwStep::Down);
            return;
        }
        table.park(rt, seat);
        count = table.step(seat, LwStep::Look(None)).old;
    }
    unreachable!()
}

/// Raises the semaphore of a backend that the seat owes a wake, or its own where it has wakes to
/// give back (`PGSemaphoreUnlock`).
pub fn post<G: Guarded>(table: &LwTable<G>, seat: &mut LwSeat, target: ProcNo)
    requires table { seat.old.table_id ≡ table.now.table_id }
    requires target { target < table.now.procs }
    requires owes { Owes target seat.old.view.own seat.old.view.place }
    ensures table { (seat.new.table_id ≡ seat.old.table_id) × (seat.new.id ≡ seat.old.id) }
    ensures view { (n : ℕ) × (seat.new.view ≡ next (kind.Post target None) seat.old.view n []) }
    ensures surplus { top seat.old.view.place ≡ Some GivingBack → seat.new.view.surplus ≡ seat.old.view.surplus - 1 }
    ensures debt { (w : Waiter) (ws : List Waiter) → seat.old.view.place ≡ Posting (w ∷ ws) ∷ [] → owed_at seat.new.view.place ≡ ws }
    ensures program { BeginsNone seat.old.view seat.new.view }
    ensures list { seat.new.list ≡ seat.old.list }
{
    table.step(seat, LwStep::Post(target, None));
}

/// Raises the semaphore of a backend that nobody owes a wake (`PGSemaphoreUnlock`). Worn exactly
/// where the seat made 1,048,576 pokes.
pub fn poke<G: Guarded>(table: &LwTable<G>, seat: &mut LwSeat, target: ProcNo) -> Result<(), Worn>
    requires table { seat.old.table_id ≡ table.now.table_id }
    requires target { target < table.now.procs }
    requires idle { seat.old.view.place ≡ [] }
    ensures table { (seat.new.table_id ≡ seat.old.table_id) × (seat.new.id ≡ seat.old.id) }
    ensures ok { IsOk result ↔ (seat.old.view.pokes < MOST_POKES) }
    ensures poked { OnOk result (Poked target seat.old.view seat.new.view) }
    ensures program { OnOk result (Makes (call.Poke target) seat.old.view seat.new.view) }
    ensures worn { IfErr result (λ e. e.at ≡ MOST_POKES) }
    ensures as_before { OnErr result (seat.new ≡ seat.old) }
{
    if seat.pokes() >= MOST_POKES {
        return Err(Worn {
            at: u64::from(MOST_POKES),
        });
    }
    table.step(seat, LwStep::Post(target, Some(Call::Poke(target))));
    Ok(())
}

#[cfg(test)]
mod tests;
