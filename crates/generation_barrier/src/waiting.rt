//! Waits for what others publish.
ghost use Rattle.std.specs.Prelude.{◌≡◌, ◌<◌, ◌≤◌, [], None, Bool, List, ℕ};
ghost use Rattle.signal_core.specs.declared.view.Made.{Made};
ghost use Rattle.wait_core.specs.declared.view.Made as wait;
ghost use Rattle.wait_core.specs.Fits.{IsTarget};
ghost use Rattle.wait_core.specs.Machine.{number_of};
ghost use Rattle.condition_variable.specs.Visits.{stands};
ghost use Rattle.generation_barrier.specs.Absorbing.{went};
ghost use Rattle.generation_barrier.specs.Waiting.{Awaits, AwaitsSlot, HasNotices, MayAwait, ReadAtLeast, notice_at};

use crate::notice::notice_of;
use condition_variable::{cancel_sleep, sleep};
use proc_table::ProcNo;
use signal_core::{Call, Kinds, SigSeat, SigStep, SigTable};
use std::sync::Wait;
use wait_core::{Party, WaitSeat, WaitTable};

/// Waits until each slot has published this generation or a later one, or isn't joined
/// (`WaitForProcSignalBarrier`). An earlier target at the table of waits is cancelled.
pub fn wait_for<K: Kinds, P: Party, R: Wait>(
    rt: &R,
    table: &SigTable<K>,
    seat: &mut SigSeat,
    waits: &WaitTable<P>,
    wait_seat: &mut WaitSeat<P>,
    generation: u64,
)
    requires table { (seat.old.table_id ≡ table.now.table_id) × (wait_seat.old.table_id ≡ waits.now.table_id) }
    requires notices { HasNotices table.now.procs waits.now.cvs }
    requires target { IsTarget waits.now.cvs wait_seat.old.view.target }
    requires place { (seat.old.view.place ≡ None) × (wait_seat.old.view.place ≡ []) }
    requires own { MayAwait generation seat.old.view.slot }
    ensures table { (seat.new.table_id ≡ seat.old.table_id) × (seat.new.id ≡ seat.old.id) × (wait_seat.new.table_id ≡ wait_seat.old.table_id) × (wait_seat.new.id ≡ wait_seat.old.id) }
    ensures place { (seat.new.view.place ≡ None) × (seat.new.view.slot ≡ seat.old.view.slot) × (wait_seat.new.view.place ≡ []) × (wait_seat.new.view.target ≡ None) }
    ensures reached { (q : ℕ) → q < table.now.procs → ReadAtLeast generation q seat.old.view seat.new.view }
    ensures waited { Awaits table.now.procs generation seat.old.view seat.new.view wait_seat.old.view wait_seat.new.view }
{
    for q in 0..table.procs() {
        let Some(slot) = ProcNo::new(q) else {
            unreachable!()
        };
        wait_for_slot(rt, table, seat, waits, wait_seat, slot, generation);
    }
}

// Waits until the slot's generation is this or a later one.
fn wait_for_slot<K: Kinds, P: Party, R: Wait>(
    rt: &R,
    table: &SigTable<K>,
    seat: &mut SigSeat,
    waits: &WaitTable<P>,
    wait_seat: &mut WaitSeat<P>,
    slot: ProcNo,
    generation: u64,
)
    requires table { (seat.old.table_id ≡ table.now.table_id) × (wait_seat.old.table_id ≡ waits.now.table_id) }
    requires slot { slot < table.now.procs }
    requires notice { notice_at slot < waits.now.cvs }
    requires target { IsTarget waits.now.cvs wait_seat.old.view.target }
    requires place { (seat.old.view.place ≡ None) × (wait_seat.old.view.place ≡ []) }
    ensures table { (seat.new.table_id ≡ seat.old.table_id) × (seat.new.id ≡ seat.old.id) × (wait_seat.new.table_id ≡ wait_seat.old.table_id) × (wait_seat.new.id ≡ wait_seat.old.id) }
    ensures waited { (looks : List Made) × (sleeps : List wait.Made) × (heeds : Bool) × AwaitsSlot (number_of wait_seat.old.view.own) generation slot wait_seat.old.view.target looks sleeps × (seat.new.view ≡ went seat.old.view looks seat.old.view.slot seat.old.view.absorbed) × (wait_seat.new.view ≡ stands wait_seat.old.view [] None heeds sleeps) }
{
    for _ in rt.forever() {
        let reads = SigStep::Gload(slot, Some(Call::Published(slot)));
        if table.step(seat, reads).old >= generation {
            cancel_sleep(rt, waits, wait_seat);
            return;
        }
        sleep(rt, waits, wait_seat, notice_of(slot));
    }
    unreachable!()
}
