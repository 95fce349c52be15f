//! Tells those who wait for a slot: when it has published, and when it is left.
ghost use Rattle.std.specs.Prelude.{◌≡◌, ◌<◌, ◌≤◌, ◌+◌, [], None, Some, ℕ};
ghost use Rattle.signal_core.specs.declared.view.Frame.TheVariants.{Leaving};
ghost use Rattle.signal_core.specs.Machine.{IsJoined};
ghost use Rattle.wait_core.specs.Fits.{IsTarget};
ghost use Rattle.generation_barrier.specs.Waiting.{HasLeft, HasNotices, Notices, notice_at};

use condition_variable::broadcast;
use proc_table::{CvNo, ProcNo};
use signal_core::{Call, Kinds, SigSeat, SigStep, SigTable};
use std::sync::Wait;
use wait_core::{Party, WaitSeat, WaitTable};

// The condition of those who wait for the slot.
pub(crate) fn notice_of(slot: ProcNo) -> CvNo
    ensures { result ≡ notice_at slot }
{
    let Some(cv) = CvNo::new(72 + slot.number()) else {
        unreachable!()
    };
    cv
}

/// Wakes all who wait for the own slot, which has published (the broadcast with which
/// `ProcessProcSignalBarrier` ends). The condition of the slot p is that with the number 72 + p.
pub fn publish_notice<K: Kinds, P: Party, R: Wait>(
    rt: &R,
    table: &SigTable<K>,
    seat: &SigSeat,
    waits: &WaitTable<P>,
    wait_seat: &mut WaitSeat<P>,
)
    requires table { (seat.now.table_id ≡ table.now.table_id) × (wait_seat.old.table_id ≡ waits.now.table_id) }
    requires notices { HasNotices table.now.procs waits.now.cvs }
    requires target { IsTarget waits.now.cvs wait_seat.old.view.target }
    requires place { wait_seat.old.view.place ≡ [] }
    ensures table { (wait_seat.new.table_id ≡ wait_seat.old.table_id) × (wait_seat.new.id ≡ wait_seat.old.id) }
    ensures place { (wait_seat.new.view.place ≡ []) × (wait_seat.new.view.target ≡ None) }
    ensures woken { (p : ℕ) × (seat.now.view.own ≡ Some p) × Notices p wait_seat.old.view wait_seat.new.view }
{
    let own = table.proc_of(seat);
    broadcast(rt, waits, wait_seat, notice_of(own));
}

/// Leaves the own slot (`CleanupProcSignalState`): its generation is 2^64 - 1 from then on, so that
/// nobody waits for it any more, and all who did are woken before the slot is empty.
pub fn leave_slot<K: Kinds, P: Party, R: Wait>(
    rt: &R,
    table: &SigTable<K>,
    seat: &mut SigSeat,
    waits: &WaitTable<P>,
    wait_seat: &mut WaitSeat<P>,
)
    requires table { (seat.old.table_id ≡ table.now.table_id) × (wait_seat.old.table_id ≡ waits.now.table_id) }
    requires notices { HasNotices table.now.procs waits.now.cvs }
    requires target { IsTarget waits.now.cvs wait_seat.old.view.target }
    requires place { (seat.old.view.place ≡ None) × IsJoined seat.old.view.slot × (wait_seat.old.view.place ≡ []) }
    ensures table { (seat.new.table_id ≡ seat.old.table_id) × (seat.new.id ≡ seat.old.id) × (wait_seat.new.table_id ≡ wait_seat.old.table_id) × (wait_seat.new.id ≡ wait_seat.old.id) }
    ensures place { (seat.new.view.place ≡ None) × (seat.new.view.slot ≡ None) × (wait_seat.new.view.place ≡ []) × (wait_seat.new.view.target ≡ None) }
    ensures left { HasLeft seat.old.view seat.new.view }
    ensures woken { (p : ℕ) × (seat.old.view.own ≡ Some p) × Notices p wait_seat.old.view wait_seat.new.view }
{
    table.step(seat, SigStep::Gstore(u64::MAX, Some(Call::Leave)));
    tell_of_leaving(rt, table, seat, waits, wait_seat);
    table.step(seat, SigStep::Pstore(0));
}

// Wakes all who wait for the own slot, whose generation is that of a slot which isn't joined.
fn tell_of_leaving<K: Kinds, P: Party, R: Wait>(
    rt: &R,
    table: &SigTable<K>,
    seat: &SigSeat,
    waits: &WaitTable<P>,
    wait_seat: &mut WaitSeat<P>,
)
    requires leaving { seat.now.view.place ≡ Some Leaving }
    requires table { (seat.now.table_id ≡ table.now.table_id) × (wait_seat.old.table_id ≡ waits.now.table_id) }
    requires notices { HasNotices table.now.procs waits.now.cvs }
    requires target { IsTarget waits.now.cvs wait_seat.old.view.target }
    requires place { wait_seat.old.view.place ≡ [] }
    ensures table { (wait_seat.new.table_id ≡ wait_seat.old.table_id) × (wait_seat.new.id ≡ wait_seat.old.id) }
    ensures place { (wait_seat.new.view.place ≡ []) × (wait_seat.new.view.target ≡ None) }
    ensures woken { (p : ℕ) × (seat.now.view.own ≡ Some p) × Notices p wait_seat.old.view wait_seat.new.view }
{
    publish_notice(rt, table, seat, waits, wait_seat);
}
