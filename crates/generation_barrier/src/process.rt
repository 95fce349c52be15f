//! Absorbing.
ghost use Rattle.std.specs.Prelude.{◌≡◌, ◌<◌, ◌+◌, ◌^◌, ◌++◌, None, Some, List, ℕ};
ghost use Rattle.signal_core.specs.declared.view.Frame.TheVariants.{Taking};
ghost use Rattle.signal_core.specs.declared.view.Made.{Made};
ghost use Rattle.signal_core.specs.Machine.{IsJoined, IsPart, takes, kinds_below};
ghost use Rattle.generation_barrier.specs.Absorbing.{Answers, Asks, PutBack, went};

use crate::absorber::Absorber;
use crate::outcome::Absorb;
use proc_table::ProcNo;
use signal_core::{Call, Kinds, SigSeat, SigStep, SigTable};

/// Absorbs what was emitted to the own slot (`ProcessProcSignalBarrier`): takes each kind in the own
/// mask, and publishes the header as it was read before the mask was swapped out. Where a kind fails
/// it is put back, and nothing is published.
pub fn absorb<K: Kinds, A: Absorber>(
    table: &SigTable<K>,
    seat: &mut SigSeat,
    absorber: &mut A,
) -> Absorb
    requires table { seat.old.table_id ≡ table.now.table_id }
    requires place { (seat.old.view.place ≡ None) × IsJoined seat.old.view.slot }
    ensures table { (seat.new.table_id ≡ seat.old.table_id) × (seat.new.id ≡ seat.old.id) }
    ensures place { (seat.new.view.place ≡ None) × IsJoined seat.new.view.slot }
    ensures answer { Answers A.meets K.shows seat.old.view absorber.old result seat.new.view absorber.new }
{
    let own = table.proc_of(seat);
    let published = seat.published();
    if table.step(seat, SigStep::Pswap(Some(Call::Absorb))).old == 0 {
        return Absorb::Idle {
            generation: published,
        };
    }
    let generation = table.step(seat, SigStep::Gload(own, None)).old;
    let header = table.step(seat, SigStep::Hload(None)).old;
    if header == generation {
        return Absorb::Idle { generation };
    }
    let found = table.step(seat, SigStep::Mswap(None)).old;
    let failed = ask(absorber, found);
    if failed == 0 {
        table.step(seat, SigStep::Gstore(header, None));
        return Absorb::Published { generation: header };
    }
    put_back(table, seat, own, u64::from(failed));
    Absorb::Kept { failed }
}

// Asks for each kind of the mask, from the lowest, and answers those that failed.
fn ask<A: Absorber>(absorber: &mut A, found: u64) -> u32
    ensures asks { Asks A.meets found 32 absorber.old result absorber.new }
    ensures part { IsPart result found }
{
    let mut failed = 0;
    for kind in 0..32 {
        if found >> kind & 1 == 1 && !absorber.take_kind(kind) {
            failed |= 1 << kind;
        }
    }
    failed
}

// Puts the kinds that failed back into the own mask, from the lowest.
fn put_back<K: Kinds>(table: &SigTable<K>, seat: &mut SigSeat, own: ProcNo, failed: u64)
    requires table { seat.old.table_id ≡ table.now.table_id }
    requires own { (seat.old.view.own ≡ Some own) × (own < table.now.procs) }
    requires failed { (0 < failed) × (failed < 2 ^ 32) }
    requires place { (h : ℕ) × (found : ℕ) × (seat.old.view.place ≡ Some (Taking h found)) × IsPart failed found }
    ensures table { (seat.new.table_id ≡ seat.old.table_id) × (seat.new.id ≡ seat.old.id) }
    ensures back { (h found : ℕ) → seat.old.view.place ≡ Some (Taking h found) → (more : List Made) × PutBack own failed 32 more × (seat.new.view ≡ went seat.old.view more seat.old.view.slot (seat.old.view.absorbed ++ kinds_below 32 (takes found failed))) }
{
    let mut carried = Some(failed);
    for kind in 0..32 {
        if failed >> kind & 1 == 1 {
            table.step(seat, SigStep::Mor(own, kind, carried));
            table.step(seat, SigStep::Pend(own));
            carried = None;
        }
    }
}
