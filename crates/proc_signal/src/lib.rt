//! Signals between backends: each joins a slot of its own, and anybody emits a kind to all
//! (PostgreSQL's `procsignal.c`).
#![tactic(auto)]

ghost use Rattle.std.specs.Prelude.{◌≡◌, ◌<◌, ℕ, None, Some, List, MatchResult};
ghost use Rattle.signal_core.specs.declared.view.Frame.TheVariants.{Posting, Telling};
ghost use Rattle.signal_core.specs.declared.view.Made.{Made};
ghost use Rattle.signal_core.specs.Seats.{about_of};
ghost use Rattle.proc_signal.specs.Signals.{went, joined_at, IsJoinedSlot, Posted, Told, IsEmitted, IsWorn, posting};

use proc_table::{ProcNo, Worn};
use signal_core::{Call, Kinds, SigSeat, SigStep, SigTable};

/// Joins the own slot (`ProcSignalInit`), and answers the generation that it has published from now
/// on: the header, read after the mask was cleared.
pub fn join_slot<K: Kinds>(table: &SigTable<K>, seat: &mut SigSeat) -> u64
    requires table { seat.old.table_id ≡ table.now.table_id }
    requires place { (seat.old.view.place ≡ None) × (seat.old.view.slot ≡ None) }
    ensures table { (seat.new.table_id ≡ seat.old.table_id) × (seat.new.id ≡ seat.old.id) }
    ensures place { (seat.new.view.place ≡ None) × (seat.new.view.slot ≡ joined_at result) }
    ensures joined { (p : ℕ) × (seat.old.view.own ≡ Some p) × IsJoinedSlot p result seat.old.view seat.new.view }
{
    let own = table.proc_of(seat);
    table.step(seat, SigStep::Mswap(Some(Call::Join)));
    let generation = table.step(seat, SigStep::Hload(None)).old;
    table.step(seat, SigStep::Gstore(generation, None));
    table.step(seat, SigStep::Pstore(u64::from(own.number()) + 1));
    generation
}

/// Emits the kind to every slot (`EmitProcSignalBarrier`), with a number that shows what it stands
/// for, and answers its generation. Worn exactly where the header was read at 2^62 or more, before
/// any post.
pub fn emit<K: Kinds>(
    table: &SigTable<K>,
    seat: &mut SigSeat,
    kind: u32,
    number: u64,
) -> Result<u64, Worn>
    requires table { seat.old.table_id ≡ table.now.table_id }
    requires place { seat.old.view.place ≡ None }
    requires kind { (kind < 32) × K.shows kind number }
    ensures table { (seat.new.table_id ≡ seat.old.table_id) × (seat.new.id ≡ seat.old.id) }
    ensures place { (seat.new.view.place ≡ None) × (seat.new.view.slot ≡ seat.old.view.slot) }
    ensures emitted { MatchResult result (λ g. IsEmitted table.now.procs kind number seat.old.view g seat.new.view) (λ e. IsWorn kind number seat.old.view e.at seat.new.view) }
{
    let header = table
        .step(seat, SigStep::Hload(Some(Call::Emit(kind, number))))
        .old;
    if header >= 0x4000_0000_0000_0000 {
        return Err(Worn { at: header });
    }
    post_everywhere(table, seat, kind, number);
    let generation = table.step(seat, SigStep::Hadd).old + 1;
    tell_everybody(table, seat);
    Ok(generation)
}

// Posts the kind at each slot.
fn post_everywhere<K: Kinds>(table: &SigTable<K>, seat: &mut SigSeat, kind: u32, number: u64)
    requires table { seat.old.table_id ≡ table.now.table_id }
    requires kind { kind < 32 }
    requires place { seat.old.view.place ≡ Some (Posting kind number 0) }
    ensures table { (seat.new.table_id ≡ seat.old.table_id) × (seat.new.id ≡ seat.old.id) }
    ensures posted { (posts : List Made) × Posted kind table.now.procs posts × (seat.new.view ≡ record (went seat.old.view posts seat.old.view.slot seat.old.view.emissions) { place = posting (about_of table.now) kind number table.now.procs }) }
{
    for q in 0..table.procs() {
        let Some(q) = ProcNo::new(q) else {
            unreachable!()
        };
        table.step(seat, SigStep::Mor(q, kind, None));
    }
}

// Tells each backend that has joined its slot.
fn tell_everybody<K: Kinds>(table: &SigTable<K>, seat: &mut SigSeat)
    requires table { seat.old.table_id ≡ table.now.table_id }
    requires place { seat.old.view.place ≡ Some (Telling 0) }
    ensures table { (seat.new.table_id ≡ seat.old.table_id) × (seat.new.id ≡ seat.old.id) }
    ensures told { (tells : List Made) × Told table.now.procs tells × (seat.new.view ≡ went seat.old.view tells seat.old.view.slot seat.old.view.emissions) }
{
    for q in 0..table.procs() {
        let Some(q) = ProcNo::new(q) else {
            unreachable!()
        };
        if table.step(seat, SigStep::Pload(q)).old != 0 {
            table.step(seat, SigStep::Pend(q));
        }
    }
}
