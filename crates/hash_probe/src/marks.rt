//! What a worker has to say of its probing, and how it hears that it is to stop.
ghost use Rattle.std.specs.Prelude.{◌≡◌, ◌<◌, ◌≤◌, ◌+◌, true, false, suc, [], None};
ghost use Rattle.signal_core.specs.Machine.{IsJoined};
ghost use Rattle.join_party.specs.declared.party.HashParty.{HashParty};
ghost use Rattle.hash_probe.specs.Marks.{IsUnmarked, Says, most_pairs};
ghost use Rattle.hash_probe.specs.Signals.{TellsOver, swaps};
ghost use Rattle.hash_probe.specs.Working.{IsAwake, StaysAttached};

use crate::Probed;
use generation_barrier::{Absorb, Absorber, absorb, publish_notice};
use join_party::{JoinKinds, JoinSeats, JoinTables};
use proc_signal::emit;
use signal_core::{SigSeat, SigTable};
use std::sync::Wait;

// The kind that tells all workers to stop.
const STOP: u32 = 0;

// The count of all pairs that no join may pass.
pub(crate) const MOST_PAIRS: u64 = 4_194_304;

// Takes every kind, and knows whether STOP was among them.
#[derive(Drop)]
struct StopOrder {
    stop: bool,
}

impl Absorber for StopOrder {
    ghost use Rattle.hash_probe.specs.Signals.{takes_order};

    ghost meets = { takes_order };

    fn take_kind(&mut self, kind: u32) -> bool {
        if kind == STOP {
            self.stop = true;
        }
        true
    }
}

impl Probed {
    // Whether it goes on to probe the rows that it takes.
    pub(crate) fn goes_on(&self) -> bool
        ensures yes { result ≡ true → IsUnmarked self.now }
        ensures no { result ≡ false → IsUnmarked self.now → ⊥ }
    {
        self.over.is_none() && self.stopped.is_none() && !self.out_of_memory
    }
}

// Absorbs what was emitted to the own slot. Whether it published.
fn hear(table: &SigTable<JoinKinds>, seat: &mut SigSeat, marks: &mut Probed) -> bool
    requires table { seat.old.table_id ≡ table.now.table_id }
    requires slot { (seat.old.view.place ≡ None) × IsJoined seat.old.view.slot }
    ensures table { (seat.new.table_id ≡ seat.old.table_id) × (seat.new.id ≡ seat.old.id) }
    ensures slot { (seat.new.view.place ≡ None) × IsJoined seat.new.view.slot }
    ensures says { (p : HashParty) → Says p table.now.procs [] [] marks.old marks.new seat.old.view seat.new.view }
    ensures looked { suc (swaps seat.old.view.steps) ≤ swaps seat.new.view.steps }
{
    let mut order = StopOrder { stop: false };
    let Absorb::Published { generation } = absorb(table, seat, &mut order) else {
        return false;
    };
    if order.stop {
        marks.stopped = Some(generation);
    }
    true
}

// Absorbs what was emitted to the own slot, and gives notice where it published.
pub(crate) fn heed<'r, R: Wait>(
    rt: &R,
    tables: &JoinTables<'r>,
    seats: &mut JoinSeats<'r>,
    marks: &mut Probed,
)
    requires awake { IsAwake tables.now seats.old }
    ensures awake { IsAwake tables.now seats.new × (seats.new.wait.id ≡ seats.old.wait.id) }
    ensures client { seats.new.wait.view.client ≡ seats.old.wait.view.client }
    ensures stays { StaysAttached seats.old.wait.view seats.new.wait.view }
    ensures lock { seats.new.lock ≡ seats.old.lock }
    ensures says { Says tables.now.waits.party tables.now.signals.procs [] [] marks.old marks.new seats.old.signal.view seats.new.signal.view }
    ensures looked { suc (swaps seats.old.signal.view.steps) ≤ swaps seats.new.signal.view.steps }
{
    if hear(&tables.signals, &mut seats.signal, marks) {
        publish_notice(
            rt,
            &tables.signals,
            &seats.signal,
            &tables.waits,
            &mut seats.wait,
        );
    }
}

// Tells all workers to stop, since this is the count of pairs. Where no emission has a generation left
// it goes on without one.
pub(crate) fn tell_over<'r>(tables: &JoinTables<'r>, seats: &mut JoinSeats<'r>, count: u64)
    requires table { seats.old.signal.table_id ≡ tables.now.signals.table_id }
    requires slot { (seats.old.signal.view.place ≡ None) × IsJoined seats.old.signal.view.slot }
    requires count { most_pairs < count }
    ensures table { (seats.new.signal.table_id ≡ seats.old.signal.table_id) × (seats.new.wait ≡ seats.old.wait) × (seats.new.lock ≡ seats.old.lock) }
    ensures slot { (seats.new.signal.view.place ≡ None) × IsJoined seats.new.signal.view.slot }
    ensures tells { TellsOver tables.now.signals.procs count seats.old.signal.view seats.new.signal.view }
    ensures unheard { seats.new.signal.view.absorbed ≡ seats.old.signal.view.absorbed }
{
    let _generation = emit(&tables.signals, &mut seats.signal, STOP, count);
}
