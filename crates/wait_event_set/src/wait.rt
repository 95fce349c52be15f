//! Waiting for a set, and looking at one.
ghost use Rattle.std.specs.Prelude.{◌≡◌, ◌<◌, ℕ, [], ◌∷◌, List, Some, length, MatchOption, if◌then◌else◌};
ghost use Rattle.wait_core.specs.declared.view.Made.{Made};
ghost use Rattle.wait_core.specs.Machine.{made};
ghost use Rattle.latch.specs.Reads.{later, ReadShutdown};
ghost use Rattle.wait_event_set.specs.Calls.{load_of, LooksAt, LooksOnce, SetWaits, WaitsForShutdown};
ghost use Rattle.wait_event_set.specs.Members.{FirstAt, NoneSuch};
ghost use Rattle.wait_event_set.specs.Occurs.{Reports, Occurs, ReadEvent, NotReady, NothingReady};

use crate::set::{Event, EventSet};
use latch::{Woke, latch_is_set, read_shutdown, wait_latch, wait_latch_only};
use proc_table::ProcNo;
use std::sync::Wait;
use wait_core::{Party, WaitSeat, WaitTable};

/// A member that was ready: its position, the user's number and the event's flag.
#[derive(Debug, Clone, Copy, PartialEq, Eq)]
pub struct Occurred {
    pub position: u32,
    pub user: u32,
    pub flags: u32,
}

impl EventSet {
    /// Waits until a member is ready (`WaitEventSetWait`). The latch is looked at first, and of
    /// several shutdown members the first is reported.
    pub fn wait<P: Party, R: Wait>(
        &self,
        rt: &R,
        table: &WaitTable<P>,
        seat: &mut WaitSeat<P>,
    ) -> Occurred
        requires members { 0 < length self.now }
        requires table { seat.old.table_id ≡ table.now.table_id }
        requires place { seat.old.view.place ≡ [] }
        ensures table { (seat.new.table_id ≡ seat.old.table_id) × (seat.new.id ≡ seat.old.id) }
        ensures occurred { (p : ℕ) × (more : List Made) × (seat.old.view.own ≡ Some p) × (seat.new.view ≡ later seat.old.view more) × Occurs p self.now result more }
        ensures calls { (p : ℕ) × (more : List Made) × (seat.old.view.own ≡ Some p) × (seat.new.view ≡ later seat.old.view more) × SetWaits p self.now more }
    {
        let own = seat.proc();
        match (self.first(Event::Latch), self.first(Event::Shutdown)) {
            (Some(at), None) => {
                wait_latch_only(rt, table, seat);
                self.occurred(Event::Latch, at)
            }
            (Some(at), Some(stop)) => match wait_latch(rt, table, seat) {
                Woke::LatchSet => self.occurred(Event::Latch, at),
                Woke::Shutdown => self.occurred(Event::Shutdown, stop),
            },
            (None, Some(stop)) => {
                wait_shutdown(rt, table, seat, own);
                self.occurred(Event::Shutdown, stop)
            }
            (None, None) => unreachable!(),
        }
    }

    /// Looks at each member once, at the latch first. None where no member was ready.
    pub fn poll<P: Party>(&self, table: &WaitTable<P>, seat: &mut WaitSeat<P>) -> Option<Occurred>
        requires table { seat.old.table_id ≡ table.now.table_id }
        requires place { seat.old.view.place ≡ [] }
        ensures table { (seat.new.table_id ≡ seat.old.table_id) × (seat.new.id ≡ seat.old.id) }
        ensures occurred { (p : ℕ) × (more : List Made) × (seat.old.view.own ≡ Some p) × (seat.new.view ≡ later seat.old.view more) × MatchOption result (NothingReady p self.now more) (λ o. Occurs p self.now o more) }
        ensures calls { (p : ℕ) × (more : List Made) × (seat.old.view.own ≡ Some p) × (seat.new.view ≡ later seat.old.view more) × LooksOnce p self.now more }
    {
        let own = seat.proc();
        if let Some(occurred) = self.poll_event(Event::Latch, table, seat, own) {
            return Some(occurred);
        }
        self.poll_event(Event::Shutdown, table, seat, own)
    }

    // Looks at this event once, where the set has it.
    fn poll_event<P: Party>(
        &self,
        event: Event,
        table: &WaitTable<P>,
        seat: &mut WaitSeat<P>,
        own: ProcNo,
    ) -> Option<Occurred>
        requires table { seat.old.table_id ≡ table.now.table_id }
        requires own { seat.old.view.own ≡ Some own }
        requires place { seat.old.view.place ≡ [] }
        ensures table { (seat.new.table_id ≡ seat.old.table_id) × (seat.new.id ≡ seat.old.id) }
        ensures read { (more : List Made) × (seat.new.view ≡ later seat.old.view more) × MatchOption result (NotReady own event self.now more) (λ o. Reports event self.now o × ReadEvent own event 1 more) × LooksAt own event self.now more }
    {
        let Some(at) = self.first(event) else {
            return None;
        };
        if !read(event, table, seat, own) {
            return None;
        }
        Some(self.occurred(event, at))
    }

    // The report of the first member with this event, which stands here.
    fn occurred(&self, event: Event, at: u32) -> Occurred
        requires { FirstAt event self.now at }
        ensures { Reports event self.now result }
    {
        let member = self.member(at);
        Occurred {
            position: at,
            user: member.user,
            flags: event.flag(),
        }
    }
}

// What one load of the event's word read.
fn read<P: Party>(event: Event, table: &WaitTable<P>, seat: &mut WaitSeat<P>, own: ProcNo) -> bool
    requires table { seat.old.table_id ≡ table.now.table_id }
    requires own { seat.old.view.own ≡ Some own }
    requires place { seat.old.view.place ≡ [] }
    ensures table { (seat.new.table_id ≡ seat.old.table_id) × (seat.new.id ≡ seat.old.id) }
    ensures read { (more : List Made) × (more ≡ made (load_of own event) (if result then 1 else 0) ∷ []) × (seat.new.view ≡ later seat.old.view more) × ReadEvent own event (if result then 1 else 0) more }
{
    match event {
        Event::Latch => latch_is_set(table, seat),
        Event::Shutdown => read_shutdown(table, seat),
    }
}

// Waits for a shutdown alone. A wait ends where the latch is set too, and then the shutdown word is
// looked at once more.
fn wait_shutdown<P: Party, R: Wait>(
    rt: &R,
    table: &WaitTable<P>,
    seat: &mut WaitSeat<P>,
    own: ProcNo,
)
    requires table { seat.old.table_id ≡ table.now.table_id }
    requires own { seat.old.view.own ≡ Some own }
    requires place { seat.old.view.place ≡ [] }
    ensures table { (seat.new.table_id ≡ seat.old.table_id) × (seat.new.id ≡ seat.old.id) }
    ensures stopped { (more : List Made) × (seat.new.view ≡ later seat.old.view more) × ReadShutdown 1 more × WaitsForShutdown own more }
{
    for _ in rt.forever() {
        if let Woke::Shutdown = wait_latch(rt, table, seat) {
            return;
        }
        if read_shutdown(table, seat) {
            return;
        }
    }
    unreachable!()
}
