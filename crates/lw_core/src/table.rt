//! A table of locks.
ghost use Rattle.std.specs.Prelude.{◌≡◌, ◌↔◌, ℕ, ◌+◌, ◌<◌, ◌≤◌, ◌*◌, None, Some, IsSome, IsOk, IsErr, IfOk, IfErr, OnOk, OnErr, List, [], length, true, false};
ghost use Rattle.proc_table.specs.declared.Mode.{Mode};
ghost use Rattle.proc_table.specs.declared.Mode.TheVariants.{Exclusive};
ghost use Rattle.lw_core.specs.declared.step.GuardOp.TheVariants as guard;
ghost use Rattle.lw_core.specs.declared.step.LwStep.TheVariants.{Guard};
ghost use Rattle.lw_core.specs.declared.view.Frame.TheVariants.{Asleep};
ghost use Rattle.lw_core.specs.Ops.{about};
ghost use Rattle.lw_core.specs.Told.{KnowsAll, Tells, does};
ghost use Rattle.lw_core.specs.Sending.{HasSlot, IsApart, IsSending, IsTaking, ListAfter, SendsHome};
ghost use Rattle.lw_core.specs.Runs.{drew_one, stays, both};
ghost use Rattle.lw_core.specs.Closing.{Ends, size_of};
ghost use Rattle.lw_core.specs.Machine.{IsInRange, top, HoldsNothing, hold_in, known_at, learnt, written, mode_in, Allowed, next, exchanges, fresh};

use crate::closed::LwClosed;
use crate::rule::{Doing, DrawsOne, Guarded, Looks, LwRule, Newcomer, TakesIn};
use crate::seat::{LwSeat, keep_mode};
use crate::step::{GuardOp, LwSeen, LwStep};
use crate::turn::turn;
use crate::view::{Size, View, Waiters};
use crate::words::{LOCKED, opening_lists, opening_words};
use arrayvec::ArrayVec;
use atomic_table::{Seat, Table};
use proc_table::{LockNo, Mode, NoMemory, NoMoreProcs, ProcNo};
use std::alloc::Global;
use std::marker::{Brand, Model};
use std::mem;
use std::sync::Wait;

/// A table of locks. To a contract it is its name and its numbers of locks and backends.
#[derive(Drop)]
pub struct LwTable<G: Guarded> {
    table: Table<Waiters, View, Size, LwRule<G>, Global>,
    size: Size,
}

impl<G: Guarded> Model for LwTable<G> {
    ghost use Rattle.lw_core.specs.Seats.{TableView, IsTabled, table_view};

    ghost Value = { TableView };

    ghost view = { λ t. table_view t.table.shared.table_id t.size };

    ghost invariant = { λ t. IsTabled t.table.shared.table_id t.table.shared.key t.size };
}

impl<G: Guarded> LwTable<G> {
    /// A table of 1 to 200 locks for 1 to 64 backends, and seat 0. Its guarded words are 0.
    pub fn new(alloc: Global, locks: u32, procs: u32) -> Result<(LwTable<G>, LwSeat), NoMemory>
        requires locks { (0 < locks) × (locks ≤ 200) }
        requires procs { (0 < procs) × (procs ≤ 64) }
        ensures table { IfOk result (λ t. (t.0.locks ≡ locks) × (t.0.procs ≡ procs)) }
        ensures seat { IfOk result (λ t. (t.1.table_id ≡ t.0.table_id)
            × (t.1.view ≡ fresh (Some 0))) }
        ensures empty { IfOk result (λ t. HoldsNothing t.1.view) }
    {
        let size = Size { locks, procs };
        let words = opening_words(alloc, size)?;
        let lists = opening_lists(alloc, locks)?;
        let Ok((table, seat)) = Table::new(alloc, words.as_slice(), lists, &size) else {
            return Err(NoMemory);
        };
        let Some(number) = ProcNo::new(0) else {
            unreachable!()
        };
        let table = LwTable { table, size };
        Ok((table, LwSeat::new(seat, number)))
    }

    /// The number of backends that the table has room for.
    pub fn procs(&self) -> u32
        ensures { result ≡ self.now.procs }
    {
        self.size.procs
    }

    /// The backend's number, which is below the number of backends.
    pub fn proc_of(&self, seat: &LwSeat) -> ProcNo
        requires { seat.now.table_id ≡ self.now.table_id }
        ensures own { seat.now.view.own ≡ Some result }
        ensures inside { result < self.now.procs }
    {
        prove!(seat.number.number() < self.size.procs);
        seat.number
    }

    /// Draws the next number for a new seat; `from` is seat 0. Refused exactly where all numbers
    /// are drawn.
    pub fn seat(&self, from: &mut LwSeat) -> Result<LwSeat, NoMoreProcs>
        requires table { from.old.table_id ≡ self.now.table_id }
        requires zero { from.old.view.own ≡ Some 0 }
        ensures table { (from.new.table_id ≡ from.old.table_id) × (from.new.id ≡ from.old.id) }
        ensures ok { IsOk result ↔ (from.old.view.drawn + 1 < self.now.procs) }
        ensures seat { IfOk result (λ s. (s.table_id ≡ from.old.table_id)
            × (s.view ≡ fresh (Some (from.old.view.drawn + 1)))) }
        ensures empty { IfOk result (λ s. HoldsNothing s.view) }
        ensures drew { OnOk result (from.new.view ≡ stays (drew_one from.old.view)) }
        ensures refused { IfErr result (λ e. (e.drawn ≡ self.now.procs)
            × (e.drawn ≡ from.old.view.drawn + 1)) }
        ensures as_before { OnErr result (from.new.view ≡ from.old.view) }
        ensures list { from.new.list ≡ from.old.list }
    {
        let shared = &self.table.shared;
        let next = self.next_number::<Brand>(&mut from.seat);
        if next >= u64::from(self.size.procs) {
            return Err(NoMoreProcs { drawn: next });
        }
        let Some(number) = ProcNo::new(next as u32) else {
            unreachable!()
        };
        shared.fetch_add::<DrawsOne>(&mut from.seat, 0, 1);
        let seat = shared.split_seat::<Newcomer>(&mut from.seat);
        Ok(LwSeat::new(seat, number))
    }

    // The next number, which seat 0 may draw.
    fn next_number<K: Doing>(&self, from: &mut Seat<Waiters, View>) -> u64
        requires table { from.old.table_id ≡ self.now.table_id }
        requires zero { from.old.me.0.own ≡ Some 0 }
        requires size { K.size ≡ size_of self.now }
        ensures table { (from.new.table_id ≡ from.old.table_id) × (from.new.id ≡ from.old.id) }
        ensures seat { from.new.me ≡ from.old.me }
        ensures next { result ≡ from.old.me.0.drawn + 1 }
        ensures few { result ≤ self.now.procs }
    {
        self.table.shared.load::<Looks<K>>(from, 0)
    }

    /// Makes one step on one word. It answers the word before it, and whether an exchange took
    /// place; an exchange that didn't is a retry. A step that sets LOCKED where it wasn't set takes
    /// the lock's list in hand; one that clears it sends the list home as the seat changed it.
    #[inline(always)]
    pub fn step(&self, seat: &mut LwSeat, step: LwStep) -> LwSeen
        requires table { seat.old.table_id ≡ self.now.table_id }
        requires range { IsInRange (size_of self.now) step }
        requires allowed { Allowed G.lawful step seat.old.view }
        requires list { SendsHome step seat.old.view seat.old.list }
        ensures table { (seat.new.table_id ≡ seat.old.table_id) × (seat.new.id ≡ seat.old.id) }
        ensures view { seat.new.view ≡ next step seat.old.view result.old seat.new.list }
        ensures list { ListAfter step result.old seat.old.list seat.new.list }
        ensures changed { result.changed ≡ exchanges step result.old }
        ensures told { Tells G.lawful (size_of self.now) step seat.old.view result.old seat.new.list }
        ensures holds { length seat.new.view.holds ≡ 200 }
        ensures few { self.now.procs ≤ 64 }
    {
        let old = match step {
            LwStep::Lock(lock, _) => self.take_list(seat, lock, step),
            LwStep::Unlock(lock, _) => self.send_list(seat, lock, step),
            LwStep::Wake(lock, _, _) => self.send_list(seat, lock, step),
            _ => self.step_apart(seat, step),
        };
        LwSeen {
            old,
            changed: step.exchanges(old),
        }
    }

    // Makes the step on its word. The slot of a list that goes home has it already.
    #[inline(always)]
    fn make<K: Doing>(&self, seat: &mut Seat<Waiters, View>, own: ProcNo, step: LwStep) -> u64
        requires table { seat.old.table_id ≡ self.now.table_id }
        requires inside { 2 + 6 * seat.old.table_id.slots + 2 * own < seat.old.table_id.words }
        requires range { IsInRange (size_of self.now) step }
        requires allowed { Allowed G.lawful step seat.old.me.0 }
        requires own { seat.old.me.0.own ≡ Some own }
        requires carried { HasSlot step seat.old.me.0 seat.old.me.1 }
        requires doing { (K.size ≡ size_of self.now) × (K.step ≡ step) }
        ensures table { (seat.new.table_id ≡ seat.old.table_id) × (seat.new.id ≡ seat.old.id) }
        ensures told { does G.lawful (size_of self.now) step about seat.old.me result seat.new.me }
        ensures few { self.now.procs ≤ 64 }
    {
        let word = step.word(self.size, own);
        turn::<K, G>(&self.table.shared, seat, word, step.op())
    }

    // Sets LOCKED. Where it wasn't set the list leaves its slot.
    #[inline(never)]
    fn take_list(&self, seat: &mut LwSeat, lock: LockNo, step: LwStep) -> u64
        requires table { seat.old.table_id ≡ self.now.table_id }
        requires range { lock < self.now.locks }
        requires step { IsTaking lock step }
        requires allowed { Allowed G.lawful step seat.old.view }
        ensures table { (seat.new.table_id ≡ seat.old.table_id) × (seat.new.id ≡ seat.old.id) }
        ensures view { seat.new.view ≡ next step seat.old.view result seat.new.list }
        ensures list { ListAfter step result seat.old.list seat.new.list }
        ensures told { Tells G.lawful (size_of self.now) step seat.old.view result seat.new.list }
        ensures holds { length seat.new.view.holds ≡ 200 }
        ensures few { self.now.procs ≤ 64 }
    {
        let slot = lock.number() as usize;
        let old = self.make::<Brand>(&mut seat.seat, seat.number, step);
        if old / LOCKED % 2 == 0 {
            seat.list.items = self
                .table
                .shared
                .exchange(&mut seat.seat, slot, ArrayVec::new());
        }
        old
    }

    // Puts the list into its slot and makes a step that frees it. Where an exchange fails the list
    // is in hand again.
    #[inline(never)]
    fn send_list(&self, seat: &mut LwSeat, lock: LockNo, step: LwStep) -> u64
        requires table { seat.old.table_id ≡ self.now.table_id }
        requires range { lock < self.now.locks }
        requires step { IsSending lock step }
        requires allowed { Allowed G.lawful step seat.old.view }
        requires list { SendsHome step seat.old.view seat.old.list }
        ensures table { (seat.new.table_id ≡ seat.old.table_id) × (seat.new.id ≡ seat.old.id) }
        ensures view { seat.new.view ≡ next step seat.old.view result seat.new.list }
        ensures list { ListAfter step result seat.old.list seat.new.list }
        ensures told { Tells G.lawful (size_of self.now) step seat.old.view result seat.new.list }
        ensures holds { length seat.new.view.holds ≡ 200 }
        ensures few { self.now.procs ≤ 64 }
    {
        let slot = lock.number() as usize;
        let list = mem::replace(&mut seat.list.items, ArrayVec::new());
        self.table.shared.exchange(&mut seat.seat, slot, list);
        let old = self.make::<Brand>(&mut seat.seat, seat.number, step);
        if !step.exchanges(old) {
            seat.list.items = self
                .table
                .shared
                .exchange(&mut seat.seat, slot, ArrayVec::new());
        }
        old
    }

    // Makes a step that moves no list.
    #[inline(always)]
    fn step_apart(&self, seat: &mut LwSeat, step: LwStep) -> u64
        requires table { seat.old.table_id ≡ self.now.table_id }
        requires range { IsInRange (size_of self.now) step }
        requires apart { IsApart step }
        requires allowed { Allowed G.lawful step seat.old.view }
        ensures table { (seat.new.table_id ≡ seat.old.table_id) × (seat.new.id ≡ seat.old.id) }
        ensures view { seat.new.view ≡ next step seat.old.view result seat.new.list }
        ensures list { seat.new.list ≡ seat.old.list }
        ensures told { Tells G.lawful (size_of self.now) step seat.old.view result seat.new.list }
        ensures holds { length seat.new.view.holds ≡ 200 }
        ensures few { self.now.procs ≤ 64 }
    {
        let old = self.make::<Brand>(&mut seat.seat, seat.number, step);
        keep_mode(&mut seat.modes, &step, old);
        seat.pokes += step.pokes();
        if let LwStep::Down = step {
            seat.backoff.reset();
        }
        old
    }

    /// Gives way for a moment, where the seat's last look at its semaphore read 0. It changes
    /// nothing; the caller looks again.
    pub fn park<R: Wait>(&self, _rt: &R, seat: &mut LwSeat)
        requires table { seat.old.table_id ≡ self.now.table_id }
        requires asleep { top seat.old.view.place ≡ Some Asleep }
        ensures { seat.new ≡ seat.old }
    {
        seat.backoff.snooze();
    }

    /// Reads one of the four words of a lock that is held.
    pub fn read_word(&self, seat: &mut LwSeat, lock: LockNo, at: u32) -> u64
        requires table { seat.old.table_id ≡ self.now.table_id }
        requires lock { (lock < self.now.locks) × (at < 4) }
        requires held { (seat.old.view.place ≡ []) × IsSome (mode_in lock seat.old.view) }
        ensures table { (seat.new.table_id ≡ seat.old.table_id) × (seat.new.id ≡ seat.old.id) }
        ensures view { seat.new.view ≡ next (Guard lock at guard.Load) seat.old.view result [] }
        ensures hold { hold_in lock seat.new.view ≡ learnt (hold_in lock seat.old.view) at result }
        ensures same { (n : ℕ) → known_at (hold_in lock seat.old.view) at ≡ Some n → result ≡ n }
        ensures known { known_at (hold_in lock seat.new.view) at ≡ Some result }
        ensures lawful { (hold_in lock seat.new.view).wrote ≡ false → (words : List ℕ)
            → KnowsAll (hold_in lock seat.new.view) words → G.lawful lock words }
    {
        self.step(seat, LwStep::Guard(lock, at, GuardOp::Load)).old
    }

    /// Writes one of the four words of a lock that is held exclusively.
    pub fn write_word(&self, seat: &mut LwSeat, lock: LockNo, at: u32, value: u64)
        requires table { seat.old.table_id ≡ self.now.table_id }
        requires lock { (lock < self.now.locks) × (at < 4) }
        requires held { (seat.old.view.place ≡ []) × (mode_in lock seat.old.view ≡ Some Exclusive) }
        ensures table { (seat.new.table_id ≡ seat.old.table_id) × (seat.new.id ≡ seat.old.id) }
        ensures view { (n : ℕ) × (seat.new.view ≡ next (Guard lock at (guard.Store value)) seat.old.view n []) }
        ensures hold { hold_in lock seat.new.view ≡ written (hold_in lock seat.old.view) at value }
        ensures known { known_at (hold_in lock seat.new.view) at ≡ Some value }
    {
        self.step(seat, LwStep::Guard(lock, at, GuardOp::Store(value)));
    }

    /// Takes in another seat, whose number isn't given again.
    pub fn join(&self, into: &mut LwSeat, from: LwSeat)
        requires table { (into.old.table_id ≡ self.now.table_id)
            × (from.table_id ≡ self.now.table_id) }
        requires idle { from.view.place ≡ [] }
        requires empty { HoldsNothing from.view }
        ensures table { (into.new.table_id ≡ into.old.table_id) × (into.new.id ≡ into.old.id) }
        ensures view { into.new.view ≡ both into.old.view from.view }
        ensures list { into.new.list ≡ into.old.list }
    {
        let LwSeat {
            seat,
            number: _,
            modes: _,
            list: _,
            pokes: _,
            backoff: _,
        } = from;
        self.table.shared.join_seat::<TakesIn>(&mut into.seat, seat);
    }

    /// Ends the table, with the last seat.
    pub fn close(self, seat: LwSeat) -> LwClosed
        requires table { seat.table_id ≡ self.table_id }
        requires idle { seat.view.place ≡ [] }
        requires empty { HoldsNothing seat.view }
        ensures { Ends G.lawful self seat result }
    {
        let LwTable { table, size } = self;
        let LwSeat {
            seat,
            number: _,
            modes: _,
            list: _,
            pokes: _,
            backoff: _,
        } = seat;
        LwClosed {
            closed: table.close_with(seat),
            size,
        }
    }
}
