//! A table and the calls on it.
ghost use Rattle.std.specs.Prelude.{◌≡◌, ◌<◌, ◌≤◌, ◌+◌, ◌^◌, None, Some, [], ◌∷◌, IfOk, MatchResult, length, true};
ghost use Rattle.wait_core.specs.Ops.{op_at, op_gives, op_writes};
ghost use Rattle.wait_core.specs.Words.{client_base, opened, opening_phases, set_at, may_at, byte_at, shut_at, opening_words};
ghost use Rattle.wait_core.specs.Machine.{word_of, writes, as_kept, next_with, number_of, Allowed, top};
ghost use Rattle.wait_core.specs.Parties.{newcomer};
ghost use Rattle.wait_core.specs.Places.{is_asleep};
ghost use Rattle.wait_core.specs.Seating.{party_of, fresh, client_moved, after_draw, stays, took_in};
ghost use Rattle.wait_core.specs.Told.{Tells, TellsBarrier, Turns, Cuts};
ghost use Rattle.wait_core.specs.Barriers.{StepSuits, waits_at};
ghost use Rattle.wait_core.specs.Stances.{belongs_at};
ghost use Rattle.wait_core.specs.Sending.{SendsHome, ListAfter, IsTaking, IsFreeing, IsApart};
ghost use Rattle.wait_core.specs.Closing.{Ends, Stood};
ghost use Rattle.wait_core.specs.Seats.{size_of};

use crate::closed::WaitClosed;
use crate::opening::{opening_homes, opening_row};
use crate::party::{ClientOp, Party};
use crate::rule::{About, Coming, Does, Doing, Draws, Newcomer, TakesIn, WaitRule};
use crate::seat::WaitSeat;
use crate::step::{WaitSeen, WaitStep};
use crate::view::{Kept, Size, WaitView};
use arrayvec::ArrayVec;
use atomic_table::{Seat, Table};
use proc_table::{NoMemory, NoMoreProcs, ProcNo};
use std::alloc::Global;
use std::marker::{Brand, Model};
use std::mem;
use std::sync::Wait;

type Words<P> = Table<Kept, WaitView<<P as Party>::View>, About<P>, WaitRule<P>, Global>;

/// A table of latches, conditions and barriers, and of the words of its client. To a contract it
/// is its name, its client, its numbers of backends, conditions and barriers, and the opening
/// phase.
#[derive(Drop)]
pub struct WaitTable<P: Party> {
    table: Words<P>,
    about: About<P>,
}

impl<P: Party> Model for WaitTable<P> {
    ghost use Rattle.std.specs.Prelude.{◌≡◌};
    ghost use Rattle.wait_core.specs.Seats.{TableView, IsTabled, table_view};

    ghost Value = { TableView P };

    ghost view = { λ t. table_view t.table.shared.table_id t.about.party t.about.size t.about.phase };

    ghost invariant = { λ t. (t.table.shared.key ≡ t.about) × IsTabled t.table.shared.table_id t.about.size t.about.count };
}

impl<P: Party> WaitTable<P> {
    /// A table whose barriers all open at `opening_phase`, and its first seat, with the number 0.
    /// The condition b belongs to the barrier b.
    pub fn new(
        alloc: Global,
        party: P,
        procs: u32,
        cvs: u32,
        bars: u32,
        opening_phase: u64,
    ) -> Result<(WaitTable<P>, WaitSeat<P>), NoMemory>
    where
        P: Drop,
        requires procs { (0 < procs) × (procs ≤ 64) }
        requires cvs { (0 < cvs) × (cvs ≤ 160) }
        requires bars { (0 < bars) × (bars ≤ 72) × (bars ≤ cvs) }
        requires phase { opening_phase ≤ 2 ^ 62 }
        requires opening { (P.means party).holds (opened (P.opens party) (P.word_count party)) (newcomer (P.first party) (Some 0) ∷ []) (opening_phases (record { procs = procs; cvs = cvs; bars = bars }) opening_phase) }
        ensures table { IfOk result (λ t. (t.0.party ≡ party) × (t.0.procs ≡ procs) × (t.0.cvs ≡ cvs) × (t.0.bars ≡ bars) × (t.0.phase ≡ opening_phase)) }
        ensures seat { IfOk result (λ t. (t.1.table_id ≡ t.0.table_id) × (t.1.view ≡ fresh (P.first party) (Some 0))) }
    {
        let size = Size { procs, cvs, bars };
        let Some(number) = ProcNo::new(0) else {
            unreachable!()
        };
        let count = party.words();
        let words = opening_row(alloc, &party, size, count)?;
        let homes = opening_homes(alloc, size, opening_phase)?;
        let about = About {
            party,
            size,
            phase: opening_phase,
            count,
        };
        let Ok((table, seat)) = Table::new(alloc, words.as_slice(), homes, &about) else {
            return Err(NoMemory);
        };
        Ok((WaitTable { table, about }, WaitSeat::new(seat, number)))
    }

    /// The client.
    pub fn party(&self) -> &P
        ensures { result.now ≡ self.now.party }
    {
        &self.about.party
    }

    /// The number of backends, 1 to 64.
    pub fn procs(&self) -> u32
        ensures procs { result ≡ self.now.procs }
        ensures range { (0 < result) × (result ≤ 64) }
    {
        self.about.size.procs
    }

    /// Draws the next number for a new seat; only the seat with the number 0 does. Refused exactly
    /// where as many are drawn as there are backends.
    pub fn seat(&self, from: &mut WaitSeat<P>) -> Result<WaitSeat<P>, NoMoreProcs>
        requires table { from.old.table_id ≡ self.now.table_id }
        requires first { from.old.view.own ≡ Some 0 }
        ensures table { (from.new.table_id ≡ from.old.table_id) × (from.new.id ≡ from.old.id) }
        ensures from { MatchResult result (λ _. from.new.view ≡ after_draw from.old.view) (λ _. from.new.view ≡ from.old.view) }
        ensures drawn { MatchResult result (λ s. (from.old.view.drawn + 1 < self.now.procs) × (s.table_id ≡ from.old.table_id) × (s.view ≡ fresh (P.first self.now.party) (Some (from.old.view.drawn + 1)))) (λ e. (e.drawn ≡ self.now.procs) × (e.drawn ≡ from.old.view.drawn + 1)) }
    {
        let look = ClientOp::Load { at: 0 };
        let next = self.make::<Brand, ClientOp>(&mut from.seat, 0, look, &look);
        if next >= u64::from(self.about.size.procs) {
            return Err(NoMoreProcs { drawn: next });
        }
        let Some(number) = ProcNo::new(next as u32) else {
            unreachable!()
        };
        self.table.shared.fetch_add::<Draws>(&mut from.seat, 0, 1);
        let seat = self.split::<Brand>(&mut from.seat);
        Ok(WaitSeat::new(seat, number))
    }

    /// Makes one step on one word, and answers the word before it. Where the step begins a call,
    /// the seat goes on in that call. A step that finds a spin word free takes in hand what it
    /// guards; one that frees a spin word sends it home as the seat changed it. The word becomes what
    /// the step's kind says: the rule accounts for each word by the steps that stand in the views
    /// (`laws::words_are_made`).
    #[inline(always)]
    pub fn step(&self, seat: &mut WaitSeat<P>, step: WaitStep) -> WaitSeen
        requires table { seat.old.table_id ≡ self.now.table_id }
        requires place { Allowed (size_of self.now) step seat.old.view }
        requires client { StepSuits (P.means self.now.party) step seat.old.view }
        requires hand { SendsHome step seat.old }
        ensures table { (seat.new.table_id ≡ seat.old.table_id) × (seat.new.id ≡ seat.old.id) }
        ensures view { seat.new.view ≡ next_with (size_of self.now) step seat.old.view result.old (as_kept seat.new.list seat.new.record) }
        ensures hand { ListAfter step result.old seat.old seat.new }
        ensures changed { result.changed ≡ writes step }
        ensures told { result.old ≤ 1 }
        ensures list { Tells (size_of self.now) step (number_of seat.old.view.own) (belongs_at seat.new.view.target seat.new.view.place) result.old seat.new.list }
        ensures barrier { TellsBarrier (P.means self.now.party) (size_of self.now) self.now.phase (P.word_count self.now.party) step seat.old.id (waits_at seat.old.view.place) (party_of seat.old.view) result.old seat.new.record }
    {
        let changed = step.writes();
        let old = match &step {
            WaitStep::Take(..) => self.take(seat, step),
            WaitStep::Free(..) => self.free(seat, step),
            _ => self.step_apart(seat, step),
        };
        WaitSeen { old, changed }
    }

    // Swaps the spin word with 1. Where it was 0 what it guards leaves its slot.
    #[inline(never)]
    fn take(&self, seat: &mut WaitSeat<P>, step: WaitStep) -> u64
        requires table { seat.old.table_id ≡ self.now.table_id }
        requires step { IsTaking step }
        requires place { Allowed (size_of self.now) step seat.old.view }
        requires client { StepSuits (P.means self.now.party) step seat.old.view }
        ensures table { (seat.new.table_id ≡ seat.old.table_id) × (seat.new.id ≡ seat.old.id) }
        ensures view { seat.new.view ≡ next_with (size_of self.now) step seat.old.view result (as_kept seat.new.list seat.new.record) }
        ensures hand { ListAfter step result seat.old seat.new }
        ensures told { result ≤ 1 }
        ensures list { Tells (size_of self.now) step (number_of seat.old.view.own) (belongs_at seat.new.view.target seat.new.view.place) result seat.new.list }
        ensures barrier { TellsBarrier (P.means self.now.party) (size_of self.now) self.now.phase (P.word_count self.now.party) step seat.old.id (waits_at seat.old.view.place) (party_of seat.old.view) result seat.new.record }
    {
        let _ = &self.table;
        let slot = step.slot();
        let word = self.step_word(step, seat.number);
        let old = self.make::<Brand, WaitStep>(&mut seat.seat, word, step.op(), &step);
        if old == 0 {
            let kept = self
                .table
                .shared
                .exchange(&mut seat.seat, slot, Kept::nothing());
            seat.list.items = kept.list;
            seat.found = kept.record;
        }
        old
    }

    // Puts what is in hand into its slot, and stores 0 into the spin word.
    #[inline(never)]
    fn free(&self, seat: &mut WaitSeat<P>, step: WaitStep) -> u64
        requires table { seat.old.table_id ≡ self.now.table_id }
        requires step { IsFreeing step }
        requires place { Allowed (size_of self.now) step seat.old.view }
        requires hand { SendsHome step seat.old }
        ensures table { (seat.new.table_id ≡ seat.old.table_id) × (seat.new.id ≡ seat.old.id) }
        ensures view { seat.new.view ≡ next_with (size_of self.now) step seat.old.view result (as_kept seat.new.list seat.new.record) }
        ensures hand { ListAfter step result seat.old seat.new }
        ensures told { result ≤ 1 }
    {
        let slot = step.slot();
        let kept = Kept {
            list: mem::replace(&mut seat.list.items, ArrayVec::new()),
            record: seat.found,
        };
        self.table.shared.exchange(&mut seat.seat, slot, kept);
        let word = self.step_word(step, seat.number);
        let old = self.make::<Brand, WaitStep>(&mut seat.seat, word, step.op(), &step);
        seat.target = step.target_then(seat.target);
        old
    }

    // Makes a step on a word that is no spin word to be taken or freed.
    #[inline(always)]
    fn step_apart(&self, seat: &mut WaitSeat<P>, step: WaitStep) -> u64
        requires table { seat.old.table_id ≡ self.now.table_id }
        requires apart { IsApart step }
        requires place { Allowed (size_of self.now) step seat.old.view }
        ensures table { (seat.new.table_id ≡ seat.old.table_id) × (seat.new.id ≡ seat.old.id) }
        ensures view { seat.new.view ≡ next_with (size_of self.now) step seat.old.view result (as_kept seat.new.list seat.new.record) }
        ensures hand { (seat.new.list ≡ seat.old.list) × (seat.new.record ≡ seat.old.record) }
        ensures told { result ≤ 1 }
    {
        let _ = &self.table;
        let word = self.step_word(step, seat.number);
        let old = self.make::<Brand, WaitStep>(&mut seat.seat, word, step.op(), &step);
        if let WaitStep::Drain = step {
            seat.backoff.reset();
        }
        old
    }

    /// Makes one step on one word of the client's.
    #[inline(always)]
    pub fn client(&self, seat: &mut WaitSeat<P>, step: P::Step) -> WaitSeen
        requires table { seat.old.table_id ≡ self.now.table_id }
        requires place { seat.old.view.place ≡ [] }
        requires may { P.may self.now.party (party_of seat.old.view) step }
        ensures table { (seat.new.table_id ≡ seat.old.table_id) × (seat.new.id ≡ seat.old.id) }
        ensures view { seat.new.view ≡ client_moved seat.old.view (P.after self.now.party (party_of seat.old.view) step result.old) }
        ensures stood { Stood (P.means self.now.party) (P.word_count self.now.party) self.now seat.old.id seat.old.view (op_at (P.does self.now.party step)) result.old }
        ensures changed { result.changed ≡ op_writes (P.does self.now.party step) result.old }
    {
        let op = self.about.party.op(step);
        let word = self.client_word(op.at());
        let old = self.make::<Brand, P::Step>(&mut seat.seat, word, op, &step);
        WaitSeen {
            old,
            changed: op.writes(old),
        }
    }

    /// Gives way for a moment, where the seat's last look at its wake byte read 0. It changes
    /// nothing; the caller looks again.
    pub fn park<R: Wait>(&self, _rt: &R, seat: &mut WaitSeat<P>)
        requires table { seat.old.table_id ≡ self.now.table_id }
        requires asleep { is_asleep (top seat.old.view.place) ≡ true }
        ensures { seat.new ≡ seat.old }
    {
        seat.backoff.snooze();
    }

    /// A seat in no call takes in another, whose number isn't given again. The other's elections, the
    /// phases that it waited out and its client view go to it.
    pub fn join(&self, into: &mut WaitSeat<P>, from: WaitSeat<P>)
        requires table { (into.old.table_id ≡ self.now.table_id) × (from.table_id ≡ self.now.table_id) }
        requires into { into.old.view.place ≡ [] }
        requires free { (from.view.place ≡ []) × (from.view.target ≡ None) × (from.view.attached ≡ []) }
        ensures table { (into.new.table_id ≡ into.old.table_id) × (into.new.id ≡ into.old.id) }
        ensures view { into.new.view ≡ took_in P.both into.old.view from.view }
    {
        let WaitSeat {
            seat,
            number: _,
            target: _,
            list: _,
            found: _,
            backoff: _,
        } = from;
        self.table
            .shared
            .join_seat::<TakesIn<P>>(&mut into.seat, seat);
    }

    /// Ends the table, with the last seat.
    pub fn close(self, seat: WaitSeat<P>) -> WaitClosed
    where
        P: Drop,
        requires table { seat.table_id ≡ self.table_id }
        requires free { (seat.view.place ≡ []) × (seat.view.target ≡ None) × (seat.view.attached ≡ []) }
        ensures ends { Ends (P.means self.party) (P.word_count self.party) self seat result }
        ensures size { length result ≡ P.word_count self.party }
    {
        let base = self.client_word(0);
        let WaitTable { table, about: _ } = self;
        let WaitSeat {
            seat,
            number: _,
            target: _,
            list: _,
            found: _,
            backoff: _,
        } = seat;
        WaitClosed {
            closed: table.close_with(seat),
            base,
        }
    }

    // Each step on a word is made here. The call's proof picks what it tells, of the call's arguments.
    fn make<M: Doing<WaitView<P::View>>, X>(
        &self,
        seat: &mut Seat<Kept, WaitView<P::View>>,
        word: usize,
        op: ClientOp,
        _why: &X,
    ) -> u64
        requires table { (seat.old.table_id ≡ self.now.table_id) × (word < self.now.table_id.words) }
        requires told { Turns (P.means self.now.party) (size_of self.now) self.now.phase (P.word_count self.now.party) self.now.table_id.slots seat.old.id seat.old.me word (op_gives op) M.gives }
        ensures table { (seat.new.table_id ≡ seat.old.table_id) × (seat.new.id ≡ seat.old.id) }
        ensures told { M.gives result seat.new.me }
    {
        let shared = &self.table.shared;
        match op {
            ClientOp::Load { at: _ } => shared.load::<Does<M>>(seat, word),
            ClientOp::Store { at: _, value } => shared.swap::<Does<M>>(seat, word, value),
            ClientOp::Add { at: _, by } => shared.fetch_add::<Does<M>>(seat, word, by),
            ClientOp::Or { at: _, bits } => shared.fetch_or::<Does<M>>(seat, word, bits),
            ClientOp::Change { at: _, from, to } => {
                shared.compare_exchange::<Does<M>>(seat, word, from, to)
            }
        }
    }

    fn split<M: Coming<WaitView<P::View>>>(
        &self,
        seat: &mut Seat<Kept, WaitView<P::View>>,
    ) -> Seat<Kept, WaitView<P::View>>
        requires table { (seat.old.table_id ≡ self.now.table_id) × (0 < self.now.table_id.words) }
        requires rule { Cuts (P.means self.now.party) (size_of self.now) self.now.phase (P.word_count self.now.party) seat.old.id seat.old.me.0 (stays seat.old.me.0) (M.right seat.old.me.0) }
        ensures kept { (seat.new.table_id ≡ seat.old.table_id) × (seat.new.id ≡ seat.old.id) × (seat.new.me ≡ (stays seat.old.me.0, seat.old.me.1)) }
        ensures given { (result.table_id ≡ seat.old.table_id) × (result.me ≡ (M.right seat.old.me.0, [])) }
    {
        self.table.shared.split_seat::<Newcomer<M>>(seat)
    }

    // The word of the client that it calls `at`.
    fn client_word(&self, at: u32) -> usize
        ensures { result ≡ client_base (size_of self.now) + at }
    {
        let size = &self.about.size;
        3 * size.procs as usize + 2 + size.slots() as usize + at as usize
    }

    // The word that the step of the backend `own` is on.
    fn step_word(&self, step: WaitStep, own: ProcNo) -> usize
        ensures { result ≡ word_of (size_of self.now) own step }
    {
        let own = own.number() as usize;
        match step {
            WaitStep::Sload(q, _) | WaitStep::Sset(q) => 3 * q.number() as usize + 1,
            WaitStep::Mload(q) => 3 * q.number() as usize + 2,
            WaitStep::Byte(q) => 3 * q.number() as usize + 3,
            WaitStep::Reset(_) => 3 * own + 1,
            WaitStep::Mstore(_) => 3 * own + 2,
            WaitStep::Look | WaitStep::Drain => 3 * own + 3,
            WaitStep::Shload(_) | WaitStep::Shstore(_) => 3 * self.about.size.procs as usize + 1,
            WaitStep::Take(..) | WaitStep::Spin(_) | WaitStep::Free(..) => {
                3 * self.about.size.procs as usize + 2 + step.slot()
            }
        }
    }
}
