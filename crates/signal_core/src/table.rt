//! A table and the calls on it.
ghost use Rattle.std.specs.Prelude.{◌≡◌, ◌<◌, ◌≤◌, ◌+◌, ◌^◌, Some, None, IfOk, MatchResult};
ghost use Rattle.std.specs.Slots.{IsFull};
ghost use Rattle.signal_core.specs.Ops.{op_gives};
ghost use Rattle.signal_core.specs.Machine.{next, Allowed};
ghost use Rattle.signal_core.specs.Seating.{fresh, took_in, after_draw};
ghost use Rattle.signal_core.specs.Told.{Tells, Turns};
ghost use Rattle.signal_core.specs.Promises.{EmitsWhatItAbsorbed};
ghost use Rattle.signal_core.specs.Seats.{about_of};
ghost use Rattle.signal_core.specs.Stood.{Stood};

use crate::rule::{Does, Doing, Draws, Kinds, Newcomer, SigRule, TakesIn};
use crate::seat::SigSeat;
use crate::step::{SigSeen, SigStep, WordOp};
use crate::view::{About, Nothing, SigView};
use crate::words::opening_words;
use atomic_table::{Closed, Seat, Table};
use proc_table::{NoMemory, NoMoreProcs, ProcNo};
use std::alloc::Global;
use std::marker::{Brand, Model};

/// A table of signals. To a contract it is its name, its number of backends, and the generation at
/// which it opened.
#[derive(Drop)]
pub struct SigTable<K: Kinds> {
    table: Table<Nothing, SigView, About, SigRule<K>, Global>,
    about: About,
}

impl<K: Kinds> Model for SigTable<K> {
    ghost use Rattle.std.specs.Prelude.{◌≡◌, ◌≤◌, ◌<◌};
    ghost use Rattle.signal_core.specs.Words.{word_count};
    ghost use Rattle.signal_core.specs.Seats.{TableView, table_view};

    ghost Value = { TableView };

    ghost view = { λ t. table_view t.table.shared.table_id t.about };

    ghost invariant = { λ t. (t.table.shared.key ≡ t.about) × (t.table.shared.table_id.words ≡ word_count t.about) × (0 < t.about.procs) × (t.about.procs ≤ 64) };
}

impl<K: Kinds> SigTable<K> {
    /// A table whose header opens at this generation, and its first seat, with the number 0.
    pub fn new(
        alloc: Global,
        procs: u32,
        opening_generation: u64,
    ) -> Result<(SigTable<K>, SigSeat), NoMemory>
        requires procs { (0 < procs) × (procs ≤ 64) }
        requires generation { opening_generation ≤ 2 ^ 62 }
        ensures table { IfOk result (λ t. (t.0.procs ≡ procs) × (t.0.generation ≡ opening_generation)) }
        ensures seat { IfOk result (λ t. (t.1.table_id ≡ t.0.table_id) × (t.1.view ≡ fresh (Some 0))) }
    {
        let about = About {
            procs,
            generation: opening_generation,
        };
        let words = opening_words(alloc, about)?;
        let slots = Vec::new(alloc);
        let Ok((table, seat)) = Table::new(alloc, words.as_slice(), slots, &about) else {
            return Err(NoMemory);
        };
        let Some(number) = ProcNo::new(0) else {
            unreachable!()
        };
        Ok((SigTable { table, about }, SigSeat::new(seat, number)))
    }

    /// The number of backends, 1 to 64.
    pub fn procs(&self) -> u32
        ensures procs { result ≡ self.now.procs }
        ensures range { (0 < result) × (result ≤ 64) }
    {
        self.about.procs
    }

    /// The seat's own number, which is below the number of backends.
    pub fn proc_of(&self, seat: &SigSeat) -> ProcNo
        requires { seat.now.table_id ≡ self.now.table_id }
        ensures own { seat.now.view.own ≡ Some result }
        ensures inside { result < self.now.procs }
    {
        prove!(seat.number.number() < self.about.procs);
        seat.number
    }

    /// Makes one step on one word, and answers the word before it. Where the step begins a call,
    /// the seat goes on in that call. The word becomes what the step's kind says: the rule accounts
    /// for each word by the steps that stand in the views (`laws::words_are_made`).
    pub fn step(&self, seat: &mut SigSeat, step: SigStep) -> SigSeen
        requires table { seat.old.table_id ≡ self.now.table_id }
        requires place { Allowed K.shows (about_of self.now) step seat.old.view }
        ensures table { (seat.new.table_id ≡ seat.old.table_id) × (seat.new.id ≡ seat.old.id) }
        ensures view { seat.new.view ≡ next (about_of self.now) step seat.old.view result.old }
        ensures told { Tells K.shows step seat.old.view result.old }
    {
        let _ = &self.table;
        let word = step.word(seat.number);
        let old = self.make::<Brand, SigStep>(&mut seat.seat, word, step.op(), &step);
        if let SigStep::Gstore(value, _) = step {
            seat.generation = value;
        }
        SigSeen { old }
    }

    // Each step on a word is made here. The call's proof picks what it tells, of the call's arguments.
    fn make<M: Doing, X>(
        &self,
        seat: &mut Seat<Nothing, SigView>,
        word: usize,
        op: WordOp,
        _why: &X,
    ) -> u64
        requires table { (seat.old.table_id ≡ self.now.table_id) × (word < self.now.table_id.words) }
        requires told { Turns K.shows (about_of self.now) self.now.table_id.slots seat.old.id seat.old.me word (op_gives op) M.gives }
        ensures table { (seat.new.table_id ≡ seat.old.table_id) × (seat.new.id ≡ seat.old.id) }
        ensures told { M.gives result seat.new.me }
    {
        let shared = &self.table.shared;
        match op {
            WordOp::Load => shared.load::<Does<M>>(seat, word),
            WordOp::Store(value) => shared.swap::<Does<M>>(seat, word, value),
            WordOp::Add(by) => shared.fetch_add::<Does<M>>(seat, word, by),
            WordOp::Or(bits) => shared.fetch_or::<Does<M>>(seat, word, bits),
        }
    }

    /// Draws the next number for a new seat; only the seat with the number 0 does. Refused exactly
    /// where as many are drawn as there are backends.
    pub fn seat(&self, from: &mut SigSeat) -> Result<SigSeat, NoMoreProcs>
        requires table { from.old.table_id ≡ self.now.table_id }
        requires first { from.old.view.own ≡ Some 0 }
        ensures table { (from.new.table_id ≡ from.old.table_id) × (from.new.id ≡ from.old.id) }
        ensures from { MatchResult result (λ _. from.new.view ≡ after_draw from.old.view) (λ _. from.new.view ≡ from.old.view) }
        ensures drawn { MatchResult result (λ s. (from.old.view.drawn + 1 < self.now.procs) × (s.table_id ≡ from.old.table_id) × (s.view ≡ fresh (Some (from.old.view.drawn + 1)))) (λ e. (e.drawn ≡ self.now.procs) × (e.drawn ≡ from.old.view.drawn + 1)) }
    {
        let next = self.make::<Brand, WordOp>(&mut from.seat, 0, WordOp::Load, &WordOp::Load);
        if next >= u64::from(self.about.procs) {
            return Err(NoMoreProcs { drawn: next });
        }
        let Some(number) = ProcNo::new(next as u32) else {
            unreachable!()
        };
        let shared = &self.table.shared;
        shared.fetch_add::<Draws>(&mut from.seat, 0, 1);
        let seat = shared.split_seat::<Newcomer>(&mut from.seat);
        Ok(SigSeat::new(seat, number))
    }

    /// A seat takes in another, whose number isn't given again. The other's emissions, and the kinds
    /// that it absorbed, go to it.
    pub fn join(&self, into: &mut SigSeat, from: SigSeat)
        requires table { (into.old.table_id ≡ self.now.table_id) × (from.table_id ≡ self.now.table_id) }
        requires free { (from.view.place ≡ None) × (from.view.slot ≡ None) }
        ensures table { (into.new.table_id ≡ into.old.table_id) × (into.new.id ≡ into.old.id) }
        ensures view { into.new.view ≡ took_in into.old.view from.view }
    {
        let SigSeat {
            seat,
            number: _,
            generation: _,
        } = from;
        self.table.shared.join_seat::<TakesIn>(&mut into.seat, seat);
    }

    /// Tells in which state of the table the seat is, by a look that changes nothing. The seat with
    /// the number 0 learns from it that what it absorbed it has itself emitted, once it has taken
    /// over every number that it drew.
    pub fn settle(&self, seat: &mut SigSeat)
        requires table { seat.old.table_id ≡ self.now.table_id }
        ensures same { seat.new ≡ seat.old }
        ensures stood { Stood K.shows self.now seat.old }
        ensures emitted { EmitsWhatItAbsorbed K.shows seat.old.view }
    {
        let look = WordOp::Load;
        self.make::<Brand, WordOp>(&mut seat.seat, 0, look, &look);
    }

    /// Ends the table, with the last seat.
    pub fn close(self, seat: SigSeat)
        requires table { seat.table_id ≡ self.table_id }
        requires free { (seat.view.place ≡ None) × (seat.view.slot ≡ None) }
    {
        let SigTable { table, about: _ } = self;
        let SigSeat {
            seat,
            number: _,
            generation: _,
        } = seat;
        release(table.close_with(seat));
    }
}

// Gives back the words. A table of signals has no slots, so the loop takes out nothing.
fn release(mut closed: Closed<Nothing, Global>)
    requires full { IsFull closed.words × IsFull closed.slots }
{
    let mut i = 0;
    while i < closed.slot_count() {
        drop(closed.take(i));
        i += 1;
    }
    closed.free();
}
