//! The set and its members.
ghost use Rattle.std.specs.Prelude.{◌≡◌, ◌<◌, ◌≤◌, [], ◌∷◌, ◌++◌, length, MatchOption, MatchResult, IsTrue, ◌↔◌};
ghost use mathlib.Core.Option as maybe;
ghost use lib.ListN.{get_elem?};
ghost use Rattle.wait_event_set.specs.Members.{FirstAt, NoneSuch, IsAddable, Refuses, flag_of};

use arrayvec::ArrayVec;
use std::marker::Model;

/// What a member waits for.
#[derive(Debug, Clone, Copy, PartialEq, Eq)]
pub enum Event {
    /// The own latch (`WL_LATCH_SET`, flag 1).
    Latch,
    /// The shutdown word (`WL_POSTMASTER_DEATH`, flag 16).
    Shutdown,
}

impl Default for Event {
    ghost use Rattle.wait_event_set.specs.declared.set.Event.TheVariants.{Latch};

    ghost is_default = { λ e. e ≡ Latch };

    fn default() -> Event {
        Event::Latch
    }
}

impl Event {
    fn is(self, other: Event) -> bool
        ensures { IsTrue result ↔ (self ≡ other) }
    {
        match (self, other) {
            (Event::Latch, Event::Latch) | (Event::Shutdown, Event::Shutdown) => true,
            _ => false,
        }
    }

    /// The bit that stands for it.
    pub fn flag(self) -> u32
        ensures { result ≡ flag_of self }
    {
        match self {
            Event::Latch => 1,
            Event::Shutdown => 16,
        }
    }
}

/// An event and a number that the user gave it.
#[derive(Debug, Clone, Copy, PartialEq, Eq, Default)]
pub struct Member {
    pub event: Event,
    pub user: u32,
}

/// Why an event was not added.
#[derive(Debug, Clone, Copy, PartialEq, Eq)]
pub enum AddFault {
    /// The set has a latch already, at this position.
    SecondLatch { at: u32 },
    /// The set has four members.
    Full,
}

/// Up to four events. To a contract it is the list of its members.
#[derive(Drop)]
pub struct EventSet {
    members: ArrayVec<Member, 4>,
}

impl Model for EventSet {
    ghost use Rattle.std.specs.Prelude.{List, ◌≤◌, length};
    ghost use Rattle.wait_event_set.specs.declared.set.Member.{Member};

    ghost Value = { List Member };

    ghost view = { λ s. s.members.items };

    ghost invariant = { λ s. length s.members.items ≤ 4 };
}

impl EventSet {
    /// An empty set, with room for four.
    pub fn new() -> EventSet
        ensures { result ≡ [] }
    {
        EventSet {
            members: ArrayVec::new(),
        }
    }

    /// How many members it has.
    pub fn len(&self) -> u32
        ensures len { result ≡ length self.now }
        ensures most { result ≤ 4 }
    {
        self.members.len() as u32
    }

    /// Adds an event, and answers its position (`AddWaitEventToSet`). A second latch is refused,
    /// and then a fifth member.
    pub fn add(&mut self, event: Event, user: u32) -> Result<u32, AddFault>
        ensures added { MatchResult result (λ at. (at ≡ length self.old) × (at < 4) × (self.new ≡ self.old ++ (record { event = event; user = user }) ∷ [])) (λ _. self.new ≡ self.old) }
        ensures refused { MatchResult result (λ _. IsAddable event self.old) (λ e. Refuses event self.old e) }
    {
        if let Event::Latch = event {
            if let Some(at) = self.first(Event::Latch) {
                return Err(AddFault::SecondLatch { at });
            }
        }
        if self.members.is_full() {
            return Err(AddFault::Full);
        }
        let at = self.members.len() as u32;
        self.members.push(Member { event, user });
        Ok(at)
    }

    /// The position of the first member with this event.
    pub(crate) fn first(&self, event: Event) -> Option<u32>
        ensures { MatchOption result (NoneSuch event self.now) (λ at. FirstAt event self.now at) }
    {
        for (at, member) in self.members.iter().enumerate() {
            if member.event.is(event) {
                return Some(at as u32);
            }
        }
        None
    }

    /// The member at this position.
    pub(crate) fn member(&self, at: u32) -> Member
        requires { at < length self.now }
        ensures { get_elem? self.now at ≡ maybe.some result }
    {
        self.members[at as usize]
    }
}
