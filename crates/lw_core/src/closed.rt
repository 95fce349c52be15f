//! A table that no thread shares any more.
ghost use Rattle.std.specs.Prelude.{◌≡◌, ◌<◌, slice_index};
ghost use Rattle.lw_core.specs.Words.{guard_at, state_at};

use crate::view::{Size, Waiters};
use crate::words::{guarded_word, state_word};
use atomic_table::Closed;
use proc_table::LockNo;
use std::alloc::Global;
use std::marker::Model;

/// The words at the end.
pub struct LwClosed {
    pub(crate) closed: Closed<Waiters, Global>,
    pub(crate) size: Size,
}

impl Model for LwClosed {
    ghost use Rattle.std.specs.Prelude.{◌≡◌};
    ghost use Rattle.std.specs.Slots.{slots_items, slots_len, IsFull};
    ghost use Rattle.lw_core.specs.Seats.{ClosedView, IsWhole, closed_view};

    ghost Value = { ClosedView };

    ghost view = { λ c. closed_view c.size (slots_items c.closed.words) };

    ghost invariant = { λ c. IsWhole c.size (slots_items c.closed.words) × IsFull c.closed.words × IsFull c.closed.slots };
}

impl LwClosed {
    /// The state word of the lock.
    pub fn state(&self, lock: LockNo) -> u32
        requires { lock < self.now.locks }
        ensures { result ≡ slice_index self.now.words (state_at lock) }
    {
        self.closed.word(state_word(lock)) as u32
    }

    /// One of the lock's four guarded words.
    pub fn word(&self, lock: LockNo, at: u32) -> u64
        requires lock { lock < self.now.locks }
        requires at { at < 4 }
        ensures { result ≡ slice_index self.now.words (guard_at lock at) }
    {
        self.closed.word(guarded_word(lock, at))
    }
}

impl Drop for LwClosed {
    fn drop(self) {
        let LwClosed {
            mut closed,
            size: _,
        } = self;
        let mut i = 0;
        while i < closed.slot_count() {
            drop(closed.take(i));
            i += 1;
        }
        closed.free();
    }
}
