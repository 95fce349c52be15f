//! A table that no thread shares any more.
ghost use Rattle.std.specs.Prelude.{◌≡◌, ◌<◌, slice_index, length};

use crate::view::Kept;
use atomic_table::Closed;
use std::alloc::Global;
use std::marker::Model;

/// The client's words at the end.
pub struct WaitClosed {
    pub(crate) closed: Closed<Kept, Global>,
    pub(crate) base: usize,
}

impl Model for WaitClosed {
    ghost use Rattle.std.specs.Prelude.{List, ℕ, drop};
    ghost use Rattle.std.specs.Slots.{slots_items, IsFull};

    ghost Value = { List ℕ };

    ghost view = { λ c. drop c.base (slots_items c.closed.words) };

    ghost invariant = { λ c. IsFull c.closed.words × IsFull c.closed.slots };
}

impl WaitClosed {
    /// A word of the client's.
    pub fn word(&self, at: u32) -> u64
        requires { at < length self.now }
        ensures { result ≡ slice_index self.now at }
    {
        self.closed.word(self.base + at as usize)
    }
}

impl Drop for WaitClosed {
    fn drop(self) {
        let WaitClosed {
            mut closed,
            base: _,
        } = self;
        let mut i = 0;
        while i < closed.slot_count() {
            drop(closed.take(i));
            i += 1;
        }
        closed.free();
    }
}
