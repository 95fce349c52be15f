//! A counter of steps, by which a contract bounds the work of a call.

ghost use Rattle.std.specs.Prelude.{◌≡◌, ◌+◌, ◌<◌, ℕ};

use crate::count::Count;
use std::marker::{Model, PhantomData};
use std::sync::ledger::{Blank, Ledger};

/// How many steps were taken. It has no bytes, and only `tick` changes it.
#[derive(Drop)]
pub struct Steps<L: Ledger> {
    ledger: PhantomData<L>,
    count: Count,
}

impl<L: Ledger> Model for Steps<L> {
    ghost Value = { ℕ };

    ghost view = { λ s. s.count.number };
}

impl<L: Ledger> Steps<L> {
    /// A counter of this ledger, at 0.
    pub fn new(_blank: Blank) -> Steps<L>
        requires name { _blank.name ≡ L.name }
        requires parts { _blank.parts ≡ L.parts }
        requires some { 0 < _blank.parts }
        ensures { result ≡ 0 }
    {
        Steps {
            ledger: PhantomData,
            count: Count::zero(),
        }
    }

    /// Another counter of the same ledger, at 0.
    pub fn beside(&self) -> Steps<L>
        ensures { result ≡ 0 }
    {
        Steps {
            ledger: PhantomData,
            count: Count::zero(),
        }
    }

    /// Counts one step.
    pub fn tick(&mut self)
        ensures { self.new ≡ self.old + 1 }
    {
        self.count = Count::next(&self.count);
    }
}
