//! The numbers of backends, locks, conditions and barriers, each below its table's limit.

ghost use Rattle.std.specs.Prelude.{◌≡◌, ◌<◌, ℕ};
ghost use Rattle.std.specs.Option.{SomeIff};

use std::marker::Model;

/// The number of a backend, below 64.
#[derive(Debug, Clone, Copy, PartialEq, Eq)]
pub struct ProcNo {
    number: u32,
}

impl Model for ProcNo {
    ghost Value = { ℕ };

    ghost view = { λ n. n.number };

    ghost invariant = { λ n. n.number < 64 };

    ghost inverse = { λ n. record { number = n } };
}

impl ProcNo {
    /// The backend of this number; None exactly where it isn't below 64.
    pub fn new(n: u32) -> Option<Self>
        ensures { SomeIff result (n < 64) n }
    {
        if n < 64 {
            Some(ProcNo { number: n })
        } else {
            None
        }
    }

    /// The number, below 64.
    pub fn number(self) -> u32
        ensures number { result ≡ self }
        ensures below { result < 64 }
    {
        self.number
    }
}

/// The number of a lightweight lock, below 200.
#[derive(Debug, Clone, Copy, PartialEq, Eq)]
pub struct LockNo {
    number: u32,
}

impl Model for LockNo {
    ghost Value = { ℕ };

    ghost view = { λ n. n.number };

    ghost invariant = { λ n. n.number < 200 };

    ghost inverse = { λ n. record { number = n } };
}

impl LockNo {
    /// The lock of this number; None exactly where it isn't below 200.
    pub fn new(n: u32) -> Option<Self>
        ensures { SomeIff result (n < 200) n }
    {
        if n < 200 {
            Some(LockNo { number: n })
        } else {
            None
        }
    }

    /// The number, below 200.
    pub fn number(self) -> u32
        ensures number { result ≡ self }
        ensures below { result < 200 }
    {
        self.number
    }
}

/// The number of a condition variable, below 160.
#[derive(Debug, Clone, Copy, PartialEq, Eq)]
pub struct CvNo {
    number: u32,
}

impl Model for CvNo {
    ghost Value = { ℕ };

    ghost view = { λ n. n.number };

    ghost invariant = { λ n. n.number < 160 };

    ghost inverse = { λ n. record { number = n } };
}

impl CvNo {
    /// The condition variable of this number; None exactly where it isn't below 160.
    pub fn new(n: u32) -> Option<Self>
        ensures { SomeIff result (n < 160) n }
    {
        if n < 160 {
            Some(CvNo { number: n })
        } else {
            None
        }
    }

    /// The number, below 160.
    pub fn number(self) -> u32
        ensures number { result ≡ self }
        ensures below { result < 160 }
    {
        self.number
    }
}

/// The number of a barrier, below 72.
#[derive(Debug, Clone, Copy, PartialEq, Eq)]
pub struct BarNo {
    number: u32,
}

impl Model for BarNo {
    ghost Value = { ℕ };

    ghost view = { λ n. n.number };

    ghost invariant = { λ n. n.number < 72 };

    ghost inverse = { λ n. record { number = n } };
}

impl BarNo {
    /// The barrier of this number; None exactly where it isn't below 72.
    pub fn new(n: u32) -> Option<Self>
        ensures { SomeIff result (n < 72) n }
    {
        if n < 72 {
            Some(BarNo { number: n })
        } else {
            None
        }
    }

    /// The number, below 72.
    pub fn number(self) -> u32
        ensures number { result ≡ self }
        ensures below { result < 72 }
    {
        self.number
    }
}
