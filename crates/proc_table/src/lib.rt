//! What every crate of the workspace shares: numbers in range, lock modes, want of memory,
//! the gate that a worker passes, and a counter of steps.
#![tactic(auto)]

mod count;
mod gate;
mod numbers;
mod steps;

pub use gate::{Gate, OpenGate, Point};
pub use numbers::{BarNo, CvNo, LockNo, ProcNo};
use std::alloc::{AllocError, AllocFailed};
pub use steps::Steps;

/// The two modes of a lightweight lock (PostgreSQL's `LW_SHARED` and `LW_EXCLUSIVE`).
#[derive(Debug, Clone, Copy, PartialEq, Eq)]
pub enum Mode {
    Shared,
    Exclusive,
}

/// Memory ran out.
#[derive(Debug, Clone, Copy, PartialEq, Eq)]
pub struct NoMemory;

impl From<AllocError> for NoMemory {
    fn from(_error: AllocError) -> NoMemory {
        NoMemory
    }
}

impl<T: Drop> From<AllocFailed<T>> for NoMemory {
    fn from(_failed: AllocFailed<T>) -> NoMemory {
        NoMemory
    }
}

/// A table has no backend number left; `drawn` is how many it has given.
#[derive(Debug, Clone, Copy, PartialEq, Eq)]
pub struct NoMoreProcs {
    pub drawn: u64,
}

/// A count stands at its limit; `at` is that limit.
#[derive(Debug, Clone, Copy, PartialEq, Eq)]
pub struct Worn {
    pub at: u64,
}
