//! The gate that a worker passes at each stage of its work.

use std::marker::Sync;

/// Where a worker stands as it passes a gate.
#[derive(Debug, Clone, Copy, PartialEq, Eq)]
pub enum Point {
    /// Before it attaches to the build barrier.
    Started,
    /// Attached to the build barrier, which was in this phase.
    Attached { phase: u64 },
    /// After a chunk of rows.
    Chunk,
    /// Attached to a batch's barrier, which was in this phase.
    Batch { batch: u32, phase: u64 },
    /// After it has left.
    Left,
}

/// A place that each worker passes. It may hold a worker up but always lets it go on, and no
/// contract rests on it.
pub trait Gate: Sync {
    fn at(&self, worker: u32, point: Point);
}

/// The gate that holds nobody up.
#[derive(Debug, Clone, Copy)]
pub struct OpenGate;

impl Gate for OpenGate {
    fn at(&self, _worker: u32, _point: Point) {}
}
