//! The rows of a table in one buffer, and the keys by which two rows meet.
#![tactic(auto)]

ghost use Rattle.std.specs.Prelude.{◌≡◌};

mod build;
mod routes;
mod rows;

pub use build::RowsBuilder;
use proc_table::NoMemory;
pub use routes::Route;
pub use rows::{Rows, same};

/// The most columns of a table.
pub const COLUMN_LIMIT: usize = 256;

/// The most data rows of a table.
pub const ROW_LIMIT: u32 = 262_144;

/// Which side of a join a table is.
#[derive(Debug, Clone, Copy, PartialEq, Eq)]
pub enum Side {
    Inner,
    Outer,
}

/// Why some records are no table with a key. The first that applies is the one that counts:
/// the header's faults, then the rows' in their order, and of one row its length first.
#[derive(Debug, Clone, Copy, PartialEq, Eq)]
pub enum RowFault {
    /// There is no record, so there is no header.
    NoHeader,
    /// The header has more than `COLUMN_LIMIT` fields.
    TooManyColumns,
    /// No header field is the key's name.
    NoKey,
    /// More than one header field is the key's name.
    TwoKeys,
    /// This record, counted from 1 with the header, has another length than the header.
    Ragged { number: u32 },
    /// There are more than `ROW_LIMIT` records after the header.
    TooManyRows,
}

/// Why a record could not be added.
#[derive(Debug, Clone, Copy, PartialEq, Eq)]
pub enum RecordFault {
    Bad(RowFault),
    NoMemory,
}

impl From<NoMemory> for RecordFault {
    ghost use Rattle.row_model.specs.declared.RecordFault.TheVariants as fault;

    ghost from_gives = { λ _ given. given ≡ fault.NoMemory };

    fn from(_error: NoMemory) -> RecordFault {
        RecordFault::NoMemory
    }
}

/// An outer row and an inner row that meet, by their numbers from 0.
#[derive(Debug, Clone, Copy, PartialEq, Eq)]
pub struct Pair {
    pub outer: u32,
    pub inner: u32,
}

/// How a join is to run.
#[derive(Debug, Clone, Copy, PartialEq, Eq)]
pub struct Plan {
    pub workers: u32,
    /// Buckets of the hash table, a power of two.
    pub buckets: u32,
    /// The budget of rows per batch.
    pub mem: u32,
}

#[cfg(test)]
mod tests;
