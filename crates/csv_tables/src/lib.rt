//! Tables from inputs of CSV, and the text of a join to a sink.
#![tactic(auto)]

ghost use Rattle.std.specs.Prelude.{◌≡◌};

mod file_inputs;
mod inputs;
mod mem_inputs;
mod mem_sink;
mod printing;
mod sink;
mod streams;
mod tables;

pub use file_inputs::FileInputs;
pub use inputs::{Failed, Inputs};
pub use mem_inputs::MemInputs;
pub use mem_sink::MemSink;
pub use printing::print;
use proc_table::NoMemory;
use row_model::RowFault;
pub use sink::{Sink, write_all};
pub use streams::{StderrSink, StdoutSink};
pub use tables::{load, read_all};

/// Why an input gave no table.
#[derive(Debug, Clone, Copy, PartialEq, Eq)]
pub enum LoadFault {
    /// It could not be opened.
    Open,
    /// A read failed.
    Read,
    /// It has more bytes than one input may have.
    TooLong,
    /// Its records are no table with the key.
    Bad(RowFault),
    NoMemory,
}

impl From<NoMemory> for LoadFault {
    ghost use Rattle.csv_tables.specs.declared.LoadFault.TheVariants as fault;

    ghost from_gives = { λ _ given. given ≡ fault.NoMemory };

    fn from(_error: NoMemory) -> LoadFault {
        LoadFault::NoMemory
    }
}

/// Why a text was not written in full.
#[derive(Debug, Clone, Copy, PartialEq, Eq)]
pub enum PrintFault {
    /// A write failed.
    Write,
    NoMemory,
}

impl From<NoMemory> for PrintFault {
    ghost use Rattle.csv_tables.specs.declared.PrintFault.TheVariants as fault;

    ghost from_gives = { λ _ given. given ≡ fault.NoMemory };

    fn from(_error: NoMemory) -> PrintFault {
        PrintFault::NoMemory
    }
}

impl From<Failed> for PrintFault {
    ghost use Rattle.csv_tables.specs.declared.PrintFault.TheVariants as fault;

    ghost from_gives = { λ _ given. given ≡ fault.Write };

    fn from(_error: Failed) -> PrintFault {
        PrintFault::Write
    }
}

#[cfg(test)]
mod tests;
