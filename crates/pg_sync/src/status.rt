//! How a run ends.

ghost use Rattle.std.specs.Prelude.{◌≡◌};

use row_model::{RowFault, Side};

/// How a run ended: done, or refused by the first cause that applied.
#[derive(Debug, Clone, Copy, PartialEq, Eq)]
pub enum Status {
    /// The whole text was written.
    Done,
    /// The words name no command.
    Words,
    /// An input could not be opened.
    OpenFault(Side),
    /// A read of an input failed.
    ReadFault(Side),
    /// An input has more bytes than one may have.
    TooLong(Side),
    /// An input is no table with the key.
    BadInput(Side, RowFault),
    /// The join has more rows than one may have.
    TooManyResults,
    /// A write of the text failed.
    WriteFault,
    /// Memory ran out.
    NoMemory,
    /// This line of the script is the first that isn't in the grammar or isn't enabled.
    BadScript(u64),
}

impl Status {
    ghost use Rattle.pg_sync.specs.Line.{exit_number};

    /// The number with which the program ends.
    pub fn number(self) -> u8
        ensures { result ≡ exit_number self }
    {
        match self {
            Status::Done => 0,
            Status::Words => 1,
            Status::OpenFault(_) => 2,
            Status::ReadFault(_) => 3,
            Status::TooLong(_) => 4,
            Status::BadInput(_, _) => 5,
            Status::TooManyResults => 6,
            Status::WriteFault => 7,
            Status::NoMemory => 8,
            Status::BadScript(_) => 9,
        }
    }
}
