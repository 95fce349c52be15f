//! The line that a refusal prints on standard error.

ghost use Rattle.std.specs.Prelude.{◌≡◌, ◌+◌, ◌++◌, ◌≤◌, length, decimal};
ghost use Rattle.pg_sync.specs.Line.{TakesLine, line_of, side_name};

use crate::status::Status;
use arrayvec::ArrayString;
use csv_tables::{Sink, write_all};
use itoa::Buffer;
use row_model::{RowFault, Side};

// The longest line takes 59 bytes.
type Line = ArrayString<64>;

fn name_of(side: Side) -> &'static str
    ensures name { result.now ≡ side_name side }
    ensures short { length result.now ≤ 5 }
{
    match side {
        Side::Inner => "inner",
        Side::Outer => "outer",
    }
}

// A line that names a side.
fn sided(before: &str, side: Side, after: &str) -> Line
    requires { length before.now + length after.now ≤ 59 }
    ensures bytes { result.bytes ≡ before.now ++ side_name side ++ after.now }
    ensures short { length result.bytes ≤ length before.now + 5 + length after.now }
{
    let mut line = Line::new();
    line.push_str(before);
    line.push_str(name_of(side));
    line.push_str(after);
    line
}

fn line_of(status: Status) -> Line
    ensures { result.bytes ≡ line_of status }
{
    let mut line = Line::new();
    match status {
        Status::Done => {}
        Status::Words => line.push_str("pg_sync: wrong words\n"),
        Status::OpenFault(side) => return sided("pg_sync: cannot open ", side, " input\n"),
        Status::ReadFault(side) => return sided("pg_sync: cannot read ", side, " input\n"),
        Status::TooLong(side) => return sided("pg_sync: ", side, " input is too long\n"),
        Status::BadInput(side, fault) => return form_line(side, fault),
        Status::TooManyResults => line.push_str("pg_sync: too many result rows\n"),
        Status::WriteFault => line.push_str("pg_sync: cannot write\n"),
        Status::NoMemory => line.push_str("pg_sync: out of memory\n"),
        Status::BadScript(number) => {
            line.push_str("pg_sync: bad script line ");
            line.push_str(Buffer::new().format(number));
            line.push_str("\n");
        }
    }
    line
}

// The line of a fault of form.
fn form_line(side: Side, fault: RowFault) -> Line
    ensures { result.bytes ≡ line_of (Status.BadInput side fault) }
{
    match fault {
        RowFault::NoHeader => sided("pg_sync: ", side, " input: no header\n"),
        RowFault::TooManyColumns => sided("pg_sync: ", side, " input: too many columns\n"),
        RowFault::NoKey => sided("pg_sync: ", side, " input: no such key\n"),
        RowFault::TwoKeys => sided("pg_sync: ", side, " input: two such keys\n"),
        RowFault::Ragged { number } => {
            let mut line = sided("pg_sync: ", side, " input: record ");
            line.push_str(Buffer::new().format(number));
            line.push_str(" has another length\n");
            line
        }
        RowFault::TooManyRows => sided("pg_sync: ", side, " input: too many rows\n"),
    }
}

/// Writes the line of a status, none for `Done`, and gives the status. It takes no memory, and a
/// fault of the sink changes nothing of the answer.
pub fn write_line<E: Sink>(status: Status, err: &mut E) -> Status
    ensures line { TakesLine (E.taken err.old) (E.taken err.new) (E.faults err.old) (E.faults err.new) (line_of status) }
    ensures same { result ≡ status }
{
    let _ = write_all(err, line_of(status).as_str().as_bytes());
    status
}
