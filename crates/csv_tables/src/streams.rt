//! The sinks of a process, over its two output streams. What they take, they tell as far as the
//! stream does, and a real one tells nothing: this is the trusted edge.

ghost use Rattle.std.specs.Prelude.{◌≡◌, ◌<◌, ◌≤◌, [], IfOk, OnErr, OnOk, length, take};
ghost use Rattle.std.specs.Io.KnownBytes.{Appends, Keeps};
ghost use Rattle.csv_tables.specs.Faults.{HasCause};
ghost use Rattle.csv_tables.specs.Streams.{faults_of, gathered_of, taken_of};

use crate::inputs::Failed;
use crate::sink::Sink;
use proc_table::NoMemory;
use std::alloc::Global;
use std::io::{BufWriter, Write};

// The bytes that standard output gathers before it writes them.
const CAPACITY: usize = 65536;

/// A sink over standard output. It gathers what it takes and writes it in large pieces, so that
/// the last ones are written by `flush` alone.
#[derive(Drop)]
pub struct StdoutSink<W: Write + Drop> {
    writer: BufWriter<W>,
    faults: u64,
}

impl<W: Write + Drop> StdoutSink<W> {
    /// A sink over this writer.
    pub fn new(alloc: Global, writer: W) -> Result<StdoutSink<W>, NoMemory> {
        match BufWriter::with_capacity(alloc, CAPACITY, writer) {
            Ok(writer) => Ok(StdoutSink { writer, faults: 0 }),
            Err(_) => Err(NoMemory),
        }
    }

    /// Writes what was gathered. A fault of it counts as one of `write` does.
    pub fn flush(&mut self) -> Result<(), Failed>
        ensures cause { HasCause (faults_of self.old) (faults_of self.new) result }
        ensures taken { Keeps (taken_of W.contents self.old) (taken_of W.contents self.new) }
        ensures gathered { OnOk result (gathered_of self.new ≡ []) }
    {
        if self.writer.flush().is_err() {
            self.faults = self.faults.saturating_add(1);
            return Err(Failed);
        }
        Ok(())
    }
}

impl<W: Write + Drop> Sink for StdoutSink<W> {
    ghost use Rattle.std.specs.Prelude.{None};
    ghost use Rattle.std.specs.Io.Buffered.{writer_contents};

    ghost taken = { λ s. writer_contents W.contents s.writer };

    ghost faults = { λ s. s.faults };

    ghost capacity = { λ _. None };

    fn write(&mut self, piece: &[u8]) -> Result<usize, Failed> {
        write_some(&mut self.writer, &mut self.faults, piece)
    }
}

/// A sink over standard error, which writes each piece at once.
#[derive(Drop)]
pub struct StderrSink<W: Write + Drop> {
    writer: W,
    faults: u64,
}

impl<W: Write + Drop> StderrSink<W> {
    /// A sink over this writer.
    pub fn new(writer: W) -> StderrSink<W> {
        StderrSink { writer, faults: 0 }
    }
}

impl<W: Write + Drop> Sink for StderrSink<W> {
    ghost use Rattle.std.specs.Prelude.{None};

    ghost taken = { λ s. W.contents s.writer };

    ghost faults = { λ s. s.faults };

    ghost capacity = { λ _. None };

    fn write(&mut self, piece: &[u8]) -> Result<usize, Failed> {
        write_some(&mut self.writer, &mut self.faults, piece)
    }
}

// Writes from the front of a piece. An error, and a write that takes nothing, count as a fault.
fn write_some<W: Write>(writer: &mut W, faults: &mut u64, piece: &[u8]) -> Result<usize, Failed>
    ensures some { IfOk result (λ n. 0 < n) }
    ensures count { IfOk result (λ n. n ≤ length piece.now) }
    ensures bytes { IfOk result (λ n. Appends (W.contents writer.old) (W.contents writer.new) (take n piece.now)) }
    ensures none { OnErr result (Keeps (W.contents writer.old) (W.contents writer.new)) }
    ensures cause { HasCause faults.old faults.new result }
{
    match writer.write(piece) {
        Ok(count) if count > 0 => Ok(count),
        _ => {
            *faults = faults.saturating_add(1);
            Err(Failed)
        }
    }
}
