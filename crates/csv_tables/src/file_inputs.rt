//! Inputs in files. They tell no contents: this is the trusted edge.

ghost use Rattle.std.specs.Prelude.{◌≤◌, IsSome, IfOk, length};
ghost use Rattle.csv_tables.specs.Faults.{HasCause};

use crate::inputs::{Failed, Inputs};
use row_model::Side;
use std::fs;
use std::io::Read;
use std::rt::Files;

/// Two inputs in files, opened by their paths.
#[derive(Drop)]
pub struct FileInputs<'r, R: Files>
where
    R::File: Drop,
{
    rt: &'r R,
    inner: Option<R::File>,
    outer: Option<R::File>,
    inner_opens: u64,
    inner_reads: u64,
    outer_opens: u64,
    outer_reads: u64,
}

impl<'r, R: Files> FileInputs<'r, R>
where
    R::File: Drop,
{
    /// Nothing is open yet.
    pub fn new(rt: &'r R) -> FileInputs<'r, R> {
        FileInputs {
            rt,
            inner: None,
            outer: None,
            inner_opens: 0,
            inner_reads: 0,
            outer_opens: 0,
            outer_reads: 0,
        }
    }
}

impl<'r, R: Files> Inputs for FileInputs<'r, R>
where
    R::File: Drop,
{
    ghost use Rattle.std.specs.Prelude.{None, IsSome};
    ghost use Rattle.csv_tables.specs.Sides.{at_side};

    ghost held = { λ _ _. None };

    ghost left = { λ _ _. None };

    ghost may_open = { λ _ _ _. Unit {0} };

    ghost may_read = { λ s side. IsSome (at_side side s.inner s.outer) };

    ghost open_faults = { λ s side. at_side side s.inner_opens s.outer_opens };

    ghost read_faults = { λ s side. at_side side s.inner_reads s.outer_reads };

    ghost is_steady = { λ _. ⊥ };

    fn open(&mut self, side: Side, name: &str) -> Result<(), Failed> {
        match fs::open(self.rt, name) {
            Ok(file) => {
                match side {
                    Side::Inner => self.inner = Some(file),
                    Side::Outer => self.outer = Some(file),
                }
                Ok(())
            }
            Err(_) => {
                match side {
                    Side::Inner => self.inner_opens = self.inner_opens.saturating_add(1),
                    Side::Outer => self.outer_opens = self.outer_opens.saturating_add(1),
                }
                Err(Failed)
            }
        }
    }

    fn read(&mut self, side: Side, into: &mut [u8]) -> Result<usize, Failed> {
        match side {
            Side::Inner => read_file(&mut self.inner, &mut self.inner_reads, into),
            Side::Outer => read_file(&mut self.outer, &mut self.outer_reads, into),
        }
    }
}

// Reads from a file that is open, and counts a fault.
fn read_file<F: Read>(
    file: &mut Option<F>,
    faults: &mut u64,
    into: &mut [u8],
) -> Result<usize, Failed>
    ensures count { IfOk result (λ n. n ≤ length into.new) }
    ensures is_open { IsSome file.old → IsSome file.new }
    ensures cause { HasCause faults.old faults.new result }
{
    if let Some(file) = file {
        if let Ok(count) = file.read(into) {
            return Ok(count);
        }
    }
    *faults = faults.saturating_add(1);
    Err(Failed)
}
