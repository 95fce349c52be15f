//! Inputs in memory, which fail at the calls they are told to.

ghost use Rattle.std.specs.Prelude.{◌≡◌, ◌<◌, ◌≤◌, None, Some, IfNone, IfOk, IfSome, IsSome, OnOk, is_err, length, take};
ghost use Rattle.std.specs.Io.KnownBytes.{Consumes, IsAtEnd, ReadConsumes};
ghost use Rattle.csv_tables.specs.Calls.{IsAsMade, IsOpen, LeavesSide, fails_to_open, fails_to_read, left_at, next_call, opens_at, reads_at};
ghost use Rattle.csv_tables.specs.Faults.{HasCause};
ghost use Rattle.csv_tables.specs.Sides.{at_side, other};
ghost use Rattle.csv_tables.specs.Memory.{bytes_at, held_in, left_of};

use crate::inputs::{Failed, Inputs};
use row_model::Side;
use std::marker::Model;

/// Files in memory, by name; of several with one name the first counts. A read gives at most
/// `piece` bytes, and the calls in `failing` fail, counted from 1 over opens and reads together.
#[derive(Drop)]
pub struct MemInputs {
    pub files: Vec<(String, Vec<u8>)>,
    pub failing: Vec<u64>,
    pub piece: usize,
    calls: u64,
    inner: Option<(usize, usize)>,
    outer: Option<(usize, usize)>,
    inner_opens: u64,
    inner_reads: u64,
    outer_opens: u64,
    outer_reads: u64,
}

impl Model for MemInputs {
    ghost use Rattle.std.specs.Prelude.{◌<◌};
    ghost use Rattle.csv_tables.specs.Memory.{Readable};

    ghost Value = { Readable };

    ghost view = { λ s. record {
      files = s.files.items;
      failing = s.failing.items;
      piece = s.piece;
      calls = s.calls;
      inner = s.inner;
      outer = s.outer;
      inner_opens = s.inner_opens;
      inner_reads = s.inner_reads;
      outer_opens = s.outer_opens;
      outer_reads = s.outer_reads;
    } };

    ghost invariant = { λ s. 0 < s.piece };
}

impl MemInputs {
    /// These files, none of them open.
    pub fn new(files: Vec<(String, Vec<u8>)>, failing: Vec<u64>, piece: usize) -> MemInputs
        requires { 0 < piece }
        ensures files { result.files ≡ files.items }
        ensures failing { result.failing ≡ failing.items }
        ensures piece { result.piece ≡ piece }
        ensures calls { result.calls ≡ 0 }
    {
        MemInputs {
            files,
            failing,
            piece,
            calls: 0,
            inner: None,
            outer: None,
            inner_opens: 0,
            inner_reads: 0,
            outer_opens: 0,
            outer_reads: 0,
        }
    }
}

// The number of the first file of this name.
fn find_file(files: &[(String, Vec<u8>)], name: &str) -> Option<usize>
    ensures there { IfSome result (λ i. held_in files.now name.now ≡ Some (bytes_at files.now i)) }
    ensures missing { IfNone result (held_in files.now name.now ≡ None) }
{
    'files: for i in 0..files.len() {
        let file = &files[i];
        if file.0.as_str() == name {
            return Some(i);
        }
    }
    None
}

// The bytes of a file.
fn file_bytes(files: &[(String, Vec<u8>)], index: usize) -> &[u8]
    ensures { result.now ≡ bytes_at files.now index }
{
    if index >= files.len() {
        return &[];
    }
    let file = &files[index];
    file.1.as_slice()
}

// Reads on from a place.
fn read_at(
    files: &[(String, Vec<u8>)],
    place: &mut Option<(usize, usize)>,
    piece: usize,
    into: &mut [u8],
) -> usize
    requires piece { 0 < piece }
    requires room { 0 < length into.old }
    ensures count { result ≤ length into.new }
    ensures piece { result ≤ piece }
    ensures bytes { Consumes (left_of files.now place.old) (left_of files.now place.new) (take result into.new) }
    ensures end { result ≡ 0 → IsAtEnd (left_of files.now place.new) }
    ensures is_open { IsSome place.old → IsSome place.new }
{
    let Some((index, at)) = *place else {
        return 0;
    };
    let bytes = file_bytes(files, index);
    if at >= bytes.len() {
        return 0;
    }
    let count = (bytes.len() - at).min(piece).min(into.len());
    into[..count].copy_from_slice(&bytes[at..at + count]);
    *place = Some((index, at + count));
    count
}

impl Inputs for MemInputs {
    ghost use Rattle.std.specs.Prelude.{◌≡◌, [], IsSome};
    ghost use Rattle.csv_tables.specs.Sides.{at_side};
    ghost use Rattle.csv_tables.specs.Memory.{held_in, left_of};

    ghost held = { λ s. held_in s.files };

    ghost left = { λ s side. left_of s.files (at_side side s.inner s.outer) };

    ghost may_open = { λ _ _ _. Unit {0} };

    ghost may_read = { λ s side. IsSome (at_side side s.inner s.outer) };

    ghost open_faults = { λ s side. at_side side s.inner_opens s.outer_opens };

    ghost read_faults = { λ s side. at_side side s.inner_reads s.outer_reads };

    ghost is_steady = { λ s. s.failing ≡ [] };

    // It fails exactly where it is told to, or nothing is held under the name.
    fn open(&mut self, side: Side, name: &str) -> Result<(), Failed>
        ensures fails { is_err result ≡ fails_to_open self.old name.now }
        ensures made { IsAsMade self.old self.new }
        ensures call { self.new.calls ≡ next_call self.old.calls }
        ensures bytes { OnOk result (left_at self.new side ≡ held_in self.old.files name.now) }
        ensures may { OnOk result (IsOpen self.new side) }
        ensures cause { HasCause (opens_at self.old side) (opens_at self.new side) result }
        ensures reads { reads_at self.new side ≡ reads_at self.old side }
        ensures others { LeavesSide self.old self.new (other side) }
    {
        self.calls = self.calls.saturating_add(1);
        if !self.failing.contains(&self.calls) {
            if let Some(index) = find_file(self.files.as_slice(), name) {
                match side {
                    Side::Inner => self.inner = Some((index, 0)),
                    Side::Outer => self.outer = Some((index, 0)),
                }
                return Ok(());
            }
        }
        match side {
            Side::Inner => self.inner_opens = self.inner_opens.saturating_add(1),
            Side::Outer => self.outer_opens = self.outer_opens.saturating_add(1),
        }
        Err(Failed)
    }

    // It fails exactly where it is told to, and gives at most `piece` bytes.
    fn read(&mut self, side: Side, into: &mut [u8]) -> Result<usize, Failed>
        requires may { IsOpen self.old side }
        requires room { 0 < length into.old }
        ensures fails { is_err result ≡ fails_to_read self.old }
        ensures piece { IfOk result (λ n. n ≤ self.old.piece) }
        ensures made { IsAsMade self.old self.new }
        ensures call { self.new.calls ≡ next_call self.old.calls }
        ensures count { IfOk result (λ n. n ≤ length into.new) }
        ensures bytes { ReadConsumes (left_at self.old side) (left_at self.new side) result into.new }
        ensures again { IsOpen self.new side }
        ensures cause { HasCause (reads_at self.old side) (reads_at self.new side) result }
        ensures opens { opens_at self.new side ≡ opens_at self.old side }
        ensures others { LeavesSide self.old self.new (other side) }
    {
        self.calls = self.calls.saturating_add(1);
        if self.failing.contains(&self.calls) {
            match side {
                Side::Inner => self.inner_reads = self.inner_reads.saturating_add(1),
                Side::Outer => self.outer_reads = self.outer_reads.saturating_add(1),
            }
            return Err(Failed);
        }
        match side {
            Side::Inner => Ok(read_at(self.files.as_slice(), &mut self.inner, self.piece, into)),
            Side::Outer => Ok(read_at(self.files.as_slice(), &mut self.outer, self.piece, into)),
        }
    }
}
