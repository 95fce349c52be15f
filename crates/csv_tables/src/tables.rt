//! An input read to its end, and the table of its records.

ghost use Rattle.std.specs.Prelude.{◌≡◌, ◌<◌, ◌++◌, ◌∷◌, ℕ, List, [], length, Some, None, Err, IfOk, IsSome, OnOk};
ghost use Rattle.csv.specs.Reading.{NotLengths, error_kind};
ghost use Rattle.csv.specs.Records.{fields_of};
ghost use Rattle.row_model.specs.Form.{fault_so_far, form_fault, table_of};
ghost use Rattle.row_model.specs.declared.RowFault.{RowFault};
ghost use Rattle.csv_tables.specs.Faults.{KeepsSide};
ghost use Rattle.csv_tables.specs.Sides.{other};
ghost use Rattle.csv_tables.specs.Loading.{ReadsAll, Loads, LoadsText, LoadCause, NothingFailed};
ghost use Rattle.csv_tables.specs.Records.{records_of};

use crate::LoadFault;
use crate::inputs::{Failed, Inputs};
use csv::{ByteRecord, ReaderBuilder};
use row_model::{RecordFault, Rows, RowsBuilder, Side};
use std::alloc::Global;

/// The most bytes of one input.
pub const INPUT_LIMIT: usize = 67_108_864;

// What is left on a side, to its end.
fn read_rest<I: Inputs>(alloc: Global, inputs: &mut I, side: Side) -> Result<Vec<u8>, LoadFault>
    requires { I.may_read inputs.old side }
    ensures reads { ReadsAll (λ v. v.items) (I.left inputs.old side) result }
    ensures held { I.held inputs.new ≡ I.held inputs.old }
    ensures cause { LoadCause (I.open_faults inputs.old side) (I.open_faults inputs.new side) (I.read_faults inputs.old side) (I.read_faults inputs.new side) result }
    ensures others { KeepsSide I.left I.may_open I.may_read I.open_faults I.read_faults inputs.old inputs.new (other side) }
    ensures steady { I.is_steady inputs.old → I.is_steady inputs.new }
    ensures calm { I.is_steady inputs.old → NothingFailed result }
{
    let mut buffer = [0u8; 8192];
    let mut bytes = Vec::new(alloc);
    'turns: for turn in 0..INPUT_LIMIT + 1 {
        match inputs.read(side, &mut buffer) {
            Err(Failed) => return Err(LoadFault::Read),
            Ok(count) => {
                if count == 0 {
                    return Ok(bytes);
                }
                if bytes.extend_from_slice(&buffer[..count]).is_err() {
                    return Err(LoadFault::NoMemory);
                }
                if bytes.len() > INPUT_LIMIT {
                    return Err(LoadFault::TooLong);
                }
            }
        }
    }
    // Each turn took a byte at least.
    unreachable!()
}

/// The whole input of this name.
pub fn read_all<I: Inputs>(
    alloc: Global,
    inputs: &mut I,
    side: Side,
    name: &str,
) -> Result<Vec<u8>, LoadFault>
    requires { I.may_open inputs.old side name.now }
    ensures reads { ReadsAll (λ v. v.items) (I.held inputs.old name.now) result }
    ensures held { I.held inputs.new ≡ I.held inputs.old }
    ensures cause { LoadCause (I.open_faults inputs.old side) (I.open_faults inputs.new side) (I.read_faults inputs.old side) (I.read_faults inputs.new side) result }
    ensures others { KeepsSide I.left I.may_open I.may_read I.open_faults I.read_faults inputs.old inputs.new (other side) }
    ensures steady { I.is_steady inputs.old → I.is_steady inputs.new }
    ensures calm { I.is_steady inputs.old → IsSome (I.held inputs.old name.now) → NothingFailed result }
{
    if inputs.open(side, name).is_err() {
        return Err(LoadFault::Open);
    }
    read_rest(alloc, inputs, side)
}

// Adds the fields of a record to a builder, and ends it.
fn add_record(builder: &mut RowsBuilder, row: &ByteRecord) -> Result<(), RecordFault>
    requires some { 0 < length (fields_of row.now) }
    requires fresh { builder.old.fields ≡ [] }
    requires clean { builder.old.refusal ≡ None }
    ensures added { OnOk result (builder.new ≡ record builder.old { records = builder.old.records ++ fields_of row.now ∷ [] }) }
    ensures fine { OnOk result (fault_so_far builder.old.key (builder.old.records ++ fields_of row.now ∷ []) ≡ None) }
    ensures bad { (f : RowFault) → result ≡ Err (RecordFault.Bad f) → fault_so_far builder.old.key (builder.old.records ++ fields_of row.now ∷ []) ≡ Some f }
{
    'fields: for i in 0..row.len() {
        if let Some(field) = row.get(i) {
            builder.push_field(field)?;
        }
    }
    builder.end_record()
}

// A read of a slice fails for want of memory alone, and a flexible reader takes records of any length.
fn unread(fault: csv::Error) -> RecordFault
    requires { NotLengths (error_kind fault) }
    ensures { result ≡ RecordFault.NoMemory }
{
    match fault.into_kind() {
        csv::ErrorKind::UnequalLengths { .. } => unreachable!(),
        _ => RecordFault::NoMemory,
    }
}

// The table of a text.
fn load_text(alloc: Global, text: &[u8], key: &str) -> Result<Rows, RecordFault>
    ensures { LoadsText text.now key.now result }
{
    let mut builder = RowsBuilder::new(alloc, key.as_bytes())?;
    let mut reader = ReaderBuilder::new()
        .has_headers(false)
        .flexible(true)
        .from_reader(alloc, text);
    let mut row = ByteRecord::new(alloc);
    'records: for turn in 0..text.len() + 1 {
        match reader.read_byte_record(&mut row) {
            Ok(true) => add_record(&mut builder, &row)?,
            Ok(false) => return builder.finish(),
            Err(fault) => return Err(unread(fault)),
        }
    }
    // Each record takes a byte at least.
    unreachable!()
}

/// The table of the input of this name.
pub fn load<I: Inputs>(
    alloc: Global,
    inputs: &mut I,
    side: Side,
    name: &str,
    key: &str,
) -> Result<Rows, LoadFault>
    requires { I.may_open inputs.old side name.now }
    ensures loads { Loads (I.held inputs.old name.now) key.now result }
    ensures held { I.held inputs.new ≡ I.held inputs.old }
    ensures cause { LoadCause (I.open_faults inputs.old side) (I.open_faults inputs.new side) (I.read_faults inputs.old side) (I.read_faults inputs.new side) result }
    ensures others { KeepsSide I.left I.may_open I.may_read I.open_faults I.read_faults inputs.old inputs.new (other side) }
    ensures steady { I.is_steady inputs.old → I.is_steady inputs.new }
    ensures calm { I.is_steady inputs.old → IsSome (I.held inputs.old name.now) → NothingFailed result }
{
    let text = read_all(alloc, inputs, side, name)?;
    match load_text(alloc, text.as_slice(), key) {
        Ok(rows) => Ok(rows),
        Err(RecordFault::Bad(fault)) => Err(LoadFault::Bad(fault)),
        Err(RecordFault::NoMemory) => Err(LoadFault::NoMemory),
    }
}
