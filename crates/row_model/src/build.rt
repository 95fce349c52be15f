//! A table from fields that are pushed one by one.

ghost use Rattle.std.specs.Prelude.{◌≡◌, ◌+◌, ◌<◌, ◌≤◌, ◌^◌, ◌++◌, ◌∷◌, ℕ, [], Some, None, length, IfOk, IfErr, OnOk, OnErr};
ghost use Rattle.row_model.specs.Form.{key_fault, column_of};
ghost use Rattle.row_model.specs.Layout.{fields_of, Rising, refusal_at, EndsRecord, Finishes};

use crate::rows::{Rows, piece};
use crate::{COLUMN_LIMIT, ROW_LIMIT, RecordFault, RowFault};
use proc_table::NoMemory;
use std::alloc::Global;
use std::marker::Model;

// Adds a field at the end, or nothing.
fn push_piece(bytes: &mut Vec<u8>, ends: &mut Vec<u32>, field: &[u8]) -> Result<(), NoMemory>
    requires { length ends.old.items < 2 ^ 32 }
    ensures bytes { OnOk result (bytes.new.items ≡ bytes.old.items ++ field.now) }
    ensures ends { OnOk result (ends.new.items ≡ ends.old.items ++ (length bytes.old.items + length field.now) ∷ []) }
    ensures few { length ends.new.items < 2 ^ 32 }
    ensures err_bytes { OnErr result (bytes.new.items ≡ bytes.old.items) }
    ensures err_ends { OnErr result (ends.new.items ≡ ends.old.items) }
{
    if ends.len() >= u32::MAX as usize {
        return Err(NoMemory);
    }
    let Some(end) = bytes.len().checked_add(field.len()) else {
        return Err(NoMemory);
    };
    if end > u32::MAX as usize {
        return Err(NoMemory);
    }
    ends.push(end as u32)?;
    if bytes.extend_from_slice(field).is_err() {
        ends.pop();
        return Err(NoMemory);
    }
    Ok(())
}

// The one column whose name is the key's.
fn find_key(bytes: &[u8], ends: &[u32], key: &[u8]) -> Result<u32, RowFault>
    requires rising { Rising 0 ends.now (length bytes.now) }
    requires few { length ends.now < 2 ^ 32 }
    ensures one { OnOk result (key_fault key.now (fields_of ends.now bytes.now) ≡ None) }
    ensures column { IfOk result (λ column. column ≡ column_of key.now (fields_of ends.now bytes.now)) }
    ensures inside { IfOk result (λ column. column < length ends.now) }
    ensures fault { IfErr result (λ f. key_fault key.now (fields_of ends.now bytes.now) ≡ Some f) }
{
    let mut found: Option<u32> = None;
    'columns: for i in 0..ends.len() {
        if piece(bytes, ends, i) == key {
            if found.is_some() {
                return Err(RowFault::TwoKeys);
            }
            found = Some(i as u32);
        }
    }
    match found {
        Some(column) => Ok(column),
        None => Err(RowFault::NoKey),
    }
}

/// A table in the making: records that are pushed field by field, the header first.
///
/// After want of memory it is as before. A record that is refused for its form stays refused:
/// each later `end_record` and `finish` answers the same refusal.
#[derive(Drop)]
pub struct RowsBuilder {
    key: Vec<u8>,
    bytes: Vec<u8>,
    ends: Vec<u32>,
    width: u32,
    column: u32,
    count: u32,
    refusal: Option<RowFault>,
}

impl Model for RowsBuilder {
    ghost use Rattle.row_model.specs.Layout.{Building};

    ghost Value = { Building };

    ghost use Rattle.row_model.specs.BuilderLayout.{building, IsBuilding};

    ghost view = { λ a. building a.key.items a.ends.items a.bytes.items a.width a.count a.refusal };

    ghost invariant = { λ a. IsBuilding a.key.items a.ends.items a.bytes.items a.width a.column a.count a.refusal };
}

impl RowsBuilder {
    /// A builder of a table whose key column has this name in the header.
    pub fn new(alloc: Global, key: &[u8]) -> Result<RowsBuilder, NoMemory>
        ensures { IfOk result (λ b. b ≡ record { key = key.now; records = []; fields = []; refusal = None }) }
    {
        let key = Vec::from_slice(alloc, key)?;
        Ok(RowsBuilder {
            key,
            bytes: Vec::new(alloc),
            ends: Vec::new(alloc),
            width: 0,
            column: 0,
            count: 0,
            refusal: None,
        })
    }

    /// Adds a field to the record at hand. Bytes or fields past 32 bits are want of memory.
    pub fn push_field(&mut self, field: &[u8]) -> Result<(), NoMemory>
        ensures ok { OnOk result (self.new ≡ record self.old { fields = self.old.fields ++ field.now ∷ [] }) }
        ensures err { OnErr result (self.new ≡ self.old) }
    {
        push_piece(&mut self.bytes, &mut self.ends, field)?;
        Ok(())
    }

    // Keeps a refusal of the record at hand.
    fn refuse(&mut self, fault: RowFault) -> Result<(), RecordFault>
        requires { refusal_at self.old ≡ Some fault }
        ensures { EndsRecord self.old result self.new }
    {
        self.refusal = Some(fault);
        Err(RecordFault::Bad(fault))
    }

    // Ends the first record, which is the header.
    fn end_header(&mut self) -> Result<(), RecordFault>
        requires first { self.old.records ≡ [] }
        requires clean { self.old.refusal ≡ None }
        requires some { 0 < length self.old.fields }
        ensures { EndsRecord self.old result self.new }
    {
        if self.ends.len() > COLUMN_LIMIT {
            return self.refuse(RowFault::TooManyColumns);
        }
        match find_key(
            self.bytes.as_slice(),
            self.ends.as_slice(),
            self.key.as_slice(),
        ) {
            Ok(column) => {
                self.column = column;
                self.width = self.ends.len() as u32;
                self.count = 1;
                Ok(())
            }
            Err(fault) => self.refuse(fault),
        }
    }

    // Ends a record where nothing was refused.
    fn end_next(&mut self) -> Result<(), RecordFault>
        requires clean { self.old.refusal ≡ None }
        requires some { 0 < length self.old.fields }
        ensures { EndsRecord self.old result self.new }
    {
        if self.count == 0 {
            return self.end_header();
        }
        let fields = self.ends.len() - self.count as usize * self.width as usize;
        if fields != self.width as usize {
            let fault = RowFault::Ragged {
                number: self.count + 1,
            };
            return self.refuse(fault);
        }
        if self.count > ROW_LIMIT {
            return self.refuse(RowFault::TooManyRows);
        }
        self.count += 1;
        Ok(())
    }

    /// Ends the record at hand, which is the header where it is the first. A refusal is kept.
    pub fn end_record(&mut self) -> Result<(), RecordFault>
        requires { 0 < length self.old.fields }
        ensures { EndsRecord self.old result self.new }
    {
        match self.refusal {
            Some(fault) => Err(RecordFault::Bad(fault)),
            None => self.end_next(),
        }
    }

    /// The table of the records that were ended. Fields pushed since then are dropped.
    pub fn finish(self) -> Result<Rows, RecordFault>
        ensures { Finishes self result }
    {
        let RowsBuilder {
            key: _,
            bytes,
            ends,
            width,
            column,
            count,
            refusal,
        } = self;
        match refusal {
            Some(fault) => Err(RecordFault::Bad(fault)),
            None => {
                if count == 0 {
                    return Err(RecordFault::Bad(RowFault::NoHeader));
                }
                Ok(Rows::from_parts(bytes, ends, width, count - 1, column))
            }
        }
    }
}
