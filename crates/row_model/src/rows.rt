//! The rows of a table with a key column, and the calls that show a key.

ghost use Rattle.std.specs.Prelude.{◌≡◌, ◌+◌, ◌-◌, ◌*◌, ◌<◌, ◌≤◌, ℕ, [], length, get_or, take, drop, ⊤};
ghost use Rattle.std.specs.Option.{MatchOption};
ghost use Rattle.row_model.specs.Table.{field_of, key_of, meets};
ghost use Rattle.row_model.specs.Form.{column_limit, row_limit};
ghost use Rattle.row_model.specs.Hash.{fnv1a, hash_of_key};
ghost use Rattle.row_model.specs.Layout.{fields_of, Rising, rows_of};

use proc_table::Steps;
use std::marker::Model;
use std::sync::ledger::Ledger;

// Where the field at a place starts and ends.
fn bounds(bytes: &[u8], ends: &[u32], at: usize) -> (usize, usize)
    requires rising { Rising 0 ends.now (length bytes.now) }
    requires inside { at < length ends.now }
    ensures ordered { result.0 ≤ result.1 }
    ensures within { result.1 ≤ length bytes.now }
    ensures field { take (result.1 - result.0) (drop result.0 bytes.now) ≡ get_or (fields_of ends.now bytes.now) at [] }
{
    let end = ends[at] as usize;
    if at == 0 {
        (0, end)
    } else {
        (ends[at - 1] as usize, end)
    }
}

// The field at a place.
pub(crate) fn piece<'a>(bytes: &'a [u8], ends: &[u32], at: usize) -> &'a [u8]
    requires rising { Rising 0 ends.now (length bytes.now) }
    requires inside { at < length ends.now }
    ensures { result.now ≡ get_or (fields_of ends.now bytes.now) at [] }
{
    let (start, end) = bounds(bytes, ends, at);
    &bytes[start..end]
}

/// A header and data rows of one width: their bytes in one buffer, and the place where each
/// field ends. Only `field`, `hash_of` and `same` show a key's bytes, and each counts one look.
#[derive(Drop)]
pub struct Rows {
    bytes: Vec<u8>,
    ends: Vec<u32>,
    width: u32,
    count: u32,
    column: u32,
}

impl Model for Rows {
    ghost use Rattle.row_model.specs.Table.{Table};

    ghost Value = { Table };

    ghost use Rattle.row_model.specs.RowsLayout.{rows_view, IsRows};

    ghost view = { rows_view };

    ghost invariant = { IsRows };
}

impl Rows {
    pub(crate) fn from_parts(
        bytes: Vec<u8>,
        ends: Vec<u32>,
        width: u32,
        count: u32,
        column: u32,
    ) -> Rows
        requires rising { Rising 0 ends.items (length bytes.items) }
        requires whole { (count + 1) * width ≤ length ends.items }
        requires column { column < width }
        requires few { count ≤ row_limit }
        requires narrow { width ≤ column_limit }
        ensures header { result.header ≡ take width (fields_of ends.items bytes.items) }
        ensures rows { result.rows ≡ rows_of width count (drop width (fields_of ends.items bytes.items)) }
        ensures column { result.column ≡ column }
    {
        Rows {
            bytes,
            ends,
            width,
            count,
            column,
        }
    }

    /// The number of data rows, at most `ROW_LIMIT`.
    pub fn len(&self) -> u32
        ensures count { result ≡ length self.now.rows }
        ensures few { result ≤ row_limit }
    {
        self.count
    }

    /// The number of columns, from 1 to `COLUMN_LIMIT`.
    pub fn width(&self) -> u32
        ensures width { result ≡ length self.now.header }
        ensures narrow { result ≤ column_limit }
        ensures column { self.now.column < result }
        ensures even { (r : ℕ) → r < length self.now.rows → length (get_or self.now.rows r []) ≡ result }
    {
        self.width
    }

    // The field at a row, counted with the header, and a column.
    fn at(&self, place: usize, column: u32) -> &[u8]
        requires place { place ≤ length self.now.rows }
        requires column { column < length self.now.header }
        ensures header { place ≡ 0 → result.now ≡ get_or self.now.header column [] }
        ensures row { (r : ℕ) → place ≡ r + 1 → result.now ≡ field_of self.now r column }
    {
        let width = self.width as usize;
        piece(
            self.bytes.as_slice(),
            self.ends.as_slice(),
            place * width + column as usize,
        )
    }

    /// A field of a data row, or of the header where no row is named. One look.
    pub fn field<L: Ledger>(&self, row: Option<u32>, column: u32, steps: &mut Steps<L>) -> &[u8]
        requires row { MatchOption row ⊤ (λ r. r < length self.now.rows) }
        requires column { column < length self.now.header }
        ensures field { MatchOption row (result.now ≡ get_or self.now.header column []) (λ r. result.now ≡ field_of self.now r column) }
        ensures look { steps.new ≡ steps.old + 1 }
    {
        steps.tick();
        match row {
            None => self.at(0, column),
            Some(row) => self.at(row as usize + 1, column),
        }
    }

    /// The FNV-1a hash of a row's key, None exactly where the key is empty. One look.
    pub fn hash_of<L: Ledger>(&self, row: u32, steps: &mut Steps<L>) -> Option<u32>
        requires { row < length self.now.rows }
        ensures hash { result ≡ hash_of_key (key_of self.now row) }
        ensures look { steps.new ≡ steps.old + 1 }
    {
        steps.tick();
        let key = self.key(row);
        if key.is_empty() {
            None
        } else {
            Some(fnv1a_of(key))
        }
    }

    fn key(&self, row: u32) -> &[u8]
        requires { row < length self.now.rows }
        ensures { result.now ≡ key_of self.now row }
    {
        self.at(row as usize + 1, self.column)
    }
}

// FNV-1a of 32 bits.
#[tactic(auto, unfolding(crate::specs::Hash::fnv1a))]
fn fnv1a_of(bytes: &[u8]) -> u32
    ensures { result ≡ fnv1a bytes.now }
{
    bytes.iter().fold(
        2_166_136_261,
        |hash: u32, byte| (hash ^ u32::from(*byte)).wrapping_mul(16_777_619),
    )
}

/// Whether the keys of two rows meet: neither is empty, and their bytes are equal. One look.
pub fn same<L: Ledger>(outer: &Rows, o: u32, inner: &Rows, i: u32, steps: &mut Steps<L>) -> bool
    requires outer { o < length outer.now.rows }
    requires inner { i < length inner.now.rows }
    ensures meets { result ≡ meets (key_of outer.now o) (key_of inner.now i) }
    ensures look { steps.new ≡ steps.old + 1 }
{
    steps.tick();
    let key = outer.key(o);
    !key.is_empty() && key == inner.key(i)
}
