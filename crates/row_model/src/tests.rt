//! The hash's outside vectors, keys that collide, and what a builder refuses and keeps.

ghost use Rattle.std.specs.Prelude.{◌≡◌, ◌<◌};

use crate::{RecordFault, Route, RowFault, Rows, RowsBuilder, same};
use proc_table::Steps;
use std::alloc::Global;
use std::marker::Brand;
use std::sync::ledger::{Blank, Ledger};

fn add(builder: &mut RowsBuilder, first: &str, second: &str) -> Result<(), RecordFault> {
    builder.push_field(first.as_bytes())?;
    builder.push_field(second.as_bytes())?;
    builder.end_record()
}

// A table of rows with these keys.
fn table(alloc: Global, keys: &[&str]) -> Result<Rows, RecordFault> {
    let mut builder = RowsBuilder::new(alloc, b"key")?;
    add(&mut builder, "key", "note")?;
    for key in keys {
        add(&mut builder, key, "x")?;
    }
    builder.finish()
}

// The hash of each row's key, and for each row whether it meets the first.
fn looks<L: Ledger>(
    blank: Blank,
    alloc: Global,
    rows: &Rows,
) -> Result<(Vec<Option<u32>>, Vec<bool>), RecordFault>
    requires name { blank.name ≡ L.name }
    requires parts { blank.parts ≡ L.parts }
    requires some { 0 < blank.parts }
{
    let mut steps = Steps::<L>::new(blank);
    let mut hashes = Vec::new(alloc);
    let mut meets = Vec::new(alloc);
    for row in 0..rows.len() {
        if hashes.push(rows.hash_of(row, &mut steps)).is_err()
            || meets.push(same(rows, 0, rows, row, &mut steps)).is_err()
        {
            return Err(RecordFault::NoMemory);
        }
    }
    Ok((hashes, meets))
}

#[test]
fn hashes_are_fnv1a_and_collide(rt: HostRuntime) {
    let alloc = rt.alloc();
    let keys = ["liquid", "costarring", "a", "b", "foobar", ""];
    let hashes = [
        Some(0x5e4d_aa9d),
        Some(0x5e4d_aa9d),
        Some(0xe40c_292c),
        Some(0xe70c_2de5),
        Some(0xbf9c_f968),
        None,
    ];
    let rows = table(alloc, &keys).expect(&rt, "a table");
    assert_eq!(rt; rows.len(), 6);
    assert_eq!(rt; rows.width(), 2);
    let (seen, meets) = looks::<Brand>(Blank::new(1), alloc, &rows).expect(&rt, "memory");
    assert_eq!(rt; seen.as_slice(), hashes.as_slice());
    assert_eq!(rt;
        meets.as_slice(),
        [true, false, false, false, false, false].as_slice()
    );
}

#[test]
fn a_refusal_comes_again(rt: HostRuntime) {
    let mut builder = RowsBuilder::new(rt.alloc(), b"key").expect(&rt, "memory");
    assert!(rt; add(&mut builder, "key", "note").is_ok());
    assert!(rt; builder.push_field(b"alone").is_ok());
    let ragged = Err(RecordFault::Bad(RowFault::Ragged { number: 2 }));
    assert_eq!(rt; builder.end_record(), ragged);
    assert_eq!(rt; add(&mut builder, "1", "one"), ragged);
    assert_eq!(rt; builder.finish().err(), ragged.err());
}

#[test]
fn routes_are_the_low_bits_and_then_the_next(rt: HostRuntime) {
    let cases = [
        (0xe40c_292c, 0, 1),
        (0xe70c_2de5, 1, 1),
        (0xbf9c_f968, 0, 0),
    ];
    for (hash, bucket, batch) in cases {
        assert_eq!(rt; Route::of(hash, 4, 2), Route { bucket, batch });
    }
}
