//! The sink gets the text row by row, also after a row that fills the memory of the writer.

use super::ENOUGH;
use crate::{Failed, PrintFault, Sink, print};
use row_model::{Pair, RecordFault, Rows, RowsBuilder};
use std::alloc::Global;
use std::process::Abort;
use std::test::Fail;

// A sink that keeps the pieces apart.
#[derive(Drop)]
struct Pieces {
    alloc: Global,
    pieces: Vec<Vec<u8>>,
    faults: u64,
}

impl Sink for Pieces {
    ghost use Rattle.std.specs.Prelude.{None};

    ghost taken = { λ _. None };

    ghost faults = { λ s. s.faults };

    ghost capacity = { λ _. None };

    fn write(&mut self, piece: &[u8]) -> Result<usize, Failed> {
        if let Ok(copy) = Vec::from_slice(self.alloc, piece) {
            if self.pieces.push(copy).is_ok() {
                return Ok(piece.len());
            }
        }
        self.faults = self.faults.saturating_add(1);
        Err(Failed)
    }
}

// A table of two columns, the key's first.
fn table(alloc: Global, rows: &[[&[u8]; 2]]) -> Result<Rows, RecordFault> {
    let mut builder = RowsBuilder::new(alloc, b"id")?;
    for row in rows {
        builder.push_field(row[0])?;
        builder.push_field(row[1])?;
        builder.end_record()?;
    }
    builder.finish()
}

// What the sink gets of three pairs.
fn pieces_of(
    rt: &impl Abort,
    alloc: Global,
    outer: &Rows,
    inner: &Rows,
) -> Result<Vec<Vec<u8>>, PrintFault> {
    assert!(rt; outer.len() == 3);
    assert!(rt; inner.len() == 2);
    let pairs = [(0, 0), (1, 1), (2, 1)].map(|(outer, inner)| Pair { outer, inner });
    let Ok(pairs) = Vec::from_slice(alloc, &pairs) else {
        return Err(PrintFault::NoMemory);
    };
    let mut out = Pieces {
        alloc,
        pieces: Vec::new(alloc),
        faults: 0,
    };
    print(alloc, outer, inner, &pairs, &mut out)?;
    Ok(out.pieces)
}

#[test]
fn each_piece_is_one_row(rt: HostRuntime) -> Result<(), Fail> {
    let alloc = rt.alloc();
    let long = vec![in alloc; b'x'; ENOUGH]?;
    let outer = table(
        alloc,
        &[
            [b"id", b"w"],
            [b"1", &long],
            [b"2", b"a,b"],
            [b"2", b"\"c\""],
        ],
    );
    let inner = table(alloc, &[[b"id", b"v"], [b"1", b""], [b"2", b"z"]]);
    let outer = outer.expect(&rt, "a table");
    let inner = inner.expect(&rt, "a table");
    let pieces = pieces_of(&rt, alloc, &outer, &inner).expect(&rt, "memory");
    let lengths = [10, ENOUGH + 6, 12, 14];
    assert_eq!(rt; pieces.len(), lengths.len());
    for (piece, length) in pieces.iter().zip(lengths.iter()) {
        assert_eq!(rt; piece.len(), *length);
        assert_eq!(rt; piece.last(), Some(&b'\n'));
    }
    assert_eq!(rt; pieces[0].as_slice(), b"id,w,id,v\n".as_slice());
    assert_eq!(rt; pieces[3].as_slice(), b"2,\"\"\"c\"\"\",2,z\n".as_slice());
    Ok(())
}
