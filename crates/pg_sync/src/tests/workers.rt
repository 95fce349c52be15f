//! Joins by several workers: the same bytes by any number of them, whoever is held up where.

ghost use Rattle.std.specs.Prelude.{◌<◌};

use super::*;
use join_engine::{JoinSizes, LastJoin};
use proc_table::{Gate, Point};
use std::sync::atomic::{AtomicU64, Ordering};
use std::thread::yield_now;

const KEYED: &str = "--inner-key k --outer-key k";

// Runs these words by a gate, and tells a tally.
fn run_gated<R: Threads + Wait + Sync + AllocGlobal, G: Gate>(
    rt: &R,
    text: &str,
    inner: &[u8],
    outer: &[u8],
    gate: &G,
    tally: &mut LastJoin,
) -> Result<Ended, NoMemory> {
    let alloc = rt.alloc();
    let words = words_in(alloc, text)?;
    let mut files = Vec::new(alloc);
    files.push(file(alloc, "i", inner)?)?;
    files.push(file(alloc, "o", outer)?)?;
    let mut inputs = MemInputs::new(files, Vec::new(alloc), 4096);
    let mut out = MemSink::new(alloc, Vec::new(alloc), 4096, 1_000_000)?;
    let mut err = MemSink::new(alloc, Vec::new(alloc), 100, 100)?;
    let status = run(
        rt,
        alloc,
        words.as_slice(),
        &mut inputs,
        &mut out,
        &mut err,
        gate,
        tally,
    );
    Ok(Ended { status, out, err })
}

fn run_text<R: Threads + Wait + Sync + AllocGlobal>(
    rt: &R,
    text: &str,
    inner: &[u8],
    outer: &[u8],
) -> Result<Ended, NoMemory> {
    run_gated(rt, text, inner, outer, &OpenGate, &mut LastJoin::new())
}

#[test]
fn any_number_of_workers_prints_the_same(rt: HostRuntime) -> Result<(), Fail> {
    let cases = [
        ("id", PEOPLE, ORDERS, JOINED),
        ("id", "id,name\n", ORDERS, "oid,id,id,name\n"),
        ("k", "k\na\na\n", "k\na\na\n", "k,k\na,a\na,a\na,a\na,a\n"),
        ("k", "k,v\n,1\na,2\n", "k,w\n,3\n", "k,w,k,v\n"),
    ];
    let options = [
        "",
        "--workers 1",
        "--workers 2",
        "--mem 1 --workers 3 --buckets 1",
        "--workers 16",
    ];
    for (key, inner, outer, text) in cases {
        for option in options {
            let words = format!(in rt.alloc();
                "join i o --inner-key {key} --outer-key {key} {option}"
            )?;
            let words = words.as_str().trim_end();
            let ended = run_text(&rt, words, inner.as_bytes(), outer.as_bytes())?;
            assert_eq!(rt; ended.status, Status::Done, "of {words}");
            assert_eq!(rt; ended.out.taken(), text.as_bytes(), "of {words}");
        }
    }
    Ok(())
}

// Customers 1 to 5,000, and 20,000 orders of them.
fn customers(alloc: Global) -> Result<Vec<u8>, Fail> {
    let mut text = Vec::from_slice(alloc, b"id,name\n")?;
    for n in 1..5_001u32 {
        text.extend_from_slice(format!(in alloc; "{n},c{n}\n")?.as_bytes())?;
    }
    Ok(text)
}

fn customer_of(order: u32) -> u32
    requires { order < 20001 }
{
    7 * order % 5_000 + 1
}

fn orders(alloc: Global) -> Result<Vec<u8>, Fail> {
    let mut text = Vec::from_slice(alloc, b"oid,id\n")?;
    for m in 1..20_001u32 {
        text.extend_from_slice(format!(in alloc; "{m},{}\n", customer_of(m))?.as_bytes())?;
    }
    Ok(text)
}

fn orders_joined(alloc: Global) -> Result<Vec<u8>, Fail> {
    let mut text = Vec::from_slice(alloc, b"oid,id,id,name\n")?;
    for m in 1..20_001u32 {
        let c = customer_of(m);
        text.extend_from_slice(format!(in alloc; "{m},{c},{c},c{c}\n")?.as_bytes())?;
    }
    Ok(text)
}

#[test]
fn twenty_thousand_rows_in_order(rt: HostRuntime) -> Result<(), Fail> {
    let inner = customers(rt.alloc())?;
    let outer = orders(rt.alloc())?;
    let expected = orders_joined(rt.alloc())?;
    for option in ["", " --mem 100", " --workers 16 --mem 100 --buckets 1"] {
        let words = format!(in rt.alloc(); "join i o --inner-key id --outer-key id{option}")?;
        let ended = run_text(&rt, words.as_str(), inner.as_slice(), outer.as_slice())?;
        assert_eq!(rt; ended.status, Status::Done, "of {words}");
        assert!(rt; ended.out.taken() == expected.as_slice(), "of {words}");
    }
    Ok(())
}

#[test]
fn rows_of_one_key_and_small_batches(rt: HostRuntime) -> Result<(), Fail> {
    let inner = rows_of_a(rt.alloc(), 40)?;
    for workers in [1, 4, 16] {
        let words = format!(in rt.alloc();
            "join i o {KEYED} --workers {workers} --buckets 1 --mem 2"
        )?;
        let ended = run_text(&rt, words.as_str(), inner.as_slice(), b"k\na\n")?;
        let mut expected = Vec::from_slice(rt.alloc(), b"k,k\n")?;
        for _row in 0..40u32 {
            expected.extend_from_slice(b"a,a\n")?;
        }
        assert_eq!(rt; ended.out.taken(), expected.as_slice(), "by {workers}");
    }
    Ok(())
}

#[test]
fn nine_million_pairs_are_refused_by_all(rt: HostRuntime) -> Result<(), Fail> {
    let text = rows_of_a(rt.alloc(), 3000)?;
    for workers in [1, 4, 16] {
        let words = format!(in rt.alloc(); "join i o {KEYED} --workers {workers}")?;
        let ended = run_text(&rt, words.as_str(), text.as_slice(), text.as_slice())?;
        assert_eq!(rt; ended.status, Status::TooManyResults, "by {workers}");
        assert!(rt; ended.out.taken().is_empty());
    }
    Ok(())
}

#[test]
fn drawn_keys_by_several_workers(rt: HostRuntime) -> Result<(), Fail> {
    for numbers in ["2 0", "65536 7"] {
        let one = format!(in rt.alloc(); "make {numbers} 1")?;
        let one = run_text(&rt, one.as_str(), b"", b"")?;
        let four = format!(in rt.alloc(); "make {numbers} 4")?;
        let four = run_text(&rt, four.as_str(), b"", b"")?;
        assert_eq!(rt; one.status, Status::Done);
        assert_eq!(rt; four.status, Status::Done);
        assert_eq!(rt; four.out.taken(), one.out.taken());
    }
    let three = run_text(&rt, "make 2 0 3", b"", b"")?;
    assert_eq!(rt; three.out.taken(), b"rows 2\ntotal 65\n".as_slice());
    Ok(())
}

// A place that workers pass.
#[derive(Clone, Copy, PartialEq, Eq)]
enum Stage {
    Started,
    Attached,
    Chunk,
    Left,
}

fn stage_of(point: Point) -> Option<Stage> {
    match point {
        Point::Started => Some(Stage::Started),
        Point::Attached { .. } => Some(Stage::Attached),
        Point::Chunk => Some(Stage::Chunk),
        Point::Left => Some(Stage::Left),
        Point::Batch { .. } => None,
    }
}

// Holds some workers at one stage until others have come to another one. Workers are bits.
#[derive(Drop)]
struct Holding {
    held: u64,
    at: Stage,
    others: u64,
    until: Stage,
    seen: AtomicU64,
    met: AtomicU64,
    found: AtomicU64,
}

fn hold_up(held: u64, at: Stage, others: u64, until: Stage) -> Holding {
    Holding {
        held,
        at,
        others,
        until,
        seen: AtomicU64::new(0),
        met: AtomicU64::new(0),
        found: AtomicU64::new(0),
    }
}

impl Holding {
    // Looks so often at most, so that no worker waits for one that never comes.
    fn wait(&self) {
        for _ in 0..4_294_967_295u32 {
            if self.seen.load(Ordering::SeqCst) & self.others == self.others {
                self.met.fetch_add(1, Ordering::SeqCst);
                return;
            }
            yield_now();
        }
    }
}

impl Gate for Holding {
    fn at(&self, worker: u32, point: Point) {
        let bit = 1u64 << (worker % 64);
        let stage = stage_of(point);
        if stage == Some(self.until) {
            self.seen.fetch_or(bit, Ordering::SeqCst);
        }
        if stage == Some(self.at) && self.held & bit != 0 {
            self.wait();
        }
        if let Point::Attached { phase } = point
            && self.held & bit != 0
        {
            self.found.store(phase, Ordering::SeqCst);
        }
    }
}

#[test]
fn workers_that_are_held_up_change_nothing(rt: HostRuntime) -> Result<(), Fail> {
    // how many workers, who is held where, and until who has come where
    let cases = [
        (2, hold_up(1, Stage::Attached, 2, Stage::Attached)),
        (4, hold_up(8, Stage::Started, 7, Stage::Left)),
    ];
    for (workers, gate) in cases {
        let words = format!(in rt.alloc();
            "join i o --inner-key id --outer-key id --workers {workers}"
        )?;
        let mut tally = LastJoin::new();
        let ended = run_gated(
            &rt,
            words.as_str(),
            PEOPLE.as_bytes(),
            ORDERS.as_bytes(),
            &gate,
            &mut tally,
        )?;
        assert_eq!(rt; ended.out.taken(), JOINED.as_bytes());
        assert_eq!(rt; gate.met.load(Ordering::SeqCst), 1);
        assert_eq!(rt; tally.joins, 1);
        // Who comes when the others have left finds the build at FREE.
        if workers == 4 {
            assert_eq!(rt; gate.found.load(Ordering::SeqCst), 5);
        }
    }
    Ok(())
}

#[test]
fn two_workers_share_the_rows(rt: HostRuntime) -> Result<(), Fail> {
    let mut inner = Vec::from_slice(rt.alloc(), b"k\n")?;
    for n in 1..129u32 {
        inner.extend_from_slice(format!(in rt.alloc(); "{n}\n")?.as_bytes())?;
    }
    let gate = hold_up(3, Stage::Chunk, 3, Stage::Chunk);
    let mut tally = LastJoin::new();
    let words = format!(in rt.alloc(); "join i o {KEYED} --workers 2")?;
    let ended = run_gated(
        &rt,
        words.as_str(),
        inner.as_slice(),
        b"k\n1\n",
        &gate,
        &mut tally,
    )?;
    assert_eq!(rt; ended.out.taken(), b"k,k\n1,1\n".as_slice());
    assert!(rt; gate.met.load(Ordering::SeqCst) >= 2);
    let sizes = JoinSizes {
        inner: 128,
        outer: 1,
        workers: 2,
        pairs: 1,
    };
    assert_eq!(rt;
        tally,
        LastJoin {
            joins: 1,
            last: Some(sizes)
        }
    );
    Ok(())
}

#[test]
fn a_tally_is_told_of_joins_alone(rt: HostRuntime) -> Result<(), Fail> {
    // words, and how many joins are told
    let cases = [
        ("join i o --inner-key id --outer-key id", 1),
        ("join i o --inner-key id --outer-key no", 0),
        ("join i", 0),
        ("make 2 0 1", 0),
        ("make 2 0 2", 1),
        ("schedule i", 0),
    ];
    for (text, joins) in cases {
        let mut tally = LastJoin::new();
        run_gated(
            &rt,
            text,
            PEOPLE.as_bytes(),
            ORDERS.as_bytes(),
            &OpenGate,
            &mut tally,
        )?;
        assert_eq!(rt; tally.joins, joins, "of {text}");
    }
    Ok(())
}
