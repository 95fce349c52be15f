//! The real edge: files that are read, missing or no files, and streams that gather or fail.

use crate::{FileInputs, LoadFault, Sink, StderrSink, StdoutSink, read_all, write_all};
use row_model::Side;
use std::io::{ErrorKind, Write};
use std::test::Fail;
use std::{fs, io, process};

#[test]
fn files_are_read_or_refused(rt: HostRuntime) -> Result<(), Fail> {
    let alloc = rt.alloc();
    let folder = std::env::temp_dir(&rt)?;
    let process = process::id(rt.process());
    let path = format!(in alloc; "{}/pg_sync-{process}.csv", folder.as_path().display())?;
    fs::write(&rt, path.as_str(), b"id\n1\n")?;
    let mut inputs = FileInputs::new(&rt);
    let read = read_all(alloc, &mut inputs, Side::Inner, path.as_str());
    fs::remove_file(&rt, path.as_str())?;
    assert_eq!(rt;
        read.expect(&rt, "the bytes").as_slice(),
        b"id\n1\n".as_slice()
    );
    let missing = read_all(alloc, &mut inputs, Side::Outer, path.as_str());
    assert_eq!(rt; missing.err(), Some(LoadFault::Open));
    let mut inputs = FileInputs::new(&rt);
    let no_file = read_all(alloc, &mut inputs, Side::Inner, "/");
    assert_eq!(rt; no_file.err(), Some(LoadFault::Read));
    Ok(())
}

// A stream that is closed.
#[derive(Drop)]
struct Closed;

impl Write for Closed {
    fn write(&mut self, _piece: &[u8]) -> io::Result<usize> {
        Err(io::Error::from(ErrorKind::BrokenPipe))
    }

    fn flush(&mut self) -> io::Result<()> {
        Ok(())
    }
}

#[test]
fn standard_output_gathers_until_it_is_flushed(rt: HostRuntime) {
    let alloc = rt.alloc();
    let mut text = Vec::new(alloc);
    let mut sink = StdoutSink::new(alloc, &mut text).expect(&rt, "memory");
    assert!(rt; write_all(&mut sink, b"one,").is_ok());
    assert!(rt; write_all(&mut sink, b"two\n").is_ok());
    assert!(rt; sink.flush().is_ok());
    drop(sink);
    assert_eq!(rt; text.as_slice(), b"one,two\n".as_slice());

    let mut closed = StdoutSink::new(alloc, Closed).expect(&rt, "memory");
    assert_eq!(rt; closed.write(b"lost"), Ok(4));
    assert!(rt; closed.flush().is_err());
}

#[test]
fn standard_error_writes_at_once(rt: HostRuntime) {
    let mut line = Vec::new(rt.alloc());
    let mut sink = StderrSink::new(&mut line);
    assert!(rt; write_all(&mut sink, b"a line\n").is_ok());
    drop(sink);
    assert_eq!(rt; line.as_slice(), b"a line\n".as_slice());
    assert!(rt; write_all(&mut StderrSink::new(Closed), b"lost").is_err());
}
