//! Devices that are read and written: in partial values, in whole, and failing in mid-stream.
use fr_doc::{
    InputFault, MemSink, MemSource, ReaderSource, Source, WriterSink, read_input, write_report,
};
use fr_shape::Items;
use std::alloc::Global;
use std::io;
use std::io::{Cursor, ErrorKind, Read};
use std::process::Abort;

const DIGITS: [u8; 10] = *b"0123456789";

fn digits(rt: &impl Abort, alloc: Global) -> Items<u8> {
    match DIGITS.to_vec(alloc) {
        Ok(digits) => Items::from_vec(digits),
        Err(_) => panic!(rt; "no memory"),
    }
}

/// The number of the one call of a device that fails.
fn fault_at(rt: &impl Abort, alloc: Global, call: u64) -> Items<u64> {
    match vec![in alloc; call] {
        Ok(faults) => Items::from_vec(faults),
        Err(_) => panic!(rt; "no memory"),
    }
}

/// Ends the test where the digits aren't what is read.
fn check_read<S: Source>(rt: &impl Abort, alloc: Global, source: &mut S) {
    match read_input(alloc, source) {
        Ok(read) => assert!(rt; read.as_slice() == DIGITS.as_slice()),
        Err(_) => panic!(rt; "no input"),
    }
}

/// What a sink took that has a call that fails, and whether the digits were written.
fn written(rt: &impl Abort, alloc: Global, call: u64, want: &[u8]) -> bool {
    let mut sink = MemSink::new(alloc, 4, fault_at(rt, alloc, call));
    let outcome = write_report(&mut sink, &DIGITS);
    assert!(rt; sink.taken() == want);
    outcome.is_ok()
}

#[test]
fn small_pieces_are_read_whole(rt: HostRuntime) {
    let alloc = rt.alloc();
    let mut source = MemSource::new(digits(&rt, alloc), 3, Items::new(alloc));
    check_read(&rt, alloc, &mut source);
}

#[test]
fn a_source_fails_in_mid_stream(rt: HostRuntime) {
    let alloc = rt.alloc();
    let mut source = MemSource::new(digits(&rt, alloc), 3, fault_at(&rt, alloc, 3));
    let fault = read_input(alloc, &mut source).err();
    assert!(rt; fault == Some(InputFault::Failed));
}

#[test]
fn a_sink_that_fails_took_what_came_before(rt: HostRuntime) {
    assert!(rt; !written(&rt, rt.alloc(), 2, b"0123"));
    assert!(rt; written(&rt, rt.alloc(), 4, &DIGITS));
}

#[test]
fn a_reader_is_read_and_a_writer_written(rt: HostRuntime) {
    let alloc = rt.alloc();
    let mut source = ReaderSource::new(Cursor::new(DIGITS.as_slice()));
    check_read(&rt, alloc, &mut source);
    let mut written: Vec<u8> = Vec::new(alloc);
    assert!(rt; write_report(&mut WriterSink::new(&mut written), &DIGITS).is_ok());
    assert!(rt; written.as_slice() == DIGITS.as_slice());
}

// A reader that is out of order.
#[derive(Drop)]
struct Broken;

impl Read for Broken {
    fn read(&mut self, _: &mut [u8]) -> io::Result<usize> {
        Err(io::Error::from(ErrorKind::Other))
    }
}

#[test]
fn a_broken_reader_and_a_full_writer_fail(rt: HostRuntime) {
    let fault = read_input(rt.alloc(), &mut ReaderSource::new(Broken)).err();
    assert!(rt; fault == Some(InputFault::Failed));
    let mut few = [0; 4];
    let mut writer: &mut [u8] = &mut few;
    assert!(rt; write_report(&mut WriterSink::new(&mut writer), &DIGITS).is_err());
    assert!(rt; few == *b"0123");
}
