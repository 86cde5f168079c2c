//! Tests of `Counted` over readers and writers of std that fail, or that take only a part of the
//! bytes.

use crate::checks::check_at;
use dcc_io::{Counted, Failed, Sink, Source};
use std::io;
use std::process::Abort;

/// A reader that returns at most `each` bytes in a call. The call after `good_calls` calls returns
/// `Interrupted`.
#[derive(Drop)]
struct Halting<'a> {
    bytes: &'a [u8],
    each: usize,
    good_calls: u32,
    calls: u32,
}

impl<'a> io::Read for Halting<'a> {
    fn read(&mut self, buffer: &mut [u8]) -> io::Result<usize> {
        let before = self.calls;
        self.calls = before.saturating_add(1);
        if before == self.good_calls {
            return Err(io::Error::from(io::ErrorKind::Interrupted));
        }
        let count = self.each.min(self.bytes.len()).min(buffer.len());
        buffer[..count].copy_from_slice(&self.bytes[..count]);
        self.bytes = &self.bytes[count..];
        Ok(count)
    }
}

/// The result of a read, the first bytes in the buffer, and the numbers of failures and of calls
/// after the read.
type ReadRow = (Result<usize, Failed>, &'static [u8], u64, u32);

/// Reads `58 57 ` by reads of three bytes. The call after `good_calls` calls is interrupted.
fn play_reads(rt: &impl Abort, good_calls: u32, rows: &[ReadRow]) {
    let mut reader = Counted::new(Halting {
        bytes: b"58 57 ",
        each: 3,
        good_calls,
        calls: 0,
    });
    for row in rows {
        check_at(rt, is_read(&mut reader, row), row.3);
    }
}

fn is_read(reader: &mut Counted<Halting>, row: &ReadRow) -> bool {
    let mut buffer = [0u8; 8];
    let answer = reader.read(&mut buffer);
    let counts = (reader.failures, reader.inner.calls);
    answer == row.0 && buffer.starts_with(row.1) && counts == (row.2, row.3)
}

#[test]
fn an_interrupted_read_fails_and_the_next_one_goes_on(rt: HostRuntime) {
    let rows: [ReadRow; 4] = [
        (Err(Failed), b"", 1, 1),
        (Ok(3), b"58 ", 1, 2),
        (Ok(3), b"57 ", 1, 3),
        (Ok(0), b"", 1, 4),
    ];
    play_reads(&rt, 0, &rows);
}

#[test]
fn a_read_that_is_interrupted_between_two_fails_alone(rt: HostRuntime) {
    let rows: [ReadRow; 3] = [
        (Ok(3), b"58 ", 0, 1),
        (Err(Failed), b"", 1, 2),
        (Ok(3), b"57 ", 1, 3),
    ];
    play_reads(&rt, 1, &rows);
}

/// A writer that takes at most `each` bytes in a call. The call after `good_calls` calls returns
/// `Interrupted`.
#[derive(Drop)]
struct Sipping {
    taken: [u8; 8],
    len: usize,
    each: usize,
    good_calls: u32,
    calls: u32,

    /// The number of bytes that the caller passed to the last call.
    handed: usize,
}

impl Sipping {
    fn new(each: usize, good_calls: u32) -> Sipping {
        Sipping {
            taken: [0; 8],
            len: 0,
            each,
            good_calls,
            calls: 0,
            handed: 0,
        }
    }
}

impl io::Write for Sipping {
    fn write(&mut self, bytes: &[u8]) -> io::Result<usize> {
        let before = self.calls;
        self.calls = before.saturating_add(1);
        self.handed = bytes.len();
        if before == self.good_calls {
            return Err(io::Error::from(io::ErrorKind::Interrupted));
        }
        let at = self.len.min(8);
        let count = self.each.min(bytes.len()).min(8 - at);
        self.taken[at..at + count].copy_from_slice(&bytes[..count]);
        self.len = at + count;
        Ok(count)
    }

    fn flush(&mut self) -> io::Result<()> {
        Ok(())
    }
}

/// The bytes and the result of a write. Then come the numbers of failures and of calls after the
/// write, the number of bytes that the inner writer got in its last call, and the bytes that it has
/// taken.
type WriteRow = (
    &'static [u8],
    Result<usize, Failed>,
    u64,
    u32,
    usize,
    &'static [u8],
);

fn play_writes(rt: &impl Abort, inner: Sipping, rows: &[WriteRow]) {
    let mut writer = Counted::new(inner);
    for row in rows {
        check_at(rt, is_written(&mut writer, row), row.3);
    }
}

fn is_written(writer: &mut Counted<Sipping>, row: &WriteRow) -> bool {
    let answer = writer.write(row.0);
    let counts = (writer.failures, writer.inner.calls, writer.inner.handed);
    answer == row.1 && counts == (row.2, row.3, row.4) && has_taken(&writer.inner, row.5)
}

fn has_taken(writer: &Sipping, bytes: &[u8]) -> bool {
    writer.len == bytes.len() && writer.taken.starts_with(bytes)
}

#[test]
fn an_interrupted_write_fails_and_the_next_one_goes_on(rt: HostRuntime) {
    let rows: [WriteRow; 3] = [
        (b"alike", Err(Failed), 1, 1, 5, b""),
        (b"alike", Ok(2), 1, 2, 5, b"al"),
        (b"ike", Ok(2), 1, 3, 3, b"alik"),
    ];
    play_writes(&rt, Sipping::new(2, 0), &rows);
}

#[test]
fn a_write_that_is_interrupted_between_two_fails_alone(rt: HostRuntime) {
    let rows: [WriteRow; 3] = [
        (b"al", Ok(2), 0, 1, 2, b"al"),
        (b"ike", Err(Failed), 1, 2, 3, b"al"),
        (b"ike", Ok(3), 1, 3, 3, b"alike"),
    ];
    play_writes(&rt, Sipping::new(8, 1), &rows);
}

#[test]
fn a_write_that_takes_nothing_of_some_bytes_counts(rt: HostRuntime) {
    let rows: [WriteRow; 2] = [(b"alike", Ok(0), 1, 1, 5, b""), (b"", Ok(0), 1, 2, 0, b"")];
    play_writes(&rt, Sipping::new(0, 9), &rows);
}
