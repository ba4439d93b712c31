//! Readers and writers that fail once and would work if they were asked again.

use crate::compare::same_at;
use mb_script::{CountingIo, ReadEnd, WriteFailed, read_all, write_all};
use std::io;
use std::io::{Read, Write};
use std::process::Abort;

/// A device that fails in its call number `bad`, counted from 0, and works in every other.
#[derive(Drop)]
struct FailsOnce<D: Drop> {
    device: D,
    calls: usize,
    bad: usize,
}

impl<D: Drop> FailsOnce<D> {
    /// Counts a call. Returns whether it is the one that fails.
    fn fails(&mut self) -> bool {
        let now = self.calls == self.bad;
        self.calls = self.calls.wrapping_add(1);
        now
    }
}

impl<R: Read + Drop> Read for FailsOnce<R> {
    fn read(&mut self, buf: &mut [u8]) -> io::Result<usize> {
        if self.fails() {
            return Err(io::Error::from(io::ErrorKind::Interrupted));
        }
        let len = buf.len().min(2);
        self.device.read(&mut buf[..len])
    }
}

impl<W: Write + Drop> Write for FailsOnce<W> {
    fn write(&mut self, buf: &[u8]) -> io::Result<usize> {
        if self.fails() {
            return Err(io::Error::from(io::ErrorKind::Interrupted));
        }
        let len = buf.len().min(2);
        self.device.write(&buf[..len])
    }

    fn flush(&mut self) -> io::Result<()> {
        Ok(())
    }
}

/// Reads five bytes by a reader whose call `bad` fails. Checks that the result is `want`, after `calls` calls.
fn reads_five<R: Abort + AllocGlobal>(
    rt: &R,
    bad: usize,
    want: Result<&[u8], ReadEnd>,
    failures: u64,
    calls: usize,
) {
    let mut reader = CountingIo::new(FailsOnce {
        device: b"abcde".as_slice(),
        calls: 0,
        bad,
    });
    let same = match read_all(rt.alloc(), &mut reader) {
        Ok(bytes) => want == Ok(bytes.as_slice()),
        Err(fault) => want == Err(fault),
    };
    let told = (same, reader.failures, reader.device.calls);
    same_at(rt, &told, &(true, failures, calls), &bad);
}

#[test]
fn no_failed_read_is_tried_again(rt: HostRuntime) {
    for bad in 0..4 {
        reads_five(&rt, bad, Err(ReadEnd::ReadFault), 1, bad + 1);
    }
    // The four calls give two bytes, two, one, and the end.
    reads_five(&rt, 4, Ok(b"abcde".as_slice()), 0, 4);
}

/// Writes five bytes by a writer whose call `bad` fails. Checks that the result is `want`, and `written` was written.
fn writes_five<R: Abort + AllocGlobal>(
    rt: &R,
    bad: usize,
    want: Result<(), WriteFailed>,
    written: &[u8],
    failures: u64,
) {
    let mut writer = CountingIo::new(FailsOnce {
        device: Vec::<u8>::new(rt.alloc()),
        calls: 0,
        bad,
    });
    let answer = write_all(&mut writer, b"abcde");
    let told = (answer, writer.device.device.as_slice(), writer.failures);
    same_at(rt, &told, &(want, written, failures), &bad);
}

#[test]
fn no_failed_write_is_tried_again(rt: HostRuntime) {
    writes_five(&rt, 0, Err(WriteFailed), b"", 1);
    writes_five(&rt, 1, Err(WriteFailed), b"ab", 1);
    writes_five(&rt, 2, Err(WriteFailed), b"abcd", 1);
    writes_five(&rt, 3, Ok(()), b"abcde", 0);
}
