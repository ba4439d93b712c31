//! Readers and writers that are slow, or fail.
use std::io;
use std::io::{Read, Write};

/// Gives the script one byte at a time, and then fails or ends.
#[derive(Drop)]
pub struct SlowReader {
    /// The bytes that are still to be given.
    pub script: &'static [u8],
    /// Whether the reader fails after the last byte.
    pub fails: bool,
}

impl Read for SlowReader {
    fn read(&mut self, buf: &mut [u8]) -> io::Result<usize> {
        if self.script.is_empty() && self.fails {
            return Err(io::Error::from(io::ErrorKind::Other));
        }
        let len = buf.len().min(1);
        self.script.read(&mut buf[..len])
    }
}

/// Takes `room` bytes, one at a time, and then fails or takes none.
#[derive(Drop)]
pub struct NarrowWriter {
    /// The bytes that were taken.
    pub taken: Vec<u8>,
    /// How many further bytes there is room for.
    pub room: usize,
    /// Whether the writer fails if there is no room.
    pub fails: bool,
}

impl Write for NarrowWriter {
    fn write(&mut self, buf: &[u8]) -> io::Result<usize> {
        if self.room == 0 && self.fails {
            return Err(io::Error::from(io::ErrorKind::Other));
        }
        let len = buf.len().min(1).min(self.room);
        self.taken.extend_from_slice(&buf[..len])?;
        self.room -= len;
        Ok(len)
    }

    fn flush(&mut self) -> io::Result<()> {
        Ok(())
    }
}

/// Gives `left` letters, and then fails or ends.
#[derive(Drop)]
pub struct Letters {
    /// How many letters are still to be given.
    pub left: usize,
    /// Whether the reader fails after the last letter.
    pub fails: bool,
}

impl Read for Letters {
    fn read(&mut self, buf: &mut [u8]) -> io::Result<usize> {
        if self.left == 0 && self.fails {
            return Err(io::Error::from(io::ErrorKind::Other));
        }
        let len = buf.len().min(self.left);
        buf[..len].fill(b'a');
        self.left -= len;
        Ok(len)
    }
}
