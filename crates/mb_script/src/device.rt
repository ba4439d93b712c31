//! Readers and writers that count their failures, and readers that count the bytes that they give.
//!
//! A promise that a fault comes only if the device failed needs a device that counts its failures. A promise of a limit
//! on what is read needs a count of the bytes, as the bytes themselves may not be known. Each call of these traits
//! makes one read or one write, so nothing is retried.
ghost use Rattle.std.specs.Prelude.{◌≡◌, ℕ, ◌<◌, List, IsOk, IsErr, IfOk, Ok, length};
ghost use Rattle.std.specs.declared.option.Option.{Option};
ghost use Rattle.std.specs.Io.{ReadsAtMost, WritesAtMost};
ghost use Rattle.std.specs.Io.KnownBytes.{ReadConsumes, WriteAppends};
ghost use Rattle.mb_script.specs.Devices.{CountGrows, one_more};

use std::io;
use std::io::{Read, Write};

/// A reader that counts its failures, modulo 2^64, and the bytes that its reads give, up to 2^64 - 1.
pub trait CountedRead {
    // The bytes that reads will return from here on, if they are known.
    ghost left: { Self → Option (List ℕ) };

    // How many reads failed, modulo 2^64.
    ghost failures: { Self → ℕ };

    // How many bytes the reads gave, whether these are known or not. The count stops at 2^64 - 1.
    ghost given: { Self → ℕ };

    /// Reads some bytes, at most the buffer's length. It gives `Ok(0)` only at the end, or if the buffer has no room.
    fn read(&mut self, buf: &mut [u8]) -> io::Result<usize>
        ensures bound { ReadsAtMost result buf.new }
        ensures bytes { ReadConsumes (left self.old) (left self.new) result buf.new }
        ensures fails { IsErr result → failures self.new ≡ one_more (failures self.old) }
        ensures works { IsOk result → failures self.new ≡ failures self.old }
        ensures gives { IfOk result (λ n. CountGrows n (given self.old) (given self.new)) }
        ensures gives_none { IsErr result → given self.new ≡ given self.old };
}

/// A writer that counts its failures, modulo 2^64. A write that takes no byte is a failure.
pub trait CountedWrite {
    // The bytes that the writer holds, if they are known.
    ghost held: { Self → Option (List ℕ) };

    // How many writes failed, modulo 2^64.
    ghost failures: { Self → ℕ };

    /// Writes the first bytes of the buffer, and returns how many.
    fn write(&mut self, buf: &[u8]) -> io::Result<usize>
        requires { 0 < length buf.now }
        ensures bound { WritesAtMost result buf.now }
        ensures bytes { WriteAppends (held self.old) (held self.new) result buf.now }
        ensures fails { IsErr result → failures self.new ≡ one_more (failures self.old) }
        ensures stuck { result ≡ Ok 0 → failures self.new ≡ one_more (failures self.old) }
        ensures works { IfOk result (λ n. 0 < n → failures self.new ≡ failures self.old) };
}

/// A reader or writer of std, with the number of its failures and of the bytes that it gave.
#[derive(Drop)]
pub struct CountingIo<D: Drop> {
    /// The reader or writer.
    pub device: D,
    /// How many of its reads or writes failed, modulo 2^64.
    pub failures: u64,
    /// How many bytes its reads gave, or 2^64 - 1 if they are more. For a writer it does not change.
    pub given: u64,
}

impl<D: Drop> CountingIo<D> {
    /// The device, with no failure and no byte counted.
    pub fn new(device: D) -> CountingIo<D>
        ensures device { result.device ≡ device }
        ensures failures { result.failures ≡ 0 }
        ensures given { result.given ≡ 0 }
    {
        CountingIo {
            device,
            failures: 0,
            given: 0,
        }
    }

    /// Counts one failure more.
    fn count_failure(&mut self)
        ensures device { self.new.device ≡ self.old.device }
        ensures failures { self.new.failures ≡ one_more self.old.failures }
        ensures given { self.new.given ≡ self.old.given }
    {
        self.failures = self.failures.wrapping_add(1);
    }
}

impl<R: Read + Drop> CountedRead for CountingIo<R> {
    ghost left = { λ c. R.remaining c.device };

    ghost failures = { λ c. c.failures };

    ghost given = { λ c. c.given };

    fn read(&mut self, buf: &mut [u8]) -> io::Result<usize> {
        let result = self.device.read(buf);
        match &result {
            Ok(n) => self.given = self.given.saturating_add(*n as u64),
            Err(_) => self.count_failure(),
        }
        result
    }
}

impl<W: Write + Drop> CountedWrite for CountingIo<W> {
    ghost held = { λ c. W.contents c.device };

    ghost failures = { λ c. c.failures };

    fn write(&mut self, buf: &[u8]) -> io::Result<usize> {
        let result = self.device.write(buf);
        match &result {
            Ok(n) if *n > 0 => {}
            _ => self.count_failure(),
        }
        result
    }
}
