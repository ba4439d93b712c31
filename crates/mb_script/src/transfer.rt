//! Reading all that a reader has, up to a limit, and writing a whole text.
ghost use Rattle.std.specs.Prelude.{◌≡◌, ◌≢◌, ◌+◌, ◌≤◌, IfOk, OnOk, OnErr, Err, length};
ghost use Rattle.std.specs.Io.KnownBytes.{Appends, Consumes, IsAtEnd};
ghost use Rattle.mb_script.specs.Devices.{AppendsFront, ConsumesCount, ConsumesUpTo, CountGrows};
ghost use Rattle.mb_script.specs.Devices.{CountGrowsUpTo, one_more};

use crate::device::{CountedRead, CountedWrite};
use std::alloc::Allocator;

/// The most bytes that a script may have.
pub const MAX_SCRIPT_LEN: usize = 1_048_576;

// The most bytes that one read may give.
const PIECE_LEN: usize = 4096;

/// Why reading stopped before the end.
#[derive(Clone, Copy, Debug, PartialEq, Eq, Hash)]
pub enum ReadEnd {
    /// There are more bytes than the limit, [`MAX_SCRIPT_LEN`].
    TooLong,
    /// Memory ran out.
    NoMemory,
    /// A read returned an error.
    ReadFault,
}

/// A write returned an error, or took no byte.
#[derive(Clone, Copy, Debug, PartialEq, Eq, Hash)]
pub struct WriteFailed;

/// Reads to the end, but stops after the first byte past the limit, [`MAX_SCRIPT_LEN`]. A byte is read when a read
/// returns it. The error is the one that comes first: `TooLong`, `NoMemory` or `ReadFault`.
pub fn read_all<R: CountedRead, A: Allocator + Drop>(
    alloc: A,
    reader: &mut R,
) -> Result<Vec<u8, A>, ReadEnd>
    ensures whole { IfOk result (λ v. Consumes (R.left reader.old) (R.left reader.new) v.items) }
    ensures end { OnOk result (IsAtEnd (R.left reader.new)) }
    ensures limit { IfOk result (λ v. length v.items ≤ MAX_SCRIPT_LEN) }

    // After an `Err` at most `MAX_SCRIPT_LEN + 1` bytes were read, and after `TooLong` exactly so many.
    ensures early { OnErr result
        (ConsumesUpTo (MAX_SCRIPT_LEN + 1) (R.left reader.old) (R.left reader.new)) }
    ensures long { result ≡ Err ReadEnd.TooLong
        → ConsumesCount (MAX_SCRIPT_LEN + 1) (R.left reader.old) (R.left reader.new) }

    // After one byte too many nothing more is read. So before a failed read at most the limit was read.
    ensures failed { result ≡ Err ReadEnd.ReadFault
        → ConsumesUpTo MAX_SCRIPT_LEN (R.left reader.old) (R.left reader.new) }

    // These clauses hold of every reader, also of one whose bytes are not known.
    ensures given { CountGrowsUpTo (MAX_SCRIPT_LEN + 1) (R.given reader.old) (R.given reader.new) }
    ensures given_whole { IfOk result
        (λ v. CountGrows (length v.items) (R.given reader.old) (R.given reader.new)) }
    ensures given_long { result ≡ Err ReadEnd.TooLong
        → CountGrows (MAX_SCRIPT_LEN + 1) (R.given reader.old) (R.given reader.new) }
    ensures given_failed { result ≡ Err ReadEnd.ReadFault
        → CountGrowsUpTo MAX_SCRIPT_LEN (R.given reader.old) (R.given reader.new) }

    // The call returns `ReadFault` exactly if a read failed. Then just one read did.
    ensures fault { result ≡ Err ReadEnd.ReadFault
        → R.failures reader.new ≡ one_more (R.failures reader.old) }
    ensures works { result ≢ Err ReadEnd.ReadFault → R.failures reader.new ≡ R.failures reader.old }
{
    let mut text = Vec::new(alloc);
    let mut piece = [0u8; PIECE_LEN];
    while text.len() <= MAX_SCRIPT_LEN {
        let room = PIECE_LEN.min(MAX_SCRIPT_LEN + 1 - text.len());
        let Ok(n) = reader.read(&mut piece[..room]) else {
            return Err(ReadEnd::ReadFault);
        };
        if n == 0 {
            return Ok(text);
        }
        let Ok(()) = text.extend_from_slice(&piece[..n]) else {
            return Err(ReadEnd::NoMemory);
        };
    }
    Err(ReadEnd::TooLong)
}

/// Writes the whole text. After `WriteFailed`, the only error, a prefix of it was written.
pub fn write_all<W: CountedWrite>(writer: &mut W, text: &[u8]) -> Result<(), WriteFailed>
    ensures ok { OnOk result (Appends (W.held writer.old) (W.held writer.new) text.now) }
    ensures err { OnErr result (AppendsFront (W.held writer.old) (W.held writer.new) text.now) }
    ensures fault { OnErr result (W.failures writer.new ≡ one_more (W.failures writer.old)) }
    ensures works { OnOk result (W.failures writer.new ≡ W.failures writer.old) }
{
    let mut at = 0;
    while at < text.len() {
        match writer.write(&text[at..]) {
            Ok(n) if n > 0 => at += n,
            _ => return Err(WriteFailed),
        }
    }
    Ok(())
}
