//! What the commands share: they read a script to its end and write a text as its answer.
ghost use Rattle.std.specs.Prelude.{◌≡◌, ◌≢◌, ◌+◌, ◌<◌, ℕ, List, length, Some, Err, IfOk, IfErr, string_bytes};
ghost use Rattle.mb_script.specs.declared.transfer.TheConstants.{MAX_SCRIPT_LEN};
ghost use Rattle.mb_script.specs.Devices.{CountGrows, CountGrowsUpTo};
ghost use Rattle.mb_script.specs.CommandIo.{AreApart, Command, IsCommandIo, meter};

use crate::device::{CountedRead, CountedWrite};
use crate::transfer::{ReadEnd, read_all, write_all};
use std::alloc::Allocator;

/// The faults that all commands share, under the names that one of them gives them.
#[derive(Clone, Copy)]
pub struct Faults<F> {
    /// The script has more bytes than the limit.
    pub too_long: F,
    /// Memory ran out.
    pub no_memory: F,
    /// A read returned an error.
    pub read_fault: F,
    /// A write returned an error, or took no byte.
    pub write_fault: F,
}

/// A command: its answers to scripts, and its faults.
pub trait ScriptCommand {
    /// Why the command stops.
    type Fault: Copy;

    // The answers and faults of the command, of which the contracts below speak.
    ghost command: { Command Self.Fault };

    /// The command's names for the faults that all commands share.
    fn faults() -> Faults<Self::Fault>
        ensures too_long { result.too_long ≡ command.too_long }
        ensures no_memory { result.no_memory ≡ command.no_memory }
        ensures read_fault { result.read_fault ≡ command.read_fault }
        ensures write_fault { result.write_fault ≡ command.write_fault }
        ensures apart { AreApart command }

        // A script is too long exactly if it has more bytes than the limit.
        ensures long { (bytes : List ℕ) → MAX_SCRIPT_LEN < length bytes
            → command.fault_of bytes ≡ Some command.too_long }
        ensures only_long { (bytes : List ℕ) → command.fault_of bytes ≡ Some command.too_long
            → MAX_SCRIPT_LEN < length bytes };

    /// The answer to the script with these bytes. No fault of a device comes here.
    fn answer<A: Allocator + Copy>(alloc: A, bytes: &[u8]) -> Result<String<A>, Self::Fault>
        ensures text { IfOk result (λ text. command.IsAnswer bytes.now (string_bytes text)) }
        ensures fault { IfErr result
            (λ e. e ≢ command.no_memory → command.fault_of bytes.now ≡ Some e) }
        ensures no_device { IfErr result
            (λ e. (e ≢ command.read_fault) × (e ≢ command.write_fault)) };
}

/// Reads a script to its end, and writes its answer and nothing else.
///
/// At most 1,048,577 bytes are read. The whole text is made before the first write. No error of a device is retried.
///
/// The error is the first that is met: while reading, then that of the command's `answer`, and last a failed write.
#[tactic(auto, using(crate::proofs::Exchanges::not_too_long))]
pub fn answer_script<C: ScriptCommand, A: Allocator + Copy, R: CountedRead, W: CountedWrite>(
    alloc: A,
    reader: &mut R,
    writer: &mut W,
) -> Result<(), C::Fault>
    ensures exchange { IsCommandIo C.command (meter R.left R.failures) (meter W.held W.failures)
        reader.old reader.new writer.old writer.new result }

    // These clauses hold of every reader, also of one whose bytes are not known.
    ensures given { CountGrowsUpTo (MAX_SCRIPT_LEN + 1) (R.given reader.old) (R.given reader.new) }
    ensures given_long { result ≡ Err C.command.too_long
        → CountGrows (MAX_SCRIPT_LEN + 1) (R.given reader.old) (R.given reader.new) }
    ensures given_failed { result ≡ Err C.command.read_fault
        → CountGrowsUpTo MAX_SCRIPT_LEN (R.given reader.old) (R.given reader.new) }
{
    let faults = C::faults();
    let bytes = match read_all(alloc, reader) {
        Ok(bytes) => bytes,
        Err(ReadEnd::TooLong) => return Err(faults.too_long),
        Err(ReadEnd::NoMemory) => return Err(faults.no_memory),
        Err(ReadEnd::ReadFault) => return Err(faults.read_fault),
    };
    let text = C::answer(alloc, &bytes)?;
    let Ok(()) = write_all(writer, text.as_bytes()) else {
        return Err(faults.write_fault);
    };
    Ok(())
}
