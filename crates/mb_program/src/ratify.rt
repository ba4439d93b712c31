//! The command `ratify`: from a script to the trace of its ratifier.
ghost use Rattle.std.specs.Prelude.{◌≡◌, ◌+◌, Err};
ghost use Rattle.mb_program.specs.declared.fault.RatifyFault.TheVariants.{TooLong, ReadFault};
ghost use Rattle.mb_script.specs.declared.transfer.TheConstants.{MAX_SCRIPT_LEN};
ghost use Rattle.mb_script.specs.Vocabulary.{CountGrows, CountGrowsUpTo, IsCommandIo, meter};
ghost use Rattle.mb_program.specs.Answer.{ratifying};

use crate::fault::RatifyFault;
use crate::input::read_script;
use crate::trace_text::trace_text;
use mb_script::{CountedRead, CountedWrite, Faults, ScriptCommand, answer_script};
use std::alloc::Allocator;

/// The command `ratify`, for `answer_script`.
struct Ratify;

impl ScriptCommand for Ratify {
    type Fault = RatifyFault;

    ghost command = { ratifying };

    #[tactic(auto, using(crate::proofs::LongScripts::too_long, crate::proofs::LongScripts::only_long))]
    fn faults() -> Faults<RatifyFault> {
        Faults {
            too_long: RatifyFault::TooLong,
            no_memory: RatifyFault::NoMemory,
            read_fault: RatifyFault::ReadFault,
            write_fault: RatifyFault::WriteFault,
        }
    }

    fn answer<A: Allocator + Copy>(alloc: A, bytes: &[u8]) -> Result<String<A>, RatifyFault> {
        let script = read_script(alloc, bytes)?;
        let trace = mb_deciding::ratify(
            alloc,
            script.table,
            script.values,
            &script.inputs,
            &script.turns,
        )?;
        Ok(trace_text(alloc, &trace)?)
    }
}

/// Reads a ratifier script to its end, runs the ratifier, and writes the trace and nothing else.
///
/// It reads at most 1,048,577 bytes. The whole text is made before the first write. No error of a device is retried.
///
/// While it reads, `ReadFault`, `TooLong` and `NoMemory` come, whichever is met first. Then come the other faults of
/// the script, in the order of [`RatifyFault`], then `NoMemory`, then `WriteFault`.
pub fn ratify_text<A: Allocator + Copy, R: CountedRead, W: CountedWrite>(
    alloc: A,
    reader: &mut R,
    writer: &mut W,
) -> Result<(), RatifyFault>
    ensures exchange { IsCommandIo ratifying (meter R.left R.failures) (meter W.held W.failures)
        reader.old reader.new writer.old writer.new result }

    // These clauses hold of every reader, also of one whose bytes are not known.
    ensures given { CountGrowsUpTo (MAX_SCRIPT_LEN + 1) (R.given reader.old) (R.given reader.new) }
    ensures given_long { result ≡ Err TooLong
        → CountGrows (MAX_SCRIPT_LEN + 1) (R.given reader.old) (R.given reader.new) }
    ensures given_failed { result ≡ Err ReadFault
        → CountGrowsUpTo MAX_SCRIPT_LEN (R.given reader.old) (R.given reader.new) }
{
    answer_script::<Ratify, A, R, W>(alloc, reader, writer)
}
