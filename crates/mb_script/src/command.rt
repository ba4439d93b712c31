//! The command `replay`: from a script to its transcript and its report.
ghost use Rattle.std.specs.Prelude.{◌≡◌, ◌+◌, Err};
ghost use Rattle.mb_script.specs.declared.fault.Fault.TheVariants.{TooLong, ReadFault};
ghost use Rattle.mb_script.specs.declared.transfer.TheConstants.{MAX_SCRIPT_LEN};
ghost use Rattle.mb_script.specs.Devices.{CountGrows, CountGrowsUpTo};
ghost use Rattle.mb_script.specs.CommandIo.{IsCommandIo, meter};
ghost use Rattle.mb_script.specs.Replaying.{replaying};

use crate::device::{CountedRead, CountedWrite};
use crate::fault::Fault;
use crate::parser::parse;
use crate::replay::replay_text;
use crate::script_command::{Faults, ScriptCommand, answer_script};
use std::alloc::Allocator;

/// The command `replay`, for `answer_script`.
struct Replay;

impl ScriptCommand for Replay {
    type Fault = Fault;

    ghost command = { replaying };

    #[tactic(auto, using(crate::proofs::LongScripts::too_long, crate::proofs::LongScripts::only_long))]
    fn faults() -> Faults<Fault> {
        Faults {
            too_long: Fault::TooLong,
            no_memory: Fault::NoMemory,
            read_fault: Fault::ReadFault,
            write_fault: Fault::WriteFault,
        }
    }

    fn answer<A: Allocator + Copy>(alloc: A, bytes: &[u8]) -> Result<String<A>, Fault> {
        let script = parse(alloc, bytes)?;
        Ok(replay_text(alloc, script.setup, &script.events)?)
    }
}

/// Reads a script to its end, replays its events in a new world, and writes the transcript, the report, and nothing
/// else.
///
/// At most 1,048,577 bytes are read. The whole text is made before the first write. No error of a device is retried.
///
/// The error is the first that is met. While reading it is `ReadFault`, `TooLong` or `NoMemory`. Then come those of
/// [`parse`](crate::parse), then `NoMemory`, and last `WriteFault`.
pub fn run<A: Allocator + Copy, R: CountedRead, W: CountedWrite>(
    alloc: A,
    reader: &mut R,
    writer: &mut W,
) -> Result<(), Fault>
    ensures exchange { IsCommandIo replaying (meter R.left R.failures) (meter W.held W.failures)
        reader.old reader.new writer.old writer.new result }

    // These clauses hold of every reader, also of one whose bytes are not known.
    ensures given { CountGrowsUpTo (MAX_SCRIPT_LEN + 1) (R.given reader.old) (R.given reader.new) }
    ensures given_long { result ≡ Err TooLong
        → CountGrows (MAX_SCRIPT_LEN + 1) (R.given reader.old) (R.given reader.new) }
    ensures given_failed { result ≡ Err ReadFault
        → CountGrowsUpTo MAX_SCRIPT_LEN (R.given reader.old) (R.given reader.new) }
{
    answer_script::<Replay, A, R, W>(alloc, reader, writer)
}
