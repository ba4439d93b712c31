//! What the program does between its command line and its status.
ghost use Rattle.std.specs.Prelude.{◌≡◌, ◌≢◌, ◌⊎◌, ◌+◌, Bool, map};
ghost use Rattle.clap.specs.Words.{kind_of};
ghost use Rattle.clap.specs.declared.error.ErrorKind.TheVariants.{DisplayHelp, DisplayVersion};
ghost use Rattle.mb_script.specs.declared.transfer.TheConstants.{MAX_SCRIPT_LEN};
ghost use Rattle.mb_script.specs.Vocabulary.{CountGrowsUpTo, meter};
ghost use Rattle.mb_program.specs.Outcome.{fault_line};
ghost use Rattle.mb_program.specs.Program.{IsPrinted, IsProgramEnd, IsTold, WasCarriedOut, ended_by};
ghost use Rattle.mb_program.specs.RunOptions.{HasBudget};
ghost use Rattle.mb_program.specs.declared.outcome.ProgramExit.TheVariants as ending;

use crate::command::{Choice, command_of};
use crate::fault::Failed;
use crate::outcome::{ProgramExit, fault_text};
use crate::ratify::ratify_text;
use crate::run::run_threads;
use mb_script::{CountedRead, CountedWrite, write_all};
use std::convert::AsStr;
use std::sync::Wait;
use std::thread::Threads;

/// Does what the words of the command line ask for, from `reader` to `writer`.
///
/// The line of a fault goes to `errors`, and so does the reason why clap refuses the words. Help or a version that was
/// asked for goes to `writer`. `words` begin with the program's name.
///
/// Returns how the program ends. `Refused` comes only by a kind that clap's rules give, if no command is named, or if
/// memory runs out. Else it is `Done`, or `Failed` with the command's fault. `NonUtf8Args` and `ArgsUnavailable` never
/// come. At most 1,048,577 bytes are read. The call may wait for its threads. After `Done` nothing went to `errors`.
/// After `Refused` nothing was read, and one of the two writers is as before.
pub fn run<
    R: AllocGlobal + Threads + Wait + Sync,
    S: AsStr,
    I: CountedRead,
    O: CountedWrite,
    E: CountedWrite,
>(rt: &R, words: &[S], reader: &mut I, writer: &mut O, errors: &mut E) -> ProgramExit
    ensures done { IsProgramEnd (map S.text words.now) (meter I.left I.failures)
        (meter O.held O.failures) (meter E.held E.failures)
        reader.old reader.new writer.old writer.new errors.old errors.new result }

    // At most `MAX_SCRIPT_LEN + 1` bytes are read. This holds of every reader, also of one whose bytes are not known,
    // such as standard input.
    ensures given { CountGrowsUpTo (MAX_SCRIPT_LEN + 1) (I.given reader.old) (I.given reader.new) }
{
    match command_of(rt.alloc(), words) {
        Ok(choice) => match carry_out(rt, choice, reader, writer) {
            Ok(()) => ProgramExit::Done,
            Err(failed) => end_with_fault(rt, failed, errors),
        },
        Err(error) => end_with_refusal(rt, &error, writer, errors),
    }
}

/// Runs the command that was chosen. `run` does not read from `reader`.
fn carry_out<R: AllocGlobal + Threads + Wait + Sync, I: CountedRead, O: CountedWrite>(
    rt: &R,
    choice: Choice,
    reader: &mut I,
    writer: &mut O,
) -> Result<(), Failed>
    requires { HasBudget choice }
    ensures done { WasCarriedOut choice (meter I.left I.failures) (meter O.held O.failures)
        reader.old reader.new writer.old writer.new (ended_by (λ failed. failed) result) }
    ensures given { CountGrowsUpTo (MAX_SCRIPT_LEN + 1) (I.given reader.old) (I.given reader.new) }
{
    match choice {
        Choice::Ratify => ratify_text(rt.alloc(), reader, writer).map_err(Failed::Ratify),
        Choice::Replay => mb_script::run(rt.alloc(), reader, writer).map_err(Failed::Replay),
        Choice::Run(options) => {
            run_threads(rt.alloc(), rt, options, writer).map_err(Failed::Run)
        }
    }
}

/// Writes the line of a fault, if there is memory for it.
fn end_with_fault<R: AllocGlobal, E: CountedWrite>(
    rt: &R,
    failed: Failed,
    errors: &mut E,
) -> ProgramExit
    ensures ending { result ≡ ending.Failed failed }
    ensures line { (whole : Bool)
        × IsPrinted (meter E.held E.failures) errors.old errors.new (fault_line failed) whole }
{
    if let Ok(text) = fault_text(rt.alloc(), &failed) {
        let _whole = print(errors, text.as_bytes());
    }
    ProgramExit::Failed(failed)
}

/// Writes clap's help or version to `writer`, or its refusal to `errors`, if there is memory for it.
fn end_with_refusal<R: AllocGlobal, O: CountedWrite, E: CountedWrite>(
    rt: &R,
    error: &clap::Error,
    writer: &mut O,
    errors: &mut E,
) -> ProgramExit
    ensures { (printed : Bool) × (result ≡ ending.Refused (kind_of error.now) printed)
        × IsTold (meter O.held O.failures) (meter E.held E.failures)
        writer.old writer.new errors.old errors.new (kind_of error.now) printed }
{
    let printed = match format!(in rt.alloc(); "{error}") {
        Ok(text) if error.use_stderr() => print(errors, text.as_bytes()),
        Ok(text) => print(writer, text.as_bytes()),
        Err(_) => false,
    };
    ProgramExit::Refused {
        kind: error.kind(),
        printed,
    }
}

/// Writes the text. Returns whether all of it was written.
fn print<W: CountedWrite>(writer: &mut W, text: &[u8]) -> bool
    ensures { IsPrinted (meter W.held W.failures) writer.old writer.new text.now result }
{
    write_all(writer, text).is_ok()
}
