//! How the program ends: the line of a fault, and the exit statuses.
ghost use Rattle.std.specs.Prelude.{◌≡◌, ◌++◌, IfOk, OnOk, string_bytes};
ghost use Rattle.mb_program.specs.declared.fault.Failed.TheVariants.{Ratify, Replay, Run};
ghost use Rattle.mb_program.specs.Outcome.{end_status, fault_line, fault_status, refusal_status, setup_fault_text};

use crate::fault::{Failed, NoMemory, RatifyFault, RunFault};
use clap::error::ErrorKind;
use mb_script::Fault;
use mb_world::SetupFault;
use std::alloc::Allocator;

/// The status if all went well, and after help or a version that was asked for and printed.
pub const DONE: u8 = 0;

/// The status after a fault of the script or of the options, or a command line that is refused.
pub const REFUSED: u8 = 2;

/// The status if memory ran out, a thread could not be started, a read or write failed, or the command line could not
/// be had.
pub const FAILED: u8 = 3;

/// How the program ends.
#[derive(Clone, Copy, Debug, PartialEq, Eq)]
pub enum ProgramExit {
    /// The command did what was asked.
    Done,
    /// The command failed.
    Failed(Failed),
    /// No command was run: clap refused the words, or help or a version was asked for. `kind` is clap's reason, and
    /// `printed` says whether its text was printed whole.
    Refused { kind: ErrorKind, printed: bool },
    /// A word of the command line is not UTF-8.
    NonUtf8Args,
    /// The words of the command line could not be had.
    ArgsUnavailable,
}

/// Appends the number and the name of a setup's fault.
fn push_setup_fault<A: Allocator>(text: &mut String<A>, fault: SetupFault) -> Result<(), NoMemory>
    ensures { OnOk result
        (string_bytes text.new ≡ string_bytes text.old ++ setup_fault_text fault) }
{
    text.push_str(match fault {
        SetupFault::BadProducers => "1 BadProducers",
        SetupFault::BadConsumers => "2 BadConsumers",
        SetupFault::BadCells => "3 BadCells",
        SetupFault::BadRounds => "4 BadRounds",
    })
}

/// The line of a fault of `ratify`.
fn ratify_fault_text<A: Allocator>(alloc: A, fault: RatifyFault) -> Result<String<A>, NoMemory>
    ensures { IfOk result (λ text. string_bytes text ≡ fault_line (Ratify fault)) }
{
    let mut text = String::new(alloc);
    let pushed = match fault {
        RatifyFault::TooLong => text.push_str("fault 1 TooLong\n"),
        RatifyFault::NotAscii => text.push_str("fault 2 NotAscii\n"),
        RatifyFault::BadLine(line) => write!(text, "fault 3 BadLine {line}\n"),
        RatifyFault::BadNumber(line) => write!(text, "fault 4 BadNumber {line}\n"),
        RatifyFault::BadValues => text.push_str("fault 5 BadValues\n"),
        RatifyFault::BadInput(place) => write!(text, "fault 6 BadInput {place}\n"),
        RatifyFault::NoSuchProcess(place) => write!(text, "fault 7 NoSuchProcess {place}\n"),
        RatifyFault::NoMemory => text.push_str("fault 8 NoMemory\n"),
        RatifyFault::ReadFault => text.push_str("fault 9 ReadFault\n"),
        RatifyFault::WriteFault => text.push_str("fault 10 WriteFault\n"),
    };
    pushed?;
    Ok(text)
}

/// The line of a fault of `replay`.
fn replay_fault_text<A: Allocator>(alloc: A, fault: Fault) -> Result<String<A>, NoMemory>
    ensures { IfOk result (λ text. string_bytes text ≡ fault_line (Replay fault)) }
{
    let mut text = String::new(alloc);
    let pushed = match fault {
        Fault::TooLong => text.push_str("fault 1 TooLong\n"),
        Fault::NotAscii => text.push_str("fault 2 NotAscii\n"),
        Fault::BadLine(line) => write!(text, "fault 3 BadLine {line}\n"),
        Fault::BadNumber(line) => write!(text, "fault 4 BadNumber {line}\n"),
        Fault::NoSetup => text.push_str("fault 5 NoSetup\n"),
        Fault::BadSetup(line, why) => {
            write!(text, "fault 6 BadSetup {line} ")?;
            push_setup_fault(&mut text, why)?;
            text.push_str("\n")
        }
        Fault::NoLane(line) => write!(text, "fault 7 NoLane {line}\n"),
        Fault::NoConsumer(line) => write!(text, "fault 8 NoConsumer {line}\n"),
        Fault::TooManyEvents => text.push_str("fault 9 TooManyEvents\n"),
        Fault::NoMemory => text.push_str("fault 10 NoMemory\n"),
        Fault::ReadFault => text.push_str("fault 11 ReadFault\n"),
        Fault::WriteFault => text.push_str("fault 12 WriteFault\n"),
    };
    pushed?;
    Ok(text)
}

/// The line of a fault of `run`.
fn run_fault_text<A: Allocator>(alloc: A, fault: RunFault) -> Result<String<A>, NoMemory>
    ensures { IfOk result (λ text. string_bytes text ≡ fault_line (Run fault)) }
{
    let mut text = String::new(alloc);
    let pushed = match fault {
        RunFault::BadSetup(why) => {
            text.push_str("fault 1 BadSetup ")?;
            push_setup_fault(&mut text, why)?;
            text.push_str("\n")
        }
        RunFault::NoMemory => text.push_str("fault 2 NoMemory\n"),
        RunFault::NoThread => text.push_str("fault 3 NoThread\n"),
        RunFault::WriteFault => text.push_str("fault 4 WriteFault\n"),
    };
    pushed?;
    Ok(text)
}

/// The line of a fault, with its LF: `fault`, the fault's number and name, and the number of the line or place that it
/// is about, if there is one. A fault of a setup has then the number and name of the setup's fault. The error comes if
/// memory runs out.
pub fn fault_text<A: Allocator>(alloc: A, failed: &Failed) -> Result<String<A>, NoMemory>
    ensures { IfOk result (λ text. string_bytes text ≡ fault_line failed.now) }
{
    match *failed {
        Failed::Ratify(fault) => ratify_fault_text(alloc, fault),
        Failed::Replay(fault) => replay_fault_text(alloc, fault),
        Failed::Run(fault) => run_fault_text(alloc, fault),
    }
}

/// The exit status of a fault: `FAILED` if memory ran out, a thread could not be started, or a read or write failed,
/// else `REFUSED`.
pub fn status_of(failed: &Failed) -> u8
    ensures { result ≡ fault_status failed.now }
{
    match failed {
        Failed::Ratify(RatifyFault::NoMemory | RatifyFault::ReadFault | RatifyFault::WriteFault) =>
            FAILED,
        Failed::Replay(Fault::NoMemory | Fault::ReadFault | Fault::WriteFault) => FAILED,
        Failed::Run(RunFault::NoMemory | RunFault::NoThread | RunFault::WriteFault) => FAILED,
        _ => REFUSED,
    }
}

/// The exit status if clap returned no choice, and its text was printed or not.
fn status_of_refusal(kind: ErrorKind, printed: bool) -> u8
    ensures { result ≡ refusal_status kind printed }
{
    match kind {
        ErrorKind::DisplayHelp | ErrorKind::DisplayVersion if printed => DONE,
        ErrorKind::DisplayHelp | ErrorKind::DisplayVersion => FAILED,
        ErrorKind::OutOfMemory => FAILED,
        _ => REFUSED,
    }
}

/// The exit status of the program. It is `DONE` if the command did what was asked, and after help or a version that was
/// asked for and printed. It is `FAILED` if these could not be printed, memory ran out, or a thread could not be
/// started. It is `FAILED` too if a read or write failed, or the command line could not be had. Else it is `REFUSED`.
pub fn status_of_ending(ending: &ProgramExit) -> u8
    ensures { result ≡ end_status ending.now }
{
    match ending {
        ProgramExit::Done => DONE,
        ProgramExit::Failed(failed) => status_of(failed),
        ProgramExit::Refused { kind, printed } => status_of_refusal(*kind, *printed),
        ProgramExit::NonUtf8Args => REFUSED,
        ProgramExit::ArgsUnavailable => FAILED,
    }
}
