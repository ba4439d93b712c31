//! What a fault means, in words for a person. A program reads `fault_text` instead, whose format is fixed.
use crate::fault::{Failed, NoMemory, RatifyFault, RunFault};
use mb_script::Fault;
use mb_world::SetupFault;
use std::alloc::Allocator;

/// Where the fault lies.
#[derive(Clone, Copy)]
enum Spot {
    /// The fault is of the whole script, or lies outside of it.
    Whole,
    /// The fault lies on the line of this number, counted from 1.
    Line(usize),
    /// The fault lies at the input of this number, counted from 0.
    Input(usize),
    /// The fault lies at the turn of this number, counted from 0.
    Turn(usize),
}

// The words for faults that more than one command has, or that have more than one cause.
const TOO_LONG: &str = "the script is longer than 1048576 bytes";

const NOT_ASCII: &str = "the script has a byte that is not ASCII";

const BAD_NUMBER: &str =
    "expected a number below 2^64, in digits alone and without zeros before it";

const SETUP: &str =
    "expected `setup <producers> <consumers> <cells> <pairs> <table>`, and no shape or one";

const EVENT: &str =
    "expected `offer <lane> <item>`, `push <lane>`, `finish <lane>` or `step <consumer> <lane> <word>`";

const NO_MEMORY: &str = "out of memory";

const NO_INPUT: &str = "standard input cannot be read";

const NO_OUTPUT: &str = "standard output cannot be written";

/// The words for a fault of a setup.
fn of_setup(fault: SetupFault) -> &'static str {
    match fault {
        SetupFault::BadProducers => "the number of producers is 1 to 16",
        SetupFault::BadConsumers => "the number of consumers is 1 to 64",
        SetupFault::BadCells => "the number of cells, one for each item, is at most 256",
        SetupFault::BadRounds => "the number of pairs is 1 to 8",
    }
}

/// Where a fault of `ratify` lies, and the words for it.
fn of_ratify(fault: RatifyFault) -> (Spot, &'static str) {
    match fault {
        RatifyFault::TooLong => (Spot::Whole, TOO_LONG),
        RatifyFault::NotAscii => (Spot::Whole, NOT_ASCII),
        RatifyFault::BadLine(1) => (Spot::Line(1), "expected `ratify <table> <m>`"),
        RatifyFault::BadLine(2) => (Spot::Line(2), "expected `inputs <i0> <i1> ..`"),
        RatifyFault::BadLine(3) => (Spot::Line(3), "expected `turns <p> <p> ..`"),
        RatifyFault::BadLine(n) => (Spot::Line(n), "a script has three lines"),
        RatifyFault::BadNumber(n) => (Spot::Line(n), BAD_NUMBER),
        RatifyFault::BadValues => (Spot::Line(1), "the number of values is 1 to 64"),
        RatifyFault::BadInput(i) => (Spot::Input(i), "an input is below the number of values"),
        RatifyFault::NoSuchProcess(i) => (Spot::Turn(i), "there is no process of this number"),
        RatifyFault::NoMemory => (Spot::Whole, NO_MEMORY),
        RatifyFault::ReadFault => (Spot::Whole, NO_INPUT),
        RatifyFault::WriteFault => (Spot::Whole, NO_OUTPUT),
    }
}

/// Where a fault of `replay` lies, and the words for it.
fn of_replay(fault: Fault) -> (Spot, &'static str) {
    match fault {
        Fault::TooLong => (Spot::Whole, TOO_LONG),
        Fault::NotAscii => (Spot::Whole, NOT_ASCII),
        Fault::NoSetup | Fault::BadLine(1) => (Spot::Line(1), SETUP),
        Fault::BadLine(n) => (Spot::Line(n), EVENT),
        Fault::BadNumber(n) => (Spot::Line(n), BAD_NUMBER),
        Fault::BadSetup(n, why) => (Spot::Line(n), of_setup(why)),
        Fault::NoLane(n) => (Spot::Line(n), "there is no lane of this number"),
        Fault::NoConsumer(n) => (Spot::Line(n), "there is no consumer of this number"),
        Fault::TooManyEvents => (Spot::Whole, "the script has more than 20000 events"),
        Fault::NoMemory => (Spot::Whole, NO_MEMORY),
        Fault::ReadFault => (Spot::Whole, NO_INPUT),
        Fault::WriteFault => (Spot::Whole, NO_OUTPUT),
    }
}

/// The words for a fault of `run`.
fn of_run(fault: RunFault) -> &'static str {
    match fault {
        RunFault::BadSetup(why) => of_setup(why),
        RunFault::NoMemory => NO_MEMORY,
        RunFault::NoThread => "a thread could not be started",
        RunFault::WriteFault => NO_OUTPUT,
    }
}

/// What the fault means, in one line with its LF, for a person at a terminal.
///
/// If the fault lies on a line, at an input or at a turn, the text says which, and what is wrong or wanted there. The
/// error comes if memory runs out.
pub fn explanation<A: Allocator>(alloc: A, failed: &Failed) -> Result<String<A>, NoMemory> {
    let (spot, words) = match *failed {
        Failed::Ratify(fault) => of_ratify(fault),
        Failed::Replay(fault) => of_replay(fault),
        Failed::Run(fault) => (Spot::Whole, of_run(fault)),
    };
    match spot {
        Spot::Whole => format!(in alloc; "{words}\n"),
        Spot::Line(n) => format!(in alloc; "line {n}: {words}\n"),
        Spot::Input(i) => format!(in alloc; "input {i}: {words}\n"),
        Spot::Turn(i) => format!(in alloc; "turn {i}: {words}\n"),
    }
}
