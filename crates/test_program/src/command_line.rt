//! The command line, and how the program ends.

use crate::compare::{same, same_at};
use clap::error::ErrorKind;
use mb_claim::Shape;
use mb_program::{
    Choice, Failed, Options, ProgramExit, RatifyFault, RunFault, command_of, status_of_ending,
};
use mb_script::Fault;
use mb_world::SetupFault;
use std::process::Abort;

// Checks that these words are read as this choice.
fn chooses<R: Abort + AllocGlobal>(rt: &R, words: &[&str], want: Choice) {
    let is_chosen = matches!(command_of(rt.alloc(), words), Ok(choice) if choice == want);
    same_at(rt, &is_chosen, &true, &words);
}

/// The options of `run` if the words give none.
const DEFAULTS: Options = Options {
    producers: 2,
    consumers: 2,
    items: 8,
    pairs: 4,
    budget: 64,
    seed: 0,
    shape: Shape::PLAIN,
};

#[test]
fn run_has_defaults(rt: HostRuntime) {
    chooses(&rt, &["mailbox", "run"], Choice::Run(DEFAULTS));
}

// A case has the words, and the options that they give. Each other option has its default.
#[test]
fn options_are_read(rt: HostRuntime) {
    let most = u64::MAX;
    for (words, options) in [
        (
            [
                "mailbox",
                "run",
                "--producers",
                "1",
                "--consumers=3",
                "--items",
                "257",
                "--pairs",
                "0",
                "--budget",
                "1",
                "--seed",
                "18446744073709551615",
            ]
            .as_slice(),
            Options {
                producers: 1,
                consumers: 3,
                items: 257,
                pairs: 0,
                budget: 1,
                seed: most,
                shape: Shape::PLAIN,
            },
        ),
        (
            [
                "mailbox",
                "run",
                "--budget",
                "1000000",
                "--items",
                "18446744073709551615",
            ]
            .as_slice(),
            Options {
                budget: 1_000_000,
                items: most,
                ..DEFAULTS
            },
        ),
    ] {
        chooses(&rt, words, Choice::Run(options));
    }
}

/// A case has the word, and whether the shape has a fast path and a last object.
const SHAPES: &[(&str, bool, bool)] = &[
    ("plain", false, false),
    ("fast", true, false),
    ("last", false, true),
    ("fastlast", true, true),
];

#[test]
fn shapes_are_read(rt: HostRuntime) {
    for &(name, fast, last) in SHAPES {
        let words = ["mailbox", "run", "--shape", name];
        let options = Options {
            shape: Shape { fast, last },
            ..DEFAULTS
        };
        chooses(&rt, &words, Choice::Run(options));
    }
}

#[test]
fn commands_are_named(rt: HostRuntime) {
    chooses(&rt, &["mailbox", "ratify"], Choice::Ratify);
    chooses(&rt, &["mailbox", "replay"], Choice::Replay);
}

// The status of a refusal that is printed, and of one that cannot be printed.
fn refusal(kind: ErrorKind) -> (u8, u8) {
    let printed = ProgramExit::Refused {
        kind,
        printed: true,
    };
    let unprinted = ProgramExit::Refused {
        kind,
        printed: false,
    };
    (status_of_ending(&printed), status_of_ending(&unprinted))
}

/// The exit statuses if a text was asked for: if it is printed, and if it cannot be.
const PRINTED: (u8, u8) = (0, 3);

/// The exit statuses if the words are refused: if the refusal is printed, and if it cannot be.
const NOT_READ: (u8, u8) = (2, 2);

/// A case has the words, why clap refuses them, and the statuses of a refusal that is printed and of one that is not.
const REFUSED: &[(&[&str], ErrorKind, (u8, u8))] = &[
    (&["mailbox", "--help"], ErrorKind::DisplayHelp, PRINTED),
    (
        &["mailbox", "run", "--help"],
        ErrorKind::DisplayHelp,
        PRINTED,
    ),
    (&["mailbox"], ErrorKind::MissingSubcommand, NOT_READ),
    (
        &["mailbox", "ratifier"],
        ErrorKind::InvalidSubcommand,
        NOT_READ,
    ),
    (
        &["mailbox", "--version"],
        ErrorKind::DisplayVersion,
        PRINTED,
    ),
    (
        &["mailbox", "--verbose"],
        ErrorKind::UnknownArgument,
        NOT_READ,
    ),
    (
        &["mailbox", "ratify", "now"],
        ErrorKind::UnknownArgument,
        NOT_READ,
    ),
    (
        &["mailbox", "run", "--budget", "0"],
        ErrorKind::ValueValidation,
        NOT_READ,
    ),
    (
        &["mailbox", "run", "--budget", "1000001"],
        ErrorKind::ValueValidation,
        NOT_READ,
    ),
    (
        &["mailbox", "run", "--seed", "18446744073709551616"],
        ErrorKind::ValueValidation,
        NOT_READ,
    ),
    (
        &["mailbox", "run", "--items", "many"],
        ErrorKind::ValueValidation,
        NOT_READ,
    ),
    (
        &["mailbox", "run", "--shape", "other"],
        ErrorKind::InvalidValue,
        NOT_READ,
    ),
    (
        &["mailbox", "run", "--items", "1", "--items", "2"],
        ErrorKind::ArgumentConflict,
        NOT_READ,
    ),
    (
        &["mailbox", "run", "--lanes", "1"],
        ErrorKind::UnknownArgument,
        NOT_READ,
    ),
    (
        &["mailbox", "ratify", "--items", "1"],
        ErrorKind::UnknownArgument,
        NOT_READ,
    ),
];

#[test]
fn lines_are_refused(rt: HostRuntime) {
    for &(words, want, statuses) in REFUSED {
        let Err(error) = command_of(rt.alloc(), words) else {
            panic!(rt; "a line is not refused")
        };
        let kind = error.kind();
        let told = (kind == want, refusal(kind));
        same_at(&rt, &told, &(true, statuses), &words);
    }
}

/// A case has how the program ended, and the exit status.
const ENDINGS: &[(ProgramExit, u8)] = &[
    (ProgramExit::Done, 0),
    (
        ProgramExit::Failed(Failed::Ratify(RatifyFault::BadLine(1))),
        2,
    ),
    (ProgramExit::Failed(Failed::Replay(Fault::ReadFault)), 3),
    (
        ProgramExit::Failed(Failed::Run(RunFault::BadSetup(SetupFault::BadCells))),
        2,
    ),
    (ProgramExit::Failed(Failed::Run(RunFault::NoThread)), 3),
    (
        ProgramExit::Refused {
            kind: ErrorKind::OutOfMemory,
            printed: true,
        },
        3,
    ),
    (ProgramExit::NonUtf8Args, 2),
    (ProgramExit::ArgsUnavailable, 3),
];

#[test]
fn endings_have_a_status(rt: HostRuntime) {
    for (ending, status) in ENDINGS {
        same(&rt, &status_of_ending(ending), status);
    }
}
