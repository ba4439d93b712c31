//! The program: it passes the words of the command line and the standard streams to `mb_program`, and returns the status.
#![tactic(auto)]

pub use mb_program::{
    Choice, Failed, Options, RatifyFault, RunFault, command_of, fault_text, ratify_text,
    run_threads, source_of, status_of,
};
use mb_program::{ProgramExit, explanation, program, status_of_ending};
use mb_script::{CountingIo, write_all};
use std::io::{self, IsTerminal};
use std::process::ExitCode;

// Nothing is read before the words of the command line are there. If they cannot be had, the program ends at once.
fn main(rt: HostRuntime) -> ExitCode {
    let mut reader = CountingIo::new(rt.reader());
    let mut writer = CountingIo::new(rt.stdout());
    let mut errors = CountingIo::new(rt.stderr());
    let ending = match std::env::args(&rt) {
        Ok(args) => match args.collect::<Vec<String>>(rt.alloc()) {
            Ok(words) => {
                program::run(&rt, words.as_slice(), &mut reader, &mut writer, &mut errors)
            }
            Err(_) => ProgramExit::ArgsUnavailable,
        },
        Err(error) if error.kind() == io::ErrorKind::InvalidData => {
            let text = "error: a word of the command line is not UTF-8\n";
            let _ = write_all(&mut errors, text.as_bytes());
            ProgramExit::NonUtf8Args
        }
        Err(_) => ProgramExit::ArgsUnavailable,
    };
    // A person at a terminal gets a second line, which explains the failure.
    if let ProgramExit::Failed(failed) = ending {
        if rt.stderr().is_terminal() {
            if let Ok(text) = explanation(rt.alloc(), &failed) {
                let _ = write_all(&mut errors, text.as_bytes());
            }
        }
    }
    ExitCode::from(status_of_ending(&ending))
}
