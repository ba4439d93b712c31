//! What the program does: it reads a command line, and does what that asks, with a reader and two writers.
#![tactic(auto)]

mod command;
mod fault;
mod help;
mod input;
mod meaning;
mod options;
mod outcome;
pub mod program;
mod ratify;
mod run;
mod script;
mod source;
pub mod trace_text;

pub use command::{Choice, VERSION, command_of};
pub use fault::{Failed, NoMemory, RatifyFault, RunFault};
pub use input::read_script;
pub use meaning::explanation;
pub use options::{MAX_BUDGET, Options};
pub use outcome::{DONE, FAILED, ProgramExit, REFUSED, fault_text, status_of, status_of_ending};
pub use ratify::ratify_text;
pub use run::{Workload, report_after, run_threads, workload_of};
pub use script::RatifyScript;
pub use source::source_of;
