//! Mailboxes in loops, so that their instructions can be counted.
//!
//! With the words LOOP TABLE CONSUMERS TIMES it runs one loop, and prints its result. Without words it runs each loop
//! once over each shape of the cells. A fifth word is the shape of the cells, a sixth their number.
#![tactic(auto)]

use std::io;
use std::process::ExitCode;

pub mod choice;
pub mod mailbox;
pub mod passed;
pub mod relay;
pub mod run;
pub mod samples;
pub mod source;

use choice::Choice;
use run::{run, run_all};

/// Printed if the command line is refused.
const USAGE: &str =
    "usage: bench_loops [LOOP bits|unary|middle CONSUMERS TIMES [plain|fast|last|fastlast|exchange [CELLS]]]";

/// The program's status if the command line is refused.
const REFUSED: u8 = 2;

fn main(rt: HostRuntime) -> io::Result<ExitCode> {
    let words = std::env::args(&rt)?.collect::<Vec<String>>(rt.alloc())?;
    let Some((_, words)) = words.as_slice().split_first() else {
        return Ok(ExitCode::from(REFUSED));
    };
    if words.is_empty() {
        run_all(&rt)?;
        return Ok(ExitCode::SUCCESS);
    }
    let Some(choice) = Choice::of(words) else {
        eprintln!(rt; "{USAGE}")?;
        return Ok(ExitCode::from(REFUSED));
    };
    run(&rt, &choice)?;
    Ok(ExitCode::SUCCESS)
}
