//! One run of a choice, and the line that it prints.
use crate::choice::{Choice, LOOPS, Loop, SHAPES};
use crate::mailbox::{Post, mailboxes, puts};
use crate::passed::passed;
use crate::relay::relay;
use crate::source::{Source, Zeros};
use rand_chacha::ChaCha8Rng;
use rand_core::SeedableRng;
use std::alloc::{AllocError, Allocator};
use std::io;

/// Runs each loop once over each shape of the cells.
pub fn run_all<R: Print + AllocGlobal>(rt: &R) -> io::Result<()> {
    for (shape_name, shape) in SHAPES {
        for (name, what) in LOOPS {
            if let Some(choice) = Choice::short(what, shape) {
                let post = done(rt.alloc(), &choice)?;
                println!(rt; "{name} {shape_name}: {post}")?;
            }
        }
    }
    Ok(())
}

/// Runs the choice, and prints a line with its result.
pub fn run<R: Print + AllocGlobal>(rt: &R, choice: &Choice) -> io::Result<()> {
    let post = done(rt.alloc(), choice)?;
    println!(rt; "{post}")
}

/// Runs the choice, and returns its result. The error is that memory ran out.
fn done<A: Allocator + Copy + Drop>(alloc: A, choice: &Choice) -> Result<Post, AllocError> {
    match choice.what {
        Loop::Mailboxes => puts(alloc, choice, 0),
        Loop::Puts => puts(alloc, choice, choice.setup.cells()),
        Loop::Mailbox => mailboxes::<A, Source, false>(alloc, choice, &mut Source::new()),
        Loop::Taken => mailboxes::<A, Zeros, true>(alloc, choice, &mut Zeros),
        Loop::Passed => passed(alloc, choice, &mut Zeros),
        Loop::Chacha => {
            let mut source = ChaCha8Rng::from_seed([0; 32]);
            mailboxes::<A, ChaCha8Rng, false>(alloc, choice, &mut source)
        }
        Loop::Relay => relay(alloc, choice, &mut ChaCha8Rng::from_seed([1; 32])),
    }
}
