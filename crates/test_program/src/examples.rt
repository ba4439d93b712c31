//! The examples of the program. The tests run each of them, and compare both streams and the status.
//! `examples/README.md` says what each shows.

pub mod claims;
pub mod entry;
mod lanes;
pub mod ratifiers;
mod refused_replays;
pub mod runs;
mod shapes;
mod texts;

use crate::compare::same_at;
use claims::CLAIMS;
use lanes::LANES;
use mb_program::program::run;
use mb_program::status_of_ending;
use mb_script::CountingIo;
use ratifiers::RATIFIERS;
use refused_replays::REFUSED_REPLAYS;
use runs::RUNS;
use shapes::SHAPES;
use std::sync::Wait;
use std::thread::Threads;
use texts::TEXTS;

/// Runs the program with these words and this standard input. Returns what standard output and standard error got, and
/// the status.
fn ended<R: AllocGlobal + Threads + Wait + Sync>(
    rt: &R,
    words: &[&str],
    input: &str,
) -> (Vec<u8>, Vec<u8>, u8) {
    let mut reader = CountingIo::new(input.as_bytes());
    let mut writer = CountingIo::new(Vec::<u8>::new(rt.alloc()));
    let mut errors = CountingIo::new(Vec::<u8>::new(rt.alloc()));
    let ending = run(rt, words, &mut reader, &mut writer, &mut errors);
    (writer.device, errors.device, status_of_ending(&ending))
}

#[test]
fn examples_are_as_they_stand(rt: HostRuntime) {
    for examples in [
        CLAIMS,
        SHAPES,
        LANES,
        REFUSED_REPLAYS,
        RATIFIERS,
        RUNS,
        TEXTS,
    ] {
        for example in examples {
            let name = example.name;
            let (output, error, status) = ended(&rt, example.words, example.input);
            same_at(
                &rt,
                &(output.as_slice(), error.as_slice(), status),
                &(
                    example.output.as_bytes(),
                    example.error.as_bytes(),
                    example.status,
                ),
                &name,
            );
        }
    }
}
