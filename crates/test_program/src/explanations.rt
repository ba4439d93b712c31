//! The text that explains a failure.

use crate::compare::same;
use mb_program::{Failed, RatifyFault, RunFault, explanation};
use mb_script::Fault;
use mb_world::SetupFault;

/// A case has the failure, and the text that explains it.
const EXPLANATIONS: &[(Failed, &str)] = &[
    (
        Failed::Ratify(RatifyFault::TooLong),
        "the script is longer than 1048576 bytes\n",
    ),
    (
        Failed::Ratify(RatifyFault::BadLine(1)),
        "line 1: expected `ratify <table> <m>`\n",
    ),
    (
        Failed::Ratify(RatifyFault::BadLine(4)),
        "line 4: a script has three lines\n",
    ),
    (
        Failed::Ratify(RatifyFault::BadInput(0)),
        "input 0: an input is below the number of values\n",
    ),
    (
        Failed::Ratify(RatifyFault::NoSuchProcess(3)),
        "turn 3: there is no process of this number\n",
    ),
    (
        Failed::Replay(Fault::NoSetup),
        "line 1: expected `setup <producers> <consumers> <cells> <pairs> <table>`, and no shape or one\n",
    ),
    (
        Failed::Replay(Fault::BadNumber(2)),
        "line 2: expected a number below 2^64, in digits alone and without zeros before it\n",
    ),
    (
        Failed::Replay(Fault::BadSetup(1, SetupFault::BadConsumers)),
        "line 1: the number of consumers is 1 to 64\n",
    ),
    (
        Failed::Replay(Fault::TooManyEvents),
        "the script has more than 20000 events\n",
    ),
    (
        Failed::Run(RunFault::BadSetup(SetupFault::BadCells)),
        "the number of cells, one for each item, is at most 256\n",
    ),
    (
        Failed::Run(RunFault::NoThread),
        "a thread could not be started\n",
    ),
];

#[test]
fn faults_are_told_in_words(rt: HostRuntime) {
    for &(failed, words) in EXPLANATIONS {
        let text = explanation(rt.alloc(), &failed).expect(&rt, "no text");
        same(&rt, &text.as_str(), &words);
    }
}
