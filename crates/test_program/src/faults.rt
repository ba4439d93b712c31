//! The line and the status of each failure.

use crate::compare::same;
use mb_program::{Failed, RatifyFault, RunFault, fault_text, status_of};
use mb_script::Fault;
use mb_world::SetupFault;

/// A case has the failure, the line that tells it, and the exit status.
const FAULTS: &[(Failed, &str, u8)] = &[
    (Failed::Ratify(RatifyFault::TooLong), "fault 1 TooLong\n", 2),
    (
        Failed::Ratify(RatifyFault::NotAscii),
        "fault 2 NotAscii\n",
        2,
    ),
    (
        Failed::Ratify(RatifyFault::BadLine(4)),
        "fault 3 BadLine 4\n",
        2,
    ),
    (
        Failed::Ratify(RatifyFault::BadNumber(1)),
        "fault 4 BadNumber 1\n",
        2,
    ),
    (
        Failed::Ratify(RatifyFault::NoMemory),
        "fault 8 NoMemory\n",
        3,
    ),
    (
        Failed::Ratify(RatifyFault::ReadFault),
        "fault 9 ReadFault\n",
        3,
    ),
    (
        Failed::Ratify(RatifyFault::WriteFault),
        "fault 10 WriteFault\n",
        3,
    ),
    (Failed::Replay(Fault::TooLong), "fault 1 TooLong\n", 2),
    (Failed::Replay(Fault::NotAscii), "fault 2 NotAscii\n", 2),
    (Failed::Replay(Fault::BadLine(3)), "fault 3 BadLine 3\n", 2),
    (
        Failed::Replay(Fault::BadNumber(20_001)),
        "fault 4 BadNumber 20001\n",
        2,
    ),
    (Failed::Replay(Fault::NoSetup), "fault 5 NoSetup\n", 2),
    (
        Failed::Replay(Fault::BadSetup(1, SetupFault::BadProducers)),
        "fault 6 BadSetup 1 1 BadProducers\n",
        2,
    ),
    (
        Failed::Replay(Fault::BadSetup(1, SetupFault::BadConsumers)),
        "fault 6 BadSetup 1 2 BadConsumers\n",
        2,
    ),
    (
        Failed::Replay(Fault::BadSetup(1, SetupFault::BadCells)),
        "fault 6 BadSetup 1 3 BadCells\n",
        2,
    ),
    (
        Failed::Replay(Fault::BadSetup(1, SetupFault::BadRounds)),
        "fault 6 BadSetup 1 4 BadRounds\n",
        2,
    ),
    (Failed::Replay(Fault::NoLane(2)), "fault 7 NoLane 2\n", 2),
    (
        Failed::Replay(Fault::NoConsumer(2)),
        "fault 8 NoConsumer 2\n",
        2,
    ),
    (
        Failed::Replay(Fault::TooManyEvents),
        "fault 9 TooManyEvents\n",
        2,
    ),
    (Failed::Replay(Fault::NoMemory), "fault 10 NoMemory\n", 3),
    (Failed::Replay(Fault::ReadFault), "fault 11 ReadFault\n", 3),
    (
        Failed::Replay(Fault::WriteFault),
        "fault 12 WriteFault\n",
        3,
    ),
    (
        Failed::Run(RunFault::BadSetup(SetupFault::BadProducers)),
        "fault 1 BadSetup 1 BadProducers\n",
        2,
    ),
    (
        Failed::Run(RunFault::BadSetup(SetupFault::BadConsumers)),
        "fault 1 BadSetup 2 BadConsumers\n",
        2,
    ),
    (
        Failed::Run(RunFault::BadSetup(SetupFault::BadCells)),
        "fault 1 BadSetup 3 BadCells\n",
        2,
    ),
    (
        Failed::Run(RunFault::BadSetup(SetupFault::BadRounds)),
        "fault 1 BadSetup 4 BadRounds\n",
        2,
    ),
    (Failed::Run(RunFault::NoMemory), "fault 2 NoMemory\n", 3),
    (Failed::Run(RunFault::NoThread), "fault 3 NoThread\n", 3),
    (Failed::Run(RunFault::WriteFault), "fault 4 WriteFault\n", 3),
];

#[test]
fn faults_have_a_line_and_a_status(rt: HostRuntime) {
    for &(failed, line, status) in FAULTS {
        let text = fault_text(rt.alloc(), &failed).expect(&rt, "no text");
        same(&rt, &(text.as_str(), status_of(&failed)), &(line, status));
    }
}
