//! Replays that are refused.

use super::entry::Example;

/// The examples of scripts that `replay` refuses. `examples/README.md` says what each shows, by its name.
pub const REFUSED_REPLAYS: &[Example] = &[
    Example {
        name: "not_ascii",
        words: &["mailbox", "replay"],
        input: "\
setup 1 1 1 1 bits
push é
",
        output: "",
        error: "fault 2 NotAscii\n",
        status: 2,
    },
    Example {
        name: "bad_line",
        words: &["mailbox", "replay"],
        input: "\
setup 1 1 1 1 bits
push  0
",
        output: "",
        error: "fault 3 BadLine 2\n",
        status: 2,
    },
    Example {
        name: "bad_number",
        words: &["mailbox", "replay"],
        input: "\
setup 1 1 1 1 bits
push 00
",
        output: "",
        error: "fault 4 BadNumber 2\n",
        status: 2,
    },
    Example {
        name: "no_setup",
        words: &["mailbox", "replay"],
        input: "offer 0 7\n",
        output: "",
        error: "fault 5 NoSetup\n",
        status: 2,
    },
    Example {
        name: "bad_setup",
        words: &["mailbox", "replay"],
        input: "setup 1 1 257 1 bits\n",
        output: "",
        error: "fault 6 BadSetup 1 3 BadCells\n",
        status: 2,
    },
    Example {
        name: "no_lane",
        words: &["mailbox", "replay"],
        input: "\
setup 1 1 1 1 bits
push 1
",
        output: "",
        error: "fault 7 NoLane 2\n",
        status: 2,
    },
    Example {
        name: "no_consumer",
        words: &["mailbox", "replay"],
        input: "\
setup 1 16 0 1 bits
step 16 0 0
",
        output: "",
        error: "fault 8 NoConsumer 2\n",
        status: 2,
    },
];
