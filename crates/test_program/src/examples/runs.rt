//! Runs of threads that are refused, or whose report does not depend on the order of the threads.

use super::entry::Example;

/// The examples of runs. `examples/README.md` says what each shows, by its name.
pub const RUNS: &[Example] = &[
    Example {
        name: "too_many_items",
        words: &[
            "mailbox",
            "run",
            "--producers",
            "1",
            "--consumers",
            "1",
            "--items",
            "257",
            "--pairs",
            "1",
        ],
        input: "",
        output: "",
        error: "fault 1 BadSetup 3 BadCells\n",
        status: 2,
    },
    TWO_ITEMS,
    Example {
        name: "two_items_fast_last",
        words: &[
            "mailbox",
            "run",
            "--shape",
            "fastlast",
            "--producers",
            "1",
            "--consumers",
            "1",
            "--items",
            "2",
            "--pairs",
            "1",
        ],
        input: "",
        output: "\
lane 0 ended put 0 1
left 0
diary 0 0 took 0 took 1
",
        error: "",
        status: 0,
    },
    Example {
        name: "no_items",
        words: &[
            "mailbox",
            "run",
            "--producers",
            "1",
            "--consumers",
            "1",
            "--items",
            "0",
        ],
        input: "",
        output: "lane 0 ended put\nleft 0\ndiary 0 0\n",
        error: "",
        status: 0,
    },
    Example {
        name: "no_consumers",
        words: &["mailbox", "run", "--consumers", "0"],
        input: "",
        output: "",
        error: "fault 1 BadSetup 2 BadConsumers\n",
        status: 2,
    },
    Example {
        name: "cells_past_all_numbers",
        words: &[
            "mailbox",
            "run",
            "--producers",
            "16",
            "--items",
            "1152921504606846976",
        ],
        input: "",
        output: "",
        error: "fault 1 BadSetup 3 BadCells\n",
        status: 2,
    },
];

/// One producer puts two items, and an only consumer takes both. Other tests use this example, too.
pub const TWO_ITEMS: Example = Example {
    name: "two_items",
    words: &[
        "mailbox",
        "run",
        "--producers",
        "1",
        "--consumers",
        "1",
        "--items",
        "2",
        "--pairs",
        "1",
    ],
    input: "",
    output: "\
lane 0 ended put 0 1
left 0
diary 0 0 took 0 took 1
",
    error: "",
    status: 0,
};
