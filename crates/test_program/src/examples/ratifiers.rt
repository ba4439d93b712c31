//! Scripts of one ratifier, accepted and refused.

use super::entry::Example;

/// The examples of ratifiers. `examples/README.md` says what each shows, by its name.
pub const RATIFIERS: &[Example] = &[
    LATE_INPUT,
    Example {
        name: "no_decision",
        words: &["mailbox", "ratify"],
        input: "\
ratify unary 2
inputs 0 1
turns 0 1 0 1 0 0 1 1
",
        output: "\
0 store q0 1
1 store q1 1
0 load p 0
1 load p 0
0 store p 1
0 load q1 1 out 0 0
1 store p 2
1 load q0 1 out 0 1
process 0: 0 0
process 1: 0 1
",
        error: "",
        status: 0,
    },
    Example {
        name: "one_input",
        words: &["mailbox", "ratify"],
        input: "\
ratify unary 2
inputs 1 1
turns 0 1 0 1 0 1 0 1
",
        output: "\
0 store q1 1
1 store q1 1
0 load p 0
1 load p 0
0 store p 2
1 store p 2
0 load q0 0 out 1 1
1 load q0 0 out 1 1
process 0: 1 1
process 1: 1 1
",
        error: "",
        status: 0,
    },
    Example {
        name: "no_turns",
        words: &["mailbox", "ratify"],
        input: "\
ratify unary 2
inputs 0 1
turns
",
        output: "\
process 0: none
process 1: none
",
        error: "",
        status: 0,
    },
    Example {
        name: "turn_after_output",
        words: &["mailbox", "ratify"],
        input: "\
ratify unary 1
inputs 0
turns 0 0 0 0",
        output: "\
0 store q0 1
0 load p 0
0 store p 1 out 1 0
0 done
process 0: 1 0
",
        error: "",
        status: 0,
    },
    Example {
        name: "bit_table",
        words: &["mailbox", "ratify"],
        input: "\
ratify bits 3
inputs 2 1
turns 0 0 0 0 0 0 1 1 1 1
",
        output: "\
0 store q0 1
0 store q3 1
0 load p 0
0 store p 3
0 load q1 0
0 load q2 0 out 1 2
1 store q1 1
1 store q2 1
1 load p 3
1 load q1 1 out 0 2
process 0: 1 2
process 1: 0 2
",
        error: "",
        status: 0,
    },
    Example {
        name: "middle_table",
        words: &["mailbox", "ratify"],
        input: "\
ratify middle 5
inputs 4 0
turns 0 0 0 0 0 0 1 1 1 1
",
        output: "\
0 store q1 1
0 store q3 1
0 load p 0
0 store p 5
0 load q0 0
0 load q2 0 out 1 4
1 store q0 1
1 store q1 1
1 load p 5
1 load q0 1 out 0 4
process 0: 1 4
process 1: 0 4
",
        error: "",
        status: 0,
    },
    Example {
        name: "no_registers",
        words: &["mailbox", "ratify"],
        input: "\
ratify bits 1
inputs 0
turns 0 0
",
        output: "\
0 load p 0
0 store p 1 out 1 0
process 0: 1 0
",
        error: "",
        status: 0,
    },
    Example {
        name: "no_processes",
        words: &["mailbox", "ratify"],
        input: "\
ratify unary 2
inputs
turns
",
        output: "",
        error: "",
        status: 0,
    },
    Example {
        name: "missing_line",
        words: &["mailbox", "ratify"],
        input: "\
ratify unary 2
inputs 0 1
",
        output: "",
        error: "fault 3 BadLine 3\n",
        status: 2,
    },
    Example {
        name: "input_too_large",
        words: &["mailbox", "ratify"],
        input: "\
ratify unary 2
inputs 2
turns 5
",
        output: "",
        error: "fault 6 BadInput 0\n",
        status: 2,
    },
    Example {
        name: "no_such_process",
        words: &["mailbox", "ratify"],
        input: "\
ratify unary 2
inputs 0
turns 0 1
",
        output: "",
        error: "fault 7 NoSuchProcess 1\n",
        status: 2,
    },
    Example {
        name: "no_values",
        words: &["mailbox", "ratify"],
        input: "\
ratify unary 0
inputs
turns
",
        output: "",
        error: "fault 5 BadValues\n",
        status: 2,
    },
];

/// A process comes when another has its output already. Other tests use this example, too.
pub const LATE_INPUT: Example = Example {
    name: "late_input",
    words: &["mailbox", "ratify"],
    input: "\
ratify unary 2
inputs 0 1
turns 0 0 0 0 1 1 1
",
    output: "\
0 store q0 1
0 load p 0
0 store p 1
0 load q1 0 out 1 0
1 store q1 1
1 load p 1
1 load q1 1 out 0 0
process 0: 1 0
process 1: 0 0
",
    error: "",
    status: 0,
};
