//! Claims on cells that have a fast path, a last object, or both.

use super::entry::Example;

/// The examples of shapes. `examples/README.md` says what each shows, by its name.
pub const SHAPES: &[Example] = &[
    Example {
        name: "fast_path",
        words: &["mailbox", "replay"],
        input: "\
setup 1 1 1 1 bits fast
offer 0 7
push 0
push 0
step 0 0 0
step 0 0 0
step 0 0 0
step 0 0 0
",
        output: "\
offer 0 7 cell 0
push 0 item 0
push 0 link 0
step 0 0 found 0
step 0 0 cell 0 o0 load p 0
step 0 0 cell 0 o0 store p 1 won
step 0 0 took 7
lane 0 open put 7
left 0
diary 0 0 took 7
",
        error: "",
        status: 0,
    },
    Example {
        name: "last_decides",
        words: &["mailbox", "replay"],
        input: "\
setup 1 2 1 1 bits last
offer 0 5
push 0
push 0
step 0 0 0
step 1 0 0
step 0 0 0
step 1 0 0
step 0 0 0
step 0 0 0
step 1 0 0
step 1 0 0
step 0 0 0
step 1 0 0
step 0 0 0
step 1 0 0
step 0 0 0
step 0 0 0
step 1 0 0
step 1 0 0
step 0 0 0
step 1 0 0
step 0 0 0
",
        output: "\
offer 0 5 cell 0
push 0 item 0
push 0 link 0
step 0 0 found 0
step 1 0 found 0
step 0 0 cell 0 o0 load c 0
step 1 0 cell 0 o0 load c 0
step 0 0 cell 0 o0 store c 1
step 0 0 cell 0 o0 load c 1
step 1 0 cell 0 o0 store c 2
step 1 0 cell 0 o0 load c 2
step 0 0 cell 0 o1 store q0 1
step 1 0 cell 0 o1 store q1 1
step 0 0 cell 0 o1 load p 0
step 1 0 cell 0 o1 load p 0
step 0 0 cell 0 o1 store p 1
step 0 0 cell 0 o1 load q1 1
step 1 0 cell 0 o1 store p 2
step 1 0 cell 0 o1 load q0 1
step 0 0 cell 0 o2 exchange l 1 0 won
step 1 0 cell 0 o2 exchange l 2 1 lost 0
step 0 0 took 5
lane 0 open put 5
left 0
diary 0 0 took 5
diary 1 0 lost 0
",
        error: "",
        status: 0,
    },
    Example {
        name: "fast_and_last",
        words: &["mailbox", "replay"],
        input: "\
setup 1 2 1 1 bits fastlast
offer 0 5
push 0
push 0
step 0 0 0
step 0 0 0
step 0 0 0
step 0 0 0
step 0 0 0
step 0 0 0
step 1 0 0
step 1 0 0
step 1 0 0
step 1 0 0
step 1 0 0
",
        output: "\
offer 0 5 cell 0
push 0 item 0
push 0 link 0
step 0 0 found 0
step 0 0 cell 0 o0 store q0 1
step 0 0 cell 0 o0 load p 0
step 0 0 cell 0 o0 store p 1
step 0 0 cell 0 o0 load q1 0 won
step 0 0 took 5
step 1 0 found 0
step 1 0 cell 0 o0 store q1 1
step 1 0 cell 0 o0 load p 1
step 1 0 cell 0 o0 load q1 1
step 1 0 cell 0 o1 store q0 1
lane 0 open put 5
left 0
diary 0 0 took 5
diary 1 0 begun
",
        error: "",
        status: 0,
    },
];
