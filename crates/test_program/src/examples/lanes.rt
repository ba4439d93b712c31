//! Replays with the results that producers and readers of lanes get.

use super::entry::Example;

/// The examples of lanes. `examples/README.md` says what each shows, by its name.
pub const LANES: &[Example] = &[
    Example {
        name: "pool_full",
        words: &["mailbox", "replay"],
        input: "\
setup 1 1 0 1 bits
offer 0 5
offer 0 5
finish 0
step 0 0 0
",
        output: "\
offer 0 5 full
offer 0 5 full
finish 0 ended
step 0 0 ended
lane 0 ended put
left 0
diary 0 0
",
        error: "",
        status: 0,
    },
    Example {
        name: "two_lanes",
        words: &["mailbox", "replay"],
        input: "\
setup 2 1 4 1 bits
offer 0 10
push 0
push 0
offer 1 20
push 1
push 1
offer 0 11
push 0
push 0
offer 1 21
push 1
push 1
",
        output: "\
offer 0 10 cell 0
push 0 item 0
push 0 link 0
offer 1 20 cell 1
push 1 item 1
push 1 link 1
offer 0 11 cell 2
push 0 item 2
push 0 link 2
offer 1 21 cell 3
push 1 item 3
push 1 link 3
lane 0 open put 10 11
left 0 10 11
lane 1 open put 20 21
left 1 20 21
diary 0 0
diary 0 1
",
        error: "",
        status: 0,
    },
    Example {
        name: "lane_ended",
        words: &["mailbox", "replay"],
        input: "\
setup 1 1 2 1 bits
offer 0 18446744073709551615
push 0
push 0
offer 0 0
push 0
push 0
finish 0
step 0 0 0
step 0 0 0
step 0 0 0
step 0 0 0
step 0 0 0
step 0 0 0
step 0 0 0
step 0 0 0
step 0 0 0
step 0 0 0
step 0 0 0
step 0 0 0
step 0 0 0
step 0 0 0
step 0 0 0
",
        output: "\
offer 0 18446744073709551615 cell 0
push 0 item 0
push 0 link 0
offer 0 0 cell 1
push 0 item 1
push 0 link 1
finish 0 ended
step 0 0 found 0
step 0 0 cell 0 o0 load c 0
step 0 0 cell 0 o0 store c 1
step 0 0 cell 0 o0 load c 1
step 0 0 cell 0 o1 load p 0
step 0 0 cell 0 o1 store p 1 won
step 0 0 took 18446744073709551615
step 0 0 found 1
step 0 0 cell 1 o0 load c 0
step 0 0 cell 1 o0 store c 1
step 0 0 cell 1 o0 load c 1
step 0 0 cell 1 o1 load p 0
step 0 0 cell 1 o1 store p 1 won
step 0 0 took 0
step 0 0 ended
lane 0 ended put 18446744073709551615 0
left 0
diary 0 0 took 18446744073709551615 took 0
",
        error: "",
        status: 0,
    },
    Example {
        name: "met_when_linked",
        words: &["mailbox", "replay"],
        input: "\
setup 1 1 1 1 bits
offer 0 9
push 0
step 0 0 0
push 0
step 0 0 0
",
        output: "\
offer 0 9 cell 0
push 0 item 0
step 0 0 nothing
push 0 link 0
step 0 0 found 0
lane 0 open put 9
left 0 9
diary 0 0
",
        error: "",
        status: 0,
    },
    Example {
        name: "producer_refused",
        words: &["mailbox", "replay"],
        input: "\
setup 1 1 1 1 bits
offer 0 3
finish 0
offer 0 4
push 0
finish 0
push 0
push 0
finish 0
offer 0 4
finish 0
push 0
",
        output: "\
offer 0 3 cell 0
finish 0 busy
offer 0 4 busy
push 0 item 0
finish 0 busy
push 0 link 0
push 0 idle
finish 0 ended
offer 0 4 closed
finish 0 closed
push 0 idle
lane 0 ended put 3
left 0 3
diary 0 0
",
        error: "",
        status: 0,
    },
    Example {
        name: "no_last_lf",
        words: &["mailbox", "replay"],
        input: "setup 1 1 0 1 bits",
        output: "\
lane 0 open put
left 0
diary 0 0
",
        error: "",
        status: 0,
    },
];
