//! Replays in which consumers claim items.

use super::entry::Example;

/// The examples of claims. `examples/README.md` says what each shows, by its name.
pub const CLAIMS: &[Example] = &[
    ITEM_TAKEN,
    ONE_LOSES,
    Example {
        name: "claim_begun",
        words: &["mailbox", "replay"],
        input: "\
setup 1 2 1 1 bits
offer 0 5
push 0
push 0
step 0 0 0
step 0 0 0
step 0 0 0
step 0 0 0
step 0 0 0
step 0 0 0
step 0 0 0
step 0 0 0
step 1 0 0
step 1 0 0
step 1 0 0
step 1 0 0
step 1 0 0
",
        output: "\
offer 0 5 cell 0
push 0 item 0
push 0 link 0
step 0 0 found 0
step 0 0 cell 0 o0 load c 0
step 0 0 cell 0 o0 store c 1
step 0 0 cell 0 o0 load c 1
step 0 0 cell 0 o1 store q0 1
step 0 0 cell 0 o1 load p 0
step 0 0 cell 0 o1 store p 1
step 0 0 cell 0 o1 load q1 0 won
step 1 0 found 0
step 1 0 cell 0 o0 load c 1
step 1 0 cell 0 o1 store q0 1
step 1 0 cell 0 o1 load p 1
step 1 0 cell 0 o1 load q1 0 lost 0
lane 0 open put 5
left 0 5
diary 0 0 begun
diary 1 0 lost 0
",
        error: "",
        status: 0,
    },
    Example {
        name: "both_undecided",
        words: &["mailbox", "replay"],
        input: "\
setup 1 2 1 1 bits
offer 0 5
push 0
push 0
step 0 0 0
step 1 0 0
step 0 0 0
step 1 0 0
step 0 0 0
step 0 0 0
step 1 0 0
step 1 0 0
step 0 0 0
step 1 0 0
step 0 0 0
step 1 0 0
step 0 0 0
step 0 0 0
step 1 0 0
step 1 0 0
",
        output: "\
offer 0 5 cell 0
push 0 item 0
push 0 link 0
step 0 0 found 0
step 1 0 found 0
step 0 0 cell 0 o0 load c 0
step 1 0 cell 0 o0 load c 0
step 0 0 cell 0 o0 store c 1
step 0 0 cell 0 o0 load c 1
step 1 0 cell 0 o0 store c 2
step 1 0 cell 0 o0 load c 2
step 0 0 cell 0 o1 store q0 1
step 1 0 cell 0 o1 store q1 1
step 0 0 cell 0 o1 load p 0
step 1 0 cell 0 o1 load p 0
step 0 0 cell 0 o1 store p 1
step 0 0 cell 0 o1 load q1 1 undecided
step 1 0 cell 0 o1 store p 2
step 1 0 cell 0 o1 load q0 1 undecided
lane 0 open put 5
left 0 5
diary 0 0 undecided
diary 1 0 undecided
",
        error: "",
        status: 0,
    },
    Example {
        name: "unary_table",
        words: &["mailbox", "replay"],
        input: "\
setup 1 1 1 1 unary
offer 0 7
push 0
push 0
step 0 0 0
step 0 0 0
step 0 0 0
step 0 0 0
step 0 0 0
step 0 0 0
step 0 0 0
step 0 0 0
",
        output: "\
offer 0 7 cell 0
push 0 item 0
push 0 link 0
step 0 0 found 0
step 0 0 cell 0 o0 load c 0
step 0 0 cell 0 o0 store c 1
step 0 0 cell 0 o0 load c 1
step 0 0 cell 0 o1 store q0 1
step 0 0 cell 0 o1 load p 0
step 0 0 cell 0 o1 store p 1 won
step 0 0 took 7
lane 0 open put 7
left 0
diary 0 0 took 7
",
        error: "",
        status: 0,
    },
    Example {
        name: "last_of_sixty_four",
        words: &["mailbox", "replay"],
        input: "\
setup 1 64 1 1 middle
offer 0 9
push 0
push 0
step 63 0 0
step 63 0 0
step 63 0 0
step 63 0 0
step 63 0 0
step 63 0 0
step 63 0 0
step 63 0 0
step 63 0 0
step 63 0 0
step 63 0 0
step 63 0 0
step 63 0 0
step 63 0 0
step 63 0 0
",
        output: "\
offer 0 9 cell 0
push 0 item 0
push 0 link 0
step 63 0 found 0
step 63 0 cell 0 o0 load c 0
step 63 0 cell 0 o0 store c 64
step 63 0 cell 0 o0 load c 64
step 63 0 cell 0 o1 store q2 1
step 63 0 cell 0 o1 store q4 1
step 63 0 cell 0 o1 store q6 1
step 63 0 cell 0 o1 store q7 1
step 63 0 cell 0 o1 load p 0
step 63 0 cell 0 o1 store p 64
step 63 0 cell 0 o1 load q0 0
step 63 0 cell 0 o1 load q1 0
step 63 0 cell 0 o1 load q3 0
step 63 0 cell 0 o1 load q5 0 won
step 63 0 took 9
lane 0 open put 9
left 0
diary 0 0
diary 1 0
diary 2 0
diary 3 0
diary 4 0
diary 5 0
diary 6 0
diary 7 0
diary 8 0
diary 9 0
diary 10 0
diary 11 0
diary 12 0
diary 13 0
diary 14 0
diary 15 0
diary 16 0
diary 17 0
diary 18 0
diary 19 0
diary 20 0
diary 21 0
diary 22 0
diary 23 0
diary 24 0
diary 25 0
diary 26 0
diary 27 0
diary 28 0
diary 29 0
diary 30 0
diary 31 0
diary 32 0
diary 33 0
diary 34 0
diary 35 0
diary 36 0
diary 37 0
diary 38 0
diary 39 0
diary 40 0
diary 41 0
diary 42 0
diary 43 0
diary 44 0
diary 45 0
diary 46 0
diary 47 0
diary 48 0
diary 49 0
diary 50 0
diary 51 0
diary 52 0
diary 53 0
diary 54 0
diary 55 0
diary 56 0
diary 57 0
diary 58 0
diary 59 0
diary 60 0
diary 61 0
diary 62 0
diary 63 0 took 9
",
        error: "",
        status: 0,
    },
];

/// The only consumer takes the only item. Other tests use this example, too.
pub const ITEM_TAKEN: Example = Example {
    name: "item_taken",
    words: &["mailbox", "replay"],
    input: "\
setup 1 1 1 1 bits
offer 0 7
push 0
push 0
step 0 0 0
step 0 0 0
step 0 0 0
step 0 0 0
step 0 0 0
step 0 0 0
step 0 0 0
",
    output: "\
offer 0 7 cell 0
push 0 item 0
push 0 link 0
step 0 0 found 0
step 0 0 cell 0 o0 load c 0
step 0 0 cell 0 o0 store c 1
step 0 0 cell 0 o0 load c 1
step 0 0 cell 0 o1 load p 0
step 0 0 cell 0 o1 store p 1 won
step 0 0 took 7
lane 0 open put 7
left 0
diary 0 0 took 7
",
    error: "",
    status: 0,
};

/// Two consumers compete for one item, and one loses it. Other tests use this example, too.
pub const ONE_LOSES: Example = Example {
    name: "one_loses",
    words: &["mailbox", "replay"],
    input: "\
setup 1 2 1 1 bits
offer 0 5
push 0
push 0
step 0 0 0
step 0 0 0
step 0 0 0
step 0 0 0
step 0 0 0
step 0 0 0
step 0 0 0
step 0 0 0
step 1 0 0
step 1 0 0
step 1 0 0
step 1 0 0
step 1 0 0
step 0 0 0
",
    output: "\
offer 0 5 cell 0
push 0 item 0
push 0 link 0
step 0 0 found 0
step 0 0 cell 0 o0 load c 0
step 0 0 cell 0 o0 store c 1
step 0 0 cell 0 o0 load c 1
step 0 0 cell 0 o1 store q0 1
step 0 0 cell 0 o1 load p 0
step 0 0 cell 0 o1 store p 1
step 0 0 cell 0 o1 load q1 0 won
step 1 0 found 0
step 1 0 cell 0 o0 load c 1
step 1 0 cell 0 o1 store q0 1
step 1 0 cell 0 o1 load p 1
step 1 0 cell 0 o1 load q1 0 lost 0
step 0 0 took 5
lane 0 open put 5
left 0
diary 0 0 took 5
diary 1 0 lost 0
",
    error: "",
    status: 0,
};
