//! Polls of one thread: their results with small budgets, and how many words they draw.

use crate::mailboxes::Scene;
use crate::scenes::{plays, plays_in};
use mb_claim::Shape;
use mb_quorum::TableName;
use mb_world::Setup;

/// The report after the only consumer took the only item.
const SEVEN_TAKEN: &str = "lane 0 open put 7\nleft 0\ndiary 0 0 took 7\n";

/// In each case all polls have one budget. The first ones are spent, if any, and the last one takes the item. The claim
/// makes five accesses.
const SHORT_POLLS: &[Scene] = &[
    (
        [1, 1, 1],
        "\
producer: given
consumer: given
put 0 7: linked
spend 0 1 6: spent 6
poll 0 0 1: took 7
drawn: words 5
",
        SEVEN_TAKEN,
    ),
    (
        [1, 1, 1],
        "\
producer: given
consumer: given
put 0 7: linked
spend 0 6 1: spent 1
poll 0 0 6: took 7
drawn: words 5
",
        SEVEN_TAKEN,
    ),
    (
        [1, 1, 1],
        "\
producer: given
consumer: given
put 0 7: linked
spend 0 7 0: spent 0
poll 0 0 7: took 7
drawn: words 5
",
        SEVEN_TAKEN,
    ),
];

#[test]
fn a_budget_cuts_polls_short(rt: HostRuntime) {
    for &(sizes, lines, report) in SHORT_POLLS {
        plays(&rt, sizes, lines, report);
    }
}

// Eight polls are spent in all, before or after another consumer is issued. The claim has seven accesses.
#[test]
fn another_consumer_is_given_between_two_polls(rt: HostRuntime) {
    for before in 1..=8u64 {
        let after = 8 - before;
        let mut lines = "producer: given\nconsumer: given\nput 0 7: linked\n"
            .to_string(rt.alloc())
            .expect(&rt, "no text");
        write!(
            lines,
            "spend 0 1 {before}: spent {before}\nconsumer: given\nspend 0 1 {after}: spent {after}\n"
        )
        .expect(&rt, "no text");
        lines
            .push_str("poll 0 0 1: took 7\ndrawn: words 7\n")
            .expect(&rt, "no text");
        let report = "lane 0 open put 7\nleft 0\ndiary 0 0 took 7\ndiary 1 0\n";
        plays(&rt, [1, 2, 1], lines.as_str(), report);
    }
}

const FAST_POLLS: &[&str] = &[
    "\
producer: given
consumer: given
put 0 5: linked
poll 0 0 5: spent
poll 0 0 1: took 5
",
    "\
producer: given
consumer: given
put 0 5: linked
poll 0 0 20: took 5
",
];

// A mailbox with a fast path and a last object, two consumers, and one cell with one pair. A claim there makes at most
// 18 accesses.
#[test]
fn an_item_is_taken_on_the_fast_path(rt: HostRuntime) {
    for lines in FAST_POLLS {
        let shape = Shape {
            fast: true,
            last: true,
        };
        let setup = Setup::new(1, 2, 1, 1, TableName::Bits).expect(&rt, "no setup");
        let report = "lane 0 open put 5\nleft 0\ndiary 0 0 took 5\ndiary 1 0\n";
        plays_in(&rt, setup.shaped(shape), lines, report);
    }
}
