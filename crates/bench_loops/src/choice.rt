//! The command line: which loop runs, over what, and how often.
use mb_claim::{MAX_CELLS, Shape};
use mb_quorum::TableName;
use mb_world::Setup;

/// How many pairs of deciding objects each cell has, except with the shape `exchange`, which has none.
const PAIRS: u64 = 4;

/// What is done again and again.
#[derive(Clone, Copy, Debug)]
pub enum Loop {
    /// Makes a mailbox with a producer, and nothing else.
    Mailboxes,
    /// Makes the puts of a producer into a mailbox.
    Puts,
    /// Fills a mailbox. Then each consumer polls it to its end.
    Mailbox,
    /// As `Mailbox`, but each consumer takes until nothing more comes.
    Taken,
    /// Makes the puts of a producer into a mailbox. After each put each consumer takes once.
    Passed,
    /// As `Mailbox`, but with random words of ChaCha8.
    Chacha,
    /// Passes an item through a mailbox, put and then polled, with random words of ChaCha8.
    Relay,
}

/// All loops with their names. If no loop is named, they run in this order.
pub const LOOPS: [(&str, Loop); 7] = [
    ("mailboxes", Loop::Mailboxes),
    ("puts", Loop::Puts),
    ("mailbox", Loop::Mailbox),
    ("taken", Loop::Taken),
    ("passed", Loop::Passed),
    ("chacha", Loop::Chacha),
    ("relay", Loop::Relay),
];

/// All tables with their names.
const TABLES: [(&str, TableName); 3] = [
    ("unary", TableName::Unary),
    ("bits", TableName::Bits),
    ("middle", TableName::Middle),
];

/// All shapes of the cells with their names. Without words each loop runs over each shape. `exchange` has no pairs.
pub const SHAPES: [(&str, Option<Shape>); 5] = [
    ("plain", Some(Shape::PLAIN)),
    (
        "fast",
        Some(Shape {
            fast: true,
            last: false,
        }),
    ),
    ("last", Some(Shape::LAST)),
    (
        "fastlast",
        Some(Shape {
            fast: true,
            last: true,
        }),
    ),
    ("exchange", None),
];

/// A loop with the setup of its mailboxes, and how often it runs.
#[derive(Debug, Drop)]
pub struct Choice {
    /// The loop.
    pub what: Loop,
    /// The numbers, the table and the shape of each mailbox.
    pub setup: Setup,
    /// How often the loop runs.
    pub times: u64,
}

impl Choice {
    /// The choice in the words after the program's name: a loop, a table, the consumers and the times. Then may come
    /// the shape of the cells (else plain), and their number (else `MAX_CELLS`). Other words give no choice.
    pub fn of(words: &[String]) -> Option<Choice> {
        let [what, table, consumers, times, more @ ..] = words else {
            return None;
        };
        let (shape, cells) = match more {
            [] => ("plain", u64::from(MAX_CELLS)),
            [shape] => (shape.as_str(), u64::from(MAX_CELLS)),
            [shape, cells] => (shape.as_str(), cells.parse::<u64>().ok()?),
            _ => return None,
        };
        let table = named(&TABLES, table.as_str())?;
        let shape = named(&SHAPES, shape)?;
        Some(Choice {
            what: named(&LOOPS, what.as_str())?,
            setup: setup_of(consumers.parse::<u64>().ok()?, cells, table, shape)?,
            times: times.parse::<u64>().ok()?,
        })
    }

    /// A short run of this loop, over cells of this shape.
    pub fn short(what: Loop, shape: Option<Shape>) -> Option<Choice> {
        Some(Choice {
            what,
            setup: setup_of(3, u64::from(MAX_CELLS), TableName::Bits, shape)?,
            times: 1,
        })
    }
}

/// The setup of one lane and of these numbers. Without a shape the cells have a last object alone.
fn setup_of(consumers: u64, cells: u64, table: TableName, shape: Option<Shape>) -> Option<Setup> {
    match shape {
        None => Setup::exchange(1, consumers, cells).ok(),
        Some(shape) => {
            let setup = Setup::large(1, consumers, cells, PAIRS, table).ok()?;
            Some(setup.shaped(shape))
        }
    }
}

/// The value beside this name, if there is one.
fn named<T: Copy>(all: &[(&str, T)], name: &str) -> Option<T> {
    for (its, it) in all {
        if *its == name {
            return Some(*it);
        }
    }
    None
}
