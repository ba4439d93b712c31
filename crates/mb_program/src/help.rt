//! What the help of each command says after its options: the grammar of its script, or how to read what it prints, and
//! an example. Also its first line, and what it says of each option.

/// What the help of the whole program says at its end.
pub(crate) const PROGRAM: &str = "\
Each command has a help of its own, as `mailbox run --help`.";

/// What `ratify` does, in the line that the help begins with.
pub(crate) const RATIFY_ABOUT: &str =
    "Runs one ratifier by a script from standard input, and prints each access and output";

/// What the help of `ratify` says after its options.
pub(crate) const RATIFY: &str = "\
A script has three lines. Between two words of a line stands one space:
  ratify <table> <m>      the quorum table, unary, bits or middle, for m values, 1 to 64
  inputs <i0> <i1> ..     the input of each process, each below m
  turns <p> <p> ..        the process of each turn, in the order of time

For example:
  ratify unary 2
  inputs 0 1
  turns 0 0 0 0 1 1 1";

/// What `replay` does, in the line that the help begins with.
pub(crate) const REPLAY_ABOUT: &str =
    "Replays a script from standard input, and prints each event's answer and the report";

/// What the help of `replay` says after its options.
pub(crate) const REPLAY: &str = "\
A script is lines. Between two words of a line stands one space. The first line is
  setup <producers> <consumers> <cells> <pairs> <table> <shape>
with 1 to 16, 1 to 64, 0 to 256, 1 to 8, unary, bits or middle, and fast, last or fastlast, or no shape at all if
each cell has pairs alone. Each line after it is an event:
  offer <lane> <item>               push <lane>               finish <lane>
  step <consumer> <lane> <word>     where <word> is the random word of the step

For example:
  setup 1 1 1 1 bits
  offer 0 7
  push 0";

/// What `run` does, in the line that the help begins with.
pub(crate) const RUN_ABOUT: &str =
    "Lets producers and consumers work in threads, and prints the report of what they did";

/// What the help of `run` says after its options.
pub(crate) const RUN: &str = "\
Producer p puts the items 1000 * p, 1000 * p + 1 and so on into lane p, and ends it. Each consumer polls the
lanes in turn until all have ended. All threads go on at once, so who takes what differs from run to run. There is
a cell for each item, and 256 cells at most. A fast path is two ratifiers before the pairs of an item, enough for a
consumer that is alone. A last object comes after the pairs and always decides, so no item is undecided then.
The report has for each lane two lines, for each consumer and lane one:
  lane <p> ended put <item> ..      what producer p put, in order
  left <p> <item> ..                what nobody took
  diary <c> <p> ..                  of each item of lane p: took <item>, lost <w> or undecided

For example:
  mailbox run --producers 1 --consumers 1 --items 2 --pairs 1
prints
  lane 0 ended put 0 1
  left 0
  diary 0 0 took 0 took 1";

/// What the help of `run` says of `--producers`.
pub(crate) const PRODUCERS: &str = "How many producers put items, 1 to 16";

/// What the help of `run` says of `--consumers`.
pub(crate) const CONSUMERS: &str = "How many consumers compete for them, 1 to 64";

/// What the help of `run` says of `--items`.
pub(crate) const ITEMS: &str = "How many items each producer puts; all together at most 256";

/// What the help of `run` says of `--pairs`.
pub(crate) const PAIRS: &str = "How many pairs of deciding objects each item has, 1 to 8";

/// What the help of `run` says of `--budget`.
pub(crate) const BUDGET: &str = "The most accesses of one poll, 1 to 1000000";

/// What the help of `run` says of `--seed`.
pub(crate) const SEED: &str = "The seed of the consumers' random words";

/// What the help of `run` says of `--shape`.
pub(crate) const SHAPE: &str =
    "What each item has beside its pairs: a fast path, a last object or both";
