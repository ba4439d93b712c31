//! What clap writes: help that was asked for, and why a command line is refused.

use super::entry::Example;

/// The examples of help and of refused command lines. `examples/README.md` says what each shows, by its name.
pub const TEXTS: &[Example] = &[
    Example {
        name: "help",
        words: &["mailbox", "--help"],
        input: "",
        output: "\
Message passing between threads, on a mailbox with a proof that no item is taken twice

Usage: mailbox <COMMAND>

Commands:
  ratify  Runs one ratifier by a script from standard input, and prints each access and output
  replay  Replays a script from standard input, and prints each event's answer and the report
  run     Lets producers and consumers work in threads, and prints the report of what they did
  help    Print this message or the help of the given subcommand(s)

Options:
  -h, --help     Print help
  -V, --version  Print version

Each command has a help of its own, as `mailbox run --help`.
",
        error: "",
        status: 0,
    },
    Example {
        name: "help_of_run",
        words: &["mailbox", "run", "--help"],
        input: "",
        output: "\
Lets producers and consumers work in threads, and prints the report of what they did

Usage: mailbox run [OPTIONS]

Options:
      --producers <N>  How many producers put items, 1 to 16 [default: 2]
      --consumers <N>  How many consumers compete for them, 1 to 64 [default: 2]
      --items <N>      How many items each producer puts; all together at most 256 [default: 8]
      --pairs <N>      How many pairs of deciding objects each item has, 1 to 8 [default: 4]
      --budget <N>     The most accesses of one poll, 1 to 1000000 [default: 64]
      --seed <N>       The seed of the consumers' random words [default: 0]
      --shape <NAME>   What each item has beside its pairs: a fast path, a last object or both [default: plain] \
        [possible values: plain, fast, last, fastlast]
  -h, --help           Print help

Producer p puts the items 1000 * p, 1000 * p + 1 and so on into lane p, and ends it. Each consumer polls the
lanes in turn until all have ended. All threads go on at once, so who takes what differs from run to run. There is
a cell for each item, and 256 cells at most. A fast path is two ratifiers before the pairs of an item, enough for a
consumer that is alone. A last object comes after the pairs and always decides, so no item is undecided then.
The report has for each lane two lines, for each consumer and lane one:
  lane <p> ended put <item> ..      what producer p put, in order
  left <p> <item> ..                what nobody took
  diary <c> <p> ..                  of each item of lane p: took <item>, lost <w> or undecided

For example:
  mailbox run --producers 1 --consumers 1 --items 2 --pairs 1
prints
  lane 0 ended put 0 1
  left 0
  diary 0 0 took 0 took 1
",
        error: "",
        status: 0,
    },
    Example {
        name: "help_of_ratify",
        words: &["mailbox", "ratify", "--help"],
        input: "",
        output: "\
Runs one ratifier by a script from standard input, and prints each access and output

Usage: mailbox ratify

Options:
  -h, --help  Print help

A script has three lines. Between two words of a line stands one space:
  ratify <table> <m>      the quorum table, unary, bits or middle, for m values, 1 to 64
  inputs <i0> <i1> ..     the input of each process, each below m
  turns <p> <p> ..        the process of each turn, in the order of time

For example:
  ratify unary 2
  inputs 0 1
  turns 0 0 0 0 1 1 1
",
        error: "",
        status: 0,
    },
    Example {
        name: "help_of_replay",
        words: &["mailbox", "replay", "--help"],
        input: "",
        output: "\
Replays a script from standard input, and prints each event's answer and the report

Usage: mailbox replay

Options:
  -h, --help  Print help

A script is lines. Between two words of a line stands one space. The first line is
  setup <producers> <consumers> <cells> <pairs> <table> <shape>
with 1 to 16, 1 to 64, 0 to 256, 1 to 8, unary, bits or middle, and fast, last or fastlast, or no shape at all if
each cell has pairs alone. Each line after it is an event:
  offer <lane> <item>               push <lane>               finish <lane>
  step <consumer> <lane> <word>     where <word> is the random word of the step

For example:
  setup 1 1 1 1 bits
  offer 0 7
  push 0
",
        error: "",
        status: 0,
    },
    Example {
        name: "no_command",
        words: &["mailbox"],
        input: "",
        output: "",
        error: "\
error: 'mailbox' requires a subcommand but one was not provided
  [subcommands: ratify, replay, run, help]

Usage: mailbox <COMMAND>

For more information, try '--help'.
",
        status: 2,
    },
    Example {
        name: "no_budget",
        words: &["mailbox", "run", "--budget", "0"],
        input: "",
        output: "",
        error: "\
error: invalid value '0' for '--budget <N>': 0 is not in 1..=1000000

For more information, try '--help'.
",
        status: 2,
    },
    Example {
        name: "no_such_shape",
        words: &["mailbox", "run", "--shape", "other"],
        input: "",
        output: "",
        error: "\
error: invalid value 'other' for '--shape <NAME>'
  [possible values: plain, fast, last, fastlast]

For more information, try '--help'.
",
        status: 2,
    },
    Example {
        name: "word_too_many",
        words: &["mailbox", "ratify", "now"],
        input: "",
        output: "",
        error: "\
error: unexpected argument 'now' found

Usage: mailbox ratify

For more information, try '--help'.
",
        status: 2,
    },
];
