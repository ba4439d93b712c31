//! The options of the command `run`, on the command line.
ghost use Rattle.std.specs.Prelude.{◌≡◌, ◌≤◌, false, IfOk};
ghost use Rattle.clap.specs.Words.{app_of, found_of, new_app, rows_of, rule_of};
ghost use Rattle.clap.specs.declared.builder.command.Command.TheViews.{out-Command as fields_of};
ghost use Rattle.mb_program.specs.CommandLine.{IsRunApp, any_number, number_rule, named_rule};
ghost use Rattle.mb_program.specs.RunOptions.{budget_in, number_in, options_in, shape_in};

use crate::help;
use clap::builder::ValueParser;
use clap::{Arg, ArgAction, ArgMatches, Command};
use mb_claim::Shape;
use mb_script::shape_of_word;
use std::alloc::{AllocError, Global};

/// What `run` is asked for. The command line makes sure of the budget's range alone. `run_threads`
/// refuses each other number that is out of its range.
#[derive(Clone, Copy, Debug, PartialEq, Eq, Hash)]
pub struct Options {
    /// How many producers there are, 1 to 16.
    pub producers: u64,
    /// How many consumers there are, 1 to 64.
    pub consumers: u64,
    /// How many items each producer puts. All producers together put at most 256.
    pub items: u64,
    /// How many pairs of deciding objects each item has, 1 to 8.
    pub pairs: u64,
    /// The most accesses that one poll makes, 1 to [`MAX_BUDGET`].
    pub budget: u64,
    /// The seed of the consumers' random words.
    pub seed: u64,
    /// Which deciding objects each item has beside its pairs.
    pub shape: Shape,
}

/// The largest budget that a command line can ask for. The least is 1.
pub const MAX_BUDGET: u64 = 1_000_000;

/// The names that `--shape` takes. With `plain` each item has pairs alone. The others are those of a setup line.
const SHAPES: &[&str] = &["plain", "fast", "last", "fastlast"];

/// A command without options.
pub(crate) fn named_subcommand<'a>(
    alloc: Global,
    name: &'a str,
    about: &'a str,
    more: &'a str,
) -> Command<'a>
    ensures app { app_of result ≡ new_app name.entry.now }
    ensures local { (fields_of result).has_globals ≡ false }
{
    Command::new(alloc, name).about(about).after_help(more)
}

/// An option that takes a number from `low` to `high`.
fn number<'a>(
    alloc: Global,
    name: &'a str,
    default: &'a str,
    low: u64,
    high: u64,
    meaning: &'a str,
) -> Arg<'a>
    ensures rule { rule_of result ≡ number_rule name.entry.now default.entry.now low high }
    ensures local { result.global ≡ false }
{
    Arg::new(alloc, name)
        .long(name)
        .value_name("N")
        .help(meaning)
        .action(ArgAction::Set)
        .value_parser(ValueParser::unsigned(low, high))
        .default_value(default)
}

/// An option that takes any number.
fn any_number<'a>(alloc: Global, name: &'a str, default: &'a str, meaning: &'a str) -> Arg<'a>
    ensures rule { rule_of result ≡ any_number name.entry.now default.entry.now }
    ensures local { result.global ≡ false }
{
    number(alloc, name, default, 0, u64::MAX, meaning)
}

/// An option that takes one of these names.
fn named<'a>(
    alloc: Global,
    name: &'a str,
    default: &'a str,
    names: &'a [&'a str],
    meaning: &'a str,
) -> Arg<'a>
    ensures rule { rule_of result ≡ named_rule name.entry.now default.entry.now names.entry }
    ensures local { result.global ≡ false }
{
    Arg::new(alloc, name)
        .long(name)
        .value_name("NAME")
        .help(meaning)
        .action(ArgAction::Set)
        .value_parser(ValueParser::Names(names))
        .default_value(default)
}

/// The command `run`, as clap describes it.
pub(crate) fn run_command<'a>(alloc: Global) -> Result<Command<'a>, AllocError>
    ensures app { IfOk result (λ c. IsRunApp (app_of c)) }
    ensures local { IfOk result (λ c. (fields_of c).has_globals ≡ false) }
{
    named_subcommand(alloc, "run", help::RUN_ABOUT, help::RUN)
        .arg(any_number(alloc, "producers", "2", help::PRODUCERS))?
        .arg(any_number(alloc, "consumers", "2", help::CONSUMERS))?
        .arg(any_number(alloc, "items", "8", help::ITEMS))?
        .arg(any_number(alloc, "pairs", "4", help::PAIRS))?
        .arg(number(alloc, "budget", "64", 1, MAX_BUDGET, help::BUDGET))?
        .arg(any_number(alloc, "seed", "0", help::SEED))?
        .arg(named(alloc, "shape", "plain", SHAPES, help::SHAPE))
}

/// The number of an option. Each option has a default, so there is always one.
fn number_given(given: &ArgMatches, name: &str) -> u64
    ensures { result ≡ number_in name.now (rows_of (found_of given.now)) }
{
    given.get_one::<u64>(name).unwrap_or(0)
}

/// The budget that the options give. Clap takes only numbers in its range, but no clause here says so. So the number is
/// bounded.
fn budget_given(given: &ArgMatches) -> u64
    ensures number { result ≡ budget_in (rows_of (found_of given.now)) }
    ensures range { (1 ≤ result) × (result ≤ MAX_BUDGET) }
{
    number_given(given, "budget").clamp(1, MAX_BUDGET)
}

/// The shape that the option names. It is pairs alone for `plain`.
fn shape_given(given: &ArgMatches) -> Shape
    ensures { result ≡ shape_in (rows_of (found_of given.now)) }
{
    match given.get_str("shape") {
        Some(name) => shape_of_word(name).unwrap_or(Shape::PLAIN),
        None => Shape::PLAIN,
    }
}

/// The options that the words of `run` give, with the defaults that clap puts in for the others.
pub(crate) fn options_of(given: &ArgMatches) -> Options
    ensures options { result ≡ options_in (rows_of (found_of given.now)) }
    ensures budget { (1 ≤ result.budget) × (result.budget ≤ MAX_BUDGET) }
{
    Options {
        producers: number_given(given, "producers"),
        consumers: number_given(given, "consumers"),
        items: number_given(given, "items"),
        pairs: number_given(given, "pairs"),
        budget: budget_given(given),
        seed: number_given(given, "seed"),
        shape: shape_given(given),
    }
}
