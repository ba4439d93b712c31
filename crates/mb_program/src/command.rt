//! The command line.
ghost use Rattle.std.specs.Prelude.{◌≡◌, [], ◌∷◌, List, ℕ, Some, IfOk, IfErr, IfSome, OnOk, IsSome, map};
ghost use Rattle.clap.specs.Words.{app_of, fault_of, kind_of, subcommand_name_of, subcommand_rows_of};
ghost use Rattle.mb_program.specs.CommandLine.{program, root_command, command_in, choice_name, IsProgramApp, IsRefusalOf};
ghost use Rattle.mb_program.specs.RunOptions.{HasBudget, HasOptions, HasToldOptions};

use crate::help;
use crate::options::{Options, named_subcommand, options_of, run_command};
use clap::error::ErrorKind;
use clap::{ArgMatches, Command, Error};
use std::alloc::{AllocError, Global};
use std::convert::AsStr;

/// The version that `--version` prints.
pub const VERSION: &str = "0.1.0";

/// What a command line asks for.
#[derive(Clone, Copy, Debug, PartialEq, Eq, Hash)]
pub enum Choice {
    /// Run one ratifier: a script from standard input, its trace to standard output.
    Ratify,
    /// Replay a script from standard input: its transcript and its report to standard output.
    Replay,
    /// Let producers and consumers work in threads, as these options ask: the report to standard output.
    Run(Options),
}

/// The program without its commands. One command has to be named.
fn root_command<'a>(alloc: Global) -> Result<Command<'a>, AllocError>
    ensures { IfOk result (λ c. app_of c ≡ root_command) }
{
    Ok(
        Command::new(alloc, "mailbox")
            .bin_name("mailbox")?
            .version(VERSION)
            .about(
                "Message passing between threads, on a mailbox with a proof that no item is taken twice",
            )
            .after_help(help::PROGRAM)
            .subcommand_required(true),
    )
}

/// The program with its commands, as clap describes it.
fn program<'a>(alloc: Global) -> Result<Command<'a>, AllocError>
    ensures { IfOk result (λ c. IsProgramApp (app_of c)) }
{
    root_command(alloc)?
        .subcommand(named_subcommand(alloc, "ratify", help::RATIFY_ABOUT, help::RATIFY))?
        .subcommand(named_subcommand(alloc, "replay", help::REPLAY_ABOUT, help::REPLAY))?
        .subcommand(run_command(alloc)?)
}

/// The choice for the command that clap has found, or `None` if that is none of the program's.
fn choice_of(matches: &ArgMatches) -> Option<Choice>
    ensures named { IfSome result (λ choice. subcommand_name_of matches.now
        ≡ Some (choice_name choice)) }
    ensures options { IfSome result (HasOptions (subcommand_rows_of matches.now)) }
    ensures budget { IfSome result HasBudget }
    ensures each { (choice : Choice) → subcommand_name_of matches.now ≡ Some (choice_name choice)
        → IsSome result }
{
    let (name, given) = matches.subcommand()?;
    match name {
        "ratify" => Some(Choice::Ratify),
        "replay" => Some(Choice::Replay),
        "run" => Some(Choice::Run(options_of(given))),
        _ => None,
    }
}

/// Reads the command line, whose first word is the program's name.
///
/// Clap decides which lines are refused, and the text that says so. A call for help or the version counts as a refusal.
/// A shape that is none of the four names is `InvalidValue`. If clap finds no fault in the line and it names a command,
/// the line is refused only if memory runs out.
pub fn command_of<'a, S: AsStr>(alloc: Global, words: &'a [S]) -> Result<Choice, Error>
    // The choice is the command that the words name, and clap refuses none of the words.
    ensures choice { IfOk result (λ choice. command_in (map S.text words.entry.now)
        ≡ Some (choice_name choice)) }
    ensures taken { OnOk result (fault_of program (map S.text words.entry.now) ≡ []) }

    // The options of `run` are those that the words give, and the budget lies in its range.
    ensures options { IfOk result (HasToldOptions (map S.text words.entry.now)) }
    ensures budget { IfOk result HasBudget }

    // A refusal is for want of memory, or of a kind that the words give. Help comes only if they ask for it.
    ensures kinds { IfErr result (λ e. IsRefusalOf (map S.text words.entry.now) (kind_of e)) }

    // Words in which clap finds no fault, and that name a command, are refused only if memory runs out. So are the two
    // words of the program's name and a command's name.
    ensures refused { (choice : Choice) → fault_of program (map S.text words.entry.now) ≡ []
        → command_in (map S.text words.entry.now) ≡ Some (choice_name choice)
        → IfErr result (λ e. kind_of e ≡ ErrorKind.OutOfMemory) }
    ensures alone { (name : List ℕ) (choice : Choice) → map S.text words.entry.now ≡ name
        ∷ choice_name choice ∷ []
        → IfErr result (λ e. kind_of e ≡ ErrorKind.OutOfMemory) }
{
    let mut command = program(alloc)?;
    let matches = command.try_get_matches_from_mut(words)?;
    let Some(choice) = choice_of(&matches) else {
        return Err(command.error(ErrorKind::InvalidSubcommand, "no such command")?);
    };
    Ok(choice)
}
