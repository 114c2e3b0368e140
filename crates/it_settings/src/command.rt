//! The command, as clap reads it.
ghost use Rattle.std.specs.Prelude.{◌≡◌, [], ◌∷◌, codes, map, IfOk, IfErr, true, false};
ghost use Rattle.std.specs.List.{fold};
ghost use Rattle.clap.specs.Words.{app_of, rule_of, with_rule, fault_of, found_of, rows_of, matches_of, kind_of};
ghost use Rattle.it_settings.specs.App.{option_rule, flag_rule, mode_rule, bare_app, itip_app};

use clap::error::ErrorKind;
use clap::{Arg, ArgAction, ArgMatches, Command, Error};
use std::alloc::{AllocError, Global};

/// The option `--name`, which takes one value.
#[tactic(auto, unfolding(crate::specs::App::option_rule))]
fn option<'a>(alloc: Global, name: &'a str) -> Arg<'a>
    ensures rule { rule_of result ≡ option_rule name.entry.now }
    ensures local { result.global ≡ false }
{
    Arg::new(alloc, name).long(name).action(ArgAction::Set)
}

/// The option `--name`, which takes no value.
#[tactic(auto, unfolding(crate::specs::App::flag_rule))]
fn flag<'a>(alloc: Global, name: &'a str) -> Arg<'a>
    ensures rule { rule_of result ≡ flag_rule name.entry.now }
    ensures local { result.global ≡ false }
{
    Arg::new(alloc, name).long(name).action(ArgAction::SetTrue)
}

/// The argument for the mode, which is required.
#[tactic(auto, unfolding(crate::specs::App::mode_rule))]
fn mode<'a>(alloc: Global) -> Arg<'a>
    ensures rule { rule_of result ≡ mode_rule }
    ensures local { result.global ≡ false }
{
    Arg::new(alloc, "mode")
        .action(ArgAction::Set)
        .required(true)
}

/// The command without arguments. Its words don't begin with the program's name.
#[tactic(auto, unfolding(crate::specs::App::bare_app))]
fn bare_command<'a>(alloc: Global) -> Command<'a>
    ensures { app_of result ≡ bare_app }
{
    Command::new(alloc, "itip")
        .no_binary_name(true)
        .disable_help_flag(true)
        .disable_version_flag(true)
}

/// `command` with the option `--name`, which takes one value.
fn with_option<'a>(
    command: Command<'a>,
    alloc: Global,
    name: &'a str,
) -> Result<Command<'a>, AllocError>
    ensures { IfOk result (λ r. app_of r ≡ with_rule (app_of command.entry) (option_rule name.entry.now)) }
{
    command.arg(option(alloc, name))
}

/// `command` with the option `--name`, which takes no value.
fn with_flag<'a>(
    command: Command<'a>,
    alloc: Global,
    name: &'a str,
) -> Result<Command<'a>, AllocError>
    ensures { IfOk result (λ r. app_of r ≡ with_rule (app_of command.entry) (flag_rule name.entry.now)) }
{
    command.arg(flag(alloc, name))
}

/// `command` with the argument for the mode.
fn with_mode<'a>(command: Command<'a>, alloc: Global) -> Result<Command<'a>, AllocError>
    ensures { IfOk result (λ r. app_of r ≡ with_rule (app_of command.entry) mode_rule) }
{
    command.arg(mode(alloc))
}

/// `command` with the options of answers: their format and their budgets.
fn with_answers<'a>(command: Command<'a>, alloc: Global) -> Result<Command<'a>, AllocError>
    ensures { IfOk result (λ r. app_of r ≡ fold (λ a name. with_rule a (option_rule name)) (app_of command.entry) (codes "format" ∷ codes "pivots" ∷ codes "rows" ∷ codes "tries" ∷ [])) }
{
    let command = with_option(command, alloc, "format")?;
    let command = with_option(command, alloc, "pivots")?;
    let command = with_option(command, alloc, "rows")?;
    with_option(command, alloc, "tries")
}

/// The whole command. It has the options of every mode; which of them a mode allows is decided later.
#[tactic(auto, unfolding(crate::specs::App::itip_app))]
fn itip<'a>(alloc: Global) -> Result<Command<'a>, AllocError>
    ensures { IfOk result (λ r. app_of r ≡ itip_app) }
{
    let command = with_mode(bare_command(alloc), alloc)?;
    let command = with_answers(command, alloc)?;
    let command = with_option(command, alloc, "seed")?;
    let command = with_option(command, alloc, "count")?;
    let command = with_option(command, alloc, "run")?;
    let command = with_option(command, alloc, "names")?;
    with_flag(command, alloc, "report")
}

/// The matches of `words`, or clap's error: that allocation failed, or that the command doesn't accept the words.
pub fn parse<'a>(alloc: Global, words: &'a [&'a str]) -> Result<ArgMatches<'a>, Error>
    ensures fits { IfOk result (λ m. fault_of itip_app (map (λ w. w.now) words.entry.now) ≡ []) }
    ensures rows { IfOk result (λ m. rows_of (found_of m) ≡ matches_of itip_app (map (λ w. w.now) words.entry.now)) }
    ensures none { IfErr result (λ e. fault_of itip_app (map (λ w. w.now) words.entry.now) ≡ [] → kind_of e ≡ ErrorKind.OutOfMemory) }
{
    let command = itip(alloc)?;
    command.try_get_matches_from(words)
}
