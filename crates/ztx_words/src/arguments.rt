//! The arguments of the subcommands, and the simple command that reads those of each.
ghost use Rattle.std.specs.Prelude.{◌≡◌, false, IfOk};
ghost use Rattle.clap.specs.Words.{app_of, rule_of};
ghost use Rattle.ztx_words.specs.Arguments.{turns_rule, steps_rule, tick_rule, seed_rule};
ghost use Rattle.ztx_words.specs.Arguments.{number_rule, read_rule, origin_rule};
ghost use Rattle.ztx_words.specs.Arguments.{plain_app, race_app, run_app, step_app, deck_app, number_app};

use clap::{Arg, ArgAction, Command};
use std::alloc::{AllocError, Global};

/// `--turns N`: 1 to 200,000, which is the default.
fn turns<'a>(alloc: Global) -> Arg<'a>
    ensures rule { rule_of result ≡ turns_rule }
    ensures local { result.global ≡ false }
{
    Arg::new(alloc, "turns")
        .long("turns")
        .action(ArgAction::Set)
        .default_value("200000")
        .value_parser(clap::value_parser!(u64).range(1..=200_000))
}

/// `--turns N` of `step`: 1 to 20,000, which is the default.
fn steps<'a>(alloc: Global) -> Arg<'a>
    ensures rule { rule_of result ≡ steps_rule }
    ensures local { result.global ≡ false }
{
    Arg::new(alloc, "turns")
        .long("turns")
        .action(ArgAction::Set)
        .default_value("20000")
        .value_parser(clap::value_parser!(u64).range(1..=20_000))
}

/// `--tick T`: 0 to 1,000,000, by default 0.
fn tick<'a>(alloc: Global) -> Arg<'a>
    ensures rule { rule_of result ≡ tick_rule }
    ensures local { result.global ≡ false }
{
    Arg::new(alloc, "tick")
        .long("tick")
        .action(ArgAction::Set)
        .default_value("0")
        .value_parser(clap::value_parser!(u64).range(0..=1_000_000))
}

/// `--seed K`: any number.
fn seed<'a>(alloc: Global) -> Arg<'a>
    ensures rule { rule_of result ≡ seed_rule }
    ensures local { result.global ≡ false }
{
    Arg::new(alloc, "seed")
        .long("seed")
        .action(ArgAction::Set)
        .value_parser(clap::value_parser!(u64))
}

/// One number, required: any.
fn number<'a>(alloc: Global) -> Arg<'a>
    ensures rule { rule_of result ≡ number_rule }
    ensures local { result.global ≡ false }
{
    Arg::new(alloc, "number")
        .action(ArgAction::Set)
        .required(true)
        .value_parser(clap::value_parser!(u64))
}

/// `--read`: a flag.
fn read<'a>(alloc: Global) -> Arg<'a>
    ensures rule { rule_of result ≡ read_rule }
    ensures local { result.global ≡ false }
{
    Arg::new(alloc, "read")
        .long("read")
        .action(ArgAction::SetTrue)
}

/// `--origin A`: 0 to 1,040,384, by default 0.
fn origin<'a>(alloc: Global) -> Arg<'a>
    ensures rule { rule_of result ≡ origin_rule }
    ensures local { result.global ≡ false }
{
    Arg::new(alloc, "origin")
        .long("origin")
        .action(ArgAction::Set)
        .default_value("0")
        .value_parser(clap::value_parser!(u64).range(0..=1_040_384))
}

/// The command of `list` and `check`, which takes nothing.
pub fn plain_command<'a>(alloc: Global) -> Command<'a>
    ensures { app_of result ≡ plain_app }
{
    Command::new(alloc, "ztx").disable_help_flag(true)
}

/// The command of `race`.
pub fn race_command<'a>(alloc: Global) -> Result<Command<'a>, AllocError>
    ensures { IfOk result (λ command. app_of command ≡ race_app) }
{
    plain_command(alloc).arg(turns(alloc))?.arg(tick(alloc))
}

/// The command of `run` and `heat`: that of `race` with a seed.
pub fn run_command<'a>(alloc: Global) -> Result<Command<'a>, AllocError>
    ensures { IfOk result (λ command. app_of command ≡ run_app) }
{
    race_command(alloc)?.arg(seed(alloc))
}

/// The command of `step`: that of `run` with fewer turns.
pub fn step_command<'a>(alloc: Global) -> Result<Command<'a>, AllocError>
    ensures { IfOk result (λ command. app_of command ≡ step_app) }
{
    plain_command(alloc)
        .arg(steps(alloc))?
        .arg(tick(alloc))?
        .arg(seed(alloc))
}

/// The command of `deck`.
pub fn deck_command<'a>(alloc: Global) -> Result<Command<'a>, AllocError>
    ensures { IfOk result (λ command. app_of command ≡ deck_app) }
{
    plain_command(alloc).arg(read(alloc))?.arg(origin(alloc))
}

/// The command of `generate` and `summary`.
pub fn number_command<'a>(alloc: Global) -> Result<Command<'a>, AllocError>
    ensures { IfOk result (λ command. app_of command ≡ number_app) }
{
    plain_command(alloc).arg(number(alloc))
}
