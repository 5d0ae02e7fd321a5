//! Which command the words are.
ghost use Rattle.std.specs.Prelude.{◌≡◌, drop, map, option_map, IfOk, IfSome, IfNone, string_bytes, true, false};
ghost use Rattle.clap.specs.Words.{app_of, is_simple_and_free};
ghost use Rattle.ztx_words.specs.Arguments.{plain_app, race_app, run_app, step_app, deck_app, number_app};
ghost use Rattle.ztx_words.specs.Words.{AreLimits, IsInRange, command_of, is_taken, taken_as, nothing_of};
ghost use Rattle.ztx_words.specs.Words.{plan_of, run_of, heat_of, step_of, race_of, deck_of, required_number};
ghost use Rattle.ztx_words.specs.declared.Command.TheVariants as command;
ghost use Rattle.ztx_words.specs.Parses.{IsParse, IsPlanned};

use crate::Command;
use crate::arguments::{
    deck_command, number_command, plain_command, race_command, run_command, step_command,
};
use clap::ArgMatches;
use clap::error::ErrorKind;
use std::alloc::{AllocError, Global};

/// The arguments of a command that runs a listing by a schedule.
#[derive(Clone, Copy)]
pub struct Plan {
    turns: u64,
    tick: u64,
    seed: Option<u64>,
}

/// The matches of the words behind the first, or nothing where the command does not take them.
fn matches_in<'a>(
    command: clap::Command<'a>,
    words: &'a [String],
) -> Result<Option<ArgMatches<'a>>, AllocError>
    requires { is_simple_and_free (app_of command) ≡ true }
    ensures found { IfOk result (λ r.
        IfSome r (IsParse (app_of command.entry) (map string_bytes words.entry.now))) }
    ensures none { IfOk result (λ r.
        IfNone r (is_taken (app_of command.entry) (map string_bytes words.entry.now) ≡ false)) }
{
    match command.try_get_matches_from(words) {
        Ok(matches) => Ok(Some(matches)),
        Err(error) => match error.kind() {
            ErrorKind::OutOfMemory => Err(AllocError),
            _ => Ok(None),
        },
    }
}

/// Whether `list` and `check` take the words behind the first.
fn read_nothing(alloc: Global, words: &[String]) -> Result<Option<()>, AllocError>
    ensures value { IfOk result (λ r.
        r ≡ taken_as plain_app nothing_of (drop 1 (map string_bytes words.now))) }
{
    let Some(_) = matches_in(plain_command(alloc), words)? else {
        return Ok(None);
    };
    Ok(Some(()))
}

/// What a command with turns up to `most`, their default, with a tick and a seed makes of the words behind
/// the first.
fn read_plan<'a>(
    command: clap::Command<'a>,
    most: u64,
    words: &'a [String],
) -> Result<Option<Plan>, AllocError>
    requires { IsPlanned most (app_of command) }
    ensures value { IfOk result (λ r.
        r ≡ taken_as (app_of command.entry) (plan_of most) (drop 1 (map string_bytes words.now))) }
    ensures range { IfOk result (λ r. IfSome r (λ plan. AreLimits most plan.turns plan.tick)) }
{
    let Some(matches) = matches_in(command, words)? else {
        return Ok(None);
    };
    let turns = matches.get_one::<u64>("turns").unwrap_or(most);
    let tick = matches.get_one::<u64>("tick").unwrap_or(0);
    let seed = matches.get_one::<u64>("seed");
    Ok(Some(Plan { turns, tick, seed }))
}

/// The arguments of `run` and `heat` that the words behind the first are.
fn read_run_plan(alloc: Global, words: &[String]) -> Result<Option<Plan>, AllocError>
    ensures value { IfOk result (λ r.
        r ≡ taken_as run_app (plan_of 200000) (drop 1 (map string_bytes words.now))) }
    ensures range { IfOk result (λ r. IfSome r (λ plan. AreLimits 200000 plan.turns plan.tick)) }
{
    read_plan(run_command(alloc)?, 200_000, words)
}

/// The arguments of `step` that the words behind the first are.
fn read_step_plan(alloc: Global, words: &[String]) -> Result<Option<Plan>, AllocError>
    ensures value { IfOk result (λ r.
        r ≡ taken_as step_app (plan_of 20000) (drop 1 (map string_bytes words.now))) }
    ensures range { IfOk result (λ r. IfSome r (λ plan. AreLimits 20000 plan.turns plan.tick)) }
{
    read_plan(step_command(alloc)?, 20_000, words)
}

/// What `run` makes of the words behind the first.
fn read_run(alloc: Global, words: &[String]) -> Result<Option<Command>, AllocError>
    ensures value { IfOk result (λ r.
        r ≡ option_map run_of (taken_as run_app (plan_of 200000) (drop 1 (map string_bytes words.now)))) }
    ensures range { IfOk result (λ r. IfSome r IsInRange) }
{
    Ok(read_run_plan(alloc, words)?.map(|plan| Command::Run {
        turns: plan.turns,
        tick: plan.tick,
        seed: plan.seed,
    }))
}

/// What `heat` makes of the words behind the first.
fn read_heat(alloc: Global, words: &[String]) -> Result<Option<Command>, AllocError>
    ensures value { IfOk result (λ r.
        r ≡ option_map heat_of (taken_as run_app (plan_of 200000) (drop 1 (map string_bytes words.now)))) }
    ensures range { IfOk result (λ r. IfSome r IsInRange) }
{
    Ok(read_run_plan(alloc, words)?.map(|plan| Command::Heat {
        turns: plan.turns,
        tick: plan.tick,
        seed: plan.seed,
    }))
}

/// What `step` makes of the words behind the first.
fn read_step(alloc: Global, words: &[String]) -> Result<Option<Command>, AllocError>
    ensures value { IfOk result (λ r.
        r ≡ option_map step_of (taken_as step_app (plan_of 20000) (drop 1 (map string_bytes words.now)))) }
    ensures range { IfOk result (λ r. IfSome r IsInRange) }
{
    Ok(read_step_plan(alloc, words)?.map(|plan| Command::Step {
        turns: plan.turns,
        tick: plan.tick,
        seed: plan.seed,
    }))
}

/// What `race` makes of the words behind the first.
fn read_race(alloc: Global, words: &[String]) -> Result<Option<Command>, AllocError>
    ensures value { IfOk result (λ r.
        r ≡ taken_as race_app race_of (drop 1 (map string_bytes words.now))) }
    ensures range { IfOk result (λ r. IfSome r IsInRange) }
{
    let Some(matches) = matches_in(race_command(alloc)?, words)? else {
        return Ok(None);
    };
    let turns = matches.get_one::<u64>("turns").unwrap_or(200_000);
    let tick = matches.get_one::<u64>("tick").unwrap_or(0);
    Ok(Some(Command::Race { turns, tick }))
}

/// What `deck` makes of the words behind the first.
fn read_deck(alloc: Global, words: &[String]) -> Result<Option<Command>, AllocError>
    ensures value { IfOk result (λ r.
        r ≡ taken_as deck_app deck_of (drop 1 (map string_bytes words.now))) }
    ensures range { IfOk result (λ r. IfSome r IsInRange) }
{
    let Some(matches) = matches_in(deck_command(alloc)?, words)? else {
        return Ok(None);
    };
    let read = matches.get_one::<bool>("read").unwrap_or(false);
    let origin = matches.get_one::<u64>("origin").unwrap_or(0);
    Ok(Some(Command::Deck { read, origin }))
}

/// The number behind the first word, which stands alone.
fn read_number(alloc: Global, words: &[String]) -> Result<Option<u64>, AllocError>
    ensures value { IfOk result (λ r.
        r ≡ taken_as number_app required_number (drop 1 (map string_bytes words.now))) }
{
    let Some(matches) = matches_in(number_command(alloc)?, words)? else {
        return Ok(None);
    };
    Ok(Some(matches.get_one::<u64>("number").unwrap_or(0)))
}

/// What `list` makes of the words behind the first.
fn read_list(alloc: Global, words: &[String]) -> Result<Option<Command>, AllocError>
    ensures value { IfOk result (λ r.
        r ≡ option_map (λ u. command.List) (taken_as plain_app nothing_of (drop 1 (map string_bytes words.now)))) }
    ensures range { IfOk result (λ r. IfSome r IsInRange) }
{
    Ok(read_nothing(alloc, words)?.map(|_| Command::List))
}

/// What `check` makes of the words behind the first.
fn read_check(alloc: Global, words: &[String]) -> Result<Option<Command>, AllocError>
    ensures value { IfOk result (λ r.
        r ≡ option_map (λ u. command.Check) (taken_as plain_app nothing_of (drop 1 (map string_bytes words.now)))) }
    ensures range { IfOk result (λ r. IfSome r IsInRange) }
{
    Ok(read_nothing(alloc, words)?.map(|_| Command::Check))
}

/// What `generate` makes of the words behind the first.
fn read_generate(alloc: Global, words: &[String]) -> Result<Option<Command>, AllocError>
    ensures value { IfOk result (λ r.
        r ≡ option_map command.Generate (taken_as number_app required_number (drop 1 (map string_bytes words.now)))) }
    ensures range { IfOk result (λ r. IfSome r IsInRange) }
{
    Ok(read_number(alloc, words)?.map(|number| Command::Generate { number }))
}

/// What `summary` makes of the words behind the first.
fn read_summary(alloc: Global, words: &[String]) -> Result<Option<Command>, AllocError>
    ensures value { IfOk result (λ r.
        r ≡ option_map command.Summary (taken_as number_app required_number (drop 1 (map string_bytes words.now)))) }
    ensures range { IfOk result (λ r. IfSome r IsInRange) }
{
    Ok(read_number(alloc, words)?.map(|number| Command::Summary { number }))
}

/// The command that the words are, or nothing where they are no command line. The program's name is none of
/// them.
pub fn read_words(alloc: Global, words: &[String]) -> Result<Option<Command>, AllocError>
    ensures value { IfOk result (λ r. r ≡ command_of (map string_bytes words.now)) }
    ensures range { IfOk result (λ r. IfSome r IsInRange) }
{
    let Some(name) = words.first() else {
        return Ok(None);
    };
    match name.as_str() {
        "list" => read_list(alloc, words),
        "run" => read_run(alloc, words),
        "race" => read_race(alloc, words),
        "generate" => read_generate(alloc, words),
        "summary" => read_summary(alloc, words),
        "check" => read_check(alloc, words),
        "heat" => read_heat(alloc, words),
        "deck" => read_deck(alloc, words),
        "step" => read_step(alloc, words),
        _ => Ok(None),
    }
}
