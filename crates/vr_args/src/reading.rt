//! The words of a command line.
ghost use Rattle.std.specs.Prelude.{◌≡◌, ◌≢◌, IfOk, None, Some, map, option_and_then, string_bytes};
ghost use Rattle.std.specs.Option.{option_map};
ghost use Rattle.clap.specs.Words.{FailsBy, found_of, kind_of, rows_of, subcommand_rows_of};
ghost use Rattle.vr_args.specs.Asked.{Client, Migrate, Node, Trial, asked, asked_at, client_at, entered_by, faults_in, migrate_at, node_at, outside_at, says, trial_at};

use crate::asked::{client_at, migrate_at, node_at, soak_at, trial_at};
use crate::forms::command;
use crate::{Command, WordsFault};
use clap::error::ErrorKind;
use clap::{ArgMatches, Error};
use std::alloc::{AllocError, Global};

/// What the words say to `clap`.
fn matches_of<'a>(alloc: Global, words: &'a [String]) -> Result<ArgMatches<'a>, Error>
    ensures fails { FailsBy (faults_in (map string_bytes words.now)) result }
    ensures entered { IfOk result (λ m. subcommand_rows_of m ≡ entered_by (map string_bytes words.now)) }
{
    command(alloc)?.try_get_matches_from(words)
}

/// The command `node` with these values, where they are in range.
fn node_command(alloc: Global, matches: &ArgMatches<'_>) -> Result<Option<Command>, AllocError>
    ensures { IfOk result (λ c. option_map says c ≡ option_map Node (node_at (rows_of (found_of matches.now)))) }
{
    Ok(node_at(alloc, matches)?.map(Command::Node))
}

/// The command `client` with these values, where they are in range.
fn client_command(alloc: Global, matches: &ArgMatches<'_>) -> Result<Option<Command>, AllocError>
    ensures { IfOk result (λ c. option_map says c ≡ option_map Client (client_at (rows_of (found_of matches.now)))) }
{
    Ok(client_at(alloc, matches)?.map(Command::Client))
}

/// The command `trial` with these values, where they are in range.
fn trial_command(alloc: Global, matches: &ArgMatches<'_>) -> Result<Option<Command>, AllocError>
    ensures { IfOk result (λ c. option_map says c ≡ option_map Trial (trial_at (rows_of (found_of matches.now)))) }
{
    Ok(trial_at(alloc, matches)?.map(Command::Trial))
}

/// The command `migrate` with these values, where they are in range.
fn migrate_command(alloc: Global, matches: &ArgMatches<'_>) -> Result<Option<Command>, AllocError>
    ensures { IfOk result (λ c. option_map says c ≡ option_map Migrate (migrate_at (rows_of (found_of matches.now)))) }
{
    Ok(migrate_at(alloc, matches)?.map(Command::Migrate))
}

/// The command of this name over files and the network, where its values are in range. Each has an end of its own, which the proof spells out.
#[tactic(auto, unfolding(crate::specs::Asked::outside_at))]
fn outside_command_at(
    alloc: Global,
    name: &str,
    matches: &ArgMatches<'_>,
) -> Result<Option<Command>, AllocError>
    ensures { IfOk result (λ c. option_map says c ≡ outside_at name.now (rows_of (found_of matches.now))) }
{
    if name == "node" {
        return node_command(alloc, matches);
    }
    if name == "client" {
        return client_command(alloc, matches);
    }
    if name == "trial" {
        return trial_command(alloc, matches);
    }
    if name == "migrate" {
        return migrate_command(alloc, matches);
    }
    Ok(None)
}

/// The command of this name with these values, where they are in range.
#[tactic(auto, unfolding(crate::specs::Asked::asked_at, crate::specs::Asked::outside_at))]
fn command_at(
    alloc: Global,
    name: &str,
    matches: &ArgMatches<'_>,
) -> Result<Option<Command>, AllocError>
    ensures { IfOk result (λ c. option_map says c ≡ asked_at name.now (rows_of (found_of matches.now))) }
{
    if name == "replay" {
        return Ok(Some(Command::Replay));
    }
    if name == "soak" {
        return Ok(soak_at(matches).map(Command::Soak));
    }
    outside_command_at(alloc, name, matches)
}

/// The command that was entered.
#[tactic(auto, using(crate::proofs::Found::entered_some, crate::proofs::Found::entered_none))]
fn entered(alloc: Global, matches: &ArgMatches<'_>) -> Result<Option<Command>, AllocError>
    ensures { IfOk result (λ c. option_map says c ≡ option_and_then (λ p. asked_at p.0 p.1) (subcommand_rows_of matches.now)) }
{
    match matches.subcommand() {
        Some((name, values)) => command_at(alloc, name, values),
        None => Ok(None),
    }
}

/// Why `clap` didn't take the words.
fn fault_for(error: &Error) -> WordsFault
    ensures { result ≡ WordsFault.Usage → kind_of error.now ≢ ErrorKind.OutOfMemory }
{
    match error.kind() {
        ErrorKind::OutOfMemory => WordsFault::NoMemory,
        _ => WordsFault::Usage,
    }
}

/// The command that words are: `Usage` exactly where they aren't one of the forms with its numbers in range, want of
/// memory aside.
#[tactic(auto, using(crate::proofs::Found::asked_by, crate::proofs::Found::refused_by))]
pub fn parse(alloc: Global, words: &[String]) -> Result<Command, WordsFault>
    ensures said { IfOk result (λ c. asked (map string_bytes words.now) ≡ Some (says c)) }
    ensures usage { result ≡ Err WordsFault.Usage → asked (map string_bytes words.now) ≡ None }
{
    let matches = match matches_of(alloc, words) {
        Ok(matches) => matches,
        Err(error) => return Err(fault_for(&error)),
    };
    match entered(alloc, &matches) {
        Ok(Some(command)) => Ok(command),
        Ok(None) => Err(WordsFault::Usage),
        Err(_) => Err(WordsFault::NoMemory),
    }
}
