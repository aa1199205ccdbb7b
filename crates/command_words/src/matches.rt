//! From the words to the command.

ghost use Rattle.std.specs.Prelude.{◌≡◌, ◌≢◌, ◌≤◌, [], IfOk, IfSome, MatchOption, None, Option};
ghost use Rattle.std.specs.Option.{option_map};
ghost use Rattle.clap.specs.Faults.{fault_of};
ghost use Rattle.clap.specs.Matches.{found_of};
ghost use Rattle.clap.specs.Simple.{HasMatchesOf, subcommand_rows_of};
ghost use Rattle.clap.specs.Values.{kind_of};
ghost use Rattle.clap.specs.Walk.{rows_of, first_of};
ghost use Rattle.command_words.specs.Program.{program};
ghost use Rattle.command_words.specs.Numbers.{epoch_or};
ghost use Rattle.command_words.specs.Commands.{judge_by, pave_by, files_by, track_files_by, is_said};
ghost use Rattle.command_words.specs.Commands.{is_alone, is_quiet, solve_by, track_by, guard_by};
ghost use Rattle.command_words.specs.Commands.{make_by};
ghost use Rattle.command_words.specs.Commands.{epochs_by, command_by, command_said};
ghost use Rattle.command_words.specs.Commands.{command_of};
ghost use Rattle.command_words.specs.Seen.{texts, epochs_asked, files_asked, asked, IsSelection};
ghost use Rattle.command_words.specs.Seen.{HasRanges};

use crate::command::{Command, Files, Selection};
use crate::numbers::number_in;
use crate::program::program;
use clap::error::ErrorKind;
use clap::{ArgMatches, Error};
use grid_model::NoMemory;
use std::alloc::Global;

/// The greatest number that an epoch can have.
const LAST_EPOCH: u32 = 200_000;

/// The command that the words after the program's name ask for. None exactly where `clap` doesn't
/// take the words as one of the commands, or a number among them hasn't its form and range.
pub fn command_of<'a>(alloc: Global, words: &'a [String]) -> Result<Option<Command<'a>>, NoMemory>
    ensures command { IfOk result (λ command.
        option_map asked command ≡ command_of (texts words.entry.now)) }
    ensures ranges { IfOk result (λ command. IfSome command HasRanges) }
{
    match matches_of(alloc, words)? {
        Some(matches) => Ok(command_said(&matches)),
        None => Ok(None),
    }
}

/// What clap makes of the words, where it takes them.
fn matches_of<'a>(alloc: Global, words: &'a [String]) -> Result<Option<ArgMatches<'a>>, NoMemory>
    ensures { IfOk result (λ found. MatchOption found
        (fault_of program (texts words.entry.now) ≢ [])
        (λ m. (fault_of program (texts words.entry.now) ≡ [])
        × HasMatchesOf program (texts words.entry.now) m)) }
{
    let command = program(alloc)?;
    match command.try_get_matches_from(words) {
        Ok(matches) => Ok(Some(matches)),
        Err(error) => refused(&error),
    }
}

/// What an error says of the words.
fn refused<'a>(error: &Error) -> Result<Option<ArgMatches<'a>>, NoMemory>
    ensures { IfOk result (λ found. (found ≡ None) × (kind_of error.now ≢ ErrorKind.OutOfMemory)) }
{
    if error.kind() == ErrorKind::OutOfMemory {
        return Err(NoMemory);
    }
    Ok(None)
}

/// The command that the matches say.
fn command_said<'a>(matches: &ArgMatches<'a>) -> Option<Command<'a>>
    ensures command { option_map asked result ≡ command_said (subcommand_rows_of matches.now) }
    ensures ranges { IfSome result HasRanges }
{
    match matches.subcommand() {
        Some((name, found)) => command_by(name, found),
        None => None,
    }
}

/// The command with this name, of which these are the matches.
fn command_by<'a>(name: &str, found: &ArgMatches<'a>) -> Option<Command<'a>>
    ensures command { option_map asked result
        ≡ command_by name.now (rows_of (found_of found.now)) }
    ensures ranges { IfSome result HasRanges }
{
    if name == "judge" {
        judge_by(found)
    } else if name == "pave" {
        pave_by(found)
    } else if name == "solve" {
        solve_by(found)
    } else if name == "check" {
        Some(Command::Check(files_by(found, None)?))
    } else if name == "track" {
        track_by(found)
    } else if name == "retrack" {
        Some(Command::Retrack(track_files_by(found)?))
    } else if name == "guard" {
        guard_by(found)
    } else if name == "make" {
        make_by(found)
    } else {
        None
    }
}

/// The text of a word or an option, where it is there.
fn text_of<'a>(found: &ArgMatches<'a>, id: &str) -> Option<&'a str>
    ensures { first_of id.now (rows_of (found_of found.now)) ≡ option_map (λ t. t.now) result }
{
    found.get_str(id)
}

/// `judge LOG`.
fn judge_by<'a>(found: &ArgMatches<'a>) -> Option<Command<'a>>
    ensures command { option_map asked result ≡ judge_by (rows_of (found_of found.now)) }
    ensures ranges { IfSome result HasRanges }
{
    let log = text_of(found, "log")?;
    Some(Command::Judge { log })
}

/// Whether a flag is there.
fn is_said(flag: Option<&str>) -> bool
    ensures { result ≡ is_said (option_map (λ t. t.now) flag.entry) }
{
    match flag {
        Some(text) => text == "true",
        None => false,
    }
}

/// Whether `--quiet` is there.
fn is_quiet(found: &ArgMatches<'_>) -> bool
    ensures { result ≡ is_quiet (rows_of (found_of found.now)) }
{
    is_said(text_of(found, "quiet"))
}

/// `pave ROWS LOG` and `--quiet`.
fn pave_by<'a>(found: &ArgMatches<'a>) -> Option<Command<'a>>
    ensures command { option_map asked result ≡ pave_by (rows_of (found_of found.now)) }
    ensures ranges { IfSome result HasRanges }
{
    let rows = text_of(found, "rows")?;
    let log = text_of(found, "log")?;
    let quiet = is_quiet(found);
    Some(Command::Pave { rows, log, quiet })
}

/// `OBS NAV SETTINGS LOG`, `--from N`, `--to N` and `--station FILE`, with the name of this earlier
/// log.
fn files_by<'a>(found: &ArgMatches<'a>, after: Option<&'a str>) -> Option<Files<'a>>
    ensures files { option_map files_asked result
        ≡ files_by (option_map (λ t. t.now) after.entry) (rows_of (found_of found.now)) }
    ensures ranges { IfSome result (λ files. IsSelection files.selection) }
{
    let obs = text_of(found, "obs")?;
    let nav = text_of(found, "nav")?;
    let settings = text_of(found, "settings")?;
    let log = text_of(found, "log")?;
    let selection = selection_by(text_of(found, "from"), text_of(found, "to"))?;
    let station = text_of(found, "station");
    Some(Files {
        obs,
        nav,
        settings,
        station,
        log,
        after,
        selection,
    })
}

/// The same with `--after FILE`.
fn track_files_by<'a>(found: &ArgMatches<'a>) -> Option<Files<'a>>
    ensures files { option_map files_asked result
        ≡ track_files_by (rows_of (found_of found.now)) }
    ensures ranges { IfSome result (λ files. IsSelection files.selection) }
{
    files_by(found, text_of(found, "after"))
}

/// `solve` with these but an earlier log, and `--quiet`.
fn solve_by<'a>(found: &ArgMatches<'a>) -> Option<Command<'a>>
    ensures command { option_map asked result ≡ solve_by (rows_of (found_of found.now)) }
    ensures ranges { IfSome result HasRanges }
{
    let files = files_by(found, None)?;
    let quiet = is_quiet(found);
    Some(Command::Solve { files, quiet })
}

/// `track` with these, and `--quiet`.
fn track_by<'a>(found: &ArgMatches<'a>) -> Option<Command<'a>>
    ensures command { option_map asked result ≡ track_by (rows_of (found_of found.now)) }
    ensures ranges { IfSome result HasRanges }
{
    let files = track_files_by(found)?;
    let quiet = is_quiet(found);
    Some(Command::Track { files, quiet })
}

/// Whether there is an earlier log and no track, which could go on behind it.
fn is_alone(after: Option<&str>, tracked: bool) -> bool
    ensures { result ≡ is_alone (option_map (λ t. t.now) after.entry) tracked }
{
    match after {
        Some(_) => !tracked,
        None => false,
    }
}

/// `OBS NAV SETTINGS ZONES LOG`, `--from N`, `--to N`, `--station FILE` and `--track`, and with that
/// `--after FILE`.
fn guard_by<'a>(found: &ArgMatches<'a>) -> Option<Command<'a>>
    ensures command { option_map asked result ≡ guard_by (rows_of (found_of found.now)) }
    ensures ranges { IfSome result HasRanges }
{
    let files = track_files_by(found)?;
    let zones = text_of(found, "zones")?;
    let tracked = is_said(text_of(found, "track"));
    if is_alone(files.after, tracked) {
        return None;
    }
    Some(Command::Guard {
        files,
        zones,
        tracked,
    })
}

/// The epochs from `--from N` to `--to N`.
fn selection_by(from: Option<&str>, to: Option<&str>) -> Option<Selection>
    ensures epochs { option_map epochs_asked result
        ≡ epochs_by (option_map (λ t. t.now) from.entry) (option_map (λ t. t.now) to.entry) }
    ensures ranges { IfSome result IsSelection }
{
    let from = epoch_or(1, from)?;
    let to = epoch_or(LAST_EPOCH, to)?;
    Some(Selection { from, to })
}

/// An option's number of an epoch, and where it isn't given another one.
fn epoch_or(otherwise: u32, text: Option<&str>) -> Option<u32>
    requires first { 1 ≤ otherwise }
    requires last { otherwise ≤ LAST_EPOCH }
    ensures number { result ≡ epoch_or otherwise (option_map (λ t. t.now) text.entry) }
    ensures range { IfSome result (λ n. (1 ≤ n) × (n ≤ LAST_EPOCH)) }
{
    match text {
        Some(text) => number_in(text, 1, LAST_EPOCH),
        None => Some(otherwise),
    }
}

/// `make SEED EPOCHS`.
fn make_by<'a>(found: &ArgMatches<'a>) -> Option<Command<'a>>
    ensures command { option_map asked result ≡ make_by (rows_of (found_of found.now)) }
    ensures ranges { IfSome result HasRanges }
{
    let seed = number_in(text_of(found, "seed")?, 0, u32::MAX)?;
    let epochs = number_in(text_of(found, "epochs")?, 1, 240)?;
    Some(Command::Make { seed, epochs })
}
