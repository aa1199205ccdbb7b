//! The command line of the program as `clap` takes it.

ghost use Rattle.std.specs.Prelude.{◌≡◌, IfOk, fold, map};
ghost use Rattle.clap.specs.Simple.{App, app_of};
ghost use Rattle.clap.specs.Walk.{texts};
ghost use Rattle.command_words.specs.Program.{with_word, with_option, with_flag, form_app};
ghost use Rattle.command_words.specs.Program.{with_form, bare, with_command, program};
ghost use Rattle.command_words.specs.Built.{IsCommand, form_seen};

use clap::{Arg, ArgAction, Command};
use std::alloc::{AllocError, Global};

/// A command's name, its required words, and its options, with a text or without.
struct Form<'a> {
    name: &'a str,
    words: &'a [&'a str],
    options: &'a [&'a str],
    flags: &'a [&'a str],
}

/// The words of a command on a receiver's files and its log.
const ON_FILES: &[&str] = &["obs", "nav", "settings", "log"];

/// The options of such a command: the epochs that are taken, and the file of a station.
const OPTIONS: &[&str] = &["from", "to", "station"];

/// The options of a command on the files of a receiver that moves: an earlier log too.
const TRACK_OPTIONS: &[&str] = &["from", "to", "station", "after"];

/// The flag of a command that writes a log and prints its report.
const QUIET: &[&str] = &["quiet"];

/// The commands of the program.
static FORMS: [Form<'static>; 8] = [
    Form {
        name: "judge",
        words: &["log"],
        options: &[],
        flags: &[],
    },
    Form {
        name: "pave",
        words: &["rows", "log"],
        options: &[],
        flags: QUIET,
    },
    Form {
        name: "solve",
        words: ON_FILES,
        options: OPTIONS,
        flags: QUIET,
    },
    Form {
        name: "check",
        words: ON_FILES,
        options: OPTIONS,
        flags: &[],
    },
    Form {
        name: "track",
        words: ON_FILES,
        options: TRACK_OPTIONS,
        flags: QUIET,
    },
    Form {
        name: "retrack",
        words: ON_FILES,
        options: TRACK_OPTIONS,
        flags: &[],
    },
    Form {
        name: "guard",
        words: &["obs", "nav", "settings", "zones", "log"],
        options: TRACK_OPTIONS,
        flags: &["track"],
    },
    Form {
        name: "make",
        words: &["seed", "epochs"],
        options: &[],
        flags: &[],
    },
];

/// One more required word.
fn with_word<'a>(
    alloc: Global,
    command: Command<'a>,
    id: &'a str,
) -> Result<Command<'a>, AllocError>
    ensures { (app : App) → IsCommand command.entry app
        → IfOk result (λ c. IsCommand c (with_word app id.entry.now)) }
{
    let word = Arg::new(alloc, id).required(true);
    command.arg(word)
}

/// One more option of one text.
fn with_option<'a>(
    alloc: Global,
    command: Command<'a>,
    id: &'a str,
) -> Result<Command<'a>, AllocError>
    ensures { (app : App) → IsCommand command.entry app
        → IfOk result (λ c. IsCommand c (with_option app id.entry.now)) }
{
    let option = Arg::new(alloc, id).long(id);
    command.arg(option)
}

/// One more flag, without a text.
fn with_flag<'a>(
    alloc: Global,
    command: Command<'a>,
    id: &'a str,
) -> Result<Command<'a>, AllocError>
    ensures { (app : App) → IsCommand command.entry app
        → IfOk result (λ c. IsCommand c (with_flag app id.entry.now)) }
{
    let flag = Arg::new(alloc, id).long(id).action(ArgAction::SetTrue);
    command.arg(flag)
}

/// The required words of a command, in turn.
fn with_words<'a>(
    alloc: Global,
    mut command: Command<'a>,
    ids: &[&'a str],
) -> Result<Command<'a>, AllocError>
    ensures { (app : App) → IsCommand command.entry app
        → IfOk result (λ c. IsCommand c (fold with_word app (texts ids.now))) }
{
    for id in ids {
        command = with_word(alloc, command, id)?;
    }
    Ok(command)
}

/// The options of a command, in turn.
fn with_options<'a>(
    alloc: Global,
    mut command: Command<'a>,
    ids: &[&'a str],
) -> Result<Command<'a>, AllocError>
    ensures { (app : App) → IsCommand command.entry app
        → IfOk result (λ c. IsCommand c (fold with_option app (texts ids.now))) }
{
    for id in ids {
        command = with_option(alloc, command, id)?;
    }
    Ok(command)
}

/// The flags of a command, in turn.
fn with_flags<'a>(
    alloc: Global,
    mut command: Command<'a>,
    ids: &[&'a str],
) -> Result<Command<'a>, AllocError>
    ensures { (app : App) → IsCommand command.entry app
        → IfOk result (λ c. IsCommand c (fold with_flag app (texts ids.now))) }
{
    for id in ids {
        command = with_flag(alloc, command, id)?;
    }
    Ok(command)
}

/// The command of this form.
fn formed<'a>(alloc: Global, form: &Form<'a>) -> Result<Command<'a>, AllocError>
    ensures { IfOk result (λ c. IsCommand c (form_app (form_seen form.now))) }
{
    let command = Command::new(alloc, form.name);
    let command = with_words(alloc, command, form.words)?;
    let command = with_options(alloc, command, form.options)?;
    with_flags(alloc, command, form.flags)
}

/// The program without its commands. One of them is required, and there are no words for help or
/// for the version.
fn bare<'a>(alloc: Global) -> Command<'a>
    ensures { IsCommand result bare }
{
    Command::new(alloc, "gpscover")
        .no_binary_name(true)
        .disable_help_flag(true)
        .disable_help_subcommand(true)
        .disable_version_flag(true)
        .subcommand_required(true)
}

/// One more command of the program.
// It takes what may have failed, so that its caller holds nothing that it would have to drop.
fn with_command<'a>(
    program: Command<'a>,
    made: Result<Command<'a>, AllocError>,
) -> Result<Command<'a>, AllocError>
    ensures { (app sub : App) → IsCommand program.entry app
        → IfOk made.entry (λ c. IsCommand c sub)
        → IfOk result (λ c. IsCommand c (with_command app sub)) }
{
    let command = made?;
    program.subcommand(command)
}

/// The commands of these forms, in turn.
fn with_forms<'a>(
    alloc: Global,
    mut program: Command<'a>,
    forms: &[Form<'a>],
) -> Result<Command<'a>, AllocError>
    ensures { (app : App) → IsCommand program.entry app
        → IfOk result (λ c. IsCommand c (fold with_form app (map form_seen forms.now))) }
{
    for form in forms {
        program = with_command(program, formed(alloc, form))?;
    }
    Ok(program)
}

/// The program with all commands.
pub(crate) fn program<'a>(alloc: Global) -> Result<Command<'a>, AllocError>
    ensures app { IfOk result (λ c. app_of c ≡ program) }
{
    with_forms(alloc, bare(alloc), FORMS.as_slice())
}
