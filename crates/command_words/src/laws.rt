//! Laws of the definitions.

ghost use Rattle.std.specs.Prelude.{codes, false, true};
ghost use Rattle.command_words.specs.Commands.{Solve, Check, Track, Retrack};
ghost use Rattle.command_words.specs.Stated.{JudgeIsTaken, PaveIsTaken, FilesAreTaken};
ghost use Rattle.command_words.specs.Stated.{QuietIsTaken, GuardIsTaken, MakeIsTaken};
ghost use Rattle.command_words.specs.Stated.{TakenIsCommand};

/// Words of the stated form ask for their command: its name, its words, of which none begins with a
/// dash, then `--station FILE` where it is given, then, of a track, `--after FILE` where it is given,
/// and then its other options, each at most once.
/// `--quiet` or `--track` may stand between these. Each number is decimal digits in its range.
pub fn stated_words_are_taken()
    ensures judge { JudgeIsTaken }
    ensures pave { PaveIsTaken }
    ensures solve { QuietIsTaken (codes "solve") false Solve }
    ensures check { FilesAreTaken (codes "check") false Check }
    ensures track { QuietIsTaken (codes "track") true Track }
    ensures retrack { FilesAreTaken (codes "retrack") true Retrack }
    ensures guard { GuardIsTaken }
    ensures make { MakeIsTaken }
{}

/// Words that clap takes are those of one of the commands, with a text for each of its words.
/// So none is asked for only where clap doesn't take the words, or by a number.
pub fn taken_words_are_a_command()
    ensures { TakenIsCommand }
{}
