//! The epochs that are asked for.

ghost use Rattle.std.specs.Prelude.{◌≡◌};
ghost use Rattle.command_words.specs.Seen.{files_asked};
ghost use Rattle.cover_run.specs.Chosen.{chosen_in};

use command_words::Files;
use epoch_selection::Selection;

/// The epochs of the file from `--from N` to `--to N`.
pub fn chosen_in(words: &Files<'_>) -> Selection
    ensures { result ≡ chosen_in (files_asked words.now) }
{
    Selection {
        from: words.selection.from,
        to: words.selection.to,
    }
}
