//! What is printed of made files.

ghost use Rattle.std.specs.Prelude.{◌≡◌, ◌+◌, ◌≤◌, ◌++◌, length, decimal};
ghost use Rattle.cover_run.specs.Making.{made_text};
ghost use Rattle.paving_log.specs.Values.{log_value};
ghost use Rattle.sat_model.specs.Logs.{IsNumbered};
ghost use Rattle.sat_model.specs.Verdicts.{Judged};

use crate::totals::{Kind, total_of, usable_of};
use arrayvec::ArrayString;
use itoa::Buffer;
use paving_log::Log;

/// Two lines, each with its LF.
pub type MadeLines = ArrayString<256>;

/// A text and a number.
fn push_count(lines: &mut MadeLines, text: &str, count: u64)
    requires { length lines.old.bytes + length text.now ≤ 200 }
    ensures pushed { lines.new.bytes ≡ lines.old.bytes ++ (text.now ++ decimal count) }
    ensures length { length lines.new.bytes ≤ length lines.old.bytes + length text.now + 20 }
{
    let mut buffer = Buffer::new();
    lines.push_str(text);
    lines.push_str(buffer.format(count));
}

/// The seed, the number of epochs and what the totals of the log's report add up to.
pub fn made_lines(seed: u32, epochs: u32, log: &Log) -> MadeLines
    requires numbered { IsNumbered (log_value log.now) }
    requires judged { Judged (log_value log.now) }
    ensures { result.bytes ≡ made_text seed epochs (log_value log.now) }
{
    let mut lines = MadeLines::new();
    push_count(&mut lines, "made seed ", u64::from(seed));
    push_count(&mut lines, " epochs ", u64::from(epochs));
    push_count(&mut lines, " satellites ", usable_of(log));
    push_count(&mut lines, "\nboxes in ", total_of(Kind::Inside, log));
    push_count(&mut lines, " edge ", total_of(Kind::Edge, log));
    push_count(&mut lines, " out ", total_of(Kind::Outside, log));
    push_count(&mut lines, " bisections ", total_of(Kind::Splits, log));
    lines.push_str("\n");
    lines
}
