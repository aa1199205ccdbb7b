//! What the texts of files stand for.

ghost use Rattle.std.specs.Prelude.{◌≡◌, ◌≤◌, Result, IfOk, length};
ghost use Rattle.input_files.specs.Reading.{Text, Gives, GivesOrEnds, Settles, valued};
ghost use Rattle.outer_io.specs.Sizes.{longest_file};
ghost use Rattle.input_files.specs.declared.notice.Notice.{Notice};

use crate::notice::Notice;
use crate::role::Role;
use std::alloc::Global;

/// How texts of one kind are read.
pub trait Grammar<V> {
    /// What they stand for.
    ghost text: { Self → Text V };

    /// What such files are read for.
    fn role(&self) -> Role
        ensures { result ≡ (text self.now).role };

    /// The value that a text spells, or its first fault. A value may keep the text.
    fn read(&self, alloc: Global, bytes: Vec<u8>) -> Result<V, Notice>
        requires { length bytes.items ≤ longest_file }
        ensures gives { GivesOrEnds (text self.now) bytes.items
            (valued (text self.now).value result) }
        ensures same { (other : Result (text self.now).Value Notice)
            → Gives (text self.now) bytes.items other
            → Settles (valued (text self.now).value result) other }
        ensures usual { IfOk result (text self.now).Usual };
}
