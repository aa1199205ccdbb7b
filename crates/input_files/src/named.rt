//! A file that the words name for reading.

ghost use Rattle.std.specs.Prelude.{◌≡◌, ◌≤◌, ◌<◌, ℕ, [], ◌∷◌, true, false, length, Err, IfOk};
ghost use Rattle.std.specs.Prelude.{IfErr};
ghost use Rattle.input_files.specs.Reading.{Named, Found, IsCounted, OnlyReads, Touches, limit_of};
ghost use Rattle.input_files.specs.Reading.{valued};
ghost use Rattle.input_files.specs.Roles.{slot_of};
ghost use Rattle.outer_io.specs.Sizes.{longest_file};
ghost use Rattle.input_files.specs.Unread.{HasFile, IsUnread};
ghost use Rattle.input_files.specs.declared.notice.Notice.{Notice};
ghost use Rattle.outer_io.specs.Told.{is_missing};

use crate::grammar::Grammar;
use crate::limits::Limits;
use crate::notice::Notice;
use crate::role::Role;
use outer_io::{Shelf, read_all};
use std::alloc::Global;

/// The bytes of the named file, at most as many as its limit.
fn read_file<H: Shelf>(
    alloc: Global,
    limits: &Limits,
    name: &str,
    role: Role,
    shelf: &mut H,
) -> Result<Vec<u8>, Notice>
    ensures whole { IfOk result (λ all.
        HasFile (H.state shelf.old) name.now (λ bytes. all.items ≡ bytes)) }
    ensures within { IfOk result (λ all. length all.items ≤ limit_of limits.now role) }
    ensures short { IfOk result (λ all. length all.items ≤ longest_file) }
    ensures refusals { IfErr result (IsUnread role (limit_of limits.now role)) }
    ensures too_long { (most : ℕ) → result ≡ Err (Notice.TooLong role most)
        → HasFile (H.state shelf.old) name.now (λ bytes. limit_of limits.now role < length bytes) }

    // When a read fails.
    ensures missing { is_missing (H.state shelf.old) name.now ≡ true
        → result ≡ Err (Notice.ReadFault role) }
    ensures fault { result ≡ Err (Notice.ReadFault role)
        → is_missing (H.state shelf.old) name.now ≡ false
        → IsCounted (H.state shelf.old) (H.state shelf.new) (H.reliable shelf.new) }
    ensures touches { Touches (slot_of role) name.now (H.state shelf.old) (H.state shelf.new) }
{
    let slot = role.slot();
    match shelf.begin(name, slot) {
        Ok(()) => {}
        Err(_) => return Err(Notice::ReadFault { role }),
    }
    match read_all(alloc, shelf, slot, limits.of(role)) {
        Ok(all) => Ok(all),
        Err(refusal) => Err(Notice::of_read(role, refusal)),
    }
}

/// What the named file spells.
pub fn read_named<H: Shelf, V, G: Grammar<V>>(
    alloc: Global,
    limits: &Limits,
    name: &str,
    grammar: &G,
    shelf: &mut H,
) -> Result<V, Notice>
    ensures found { Found (Named limits.now (G.text grammar.now) name.now)
        (H.state shelf.old) (H.state shelf.new) (H.reliable shelf.new)
        (valued (G.text grammar.now).value result) }
    ensures usual { IfOk result (G.text grammar.now).Usual }
    ensures only { OnlyReads ((slot_of (G.text grammar.now).role, name.now) ∷ [])
        (H.state shelf.old) (H.state shelf.new) result }
{
    let bytes = read_file(alloc, limits, name, grammar.role(), shelf)?;
    grammar.read(alloc, bytes)
}
