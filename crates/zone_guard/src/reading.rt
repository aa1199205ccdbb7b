//! One line of zones.

ghost use Rattle.std.specs.Prelude.{◌≡◌, ◌+◌, ◌≤◌, [], ◌∷◌, ◌++◌, length, IfSome, IfNone};
ghost use Rattle.std.specs.Prelude.{MatchOption};
ghost use Rattle.log_tokens.specs.Fields.{pos_words};
ghost use Rattle.log_tokens.specs.Words.{words, words_left};
ghost use Rattle.zone_guard.specs.Lines.{ZoneValue, ZoneFits, zone_value, zone_words};
ghost use Rattle.zone_guard.specs.Names.{corner_words, CornersFit};
ghost use Rattle.zone_guard.specs.Text.{lines};

use crate::names::name_of;
use crate::zone::Zone;
use grid_model::Box3;
use log_tokens::{Rest, is_ended, place, word};
use memchr::memchr;

/// The greatest amount of a coordinate, in um.
const FARTHEST: u64 = 10_000_000_000_000;

/// The first line without its LF, and what stands behind that; none where there is no LF.
pub fn line(text: &[u8]) -> Option<(&[u8], &[u8])>
    ensures found { IfSome result (λ found. lines text.now ≡ found.0.now ∷ lines found.1.now) }
    ensures shorter { IfSome result (λ found. length found.1.now + 1 ≤ length text.now) }
    ensures none { IfNone result (lines text.now ≡ text.now ∷ []) }
{
    match memchr(b'\n', text) {
        Some(end) => Some((&text[..end], &text[end + 1..])),
        None => None,
    }
}

/// The box whose corners are the rest of a line.
pub fn box_of(rest: Rest<'_>) -> Option<Box3>
    ensures { MatchOption result
        ((c : ZoneValue) → CornersFit c → words_left rest.entry ≡ corner_words c → ⊥)
        (λ part. words_left rest.entry ≡ pos_words part.lo ++ pos_words part.hi) }
{
    let (lo, rest) = place(rest, FARTHEST)?;
    let (hi, rest) = place(rest, FARTHEST)?;
    if !is_ended(rest) {
        return None;
    }
    if lo.x <= hi.x && lo.y <= hi.y && lo.z <= hi.z {
        Some(Box3 { lo, hi })
    } else {
        None
    }
}

/// The zone whose line this is.
pub fn zone_of(here: &[u8]) -> Option<Zone>
    ensures found { IfSome result (λ z. ZoneFits (zone_value z)
        × (words here.now ≡ zone_words (zone_value z))) }
    ensures none { IfNone result ((z : ZoneValue) → ZoneFits z → words here.now ≡ zone_words z
        → ⊥) }
{
    let (first, rest) = word(Some(here))?;
    if first != b"zone".as_slice() {
        return None;
    }
    let (second, rest) = word(rest)?;
    let name = name_of(second)?;
    let part = box_of(rest)?;
    Some(Zone { name, part })
}
