//! The lines of the second form of a file.

ghost use Rattle.std.specs.Prelude.{◌≡◌, ℕ, ◌∷◌, [], ◌++◌, List, IfSome, IfNone};
ghost use Rattle.std.specs.Fmt.{decimal};
ghost use Rattle.grid_model.specs.declared.boxes.Pos.{Pos};
ghost use Rattle.log_tokens.specs.Fields.{pos_words, IsCountFromTo};
ghost use Rattle.log_tokens.specs.Words.{words, words_left};
ghost use Rattle.zone_guard.specs.Planes.{PlaneValue, plane_value};
ghost use Rattle.zone_guard.specs.Watched.{Kind, KindFits, kind_word, kind_words, Named, LineFits};
ghost use Rattle.zone_guard.specs.Watched.{line_words, IsDirection, IsSide, Side};
ghost use Rattle.zone_guard.specs.WatchValues.{kind_value, opening_line};

use crate::names::name_of;
use crate::numbers::limit_of;
use crate::opening::{Opening, OpeningKind};
use crate::pieces::Sizes;
use crate::planes::{Direction, HalfSpace};
use crate::reading::box_of;
use log_tokens::{Rest, count, is_ended, place, word};

/// The greatest amount of a coordinate of a direction: 2^20.
const LONGEST: u64 = 1_048_576;

/// The most pieces of a group.
const MOST_PIECES: u32 = 64;

/// The most sides of a prism, and of a piece.
const MOST_SIDES: u32 = 16;

/// A direction at the front of the rest, and what is left after it.
fn direction(rest: Rest<'_>) -> Option<(Direction, Rest<'_>)>
    ensures found { IfSome result (λ found. IsDirection found.0.vector
        × (words_left rest.entry ≡ pos_words found.0.vector ++ words_left found.1)) }
    ensures none { IfNone result ((a : Pos) (after : List (List ℕ)) → IsDirection a
        → words_left rest.entry ≡ pos_words a ++ after → ⊥) }
{
    let (vector, rest) = place(rest, LONGEST)?;
    if vector.x == 0 && vector.y == 0 && vector.z == 0 {
        return None;
    }
    Some((Direction { vector }, rest))
}

/// The direction that is the rest of a line.
fn reach_of(rest: Rest<'_>) -> Option<Direction>
    ensures found { IfSome result (λ a. IsDirection a.vector × (words_left rest.entry
        ≡ pos_words a.vector)) }
    ensures none { IfNone result ((a : Pos) → IsDirection a → words_left rest.entry ≡ pos_words a
        → ⊥) }
{
    let (along, rest) = direction(rest)?;
    if !is_ended(rest) {
        return None;
    }
    Some(along)
}

/// The number of sides that is the rest of a line.
fn sides_of(rest: Rest<'_>) -> Option<u32>
    ensures found { IfSome result (λ n. IsCountFromTo 1 16 n × (words_left rest.entry
        ≡ decimal n ∷ [])) }
    ensures none { IfNone result ((n : ℕ) → IsCountFromTo 1 16 n
        → words_left rest.entry ≡ decimal n ∷ [] → ⊥) }
{
    let (sides, rest) = count(rest, 1, MOST_SIDES)?;
    if !is_ended(rest) {
        return None;
    }
    Some(sides)
}

/// The numbers of pieces and of the sides of each that are the rest of a line.
fn sizes_of(rest: Rest<'_>) -> Option<Sizes>
    ensures found { IfSome result (λ s. words_left rest.entry ≡ decimal s.pieces ∷ decimal s.each
        ∷ []) }
    ensures none { IfNone result ((m k : ℕ) → IsCountFromTo 1 64 m → IsCountFromTo 1 16 k
        → words_left rest.entry ≡ decimal m ∷ decimal k ∷ [] → ⊥) }
{
    let (pieces, rest) = count(rest, 1, MOST_PIECES)?;
    let (each, rest) = count(rest, 1, MOST_SIDES)?;
    if !is_ended(rest) {
        return None;
    }
    Some(Sizes { pieces, each })
}

/// The first word and what stands behind the name of a line.
fn kind_of(first: &[u8], rest: Rest<'_>) -> Option<OpeningKind>
    ensures found { IfSome result (λ k. KindFits (kind_value k)
        × (first.now ≡ kind_word (kind_value k)) × (words_left rest.entry
        ≡ kind_words (kind_value k))) }
    ensures none { IfNone result ((k : Kind) → KindFits k → first.now ≡ kind_word k
        → words_left rest.entry ≡ kind_words k → ⊥) }
{
    if first == b"zone".as_slice() {
        let part = box_of(rest)?;
        return Some(OpeningKind::Box(part));
    }
    if first == b"prism".as_slice() {
        let count = sides_of(rest)?;
        return Some(OpeningKind::Prism(count));
    }
    if first == b"group".as_slice() {
        let sizes = sizes_of(rest)?;
        return Some(OpeningKind::Group(sizes));
    }
    if first == b"reach".as_slice() {
        let along = reach_of(rest)?;
        return Some(OpeningKind::Reach(along));
    }
    None
}

/// The line with a name that this is.
pub fn opening_of(here: &[u8]) -> Option<Opening>
    ensures found { IfSome result (λ o. LineFits (opening_line o)
        × (words here.now ≡ line_words (opening_line o))) }
    ensures none { IfNone result ((name : List ℕ) (kind : Kind) → LineFits (Named name kind)
        → words here.now ≡ line_words (Named name kind) → ⊥) }
{
    let (first, rest) = word(Some(here))?;
    let (second, rest) = word(rest)?;
    let name = name_of(second)?;
    let kind = kind_of(first, rest)?;
    Some(Opening { name, kind })
}

/// The half-space whose line this is.
pub fn side_of(here: &[u8]) -> Option<HalfSpace>
    ensures found { IfSome result (λ s. IsSide (plane_value s)
        × (words here.now ≡ line_words (Side (plane_value s)))) }
    ensures none { IfNone result ((s : PlaneValue) → IsSide s
        → words here.now ≡ line_words (Side s) → ⊥) }
{
    let (first, rest) = word(Some(here))?;
    if first != b"side".as_slice() {
        return None;
    }
    let (along, rest) = direction(rest)?;
    let (last, rest) = word(rest)?;
    let most = limit_of(last)?;
    if !is_ended(rest) {
        return None;
    }
    Some(HalfSpace { along, most })
}
