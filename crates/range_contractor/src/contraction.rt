//! Contracting a box by a tree.

ghost use Rattle.std.specs.Prelude.{option_map, Some, IsTrue};
ghost use Rattle.grid_model.specs.Boxes.{grid_box, span_side};
ghost use Rattle.sat_model.specs.Trees.{IsWellFormed, HasSoundNodes, HaveSoundNodes, Relaxed};
ghost use Rattle.sat_model.specs.Trees.{Again};
ghost use Rattle.sat_model.specs.Contractors.{IsMeet};
ghost use Rattle.sat_model.specs.Proposals.{IsTied, InTurn, IsProposal};
ghost use Rattle.range_contractor.specs.Views.{tree_value, tree_values};

use crate::boxes::{box_of, is_all, side_of};
use crate::hulls::{Sides, add_sides, hull_box};
use crate::leaf::leaf_part;
use crate::meets::meet;
use crate::tree::Tree;
use fix_interval::Interval;
use grid_model::{Box3, Span};

/// The numbers that both boxes have.
fn meet_of(part: &Box3, other: &Box3) -> Option<Box3>
    ensures { IsMeet (grid_box other.now) (grid_box part.now) (option_map grid_box result) }
{
    let Some(x) = meet(&side_of(part, 0), &side_of(other, 0)) else {
        return None;
    };
    let Some(y) = meet(&side_of(part, 1), &side_of(other, 1)) else {
        return None;
    };
    let Some(z) = meet(&side_of(part, 2), &side_of(other, 2)) else {
        return None;
    };
    Some(box_of(&x, &y, &z))
}

/// What is left of the box when the trees contract it one after the other.
#[cycle(contraction)]
fn in_turn<I: Interval>(kids: &[Tree<I>], part: &Box3, clock: &Span) -> Option<Box3>
    requires { HaveSoundNodes (tree_values I.low I.high kids.now) }
    ensures { InTurn (tree_values I.low I.high kids.now) I.GRAIN I.SLACK (span_side clock.now)
        (grid_box part.now) (option_map grid_box result) }
{
    let mut left = *part;
    for kid in kids {
        match contraction(kid, &left, clock) {
            Some(kept) => left = kept,
            None => return None,
        }
    }
    Some(left)
}

/// What is left of the box when the tree contracts it so many times. A round that leaves all of it
/// is the last one that can do anything.
#[cycle(contraction)]
fn again<I: Interval>(rounds: u8, kid: &Tree<I>, part: &Box3, clock: &Span) -> Option<Box3>
    requires { HasSoundNodes (tree_value I.low I.high kid.now) }
    ensures { IsTied (Again rounds (tree_value I.low I.high kid.now)) I.GRAIN I.SLACK
        (span_side clock.now) (grid_box part.now) (option_map grid_box result) }
{
    let mut left = *part;
    for round in 0..rounds {
        let Some(kept) = contraction(kid, &left, clock) else {
            return None;
        };
        if kept == left {
            return Some(left);
        }
        left = kept;
    }
    Some(left)
}

/// Whether all but at most `q` of the trees leave all of the box.
#[cycle(contraction)]
fn most_leave_all<I: Interval>(q: u8, kids: &[Tree<I>], part: &Box3, clock: &Span) -> bool
    requires { HasSoundNodes (Relaxed q (tree_values I.low I.high kids.now)) }
    ensures { IsTrue result → IsTied (Relaxed q (tree_values I.low I.high kids.now)) I.GRAIN
        I.SLACK (span_side clock.now) (grid_box part.now) (Some (grid_box part.now)) }
{
    let mut smaller: u8 = 0;
    for kid in kids {
        if !is_all(&contraction(kid, part, clock), part) {
            if smaller == q {
                return false;
            }
            smaller += 1;
        }
    }
    true
}

/// The hull, on each axis, of what all but at most `q` of the trees leave of the box's side. Most
/// often that is the whole side, which takes no hull to see.
#[cycle(contraction)]
fn relaxed_part<I: Interval>(q: u8, kids: &[Tree<I>], part: &Box3, clock: &Span) -> Option<Box3>
    requires { HasSoundNodes (Relaxed q (tree_values I.low I.high kids.now)) }
    ensures { IsTied (Relaxed q (tree_values I.low I.high kids.now)) I.GRAIN I.SLACK
        (span_side clock.now) (grid_box part.now) (option_map grid_box result) }
{
    if most_leave_all(q, kids, part, clock) {
        return Some(*part);
    }
    let mut x = Sides::new();
    let mut y = Sides::new();
    let mut z = Sides::new();
    for kid in kids {
        add_sides(contraction(kid, part, clock), &mut x, &mut y, &mut z);
    }
    hull_box(&x, &y, &z, part, kids.len() as u8 - q)
}

/// What is left of the box.
#[cycle(contraction)]
fn contraction<I: Interval>(tree: &Tree<I>, part: &Box3, clock: &Span) -> Option<Box3>
    requires { HasSoundNodes (tree_value I.low I.high tree.now) }
    ensures { IsTied (tree_value I.low I.high tree.now) I.GRAIN I.SLACK (span_side clock.now)
        (grid_box part.now) (option_map grid_box result) }
{
    match tree {
        Tree::Sat(leaf) => leaf_part(leaf, part, clock),
        Tree::All(kids) => in_turn(kids, part, clock),
        Tree::Relaxed { q, kids } => relaxed_part(*q, kids, part, clock),
        Tree::Again { rounds, kid } => again(*rounds, kid, part, clock),
        Tree::Within(other) => meet_of(part, other),
    }
}

/// A proposal of the tree for a box and a span of clock offsets in um: a part of the box that holds
/// each of its points that the tree allows with some offset of the span, as small as the kinds of
/// tree demand. None comes only where there is no such point.
pub fn contract<I: Interval>(tree: &Tree<I>, part: &Box3, clock: Span) -> Option<Box3>
    requires { IsWellFormed (tree_value I.low I.high tree.now) }
    ensures { IsProposal I.GRAIN I.SLACK (tree_value I.low I.high tree.now)
        (span_side clock) (grid_box part.now) (option_map grid_box result) }
{
    contraction(tree, part, &clock)
}
