//! The boxes of an epoch that no step has closed yet.

ghost use Rattle.std.specs.Prelude.{◌≡◌, ◌≢◌, ◌≤◌, ◌<◌, ◌*◌, ◌/◌, ◌%◌, ℕ, length, Some, None, false};
ghost use Rattle.std.specs.Prelude.{◌↔◌, IsTrue, IfOk, OnOk, OnErr, MatchOption, Option};
ghost use Rattle.std.specs.Prelude.{slice_index_or};
ghost use Rattle.grid_model.specs.declared.boxes.Box3.{Box3};
ghost use Rattle.sat_model.specs.declared.steps.Step.TheVariants.{Cut, Split, Outside};
ghost use Rattle.grid_model.specs.Boxes.{GridBox, grid_box, IsInside};
ghost use Rattle.sat_model.specs.Fold.{first_boxes, live_box, IsLive, NoneLive, boxes_after};
ghost use Rattle.sat_model.specs.Renewals.{HoldsLive};
ghost use Rattle.subpaving.specs.Groups.{AreGrouped, AreWider, HasBeyond, Holds, IsBoundOf, IsIn};
ghost use Rattle.subpaving.specs.Groups.{LiesIn};

use crate::cuts::left_by;
use crate::inside::lies_in;
use grid_model::Box3;
use sat_model::Step;
use std::alloc::{AllocError, Global};

/// How many numbers make a group.
const GROUP: usize = 512;

/// The hull of what a bound holds and of a box.
fn joined(bound: Option<Box3>, part: &Box3) -> Box3
    ensures wider { (other : Box3) → Holds bound other → LiesIn other result }
    ensures inside { LiesIn part.now result }
{
    match bound {
        Some(bound) => bound.hull(part),
        None => *part,
    }
}

/// The boxes by their numbers, none in place of a closed one. The root has number 0, and each split
/// gives the next two.
///
/// `bounds` has for each group of 512 numbers a box that holds its live boxes, or none where none
/// of them is live. A step makes boxes smaller, so such a box stays right, and is formed anew only
/// where rows are to be renewed over a box that doesn't hold it: each step lets a group be looked
/// through once at most.
#[derive(Debug, Drop)]
pub struct Live {
    boxes: Vec<Option<Box3>>,
    bounds: Vec<Option<Box3>>,
    ghost odd: { length boxes.items % 2 ≡ 1 },
    ghost enough: { length boxes.items ≤ 512 * length bounds.items },
    ghost grouped: { AreGrouped boxes.items bounds.items },
}

impl Live {
    ghost use Rattle.subpaving.specs.LiveValues.{box_option, live_value};
    ghost use Rattle.subpaving.specs.Folding.{HasLive, StepFolds};

    /// The root alone is live.
    pub fn of_root(alloc: Global, root: &Box3) -> Result<Live, AllocError>
        ensures { IfOk result (λ live. live_value live ≡ first_boxes (grid_box root.now)) }
    {
        let mut boxes = Vec::new(alloc);
        boxes.push(Some(*root))?;
        let mut bounds = Vec::new(alloc);
        bounds.push(Some(*root))?;
        Ok(Live { boxes, bounds })
    }

    /// The live box of a number.
    pub fn box_of(&self, id: u32) -> Option<Box3>
        ensures { box_option result ≡ live_box (live_value self.now) id }
    {
        match self.boxes.get(id as usize) {
            Some(found) => *found,
            None => None,
        }
    }

    /// How many splits were made.
    pub fn splits(&self) -> usize
        ensures { result ≡ (live_value self.now).splits }
    {
        self.boxes.len() / 2
    }

    /// Whether no box is live.
    pub fn is_none_live(&self) -> bool
        ensures yes { IsTrue result → NoneLive (live_value self.now) }
        ensures no { (result ≡ false) → (id : ℕ) × (live_box (live_value self.now) id ≢ None) }
    {
        for found in &self.boxes {
            match found {
                Some(_) => return false,
                None => {}
            }
        }
        true
    }

    /// Whether rows may be renewed over a box: it lies in the root, and each live box lies in it.
    pub fn may_renew(&mut self, root: &Box3, part: &Box3) -> bool
        ensures same { live_value self.new ≡ live_value self.old }
        ensures holds { IsTrue result
            ↔ HoldsLive (grid_box root.now) (live_value self.old) (grid_box part.now) }
    {
        lies_in(part, root) && self.all_inside(part)
    }

    /// Whether each live box lies in this one.
    fn all_inside(&mut self, whole: &Box3) -> bool
        ensures same { self.new.boxes.items ≡ self.old.boxes.items }
        ensures yes { IsTrue result → (id : ℕ) (live : GridBox) → IsLive (live_value self.old) id live
            → IsInside live (grid_box whole.now) }
        ensures no { (result ≡ false) → (id : ℕ) × (live : GridBox)
            × IsLive (live_value self.old) id live × (IsInside live (grid_box whole.now) → ⊥) }
    {
        let groups = self.boxes.len().div_ceil(GROUP);
        'groups: for group in 0..groups {
            if !self.is_group_inside(group, whole) {
                return false;
            }
        }
        true
    }

    /// Whether each live box of a group lies in this one. Where that has to be looked up, what
    /// bounds the group becomes their hull.
    fn is_group_inside(&mut self, group: usize, whole: &Box3) -> bool
        requires { group * 512 < length self.old.boxes.items }
        ensures same { self.new.boxes.items ≡ self.old.boxes.items }
        ensures yes { IsTrue result → (id : ℕ) → id / 512 ≡ group
            → IsIn whole.now self.old.boxes.items id }
        ensures no { (result ≡ false) → HasBeyond whole.now self.old.boxes.items }
    {
        let Some(bound) = self.bounds[group] else {
            return true;
        };
        if lies_in(&bound, whole) {
            return true;
        }
        let from = group * GROUP;
        let to = self.boxes.len().min(from + GROUP);
        let Some(hull) = self.hull_within(from, to, whole) else {
            return false;
        };
        self.bounds[group] = hull;
        true
    }

    /// The hull of the live boxes from one number up to another, which is none where none of them
    /// is live. It isn't given where one of them doesn't lie in this box.
    fn hull_within(&self, from: usize, to: usize, whole: &Box3) -> Option<Option<Box3>>
        requires { to ≤ length self.now.boxes.items }
        ensures { MatchOption result
            (HasBeyond whole.now self.now.boxes.items)
            (λ hull. (id : ℕ) → from ≤ id → id < to → IsIn whole.now self.now.boxes.items id
            × IsBoundOf hull self.now.boxes.items id) }
    {
        let mut hull = None;
        'places: for place in from..to {
            let Some(part) = self.boxes[place] else {
                continue;
            };
            if !lies_in(&part, whole) {
                return None;
            }
            hull = Some(joined(hull, &part));
        }
        Some(hull)
    }

    /// Takes a step: a cut leaves a part of its box, a split closes its box and opens the two
    /// halves, and each other step closes its box. Where memory runs out the boxes are as they
    /// were.
    pub fn take(&mut self, step: &Step) -> Result<(), AllocError>
        requires { StepFolds (live_value self.old) step.now }
        ensures ok { OnOk result
            (live_value self.new ≡ boxes_after (live_value self.old) step.now) }
        ensures err { OnErr result (live_value self.new ≡ live_value self.old) }
    {
        match step {
            Step::Cut { id, face, bound } => {
                self.cut(*id, *face, *bound);
                Ok(())
            }
            Step::Split { id, axis } => self.split(*id, *axis),
            Step::Outside { id } | Step::Inside { id, .. } | Step::Edge { id, .. } => {
                self.close(*id);
                Ok(())
            }
        }
    }

    /// The live box of a number that has one.
    fn part_of(&self, id: u32) -> Box3
        requires { HasLive (live_value self.now) id }
        ensures { live_box (live_value self.now) id ≡ Some (grid_box result) }
    {
        self.box_of(id).unwrap()
    }

    fn cut(&mut self, id: u32, face: u8, bound: i64)
        requires { StepFolds (live_value self.old) (Cut id face bound) }
        ensures { live_value self.new ≡ boxes_after (live_value self.old) (Cut id face bound) }
    {
        let part = self.part_of(id);
        self.boxes[id as usize] = Some(left_by(&part, face, bound));
    }

    fn split(&mut self, id: u32, axis: u8) -> Result<(), AllocError>
        requires { StepFolds (live_value self.old) (Split id axis) }
        ensures ok { OnOk result
            (live_value self.new ≡ boxes_after (live_value self.old) (Split id axis)) }
        ensures err { OnErr result (live_value self.new ≡ live_value self.old) }
    {
        let part = self.part_of(id);
        let (low, high) = part.halves(axis);
        let place = self.boxes.len();
        self.widen(place, &part)?;
        self.widen(place + 1, &part)?;
        self.boxes.extend_from_slice(&[Some(low), Some(high)])?;
        self.boxes[id as usize] = None;
        Ok(())
    }

    /// Makes what bounds the group of a number hold this box too.
    fn widen(&mut self, id: usize, part: &Box3) -> Result<(), AllocError>
        requires { id / 512 ≤ length self.old.bounds.items }
        ensures same { self.new.boxes.items ≡ self.old.boxes.items }
        ensures wider { AreWider self.old.bounds.items self.new.bounds.items }
        ensures there { OnOk result (id / 512 < length self.new.bounds.items) }
        ensures holds { OnOk result
            (Holds (slice_index_or self.new.bounds.items (id / 512) None) part.now) }
    {
        let group = id / GROUP;
        if group == self.bounds.len() {
            self.bounds.push(Some(*part))?;
        } else {
            self.bounds[group] = Some(joined(self.bounds[group], part));
        }
        Ok(())
    }

    fn close(&mut self, id: u32)
        requires { HasLive (live_value self.old) id }
        ensures { live_value self.new ≡ boxes_after (live_value self.old) (Outside id) }
    {
        self.boxes[id as usize] = None;
    }
}
