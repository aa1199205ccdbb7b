//! What bounds leave of the hull of the kept boxes, and the forms by which the next one is shown there.

ghost use Rattle.std.specs.Prelude.{◌≡◌, ◌≤◌, length, map};
ghost use Rattle.grid_model.specs.Boxes.{grid_box};
ghost use Rattle.row_pairs.specs.FormValues.{form_value};
ghost use Rattle.sat_model.specs.MovedFaces.{box_under};
ghost use Rattle.log_writer.specs.Found.{AreFormsOver};
ghost use Rattle.log_writer.specs.InUse.{rows_value};

use crate::in_use::NewRows;
use arrayvec::ArrayVec;
use grid_model::Box3;
use row_pairs::{Form, forms_of};
use sat_model::{HalfSpace, Row};
use subpaving::{box_under, lies_in};

/// The forms over a hull of the rows in use at the end, where it lies in their box, and else of the first
/// ones.
fn forms_over(first: &[Row], used: &NewRows, hull: &Box3) -> ArrayVec<Form, 64>
    requires { length first.now ≤ 64 }
    ensures { AreFormsOver first.now (rows_value used.now) (grid_box hull.now)
        (map form_value result.items) }
{
    if lies_in(hull, &used.part) {
        forms_of(used.as_slice(), hull)
    } else {
        forms_of(first, hull)
    }
}

/// What bounds leave of the hull of the kept boxes, and the forms of the rows that show bounds there.
#[derive(Drop)]
pub(crate) struct Left {
    pub hull: Box3,
    pub forms: ArrayVec<Form, 64>,
}

impl Left {
    /// All of the hull.
    pub fn all(first: &[Row], used: &NewRows, hull: Box3) -> Left
        requires { length first.now ≤ 64 }
        ensures hull { result.hull ≡ hull }
        ensures forms { AreFormsOver first.now (rows_value used.now) (grid_box result.hull)
            (map form_value result.forms.items) }
    {
        let forms = forms_over(first, used, &hull);
        Left { hull, forms }
    }

    /// What one more bound leaves. The forms stay where it moves no face.
    pub fn narrow(&mut self, first: &[Row], used: &NewRows, half: &HalfSpace)
        requires few { length first.now ≤ 64 }
        requires forms { AreFormsOver first.now (rows_value used.now) (grid_box self.old.hull)
            (map form_value self.old.forms.items) }
        ensures hull { grid_box self.new.hull ≡ box_under half.now (grid_box self.old.hull) }
        ensures forms { AreFormsOver first.now (rows_value used.now) (grid_box self.new.hull)
            (map form_value self.new.forms.items) }
    {
        let hull = box_under(half, &self.hull);
        if hull == self.hull {
            return;
        }
        *self = Left::all(first, used, hull);
    }
}
