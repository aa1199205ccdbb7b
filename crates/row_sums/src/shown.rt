//! Whether sums of rows show a half-space, whichever q rows are left out.

ghost use Rattle.std.specs.Prelude.{◌≤◌, ◌↔◌, IsTrue, length, map, All};
ghost use Rattle.grid_model.specs.Boxes.{grid_box};
ghost use Rattle.row_pairs.specs.FormValues.{form_value};
ghost use Rattle.sat_model.specs.HalfSpaces.{IsShownBy, FormsShow, ShowHalfSpace};

use crate::covered::uncovered_choice;
use crate::one_sum::is_shown_by;
use arrayvec::ArrayVec;
use grid_model::Box3;
use row_pairs::{Form, forms_of};
use sat_model::{HalfSpace, Row, RowSum};

/// Whether the sums are a certificate that all but `q` rows are possible at no point of the box that
/// is beyond the half-space: each sum shows it where its own rows are possible, and whichever `q`
/// rows are left out, one sum has all of its rows. It answers for any sums, also of places where no
/// row is. Rows are taken up to 64.
pub fn shows_half_space(rows: &[Row], part: &Box3, q: u8, half: &HalfSpace, sums: &[RowSum]) -> bool
    requires { length rows.now ≤ 64 }
    ensures { IsTrue result
        ↔ ShowHalfSpace rows.now (grid_box part.now) q half.now sums.now }
{
    let forms: ArrayVec<Form, 64> = forms_of(rows, part);
    forms_show(&forms, part, q, half, sums)
}

/// The same by the rows' forms over the box, which serve all half-spaces of an epoch.
pub fn forms_show(forms: &[Form], part: &Box3, q: u8, half: &HalfSpace, sums: &[RowSum]) -> bool
    ensures { IsTrue result ↔ FormsShow (map form_value forms.now) (grid_box part.now) q half.now
        sums.now }
{
    if !are_shown(forms, part, half, sums) {
        return false;
    }
    uncovered_choice(sums, q).is_none()
}

/// Whether each of the sums shows the half-space.
fn are_shown(forms: &[Form], part: &Box3, half: &HalfSpace, sums: &[RowSum]) -> bool
    ensures { IsTrue result
        ↔ All (IsShownBy (map form_value forms.now) (grid_box part.now) half.now) sums.now }
{
    for sum in sums {
        if !is_shown_by(forms, part, half, sum) {
            return false;
        }
    }
    true
}
