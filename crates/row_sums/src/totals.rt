//! The sum of the forms that a certificate names.

ghost use Rattle.std.specs.Prelude.{◌≡◌, ◌≤◌, ◌↔◌, IsTrue, length, map, drop, All, IsNone, IfSome};
ghost use Rattle.row_pairs.specs.FormValues.{form_value};
ghost use Rattle.sat_model.specs.HalfSpaces.{IsUsableBound, IsUsable, add_terms, empty_sum};
ghost use Rattle.row_sums.specs.SumValues.{sum_value};

use crate::adding::added;
use crate::form_sum::FormSum;
use row_pairs::Form;
use sat_model::Term;

/// 10^30, in um of 1 / S: bounds within this can be added.
const BOUND_LIMIT: i128 = 1_000_000_000_000_000_000_000_000_000_000;

/// Whether a bound can be added.
fn is_usable_bound(bound: i128) -> bool
    ensures { IsTrue result ↔ IsUsableBound bound }
{
    -BOUND_LIMIT <= bound && bound <= BOUND_LIMIT
}

/// Whether both bounds of a form can be.
fn is_usable(form: &Form) -> bool
    ensures { IsTrue result ↔ (IsUsableBound form.now.upper × IsUsableBound form.now.lower) }
{
    is_usable_bound(form.upper) && is_usable_bound(form.lower)
}

/// The sum of the forms at the terms' places, each with its multiplier; none where one of them is
/// missing or can't be added.
pub(crate) fn total(forms: &[Form], terms: &[Term]) -> Option<FormSum>
    requires { length terms.now ≤ 5 }
    ensures none { IsNone result → All (IsUsable (map form_value forms.now)) terms.now → ⊥ }
    ensures usable { IfSome result (λ _. All (IsUsable (map form_value forms.now)) terms.now) }
    ensures value { IfSome result (λ s. sum_value s
        ≡ add_terms (map form_value forms.now) terms.now empty_sum) }
{
    let empty = FormSum {
        count: 0,
        multipliers: 0,
        x: 0,
        y: 0,
        z: 0,
        most: 0,
    };
    total_from(forms, terms, 0, empty)
}

/// The sum with the terms from a place on added to it, on the same terms.
fn total_from(forms: &[Form], terms: &[Term], place: usize, sum: FormSum) -> Option<FormSum>
    requires few { length terms.now ≤ 5 }
    requires within { place ≤ length terms.now }
    requires count { sum.count ≡ place }
    ensures none { IsNone result
        → All (IsUsable (map form_value forms.now)) (drop place terms.now) → ⊥ }
    ensures usable { IfSome result
        (λ _. All (IsUsable (map form_value forms.now)) (drop place terms.now)) }
    ensures value { IfSome result (λ s. sum_value s
        ≡ add_terms (map form_value forms.now) (drop place terms.now) (sum_value sum)) }
{
    if place >= terms.len() {
        return Some(sum);
    }
    let term = terms[place];
    let row = usize::from(term.place);
    if row >= forms.len() {
        return None;
    }
    let form = forms[row];
    if !is_usable(&form) {
        return None;
    }
    total_from(forms, terms, place + 1, added(&sum, &form, term.multiplier))
}
