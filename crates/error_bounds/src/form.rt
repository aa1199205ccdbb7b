//! What a value has to be. Lengths stand in mm in the text, and are read in um.

ghost use Rattle.std.specs.Prelude.{◌≡◌, ◌≤◌, Result, IfOk, is_some, pos, [], ◌∷◌, ◌≤ℤ◌, ◌*◌};
ghost use Rattle.toml.specs.Data.{Data, as_integer};
ghost use Rattle.toml.specs.View.{view, items_view};
ghost use Rattle.error_bounds.specs.Forms.{all_members, count, length_from, truth, truth_with, errors, ends_of, is_within, um};
ghost use Rattle.error_bounds.specs.Sizes.{IsSpanWithin};
ghost use Rattle.error_bounds.specs.Reading.{ends_in};
ghost use Rattle.error_bounds.specs.declared.fault.Fault.{Fault};

use crate::fault::Fault;
use grid_model::Span;
use toml::Value;

/// What a value has to be, and what is read from it.
pub trait Form {
    type Output;

    // What is read from a value.
    ghost reads: { Self → Data → Result Self.Output Fault → Type 0 };

    // The size that is kept.
    ghost allows: { Self → Self.Output → Type 0 };

    fn read(&self, value: &Value) -> Result<Self::Output, Fault>
        ensures value { reads self.now (view value.now) result }
        ensures allowed { IfOk result (allows self.now) };
}

/// A whole number from `lo` to `hi`.
#[derive(Clone, Copy)]
pub struct Count {
    pub lo: u32,
    pub hi: u32,
}

/// A length from `lo` to `hi` mm, read in um.
#[derive(Clone, Copy)]
pub struct Length {
    pub lo: u32,
    pub hi: u32,
}

/// A truth value.
#[derive(Clone, Copy)]
pub struct Truth;

/// A truth value that may be there only where what it speaks of is declared.
#[derive(Clone, Copy)]
pub struct TruthWith {
    pub declared: bool,
}

/// A span of errors, `[lo, hi]` in mm with amounts of at most `most`, read in um.
#[derive(Clone, Copy)]
pub struct Errors {
    pub most: u32,
}

/// What is declared of one kind of error, or of one satellite's: within 1 km.
pub const DECLARED: Errors = Errors { most: 1_000_000 };

impl Form for Count {
    type Output = u32;

    ghost reads = { λ form d r. r ≡ count form.lo form.hi d };

    ghost allows = { λ form n. (form.lo ≤ n) × (n ≤ form.hi) };

    fn read(&self, value: &Value) -> Result<u32, Fault> {
        let Some(n) = value.as_integer() else {
            return Err(Fault::WrongKind);
        };
        if (self.lo as i64) <= n && n <= (self.hi as i64) {
            Ok(n as u32)
        } else {
            Err(Fault::Outside)
        }
    }
}

impl Form for Length {
    type Output = i64;

    ghost reads = { λ form d r. r ≡ length_from form.lo form.hi d };

    ghost allows = { λ form z. (um (pos form.lo) ≤ℤ z) × (z ≤ℤ um (pos form.hi)) };

    fn read(&self, value: &Value) -> Result<i64, Fault> {
        let Some(n) = value.as_integer() else {
            return Err(Fault::WrongKind);
        };
        if (self.lo as i64) <= n && n <= (self.hi as i64) {
            Ok(n * 1_000)
        } else {
            Err(Fault::Outside)
        }
    }
}

impl Form for Truth {
    type Output = bool;

    ghost reads = { λ form d r. r ≡ truth d };

    ghost allows = { λ form b. Unit {0} };

    fn read(&self, value: &Value) -> Result<bool, Fault> {
        match value.as_bool() {
            Some(b) => Ok(b),
            None => Err(Fault::WrongKind),
        }
    }
}

impl Form for TruthWith {
    type Output = bool;

    ghost reads = { λ form d r. r ≡ truth_with form.declared d };

    ghost allows = { λ form b. Unit {0} };

    fn read(&self, value: &Value) -> Result<bool, Fault> {
        match value.as_bool() {
            Some(b) if self.declared => Ok(b),
            Some(_) => Err(Fault::Outside),
            None => Err(Fault::WrongKind),
        }
    }
}

impl Form for Errors {
    type Output = Span;

    ghost reads = { λ form d r. ends_in r ≡ errors form.most d };

    ghost allows = { λ form s. IsSpanWithin (1000 * form.most) s };

    fn read(&self, value: &Value) -> Result<Span, Fault> {
        let Some(items) = value.as_array() else {
            return Err(Fault::WrongKind);
        };
        if !are_integers(items) {
            return Err(Fault::WrongKind);
        }
        let [lo, hi] = items.as_slice() else {
            return Err(Fault::Outside);
        };
        match (lo.as_integer(), hi.as_integer()) {
            (Some(lo), Some(hi)) => span_of(self.most, lo, hi),
            _ => Err(Fault::WrongKind),
        }
    }
}

/// The span of errors with these ends in mm, amounts of at most `most`.
fn span_of(most: u32, lo: i64, hi: i64) -> Result<Span, Fault>
    ensures value { ends_in result ≡ ends_of most (lo ∷ hi ∷ []) }
    ensures within { IfOk result (IsSpanWithin (1000 * most)) }
{
    if is_within(most as u64, lo) && is_within(most as u64, hi) && lo <= hi {
        Ok(Span {
            lo: lo * 1_000,
            hi: hi * 1_000,
        })
    } else {
        Err(Fault::Outside)
    }
}

/// Whether a number is at most `most` in amount.
pub fn is_within(most: u64, n: i64) -> bool
    ensures { result ≡ is_within most n }
{
    n.unsigned_abs() <= most
}

/// Whether each member is a whole number.
pub fn are_integers(items: &[Value]) -> bool
    ensures { result ≡ is_some (all_members as_integer (items_view items.now)) }
{
    'items: for item in items {
        if item.as_integer().is_none() {
            return false;
        }
    }
    true
}
