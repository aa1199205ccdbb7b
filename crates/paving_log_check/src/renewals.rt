//! The tests of renewals.

ghost use Rattle.std.specs.Prelude.{◌≡◌, ℕ, ◌+◌, ◌<◌, ◌^◌, ◌↔◌, length, IsTrue, MatchOption};
ghost use Rattle.grid_model.specs.Boxes.{grid_box, IsInside};
ghost use Rattle.paving_log_check.specs.Bases.{AreReady};

use crate::faults::{BAD_RENEWAL, plain_fault};
use crate::sat_lines::rows_fault;
use crate::verdict::Fault;
use gnss_model::{Delays, Sat};
use grid_model::Box3;
use paving_log::{Renewal, SATELLITE_DIFFERS};
use sat_model::Row;
use sat_rows::{Base, renewed};
use subpaving::Live;

/// By what renewals are tested: the root of the block and its first rows, the delays that are
/// mapped, and the bases of the first rows, as far as own rows are to be formed of them.
#[derive(Clone, Copy)]
pub(crate) struct RenewalTest<'a> {
    pub(crate) root: &'a Box3,
    pub(crate) firsts: &'a [Row],
    pub(crate) delays: Delays,
    pub(crate) bases: &'a [Base],
}

/// Whether two satellites are the same.
fn is_same_sat(a: Sat, b: Sat) -> bool
    ensures { IsTrue result ↔ (a ≡ b) }
{
    a == b
}

impl<'a> RenewalTest<'a> {
    ghost use Rattle.subpaving.specs.LiveValues.{live_value};
    ghost use Rattle.paving_log.specs.Renewing.{new_rows};
    ghost use Rattle.sat_model.specs.Renewals.{IsOfPlace};
    ghost use Rattle.paving_log_check.specs.Forming.{LineHolds, LineBreaks, RenewalHolds};
    ghost use Rattle.paving_log_check.specs.Forming.{RenewalBreaks};

    /// Whether the row is of the satellite of first row `i`, from 0.
    fn is_of_place(&self, i: usize, row: &Row) -> bool
        ensures { IsTrue result ↔ IsOfPlace self.now.firsts.now i row.now }
    {
        if self.firsts.len() <= i {
            return false;
        }
        is_same_sat(self.firsts[i].sat, row.sat)
    }

    /// The least test that line `i` of a renewal over the box fails, whose number is `line`.
    fn line_fault(&self, line: u32, i: usize, row: &Row, part: &Box3) -> Option<Fault>
        requires ready { AreReady self.now.delays (grid_box self.now.root.now) self.now.bases.now }
        requires inside { IsInside (grid_box part.now) (grid_box self.now.root.now) }
        ensures { MatchOption result
            (LineHolds self.now.delays (grid_box part.now) self.now.firsts.now self.now.bases.now
            i row.now)
            (λ fault. LineBreaks self.now.delays (grid_box part.now) self.now.firsts.now
            self.now.bases.now i row.now fault × (fault.line ≡ line)) }
    {
        if !self.is_of_place(i, row) {
            return Some(plain_fault(line, SATELLITE_DIFFERS));
        }
        if self.bases.len() <= i {
            return None;
        }
        let base = &self.bases[i];
        rows_fault(line, self.delays, row, &renewed(base, self.delays, part))
    }

    /// The first line of a renewal that fails a test where these boxes are live, and the least one,
    /// where `line` is the number of its first line. The boxes stay as they are.
    pub(crate) fn renewal_fault(&self, line: u32, live: &mut Live, new: &Renewal) -> Option<Fault>
        requires ready { AreReady self.now.delays (grid_box self.now.root.now) self.now.bases.now }
        requires numbered { line + length new.now.rows.items < 2 ^ 32 }
        ensures found { MatchOption result
            (RenewalHolds self.now.delays (grid_box self.now.root.now) self.now.firsts.now
            self.now.bases.now (live_value live.old) (new_rows new.now))
            (λ fault. (k : ℕ) × RenewalBreaks self.now.delays (grid_box self.now.root.now)
            self.now.firsts.now self.now.bases.now (live_value live.old) (new_rows new.now) k fault
            × (fault.line ≡ line + k)) }
        ensures same { live_value live.new ≡ live_value live.old }
    {
        if !live.may_renew(self.root, &new.part) {
            return Some(plain_fault(line, BAD_RENEWAL));
        }
        for i in 0..new.rows.len() {
            let number = line + 1 + i as u32;
            if let Some(fault) = self.line_fault(number, i, &new.rows[i], &new.part) {
                return Some(fault);
            }
        }
        None
    }
}
