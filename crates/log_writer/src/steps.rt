//! The steps of a paving, each as a line of the log and one of the report, and the rows that are
//! renewed among them.

ghost use Rattle.std.specs.Prelude.{◌≡◌, ◌≢◌, ℕ, ◌+◌, ◌<◌, ◌≤◌, ◌↔◌, ◌∷◌, [], List, length, map};
ghost use Rattle.std.specs.Prelude.{take, Some, Ok, Err, Result, OnOk, IfErr};
ghost use Rattle.std.specs.List.{AllByRecursion};
ghost use Rattle.paving.specs.RenewalLines.{renewal_lines};
ghost use Rattle.paving.specs.Taken.{step_bytes};
ghost use Rattle.grid_model.specs.Boxes.{grid_box};
ghost use Rattle.subpaving.specs.LiveValues.{box_option};
ghost use Rattle.sat_model.specs.KeptHulls.{hull_after};
ghost use Rattle.log_writer.specs.InUse.{rows_option};
ghost use Rattle.log_writer.specs.Pieces.{Piece, alone, row_pieces};
ghost use Rattle.log_writer.specs.Steps.{step_piece, BrokeAfter};
ghost use Rattle.log_writer.specs.Writing.{Went, Ended, Written, Trusts, done, failed};
ghost use Rattle.log_lines.specs.Rows.{RowFits};
ghost use Rattle.log_lines.specs.Text.{row_line};
ghost use Rattle.sat_model.specs.Events.{rows_over};

use crate::fault::WriteFault;
use crate::in_use::NewRows;
use crate::kept::hull_with_step;
use crate::pen::Pen;
use epoch_report::step_text;
use grid_model::Box3;
use log_lines::{renew_line, sat_line, step_line};
use paving::{StepFault, Steps};
use paving_log::SatEntry;
use sat_model::{Row, Step};

/// Writes a step with the box or slab that it speaks of.
fn put_step<P: Pen>(pen: &mut P, step: &Step, part: &Box3) -> Result<(), WriteFault>
    ensures written { Written (P.seen pen.old) (step_piece step.now (grid_box part.now) ∷ [])
        result (P.seen pen.new) }
    ensures trust { Trusts (P.trust pen.old) result (P.trust pen.new) }
    ensures full { (result ≡ Err WriteFault.Full)
        ↔ ((P.seen pen.old).left < length (step_bytes step.now)) }
    ensures no_memory_taken { result ≢ Err WriteFault.NoMemory }
{
    let line = step_line(step);
    match step_text(step, part) {
        Some(report) => pen.put(line.as_bytes(), report.as_bytes()),
        None => pen.put(line.as_bytes(), &[]),
    }
}

/// Writes the satellite lines of renewed rows.
fn put_rows<P: Pen>(pen: &mut P, rows: &[Row]) -> Result<(), WriteFault>
    ensures went { OnOk result (AllByRecursion RowFits rows.now
        → Went (P.seen pen.old) (map alone (map row_line rows.now)) (P.seen pen.new)) }
    ensures broke { IfErr result (λ fault. (taken : ℕ) × (taken < length rows.now)
        × (AllByRecursion RowFits rows.now
        → BrokeAfter (P.seen pen.old) (map row_line rows.now) taken fault (P.seen pen.new))) }
    ensures some { (pieces : List Piece)
        × Written (P.seen pen.old) pieces result (P.seen pen.new) }
    ensures trust { Trusts (P.trust pen.old) result (P.trust pen.new) }
    ensures no_memory_taken { result ≢ Err WriteFault.NoMemory }
{
    for row in rows {
        let line = sat_line(&SatEntry::Row(*row));
        pen.put(line.as_bytes(), &[])?;
    }
    Ok(())
}

/// Writes rows that are renewed: the line of their box, and one for each.
pub(crate) fn put_renewal<P: Pen>(pen: &mut P, part: &Box3, rows: &[Row]) -> Result<(), WriteFault>
    ensures went { OnOk result (AllByRecursion RowFits rows.now
        → Went (P.seen pen.old) (row_pieces (rows_over (grid_box part.now) rows.now))
        (P.seen pen.new)) }
    ensures broke { IfErr result (λ fault. (taken : ℕ) × (taken ≤ length rows.now)
        × (AllByRecursion RowFits rows.now → BrokeAfter (P.seen pen.old)
        (renewal_lines (rows_over (grid_box part.now) rows.now)) taken fault (P.seen pen.new))) }
    ensures some { (pieces : List Piece)
        × Written (P.seen pen.old) pieces result (P.seen pen.new) }
    ensures trust { Trusts (P.trust pen.old) result (P.trust pen.new) }
    ensures no_memory_taken { result ≢ Err WriteFault.NoMemory }
{
    let first = renew_line(part);
    pen.put(first.as_bytes(), &[])?;
    put_rows(pen, rows)
}

/// A pen that takes the steps of a paving.
#[derive(Drop)]
pub(crate) struct Track<'a, P: Pen> {
    pub pen: &'a mut P,
    /// The fault of the last step that broke off.
    pub last: WriteFault,
    /// The hull of the boxes that the steps kept.
    pub kept: Option<Box3>,
    /// The rows that were renewed last.
    pub renewed: Option<NewRows>,
}

impl<P: Pen> Steps for Track<'_, P> {
    ghost took = { λ old step part new.
        Went (P.seen old.pen.now) (step_piece step part ∷ []) (P.seen new.pen.now)
        × (new.pen.ghost_name ≡ old.pen.ghost_name)
        × Trusts (P.trust old.pen.now) done (P.trust new.pen.now)
        × (box_option new.kept
        ≡ hull_after (box_option old.kept) (record { step = step; part = part }))
        × (rows_option new.renewed ≡ rows_option old.renewed) };

    ghost broke = { λ old step part new.
        Ended (P.seen old.pen.now) (step_piece step part ∷ []) new.last (P.seen new.pen.now)
        × (new.pen.ghost_name ≡ old.pen.ghost_name)
        × Trusts (P.trust old.pen.now) (failed new.last) (P.trust new.pen.now) };

    ghost took_rows = { λ old new last.
        (AllByRecursion RowFits new.rows
        → Went (P.seen old.pen.now) (row_pieces new) (P.seen last.pen.now))
        × (last.pen.ghost_name ≡ old.pen.ghost_name)
        × Trusts (P.trust old.pen.now) done (P.trust last.pen.now)
        × (box_option last.kept ≡ box_option old.kept)
        × (length new.rows ≤ 64 → rows_option last.renewed ≡ Some new) };

    ghost broke_rows = { λ old new lines last.
        (AllByRecursion RowFits new.rows
        → Ended (P.seen old.pen.now) (map alone (take (lines + 1) (renewal_lines new))) last.last
        (P.seen last.pen.now))
        × (last.pen.ghost_name ≡ old.pen.ghost_name)
        × Trusts (P.trust old.pen.now) (failed last.last) (P.trust last.pen.now) };

    ghost room = { λ track. (P.seen track.pen.now).left };

    ghost faults = { λ track. (P.seen track.pen.now).at.shelf.write_faults
        + (P.seen track.pen.now).at.out.faults };

    fn step(&mut self, step: &Step, part: &Box3) -> Result<(), StepFault> {
        match put_step(self.pen, step, part) {
            Ok(()) => {
                self.kept = hull_with_step(self.kept, step, part);
                Ok(())
            }
            Err(fault) => {
                self.last = fault;
                Err(fault.in_paving())
            }
        }
    }

    fn renew(&mut self, part: &Box3, rows: &[Row]) -> Result<(), StepFault> {
        match put_renewal(self.pen, part, rows) {
            Ok(()) => {
                self.renewed = Some(NewRows::copied(part, rows));
                Ok(())
            }
            Err(fault) => {
                self.last = fault;
                Err(fault.in_paving())
            }
        }
    }
}
