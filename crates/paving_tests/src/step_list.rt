//! A log and a maker of rows that are kept in memory.

ghost use Rattle.std.specs.Prelude.{◌≡◌, ◌∷◌, [], ◌++◌};

use grid_model::Box3;
use log_lines::step_line;
use paving::{Renewals, StepFault, Steps};
use sat_model::{Row, Step};
use std::alloc::Global;

/// A log that keeps the steps in memory, up to so many bytes of lines. After so many steps its
/// device fails. Of the last renewal it keeps how many steps came before, and the box.
#[derive(Drop)]
pub(crate) struct StepList {
    pub(crate) steps: Vec<Step>,
    pub(crate) renewed: Option<(usize, Box3)>,
    pub(crate) renewals: u64,
    room: u64,
    sound: u64,
    pub(crate) faults: u64,
}

impl StepList {
    pub(crate) fn new(alloc: Global, room: u64, sound: u64) -> StepList {
        StepList {
            steps: Vec::new(alloc),
            renewed: None,
            renewals: 0,
            room,
            sound,
            faults: 0,
        }
    }
}

impl Steps for StepList {
    ghost took = { λ old step part new. new.steps.items ≡ old.steps.items ++ step ∷ [] };

    ghost broke = { λ old step part new. new.steps.items ≡ old.steps.items };

    ghost took_rows = { λ old new last. last.steps.items ≡ old.steps.items };

    ghost broke_rows = { λ old new lines last. ⊥ };

    ghost room = { λ list. list.room };

    ghost faults = { λ list. list.faults };

    fn step(&mut self, step: &Step, _part: &Box3) -> Result<(), StepFault> {
        let length = step_line(step).len() as u64;
        if self.room < length {
            return Err(StepFault::Full);
        }
        if self.sound > 0 && self.steps.push(*step).is_ok() {
            self.sound -= 1;
            self.room -= length;
            return Ok(());
        }
        self.faults = self.faults.saturating_add(1);
        Err(StepFault::Failed)
    }

    fn renew(&mut self, part: &Box3, _rows: &[Row]) -> Result<(), StepFault> {
        self.renewed = Some((self.steps.len(), *part));
        self.renewals = self.renewals.saturating_add(1);
        Ok(())
    }
}

/// Has the same rows for each part of a search box.
#[derive(Clone, Copy)]
pub(crate) struct SameRows<'a> {
    pub(crate) rows: &'a [Row],
    pub(crate) root: Box3,
}

impl Renewals for SameRows<'_> {
    ghost use Rattle.std.specs.Prelude.{◌≡◌, Some, map, true, option_map, slice_get};
    ghost use Rattle.std.proofs.Common.{◌∙◌, ap};
    ghost use Rattle.std.proofs.lemmas.Option.{slice_get-map};
    ghost use Rattle.grid_model.specs.Boxes.{grid_box};
    ghost use Rattle.sat_model.specs.declared.rows.Row.{Row};

    ghost maker = { λ same. record {
      active = true;
      gives = λ i part row. slice_get same.rows.now i ≡ Some row;
    } };

    ghost sats = { λ same. map (λ row. row.sat) same.rows.now };

    ghost root = { λ same. grid_box same.root };

    ghost of_sat = { λ same i part row gives.
        slice_get-map (λ (row : Row). row.sat) same.rows.now i
        ∙ ap (option_map (λ (row : Row). row.sat)) gives };

    fn active(&self) -> bool {
        true
    }

    fn row(&self, i: u32, _part: &Box3) -> Option<Row> {
        self.rows.get(i as usize).copied()
    }
}
