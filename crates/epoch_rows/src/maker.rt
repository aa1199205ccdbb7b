//! Rows that are formed anew.

ghost use Rattle.std.specs.Prelude.{◌≡◌, [], map, true};
ghost use Rattle.epoch_rows.specs.Renewed.{CanFormEach, CanFormEach-prop, maker_from};
ghost use Rattle.gnss_model.specs.Delays.{AreDelays};
ghost use Rattle.grid_model.specs.Boxes.{grid_box};
ghost use Rattle.grid_model.specs.SearchBoxes.{IsSearchBox};

use crate::lines::grown_row;
use gnss_model::Delays;
use grid_model::Box3;
use paving::Renewals;
use sat_model::Row;
use sat_rows::{Base, renewed};
use std::alloc::Global;

/// Forms the rows of a block anew for boxes inside its root, each wider at both ends by W and G of
/// its box.
#[derive(Drop)]
pub struct RowMaker {
    /// Whether it is to be asked for rows.
    renews: bool,
    /// What the rows are formed from, one for each row of the block.
    bases: Vec<Base>,
    /// The root of the block.
    root: Box3,
    /// The spans of the delays straight up, in um.
    delays: Delays,
    ghost search: { IsSearchBox (grid_box root) },
    ghost within: { AreDelays delays },
    ghost ready: { CanFormEach delays (grid_box root) bases.items } by { CanFormEach-prop delays (grid_box root) bases.items },
}

impl RowMaker {
    /// Has no rows. It is to be asked for them, or isn't.
    pub fn empty(alloc: Global, renews: bool, root: &Box3, delays: Delays) -> RowMaker
        requires root { IsSearchBox (grid_box root.now) }
        requires delays { AreDelays delays }
        ensures renews { result.renews ≡ renews }
        ensures bases { result.bases.items ≡ [] }
        ensures root { result.root ≡ root.now }
        ensures delays { result.delays ≡ delays }
    {
        RowMaker {
            renews,
            bases: Vec::new(alloc),
            root: *root,
            delays,
        }
    }

    /// Forms the rows of these bases, one for each. It keeps them only where it is to be asked for
    /// rows.
    pub(crate) fn of_bases(
        alloc: Global,
        renews: bool,
        bases: Vec<Base>,
        root: &Box3,
        delays: Delays,
    ) -> RowMaker
        requires root { IsSearchBox (grid_box root.now) }
        requires delays { AreDelays delays }
        requires bases { CanFormEach delays (grid_box root.now) bases.items }
        ensures renews { result.renews ≡ renews }
        ensures bases { renews ≡ true → result.bases.items ≡ bases.items }
        ensures root { result.root ≡ root.now }
        ensures delays { result.delays ≡ delays }
    {
        if !renews {
            return RowMaker::empty(alloc, renews, root, delays);
        }
        RowMaker {
            renews,
            bases,
            root: *root,
            delays,
        }
    }
}

impl Renewals for RowMaker {
    ghost use Rattle.epoch_rows.specs.Laws.{sat_in_place};

    ghost maker = { λ rows.
        maker_from rows.renews rows.delays (grid_box rows.root) rows.bases.items };

    ghost sats = { λ rows. map (λ base. base.sat) rows.bases.items };

    ghost root = { λ rows. grid_box rows.root };

    ghost of_sat = { λ rows i part row gives.
        sat_in_place rows.delays (grid_box rows.root) rows.bases.items i part row gives };

    fn active(&self) -> bool {
        self.renews
    }

    fn row(&self, i: u32, part: &Box3) -> Option<Row> {
        if i as usize >= self.bases.len() {
            return None;
        }
        let own = renewed(&self.bases[i as usize], self.delays, part);
        Some(grown_row(&own, part, self.delays))
    }
}
