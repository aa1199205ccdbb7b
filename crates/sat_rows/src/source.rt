//! Where the rows of an epoch come from.

ghost use Rattle.std.specs.Prelude.{◌≡◌, IfOk};
ghost use Rattle.grid_model.specs.Boxes.{grid_box};
ghost use Rattle.grid_model.specs.SearchBoxes.{IsSearchBox};
ghost use Rattle.gnss_model.specs.Delays.{AreDelays};
ghost use Rattle.sat_rows.specs.Bases.{AreBasesOf};
ghost use Rattle.sat_rows.specs.Meanings.{Meaning, IsSound};
ghost use Rattle.sat_rows.specs.OwnRows.{AreLinesOf, AreSmall, usable_in};

use crate::lines::EpochRows;
use gnss_model::Delays;
use grid_model::{Box3, NoMemory};
use rinex_obs::ObsEpoch;
use std::alloc::Global;

/// Says of the satellites of an epoch which are usable and what is allowed of them, and gives rows
/// that hold it.
pub trait RowSource {
    /// What it says of them.
    ghost meaning: { Self → Meaning };

    /// One line for each satellite, in order: a row that is its own over the root, or why it isn't
    /// usable.
    fn lines(&self, alloc: Global, epoch: &ObsEpoch, root: &Box3) -> Result<EpochRows, NoMemory>
        requires root { IsSearchBox (grid_box root.now) }
        ensures lines { IfOk result (λ rows.
            AreLinesOf (meaning self.now) (grid_box root.now) epoch.now rows.lines.items) }
        ensures small { IfOk result (λ rows. AreSmall rows.lines.items) }
        ensures usable { IfOk result (λ rows. rows.usable ≡ usable_in rows.lines.items) }
        ensures bases { IfOk result (λ rows. AreBasesOf (meaning self.now) (grid_box root.now)
            epoch.now.tag epoch.now.sats.items rows.lines.items rows.bases.items) };

    /// The spans of the delays straight up, in um, which it maps and adds to the bounds of the
    /// error.
    fn delays(&self) -> Delays
        ensures value { result ≡ (meaning self.now).delays }
        ensures within { AreDelays result };

    /// That judges each satellite in one way, and allows something of a usable one.
    ghost sound: { (source : Self) → IsSound (meaning source) };
}
