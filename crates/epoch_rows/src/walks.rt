//! Walks that go on from the hull of the boxes that a paving keeps.

ghost use Rattle.epoch_rows.specs.Ready.{GoesByHull};
ghost use Rattle.grid_model.specs.Boxes.{grid_box};
ghost use Rattle.grid_model.specs.SearchBoxes.{IsSearchBox};

use epoch_selection::{Searches, Walk};
use grid_model::Box3;
use tube_searches::Tube;

/// A walk that may be told the hull of the boxes that a paving kept, or all of the root, where its
/// block has few satellites.
pub trait HullWalk<'a>: Walk<'a> {
    /// The box in which its first search lies. Each walk goes on from that hull as from what it
    /// asks of the block.
    fn search(&self) -> Box3
        ensures sized { IsSearchBox (grid_box result) }
        ensures told { GoesByHull Self.keeps Self.behind };
}

impl<'a> HullWalk<'a> for Searches<'a> {
    fn search(&self) -> Box3 {
        self.root
    }
}

impl<'a> HullWalk<'a> for Tube<'a> {
    fn search(&self) -> Box3 {
        self.searches.root
    }
}
