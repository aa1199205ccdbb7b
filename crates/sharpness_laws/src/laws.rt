//! Laws of clear boxes.

ghost use Rattle.std.specs.Prelude.{◌≡◌, ◌+◌, ◌*◌, ◌≤◌, ℕ, Bool, List, pos, Option, None, Some};
ghost use Rattle.std.specs.Prelude.{map};
ghost use Rattle.bound_directions.specs.declared.directions.Directions.{Directions};
ghost use Rattle.sharpness_laws.specs.Clear.{IsEmptyBy, IsInnerBy};
ghost use Rattle.sharpness_laws.specs.Left.{NothingClearIn, BlocksLeaveNothingClear};
ghost use Rattle.sharpness_laws.specs.Left.{LogLeavesNothingClear};
ghost use Rattle.sharpness_laws.specs.UsableRows.{AreRowsOver, AreDistinctIf, AllDistinctIf};
ghost use Rattle.epoch_rows.specs.EpochsLeft.{EpochsLeft, source_of};
ghost use Rattle.epoch_rows.specs.Grown.{AreGrownLines};
ghost use Rattle.epoch_rows.specs.Renewed.{maker_of};
ghost use Rattle.epoch_rows.specs.Solved.{AreSolved};
ghost use Rattle.epoch_selection.specs.Searches.{Search, search_in, searches_in};
ghost use Rattle.log_writer.specs.Texts.{IsBegun};
ghost use Rattle.log_writer.specs.declared.fault.WriteFault.{WriteFault};
ghost use Rattle.paving.specs.Turns.{ShownEvent, PavedTurns};
ghost use Rattle.rinex_obs.specs.declared.obs.ObsEpoch.{ObsEpoch};
ghost use Rattle.grid_model.specs.Boxes.{GridBox, grid_box};
ghost use Rattle.sat_model.specs.ClockSpans.{IsShownEmpty, IsShownInner};
ghost use Rattle.sat_model.specs.Contractors.{LiesIn};
ghost use Rattle.grid_model.specs.Lengths.{spare_of};
ghost use Rattle.sat_model.specs.BoxTests.{test_of};
ghost use Rattle.sat_model.specs.Logs.{Block, rows_of};
ghost use Rattle.grid_model.specs.SearchBoxes.{IsSearchBox};
ghost use Rattle.gnss_model.specs.Delays.{err_spare_of};
ghost use Rattle.grid_model.specs.declared.boxes.Box3.{Box3};
ghost use Rattle.sat_model.specs.declared.rows.Row.{Row};
ghost use Rattle.sat_model.specs.declared.rules.Rules.{Rules};
ghost use Rattle.sat_model.specs.declared.rows.SatEntry.{SatEntry};
ghost use Rattle.sat_rows.specs.OwnRows.{AreLinesOf};
ghost use Rattle.sat_rows.specs.declared.lines.SatLine.{SatLine};

use sat_rows::RowSource;

/// The law: own rows over a part of the search box, wider by W and G of this part at both ends,
/// show a box empty or inner where the true ranges and bounds make it clear by 6 W and 2 G. The
/// box lies in the part. The call does nothing.
pub fn clear_boxes_are_shown<S: RowSource>()
    ensures empty { (source : S) (search : Search) (whole part : GridBox) (margin q : ℕ)
        (rows : List Row)
        → IsSearchBox search.root → AreRowsOver (S.meaning source) search whole rows
        → LiesIn whole search.root → LiesIn part whole
        → 6 * spare_of whole + 2 * err_spare_of whole (S.meaning source).delays ≤ margin
        → IsEmptyBy (S.meaning source) search.root search.epoch part margin q
        → IsShownEmpty rows part q }
    ensures inner { (source : S) (search : Search) (whole part : GridBox) (margin q : ℕ)
        (rows : List Row)
        → IsSearchBox search.root → AreRowsOver (S.meaning source) search whole rows
        → LiesIn whole search.root → LiesIn part whole
        → 6 * spare_of whole + 2 * err_spare_of whole (S.meaning source).delays ≤ margin
        → (clear : IsInnerBy (S.meaning source) search.root search.epoch part margin q)
        → IsShownInner rows part q clear.offset }
{}

/// The law: a run over such rows of an epoch, which are renewed or aren't, leaves nothing clear in
/// its root. The call does nothing.
pub fn runs_leave_nothing_clear<S: RowSource>()
    ensures { (source : S) (renews : Bool) (rules : Rules) (epoch : ObsEpoch) (root : Box3)
        (own : List SatLine) (sats : List SatEntry) (events : List ShownEvent)
        → IsSearchBox (grid_box root) → AreDistinctIf renews epoch.sats.items
        → AreLinesOf (S.meaning source) (grid_box root) epoch own
        → AreGrownLines (pos (spare_of (grid_box root)))
        (pos (err_spare_of (grid_box root) (S.meaning source).delays)) own sats
        → (run : PavedTurns (maker_of (S.meaning source) renews (Some (record {
          search = search_in (grid_box root) epoch;
          sats = map (λ row. row.sat) (rows_of sats);
        }))) (test_of rules (rows_of sats)) rules (grid_box root) events)
        → NothingClearIn (S.meaning source) rules (search_in (grid_box root) epoch)
        run.last.splits events }
{}

/// The law: a log of solved epochs in one root leaves nothing clear, and neither does what a fault
/// left of a log whose epochs are searched in any roots, up to the block in hand. The call does
/// nothing.
pub fn logs_leave_nothing_clear<S: RowSource>()
    ensures whole { (source : S) (renews : Bool) (directions : Option Directions)
        (rules : Rules) (root : Box3) (epochs : List ObsEpoch) (blocks : List Block)
        → IsSearchBox (grid_box root)
        → AllDistinctIf renews epochs
        → AreSolved (S.meaning source) renews directions rules
        (searches_in (grid_box root) epochs) blocks
        → LogLeavesNothingClear (S.meaning source) renews directions rules
        (searches_in (grid_box root) epochs) blocks }
    ensures begun { (source : S) (renews : Bool) (directions : Option Directions)
        (rules : Rules) (left : EpochsLeft) (fault : WriteFault) (limit : ℕ) (bytes said : List ℕ)
        → left.last ≡ None
        → AllDistinctIf renews left.epochs
        → (begun : IsBegun fault (source_of (S.meaning source) rules.outliers renews directions)
        rules left limit bytes said)
        → BlocksLeaveNothingClear (S.meaning source) renews directions rules
        (left.searches None begun.blocks) begun.blocks begun.hand }
{}
