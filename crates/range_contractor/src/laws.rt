//! What the tree of rows allows.

ghost use Rattle.std.specs.Prelude.{ℕ, ℤ, pos, ◌≤ℤ◌, List};
ghost use Rattle.grid_model.specs.declared.boxes.Pos.{Pos};
ghost use Rattle.sat_model.specs.declared.rows.Row.{Row};
ghost use Rattle.sat_model.specs.Fitting.{AllBut, IsPossible};
ghost use Rattle.sat_model.specs.RowTrees.{row_leaf, row_tree};
ghost use Rattle.sat_model.specs.Trees.{LeafAllows, Allows};

/// A leaf holds its row, and the tree of `relaxed_tree` its rows: a point and an offset at which a
/// row is possible are allowed by its leaf, and where all rows but at most q are possible the tree
/// allows them. The call does nothing.
pub fn trees_hold_rows()
    ensures leaf { (grain : ℤ) (row : Row) (p : Pos) (b : ℤ) → pos 1 ≤ℤ grain
        → IsPossible p b row → LeafAllows (row_leaf grain row) p b }
    ensures tree { (grain : ℤ) (rows : List Row) (q : ℕ) (p : Pos) (b : ℤ) → pos 1 ≤ℤ grain
        → AllBut q (IsPossible p b) rows → Allows (row_tree grain rows q) p b }
{}
