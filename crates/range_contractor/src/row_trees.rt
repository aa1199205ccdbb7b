//! The tree of an epoch's rows.

ghost use Rattle.std.specs.Prelude.{◌≡◌, ◌<◌, ◌≤◌, ℕ, List, length, map, IfOk};
ghost use Rattle.grid_model.specs.Rounding.{grain_floor, grain_ceil};
ghost use Rattle.grid_model.specs.Sizes.{IsPlaceSize};
ghost use Rattle.sat_model.specs.Trees.{IsWellFormed, Sat};
ghost use Rattle.sat_model.specs.RowTrees.{row_leaf, row_tree};
ghost use Rattle.sat_model.specs.declared.rows.Row.{Row};
ghost use Rattle.range_contractor.specs.Views.{leaf_value, tree_value};

use crate::tree::{Leaf, Tree};
use fix_interval::Interval;
use grid_model::{NoMemory, Span};
use sat_model::Row;
use std::alloc::Global;

/// The least interval that holds a span.
fn rounded<I: Interval>(span: &Span) -> I
    requires lo_size { IsPlaceSize span.now.lo }
    requires hi_size { IsPlaceSize span.now.hi }
    ensures low { I.low result ≡ grain_floor I.GRAIN span.now.lo }
    ensures high { I.high result ≡ grain_ceil I.GRAIN span.now.hi }
{
    I::of(span.lo, span.hi)
}

/// What a row says of its satellite.
fn leaf_of<I: Interval>(row: &Row) -> Leaf<I>
    ensures { leaf_value I.low I.high result ≡ row_leaf I.GRAIN row.now }
{
    Leaf {
        x: rounded(&row.x),
        y: rounded(&row.y),
        z: rounded(&row.z),
        range: row.range,
        err: row.err,
    }
}

/// The tree of rows of which all but at most `q` are right: two rounds of the relaxed hull of what
/// each row leaves. Places are rounded outward to multiples of the grain. The one error is that
/// there is no memory.
pub fn relaxed_tree<I: Interval>(alloc: Global, rows: &[Row], q: u8) -> Result<Tree<I>, NoMemory>
    requires { (q < length rows.now) × (length rows.now ≤ 64) }
    ensures tree { IfOk result (λ t. tree_value I.low I.high t ≡ row_tree I.GRAIN rows.now q) }
    ensures well_formed { IfOk result (λ t. IsWellFormed (tree_value I.low I.high t)) }
{
    let mut kids = Vec::new(alloc);
    for row in rows {
        kids.push(Tree::Sat(leaf_of(row)))?;
    }
    let kid = Box::new(alloc, Tree::Relaxed { q, kids })?;
    Ok(Tree::Again { rounds: 2, kid })
}

/// Puts what these rows say in the place of as many kids.
fn refill<I: Interval>(kids: &mut Vec<Tree<I>>, rows: &[Row])
    requires { length kids.old.items ≡ length rows.now }
    ensures { map (tree_value I.low I.high) kids.new.items
        ≡ map (λ row. Sat (row_leaf I.GRAIN row)) rows.now }
{
    for i in 0..kids.len() {
        let row = &rows[i];
        kids[i] = Tree::Sat(leaf_of(row));
    }
}

/// Makes the tree of rows that of as many others, in its own memory.
pub fn refresh<I: Interval>(tree: &mut Tree<I>, rows: &[Row])
    requires { (q : ℕ) × (before : List Row) × (length before ≡ length rows.now)
        × (tree_value I.low I.high tree.old ≡ row_tree I.GRAIN before q) }
    ensures { (q : ℕ) (before : List Row) → length before ≡ length rows.now
        → tree_value I.low I.high tree.old ≡ row_tree I.GRAIN before q
        → tree_value I.low I.high tree.new ≡ row_tree I.GRAIN rows.now q }
{
    if let Tree::Again { kid, .. } = tree {
        if let Tree::Relaxed { kids, .. } = &mut **kid {
            refill(kids, rows);
        }
    }
}
