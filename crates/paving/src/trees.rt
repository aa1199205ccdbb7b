//! The contractor trees of an epoch's rows, one for long boxes and one for the others.

ghost use Rattle.std.specs.Prelude.{◌≡◌, ◌<◌, ◌≤◌, ℕ, List, [], map, pos, true, false, length};
ghost use Rattle.box_contraction.specs.Adding.{step_value};
ghost use Rattle.std.specs.Prelude.{IfOk, MatchOption};
ghost use Rattle.sat_model.specs.BoxTests.{BoxTest as TestValue, test_of};
ghost use Rattle.sat_model.specs.RowTrees.{row_tree};
ghost use Rattle.sat_model.specs.declared.rows.Row.{Row};
ghost use Rattle.fix_interval.specs.Grains.{coarse_low, coarse_high};
ghost use Rattle.range_contractor.specs.Views.{tree_value};
ghost use Rattle.relaxed_meet.specs.TestValues.{test_value};
ghost use Rattle.paving.specs.Paved.{AreStepsOf};
ghost use Rattle.paving.specs.Queues.{box_of};
ghost use Rattle.paving.specs.Trees.{AreTreesOf, AreTreesFor};

use box_contraction::{BoxSteps, work_on};
use box_pool::Item;
use fix_interval::{Coarse, Exact};
use grid_model::NoMemory;
use range_contractor::{Tree, refresh, relaxed_tree};
use relaxed_meet::BoxTest;
use sat_model::{Row, Rules};
use std::alloc::Global;

/// How long a side in um may be before its box is contracted by coarse intervals.
const LONG_SIDE: u64 = 16_000_000;

/// The tree of an epoch's rows over coarse intervals, and over exact ones.
#[derive(Drop)]
pub struct Trees {
    pub coarse: Tree<Coarse>,
    pub exact: Tree<Exact>,
}

impl Trees {
    /// The trees of rows of which all but at most `q` are right. The one error is that there is no
    /// memory.
    pub fn of_rows(alloc: Global, rows: &[Row], q: u8) -> Result<Trees, NoMemory>
        requires { (q < length rows.now) × (length rows.now ≤ 64) }
        ensures { IfOk result (λ trees. AreTreesOf trees rows.now q) }
    {
        Ok(Trees {
            coarse: relaxed_tree(alloc, rows, q)?,
            exact: relaxed_tree(alloc, rows, q)?,
        })
    }

    /// Makes the trees those of as many other rows, in their own memory.
    fn refresh(&mut self, rows: &[Row])
        requires { (q : ℕ) × (before : List Row) × (length before ≡ length rows.now)
            × AreTreesOf self.old before q }
        ensures { (q : ℕ) (before : List Row) → length before ≡ length rows.now
            → AreTreesOf self.old before q → AreTreesOf self.new rows.now q }
    {
        refresh(&mut self.coarse, rows);
        refresh(&mut self.exact, rows);
    }
}

/// Makes the trees, where there are trees, those of as many other rows.
pub fn refresh_trees(trees: &mut Option<Trees>, rows: &[Row])
    requires { (test : TestValue) × (length test.rows ≡ length rows.now)
        × AreTreesFor test trees.old }
    ensures { (test : TestValue) → length test.rows ≡ length rows.now
        → AreTreesFor test trees.old
        → AreTreesFor (record { rows = rows.now; q = test.q; pairs = test.pairs }) trees.new }
{
    if let Some(trees) = trees {
        trees.refresh(rows);
    }
}

/// The trees for the rows under these rules, and none where they ask pairs of rows.
pub fn trees_for(alloc: Global, rows: &[Row], rules: &Rules) -> Result<Option<Trees>, NoMemory>
    requires { (rules.now.outliers < length rows.now) × (length rows.now ≤ 64) }
    ensures { IfOk result (λ trees. AreTreesFor (test_of rules.now rows.now) trees) }
{
    if rules.pairs {
        return Ok(None);
    }
    let trees = Trees::of_rows(alloc, rows, rules.outliers)?;
    Ok(Some(trees))
}

/// The tree over coarse intervals, where there are trees.
fn coarse_of(trees: &Option<Trees>) -> Option<&Tree<Coarse>>
    ensures { (test : TestValue) → AreTreesFor test trees.now
        → MatchOption result (test.pairs ≡ true) (λ t. (test.pairs ≡ false)
        × (tree_value coarse_low coarse_high t.now ≡ row_tree (pos 65536) test.rows test.q)) }
{
    match trees {
        Some(trees) => Some(&trees.coarse),
        None => None,
    }
}

/// The tree over exact intervals, where there are trees.
fn exact_of(trees: &Option<Trees>) -> Option<&Tree<Exact>>
    ensures { (test : TestValue) → AreTreesFor test trees.now
        → MatchOption result (test.pairs ≡ true) (λ t. (test.pairs ≡ false)
        × (tree_value (λ x. x.lo) (λ x. x.hi) t.now ≡ row_tree (pos 1) test.rows test.q)) }
{
    match trees {
        Some(trees) => Some(&trees.exact),
        None => None,
    }
}

/// Works on a box that is taken up after so many splits, with the tree for its longest side, and puts
/// its steps into the empty list. There are no trees where the rules ask pairs of rows. What decided
/// the tests before changes no step, but how soon it comes.
pub fn work_on_box(
    test: &mut BoxTest,
    rules: &Rules,
    trees: &Option<Trees>,
    splits: u32,
    next: &Item,
    steps: &mut BoxSteps,
)
    requires trees { AreTreesFor (test_value test.old) trees.now }
    requires empty { steps.old.items ≡ [] }
    ensures steps { AreStepsOf (test_value test.old) rules.now splits (box_of next.now)
        (map step_value steps.new.items) }
    ensures few { length steps.new.items ≤ 1015 }
{
    let (_, longest) = next.part.longest_axis();
    if longest > LONG_SIDE {
        work_on(test, rules, coarse_of(trees), splits, next, steps);
    } else {
        work_on(test, rules, exact_of(trees), splits, next, steps);
    }
}
