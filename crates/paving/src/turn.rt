//! A paving that gives a turn at a time.

ghost use Rattle.std.specs.Prelude.{◌≡◌, ◌<◌, ◌≤◌, ◌+◌, ◌*◌, ◌∷◌, [], ◌++◌, map, length, true, List};
ghost use Rattle.grid_model.specs.Boxes.{grid_box};
ghost use Rattle.sat_model.specs.BoxTests.{test_of};
ghost use Rattle.sat_model.specs.Fold.{ShownStep};
ghost use Rattle.sat_model.specs.Waiting.{Paving, first_paving, splits_after};
ghost use Rattle.box_contraction.specs.Adding.{step_value};
ghost use Rattle.paving.specs.Paved.{AreStepsOf};
ghost use Rattle.paving.specs.Queues.{box_of};
ghost use Rattle.paving.specs.Standing.{Stands, IsTurn, turn_of, turn_value, turns_left};
ghost use Rattle.paving.specs.Trees.{AreTreesFor};

use crate::in_use::InUse;
use crate::plan::Plan;
use crate::queues::Queues;
use crate::renewals::Renewals;
use crate::trees::work_on_box;
use box_contraction::{BoxStep, BoxSteps};
use box_pool::Item;
use grid_model::Box3;
use relaxed_meet::{BoxTest, Memory};
use sat_model::{Rules, Step};

/// A paving that is underway: the rows in use, the boxes that wait, what decided the tests before,
/// how many splits were made, and the steps of the box that was taken up last. Boxes are taken up
/// one after another, each in a turn.
#[derive(Drop)]
pub struct Pavement {
    pub rules: Rules,
    pub root: Box3,
    pub in_use: InUse,
    pub queues: Queues,
    pub memory: Memory,
    pub splits: u32,
    pub steps: BoxSteps,
}

/// A view of a turn: the steps of a box, and the rows that are renewed behind them, if any.
#[derive(Clone, Copy)]
pub struct Turn<'a> {
    pub steps: &'a [BoxStep],
    pub renewed: Option<&'a InUse>,
}

/// Works on a box that is taken up after so many splits, puts its steps in place of those of the box
/// before, and gives the last one.
fn work_on_next(
    in_use: &InUse,
    rules: &Rules,
    memory: &mut Memory,
    splits: u32,
    next: &Item,
    steps: &mut BoxSteps,
) -> BoxStep
    requires rows { (rules.now.outliers < length in_use.now.rows.items)
        × (length in_use.now.rows.items ≤ 64) }
    requires trees { AreTreesFor (test_of rules.now in_use.now.rows.items) in_use.now.trees }
    ensures steps { AreStepsOf (test_of rules.now in_use.now.rows.items) rules.now splits
        (box_of next.now) (map step_value steps.new.items) }
    ensures last { (front : List ShownStep)
        × (map step_value steps.new.items ≡ front ++ step_value result ∷ []) }
    ensures few { length steps.new.items ≤ 1015 }
{
    steps.clear();
    let mut test = BoxTest::recalling(&in_use.rows, rules, *memory);
    work_on_box(&mut test, rules, &in_use.trees, splits, next, steps);
    *memory = test.memory();
    match steps.as_slice().last() {
        Some(last) => *last,
        None => unreachable!(),
    }
}

/// How many splits were made behind a step.
fn splits_behind(splits: u32, step: &Step) -> u32
    requires { splits ≤ 200000 }
    ensures { result ≡ splits_after splits step.now }
{
    match step {
        Step::Split { .. } => splits + 1,
        Step::Outside { .. } | Step::Inside { .. } | Step::Edge { .. } | Step::Cut { .. } => splits,
    }
}

impl Pavement {
    /// A paving in which the root of the plan waits alone.
    pub fn begin(plan: Plan) -> Pavement
        ensures stands { Stands result (first_paving plan.test (grid_box plan.root)) }
        ensures rules { result.rules ≡ plan.rules }
        ensures root { result.root ≡ plan.root }
        ensures part { result.in_use.part ≡ plan.root }
        ensures left { turns_left result ≡ 2 * plan.rules.bisections + 1 }
    {
        let Plan {
            rows,
            rules,
            root,
            trees,
            pool,
        } = plan;
        Pavement {
            rules,
            root,
            in_use: InUse {
                rows,
                part: root,
                trees,
            },
            queues: Queues::of_root(pool, &root),
            memory: Memory::default(),
            splits: 0,
            steps: BoxSteps::new(),
        }
    }

    /// Gives the next box its turn, and answers whether the rows in use were renewed behind its steps;
    /// none where no box waits. What the turn was is `given` then: a result that borrowed the paving
    /// would leave the clauses no word for the paving as it is after the call.
    pub fn turn<M: Renewals>(&mut self, maker: &M) -> Option<bool>
        requires stands { (paving : Paving) × Stands self.old paving }
        requires root { (M.maker maker.now).active ≡ true
            → M.root maker.now ≡ grid_box self.old.root }
        requires sats { (M.maker maker.now).active ≡ true
            → length (M.sats maker.now) ≡ length self.old.in_use.rows.items }
        ensures turn { (paving : Paving) → Stands self.old paving
            → IsTurn (M.maker maker.now) self.old paving result self.new }
    {
        let next = self.queues.take_next()?;
        let before = self.splits;
        let last = work_on_next(
            &self.in_use,
            &self.rules,
            &mut self.memory,
            before,
            &next,
            &mut self.steps,
        );
        self.queues.open(&last.step, &last.part, before);
        self.splits = splits_behind(before, &last.step);
        Some(
            self.in_use
                .renew(&self.rules, before, self.splits, &self.queues, maker),
        )
    }

    /// The last turn, of which `turn` answered whether rows were renewed.
    pub fn given(&self, renewed: bool) -> Turn<'_>
        ensures { turn_value result ≡ turn_of renewed self.now }
    {
        Turn {
            steps: self.steps.as_slice(),
            renewed: if renewed { Some(&self.in_use) } else { None },
        }
    }
}
