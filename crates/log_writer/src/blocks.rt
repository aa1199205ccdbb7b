//! Blocks that come one after another.

ghost use Rattle.std.specs.Prelude.{◌≡◌, [], Option, None, map, option_map, length, IfOk};
ghost use Rattle.log_writer.specs.Sources.{Standing, FollowsAny, ServesAny};
ghost use Rattle.log_writer.specs.RowsFrom.{of_rows};
ghost use Rattle.paving.specs.Idle.{idle, idle_root};
ghost use Rattle.log_lines.specs.declared.line.Form.TheVariants as form;
ghost use Rattle.paving_log.specs.RowsText.{AllOwnPass};
ghost use Rattle.log_lines.specs.Text.{BlockFits};
ghost use Rattle.paving_log.specs.Values.{block_of, log_value};
ghost use Rattle.subpaving.specs.LiveValues.{box_option};
ghost use Rattle.grid_model.specs.Boxes.{GridBox};
ghost use Rattle.sat_model.specs.Logs.{Block};
ghost use Rattle.std.specs.List.{AllByRecursion};
ghost use Rattle.std.specs.Vec.Iter.{into_iter_items};

use grid_model::{Box3, NoMemory};
use paving::Renewals;
use paving_log::{Log, LogEpoch};
use sat_model::{Row, Rules};
use std::alloc::Global;
use std::vec::IntoIter;

/// Blocks without steps, the next one when the one before is finished. The source itself renews the
/// rows of the block that it gave last, where it is active.
pub trait Blocks: Renewals {
    /// The source before, the hull of the boxes kept of the block before, the next block, none
    /// behind the last one, and the source after.
    ghost gives: { Self → Option GridBox → Option Block → Self → Type 0 };

    /// The rules, the index of the block before, and how many still come at most.
    ghost standing: { Self → Standing };

    /// It may be asked for the next block.
    ghost ready: { Self → Type 0 };

    /// The next block. It is told the hull of the in and edge boxes of the block before, none where
    /// it has none.
    fn next(&mut self, alloc: Global, kept: Option<Box3>) -> Result<Option<LogEpoch>, NoMemory>
        requires { ready self.old }
        ensures ready { IfOk result (λ next. ready self.new) }
        ensures gives { IfOk result (λ next.
            gives self.old (box_option kept) (option_map block_of next) self.new) }
        ensures follows { IfOk result (λ next.
            FollowsAny (standing self.old) (option_map block_of next) (standing self.new)) }
        ensures serves { IfOk result (λ next. ServesAny (Self.maker self.new) (Self.sats self.new)
            (Self.root self.new) (option_map block_of next)) }
        ensures active { IfOk result (λ next.
            (Self.maker self.new).active ≡ (Self.maker self.old).active) };
}

/// The blocks of a log of rows, in order.
#[derive(Drop)]
pub struct LogBlocks {
    rules: Rules,
    rest: IntoIter<LogEpoch>,
    before: Option<u32>,
}

impl LogBlocks {
    /// All blocks of this log.
    pub fn of_log(log: Log) -> LogBlocks
        ensures rules { result.rules ≡ log.rules }
        ensures rest { map block_of (into_iter_items result.rest) ≡ (log_value log).blocks }
        ensures before { result.before ≡ None }
    {
        LogBlocks {
            rules: log.rules,
            rest: log.epochs.into_iter(),
            before: None,
        }
    }
}

/// Rows that were read aren't renewed.
impl Renewals for LogBlocks {
    ghost maker = { λ _. idle };

    ghost sats = { λ _. [] };

    ghost root = { λ _. idle_root };

    ghost of_sat = { λ renewals i part row gives. absurd gives };

    fn active(&self) -> bool {
        false
    }

    fn row(&self, _i: u32, _part: &Box3) -> Option<Row> {
        None
    }
}

impl Blocks for LogBlocks {
    ghost gives = { λ old kept next new. of_rows.gives
        (map block_of (into_iter_items old.rest)) kept next
        (map block_of (into_iter_items new.rest)) };

    ghost standing = { λ blocks. record {
      rules = blocks.rules;
      before = blocks.before;
      most = length (map block_of (into_iter_items blocks.rest));
    } };

    ghost ready = { λ blocks.
        AllByRecursion (BlockFits form.Rows) (map block_of (into_iter_items blocks.rest))
        × AllOwnPass blocks.rules blocks.before (map block_of (into_iter_items blocks.rest)) };

    fn next(&mut self, _alloc: Global, _kept: Option<Box3>) -> Result<Option<LogEpoch>, NoMemory> {
        match self.rest.next() {
            None => Ok(None),
            Some(epoch) => {
                self.before = Some(epoch.index);
                Ok(Some(epoch))
            }
        }
    }
}
