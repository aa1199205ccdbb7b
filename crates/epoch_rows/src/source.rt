//! The blocks of an observation file's epochs.

ghost use Rattle.std.specs.Prelude.{◌≡◌, None, length};
ghost use Rattle.epoch_rows.specs.EpochsLeft.{left_in, left_of, index_of};
ghost use Rattle.epoch_rows.specs.Laws.{sat_in_place};
ghost use Rattle.epoch_rows.specs.Makers.{GivesAny};
ghost use Rattle.epoch_rows.specs.Ready.{SkipsFit, AreWritable, CanGive, CanGoOn};
ghost use Rattle.epoch_rows.specs.Ready.{GoesByHull};
ghost use Rattle.grid_model.specs.Boxes.{grid_box};

use crate::blocks::block;
use crate::given::Given;
use crate::maker::RowMaker;
use crate::told::{lost_at, walk_behind};
use crate::walks::HullWalk;
use epoch_selection::Walk;
use grid_model::{Box3, NoMemory};
use log_writer::Blocks;
use paving::Renewals;
use paving_log::LogEpoch;
use sat_model::{Row, Rules};
use sat_rows::RowSource;
use std::alloc::Global;

/// The blocks of the epochs that are left of a file, each searched where a walk says. A block is
/// formed of the rows that a source gives when the one before is finished.
#[derive(Drop)]
pub struct ObsBlocks<'a, S: RowSource, W: HullWalk<'a>> {
    source: &'a S,
    walk: W,
    rules: Rules,
    given: Option<Given<'a>>,
    /// The number of the last epoch, where it kept no box.
    lost: Option<u32>,
    /// Forms the rows of the block that was given last anew, and none before the first.
    maker: RowMaker,
}

impl<'a, S: RowSource, W: HullWalk<'a>> ObsBlocks<'a, S, W> {
    /// Those of all epochs that a walk has left. Their rows are to be renewed, or aren't.
    pub fn of_walk(
        alloc: Global,
        source: &'a S,
        walk: W,
        rules: &Rules,
        renews: bool,
    ) -> ObsBlocks<'a, S, W>
        requires writable { AreWritable None (W.epochs walk) }
        requires skips { SkipsFit (S.meaning source.now) }
        requires ready { W.ready walk }
        ensures source { result.source.now ≡ source.now }
        ensures left { left_of (W.epochs result.walk) (W.searches result.walk)
            (W.behind result.walk) result.given result.lost
            ≡ left_in (W.epochs walk) (W.searches walk) }
        ensures rules { result.rules ≡ rules.now }
        ensures renews { result.maker.renews ≡ renews }
        ensures first { result.given ≡ None }
        ensures can { CanGive (S.meaning result.source.now) (index_of result.given)
            (W.epochs result.walk) }
        ensures goes_on { CanGoOn (W.ready result.walk) (W.may_keep result.walk) result.given }
        ensures told { GoesByHull W.keeps W.behind }
    {
        ObsBlocks {
            source,
            walk,
            rules: *rules,
            given: None,
            lost: None,
            maker: RowMaker::empty(alloc, renews, &walk.search(), source.delays()),
        }
    }

    /// The number of the epoch behind which no block came, where that kept no box: a receiver that
    /// moves is lost there.
    pub fn lost(&self) -> Option<u32>
        ensures { result ≡ self.now.lost }
    {
        self.lost
    }
}

impl<'a, S: RowSource, W: HullWalk<'a>> Renewals for ObsBlocks<'a, S, W> {
    ghost maker = { λ blocks. ⟦<RowMaker as Renewals>⟧.maker blocks.maker };

    ghost sats = { λ blocks. ⟦<RowMaker as Renewals>⟧.sats blocks.maker };

    ghost root = { λ blocks. ⟦<RowMaker as Renewals>⟧.root blocks.maker };

    ghost of_sat = { λ blocks i part row gives. sat_in_place blocks.maker.delays
        (grid_box blocks.maker.root) blocks.maker.bases.items i part row gives };

    fn active(&self) -> bool {
        self.maker.active()
    }

    fn row(&self, i: u32, part: &Box3) -> Option<Row> {
        self.maker.row(i, part)
    }
}

impl<'a, S: RowSource, W: HullWalk<'a>> Blocks for ObsBlocks<'a, S, W> {
    ghost gives = { λ old kept next new.
        (new.source.now ≡ old.source.now) × (new.rules ≡ old.rules)
        × (new.maker.renews ≡ old.maker.renews)
        × GivesAny (S.meaning old.source.now) old.rules.outliers old.maker.renews
        (left_of (W.epochs old.walk) (W.searches old.walk) (W.behind old.walk) old.given old.lost)
        kept next
        (left_of (W.epochs new.walk) (W.searches new.walk) (W.behind new.walk) new.given new.lost)
        new.maker };

    ghost standing = { λ blocks. record {
      rules = blocks.rules;
      before = index_of blocks.given;
      most = length (W.epochs blocks.walk);
    } };

    ghost ready = { λ blocks.
        CanGive (S.meaning blocks.source.now) (index_of blocks.given) (W.epochs blocks.walk)
        × CanGoOn (W.ready blocks.walk) (W.may_keep blocks.walk) blocks.given
        × GoesByHull W.keeps W.behind };

    fn next(&mut self, alloc: Global, kept: Option<Box3>) -> Result<Option<LogEpoch>, NoMemory> {
        let mut walk = walk_behind(self.walk, self.given, kept);
        let Some((epoch, root)) = walk.next() else {
            self.lost = lost_at(self.given, kept);
            return Ok(None);
        };
        let renews = self.maker.active();
        let next = block(alloc, self.source, epoch, &self.rules, &root, renews)?;
        self.walk = walk;
        self.given = Some(Given {
            epoch,
            root,
            few: next.block.is_few(),
        });
        self.maker = next.maker;
        Ok(Some(next.block))
    }
}
