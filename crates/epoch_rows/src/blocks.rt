//! The block of an epoch.

ghost use Rattle.std.specs.Prelude.{◌≡◌, true, IfOk};
ghost use Rattle.epoch_rows.specs.Grown.{bare_body, IsGrownBlock};
ghost use Rattle.epoch_rows.specs.Makers.{IsMakerFor};
ghost use Rattle.epoch_rows.specs.Ready.{SkipsFit};
ghost use Rattle.epoch_rows.specs.Renewed.{hand_of};
ghost use Rattle.epoch_selection.specs.Searches.{search_in};
ghost use Rattle.epoch_selection.specs.Selections.{first_epoch, last_epoch};
ghost use Rattle.log_tokens.specs.Fields.{IsCountFromTo};
ghost use Rattle.log_lines.specs.declared.line.Form.TheVariants as form;
ghost use Rattle.log_lines.specs.Text.{BlockFits};
ghost use Rattle.paving_log.specs.Values.{body_value, block_of};
ghost use Rattle.rinex_obs.specs.Facts.{AreNamedSats};
ghost use Rattle.grid_model.specs.Boxes.{grid_box};
ghost use Rattle.grid_model.specs.SearchBoxes.{IsSearchBox};

use crate::lines::{grown_lines, skip_lines};
use crate::maker::RowMaker;
use grid_model::{Box3, NoMemory};
use paving_log::{Body, LogEpoch};
use rinex_obs::ObsEpoch;
use sat_model::Rules;
use sat_rows::RowSource;
use std::alloc::Global;
use step_lines::LoggedSteps;

/// The block of an epoch, and what forms its rows anew.
#[derive(Drop)]
pub struct EpochBlock {
    pub block: LogEpoch,
    pub maker: RowMaker,
}

/// A root that isn't paved yet.
fn body_over(alloc: Global, root: &Box3) -> Body
    ensures { body_value result ≡ bare_body (grid_box root.now) }
{
    Body {
        root: *root,
        steps: LoggedSteps::new(),
        renewals: Vec::new(alloc),
        done: 0,
        bounds: Vec::new(alloc),
    }
}

/// The block of an epoch: the rows of its satellites, wider at both ends, by W in place and range
/// and by G in the ends of the error, the skips, and the root; where fewer than q + 4 satellites
/// are usable the skips alone. No line is numbered. With it comes what forms its rows anew, where
/// they are to be renewed.
pub fn block<S: RowSource>(
    alloc: Global,
    source: &S,
    epoch: &ObsEpoch,
    rules: &Rules,
    root: &Box3,
    renews: bool,
) -> Result<EpochBlock, NoMemory>
    requires index { IsCountFromTo first_epoch last_epoch epoch.now.index }
    requires named { AreNamedSats epoch.now.sats.items }
    requires skips { SkipsFit (S.meaning source.now) }
    requires root { IsSearchBox (grid_box root.now) }
    ensures grown { IfOk result (λ made. IsGrownBlock (S.meaning source.now) rules.now.outliers
        (search_in (grid_box root.now) epoch.now) (block_of made.block)) }
    ensures fits { IfOk result (λ made. BlockFits form.Rows (block_of made.block)) }
    ensures renews { IfOk result (λ made. made.maker.renews ≡ renews) }
    ensures maker { IfOk result (λ made. renews ≡ true → IsMakerFor (S.meaning source.now)
        (hand_of (search_in (grid_box root.now) epoch.now) (block_of made.block)) made.maker) }
{
    let own = source.lines(alloc, epoch, root)?;
    let n = own.usable;
    let delays = source.delays();
    if n < u32::from(rules.outliers) + 4 {
        return Ok(EpochBlock {
            block: LogEpoch {
                line: 0,
                index: epoch.index,
                ps: epoch.tag,
                n,
                sats: skip_lines(alloc, &own.lines)?,
                body: None,
            },
            maker: RowMaker::empty(alloc, renews, root, delays),
        });
    }
    Ok(EpochBlock {
        block: LogEpoch {
            line: 0,
            index: epoch.index,
            ps: epoch.tag,
            n,
            sats: grown_lines(alloc, &own.lines, root, delays)?,
            body: Some(body_over(alloc, root)),
        },
        maker: RowMaker::of_bases(alloc, renews, own.bases, root, delays),
    })
}
