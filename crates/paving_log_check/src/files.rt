//! The verdict on a log, checked against files.

ghost use Rattle.std.specs.Prelude.{◌≡◌, ◌+◌, ◌<◌, ◌≤◌, ◌↔◌, List, ◌∷◌, map, IsTrue};
ghost use Rattle.std.specs.Prelude.{IfOk, IfSome, MatchOption, Option, Some, None, drop};
ghost use Rattle.epoch_selection.specs.Searches.{Search};
ghost use Rattle.grid_model.specs.Boxes.{grid_box};
ghost use Rattle.grid_model.specs.SearchBoxes.{IsSearchBox};
ghost use Rattle.sat_model.specs.Logs.{Block, lines_in, IsNumbered};
ghost use Rattle.sat_model.specs.declared.rules.Rules.{Rules};
ghost use Rattle.gnss_model.specs.declared.delays.Delays.{Delays};
ghost use Rattle.paving_log.specs.Values.{block_of, log_value};
ghost use Rattle.paving_log_check.specs.Answers.{IfYes, IfNo};
ghost use Rattle.paving_log_check.specs.Admissible.{AreSameRules, IsOf, IsDue, BlockFault};
ghost use Rattle.paving_log_check.specs.Epochs.{EpochFails};
ghost use Rattle.paving_log_check.specs.OwnLines.{OwnLines};
ghost use Rattle.paving_log_check.specs.Checked.{IsAccepted, IsRefused};
ghost use Rattle.paving_log_check.specs.Taken.{IsTakenBy};

use crate::blocks::kept_boxes;
use crate::counts::{bound_lines, event_lines};
use crate::epochs::check_epoch;
use crate::faults::{RULES_DIFFER, plain_fault};
use crate::verdict::{Fault, Verdict};
use crate::walks::LogWalk;
use epoch_selection::Walk;
use grid_model::{Box3, NoMemory};
use paving_log::{EPOCH_DIFFERS, Log, LogEpoch, is_later, suits};
use rinex_obs::ObsEpoch;
use sat_model::Rules;
use sat_rows::RowSource;
use std::alloc::Global;

/// Whether two rules are the same.
fn are_same_rules(a: &Rules, b: &Rules) -> bool
    ensures { IsTrue result ↔ AreSameRules a.now b.now }
{
    a.outliers == b.outliers
        && a.bisections == b.bisections
        && a.width == b.width
        && a.pairs == b.pairs
}

/// Whether a block is that of an epoch, behind a block of the index `before`.
fn is_of(rules: &Rules, before: Option<u32>, seen: &ObsEpoch, epoch: &LogEpoch) -> bool
    ensures { IsTrue result ↔ IsOf rules.now before seen.now (block_of epoch.now) }
{
    is_later(before, epoch.index)
        && suits(epoch.is_few(), rules.outliers, epoch.n)
        && epoch.index == seen.index
        && epoch.ps == seen.tag
}

/// Takes the next search, where the block is that of its epoch.
fn take_due<'a, W: LogWalk<'a>>(
    rules: &Rules,
    before: Option<u32>,
    left: &mut W,
    epoch: &LogEpoch,
) -> Option<(&'a ObsEpoch, Box3)>
    requires { W.ready left.old }
    ensures due { MatchOption result
        ((more : List Block)
        → IsDue rules.now before (W.searches left.old (block_of epoch.now ∷ more))
        (block_of epoch.now ∷ more) → ⊥)
        (λ found. IsTakenBy rules.now before (W.searches left.old) W.keeps (W.behind left.new)
        found.0.now (grid_box found.1) (block_of epoch.now)) }
    ensures root { IfSome result (λ found. W.may_search left.new (grid_box found.1)) }
    ensures all { IfSome result (λ found. W.may_keep left.new (Some (grid_box found.1))) }
    ensures sized { IfSome result (λ found. IsSearchBox (grid_box found.1)) }
{
    let (seen, root) = left.next()?;
    if is_of(rules, before, seen, epoch) {
        Some((seen, root))
    } else {
        None
    }
}

/// Whether the next block is that of the next search, and there is none where no search is left.
fn is_due<'a, W: LogWalk<'a>>(
    rules: &Rules,
    before: Option<u32>,
    left: &W,
    blocks: &[LogEpoch],
    k: usize,
) -> bool
    requires { W.ready left.now }
    ensures { IsTrue result
        ↔ IsDue rules.now before (W.searches left.now (drop k (map block_of blocks.now)))
        (drop k (map block_of blocks.now)) }
{
    let mut ahead = *left;
    if k < blocks.len() {
        take_due(rules, before, &mut ahead, &blocks[k]).is_some()
    } else {
        ahead.next().is_none()
    }
}

/// How many lines a block has.
fn lines_of(epoch: &LogEpoch) -> u32
    requires { lines_in (block_of epoch.now) ≤ 4000000001 }
    ensures { result ≡ lines_in (block_of epoch.now) }
{
    match &epoch.body {
        Some(body) => 3 + epoch.sats.len() as u32 + event_lines(body) + bound_lines(&body.bounds),
        None => 1 + epoch.sats.len() as u32,
    }
}

/// The first fault of a block whose own one is `own_fault`: this one; but where that is told at the
/// first line of the next block, and this block isn't due, 51 comes first.
fn first_of(own_fault: Fault, behind: u32, due: bool) -> Fault
    ensures { (delays : Delays) (rules : Rules) (own : OwnLines) (search : Search)
        (rest : List Search) (block : Block) (more : List Block)
        → EpochFails delays rules search.root own block own_fault
        → (IsTrue due ↔ IsDue rules (Some block.index) rest more)
        → BlockFault delays rules behind own search rest block more result }
{
    if own_fault.line == behind && !due {
        plain_fault(behind, EPOCH_DIFFERS)
    } else {
        own_fault
    }
}

/// Checks a log against a source of rows, walking over the epochs of a file: yes with the number of
/// boxes closed inside or at the edge, or no with the first line that fails a test. A yes means that
/// the log has a block for each search, and that in each paved one the inside and edge boxes keep
/// every point of the root and clock offset that all but at most `outliers` usable satellites are
/// consistent with, and its bounds hold every such point. Each block is tested against the root in
/// which the walk searches its epoch.
pub fn check_with<'a, S: RowSource, W: LogWalk<'a>>(
    alloc: Global,
    source: &S,
    walk: &W,
    rules: &Rules,
    log: &Log,
) -> Result<Verdict, NoMemory>
    requires numbered { IsNumbered (log_value log.now) }
    requires ready { W.ready walk.now }

    ensures yes { IfOk result (λ verdict. IfYes verdict (λ boxes.
        IsAccepted (S.meaning source.now) (W.searches walk.now (log_value log.now).blocks)
        rules.now (log_value log.now) boxes)) }
    ensures no { IfOk result (λ verdict. IfNo verdict (λ fault.
        IsRefused (S.meaning source.now) (W.searches walk.now (log_value log.now).blocks)
        rules.now (log_value log.now) fault)) }
{
    if !are_same_rules(rules, &log.rules) {
        return Ok(Verdict::No(plain_fault(2, RULES_DIFFER)));
    }
    let mut boxes: u64 = 0;
    let mut before: Option<u32> = None;
    let mut next: u32 = 3;
    let mut left = *walk;
    for k in 0..log.epochs.len() {
        let epoch = &log.epochs[k];
        let Some((seen, root)) = take_due(rules, before, &mut left, epoch) else {
            return Ok(Verdict::No(plain_fault(next, EPOCH_DIFFERS)));
        };
        next += lines_of(epoch);
        before = Some(epoch.index);
        if let Some(fault) = check_epoch(alloc, source, seen, rules, &root, epoch)? {
            left.go_on(seen, Some(root));
            let due = is_due(rules, before, &left, &log.epochs, k + 1);
            return Ok(Verdict::No(first_of(fault, next, due)));
        }
        let kept = left.kept_in(alloc, &root, epoch)?;
        left.go_on(seen, kept);
        boxes += kept_boxes(epoch);
    }
    if !is_due(rules, before, &left, &log.epochs, log.epochs.len()) {
        return Ok(Verdict::No(plain_fault(next, EPOCH_DIFFERS)));
    }
    Ok(Verdict::Yes { boxes })
}
