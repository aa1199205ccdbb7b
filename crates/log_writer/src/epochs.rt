//! The head of a log, and its epochs.

ghost use Rattle.std.specs.Prelude.{◌≡◌, ◌+◌, ◌<◌, ◌≤◌, Option, length, map, true};
ghost use Rattle.std.specs.Prelude.{false, None, is_some, Err, IfOk, IfErr};
ghost use Rattle.std.specs.List.{AllByRecursion};
ghost use Rattle.log_writer.specs.Pieces.{alone, head_pieces, version_of};
ghost use Rattle.log_writer.specs.Sizes.{most_sats};
ghost use Rattle.log_writer.specs.Sources.{Serves, source_of};
ghost use Rattle.log_writer.specs.Writing.{Written, Trusts};
ghost use Rattle.log_writer.specs.Wrote.{WroteSteps, WroteRun, WroteBlock, WroteLog, Finished};
ghost use Rattle.outer_io.specs.Sizes.{longest_file};
ghost use Rattle.log_lines.specs.declared.line.Form.TheVariants as form;
ghost use Rattle.log_lines.specs.declared.line.LogLine.TheVariants as line;
ghost use Rattle.log_lines.specs.Rows.{EntryFits, RowFits};
ghost use Rattle.log_lines.specs.Text.{BlockFits};
ghost use Rattle.paving_log.specs.Values.{block_of};
ghost use Rattle.grid_model.specs.Boxes.{grid_box};
ghost use Rattle.sat_model.specs.BoxTests.{test_of};
ghost use Rattle.sat_model.specs.Logs.{rows_of, is_few};

use crate::blocks::Blocks;
use crate::closing::{Search, put_closing};
use crate::fault::WriteFault;
use crate::outcome::Outcome;
use crate::pen::Pen;
use crate::steps::Track;
use crate::wanted::Wanted;
use epoch_report::{Counts4, epoch_text};
use grid_model::{Box3, NoMemory};
use log_lines::{epoch_line, head_lines, root_line, sat_line};
use paving::{Plan, Renewals, StepFault, pave};
use paving_log::{LogEpoch, SatEntry, rows_among};
use sat_model::{Row, Rules};
use std::alloc::Global;

/// The bytes of the first line of a head.
const VERSION_LENGTH: usize = 11;

/// The rows among the satellite lines.
fn rows_in(alloc: Global, sats: &[SatEntry]) -> Result<Vec<Row>, WriteFault>
    ensures rows { IfOk result (λ rows. rows.items ≡ rows_of sats.now) }
    ensures no_memory { IfErr result (λ fault. fault ≡ WriteFault.NoMemory) }
{
    let rows = rows_among(alloc, sats)?;
    Ok(rows)
}

/// What is to be paved by these rows.
fn plan_of(alloc: Global, rows: &[Row], rules: &Rules, root: &Box3) -> Result<Plan, WriteFault>
    requires { (rules.now.outliers + 4 ≤ length rows.now) × (length rows.now ≤ most_sats) }
    ensures test { IfOk result (λ plan. plan.test ≡ test_of rules.now rows.now) }
    ensures rules { IfOk result (λ plan. plan.rules ≡ rules.now) }
    ensures root { IfOk result (λ plan. plan.root ≡ root.now) }
    ensures no_memory { IfErr result (λ fault. fault ≡ WriteFault.NoMemory) }
{
    match Plan::make(alloc, rows, rules, root) {
        Ok(plan) => Ok(plan),
        Err(NoMemory) => Err(WriteFault::NoMemory),
    }
}

/// The version of a log by these rules, whose rows may be renewed or not, with bounds or without.
fn version_for(rules: &Rules, renews: bool, bounded: bool) -> u8
    ensures { result ≡ version_of rules.now renews bounded }
{
    match (bounded, rules.pairs, renews) {
        (true, _, _) => 4,
        (false, true, _) => 3,
        (false, false, true) => 2,
        (false, false, false) => 1,
    }
}

/// Writes the two lines of the head.
fn put_head<P: Pen>(pen: &mut P, wanted: &Wanted, renews: bool) -> Result<(), WriteFault>
    ensures written { Written (P.seen pen.old) (head_pieces (version_of wanted.now.rules renews
        (is_some wanted.now.directions)) wanted.now.rules) result (P.seen pen.new) }
    ensures trust { Trusts (P.trust pen.old) result (P.trust pen.new) }
{
    let version = version_for(&wanted.rules, renews, wanted.directions.is_some());
    let lines = head_lines(version, &wanted.rules);
    let (version, rules_line) = lines.as_bytes().split_at(VERSION_LENGTH);
    pen.put(version, &[])?;
    pen.put(rules_line, &[])
}

/// Writes the satellite lines.
fn put_sats<P: Pen>(pen: &mut P, sats: &[SatEntry]) -> Result<(), WriteFault>
    requires { AllByRecursion EntryFits sats.now }
    ensures written { Written (P.seen pen.old) (map (λ entry. alone (line.Sat entry)) sats.now)
        result (P.seen pen.new) }
    ensures trust { Trusts (P.trust pen.old) result (P.trust pen.new) }
{
    for entry in sats {
        let line = sat_line(entry);
        pen.put(line.as_bytes(), &[])?;
    }
    Ok(())
}

/// Writes the steps of a paving, and the renewals among them, as they are made.
fn pave_on<P: Pen, M: Renewals>(
    track: &mut Track<'_, P>,
    plan: Plan,
    maker: &M,
) -> Result<Outcome, WriteFault>
    requires few { length plan.test.rows ≤ 64 }
    requires rows { AllByRecursion RowFits plan.test.rows }
    requires root { (M.maker maker.now).active ≡ true → M.root maker.now ≡ grid_box plan.root }
    requires sats { (M.maker maker.now).active ≡ true
        → M.sats maker.now ≡ map (λ row. row.sat) plan.test.rows }
    requires none { (track.old.kept ≡ None) × (track.old.renewed ≡ None) }
    ensures written { WroteSteps (M.maker maker.now) plan.test plan.rules (grid_box plan.root)
        (P.seen track.old.pen.now) result (P.seen track.new.pen.now) }
    ensures trust { Trusts (P.trust track.old.pen.now) result (P.trust track.new.pen.now) }
    ensures same { track.new.pen.ghost_name ≡ track.old.pen.ghost_name }
{
    match pave(plan, track, maker) {
        Ok(counts) => Ok(Outcome {
            counts: Counts4 {
                inside: counts.inside,
                edge: counts.edge,
                outside: counts.outside,
                bisections: counts.bisections,
            },
            kept: track.kept,
            renewed: track.renewed,
        }),
        Err(StepFault::Failed) => Err(track.last),
        Err(StepFault::Full) => Err(track.last),
    }
}

/// The same on a pen.
fn put_steps<P: Pen, M: Renewals>(pen: &mut P, plan: Plan, maker: &M) -> Result<Outcome, WriteFault>
    requires few { length plan.test.rows ≤ 64 }
    requires rows { AllByRecursion RowFits plan.test.rows }
    requires root { (M.maker maker.now).active ≡ true → M.root maker.now ≡ grid_box plan.root }
    requires sats { (M.maker maker.now).active ≡ true
        → M.sats maker.now ≡ map (λ row. row.sat) plan.test.rows }
    ensures written { WroteSteps (M.maker maker.now) plan.test plan.rules (grid_box plan.root)
        (P.seen pen.old) result (P.seen pen.new) }
    ensures trust { Trusts (P.trust pen.old) result (P.trust pen.new) }
{
    let mut track = Track {
        pen,
        last: WriteFault::NoMemory,
        kept: None,
        renewed: None,
    };
    pave_on(&mut track, plan, maker)
}

/// Writes the root, its steps and renewals, the number of splits with the total, and the bounds.
fn put_run<P: Pen, M: Renewals>(
    pen: &mut P,
    plan: Plan,
    search: &Search<'_>,
    maker: &M,
) -> Result<Option<Box3>, WriteFault>
    requires plan { (plan.test ≡ test_of search.now.wanted.now.rules search.now.rows.now)
        × (plan.rules ≡ search.now.wanted.now.rules) × (plan.root ≡ search.now.root.now) }
    requires few { length search.now.rows.now ≤ 64 }
    requires rows { AllByRecursion RowFits search.now.rows.now }
    requires root { (M.maker maker.now).active ≡ true
        → M.root maker.now ≡ grid_box search.now.root.now }
    requires sats { (M.maker maker.now).active ≡ true
        → M.sats maker.now ≡ map (λ row. row.sat) search.now.rows.now }
    ensures written { WroteRun search.now.wanted.now.directions (M.maker maker.now)
        (test_of search.now.wanted.now.rules search.now.rows.now) search.now.wanted.now.rules
        (grid_box search.now.root.now) (P.seen pen.old) result (P.seen pen.new) }
    ensures trust { Trusts (P.trust pen.old) result (P.trust pen.new) }
{
    let first = root_line(search.root);
    pen.put(first.as_bytes(), &[])?;
    let done = put_steps(pen, plan, maker)?;
    put_closing(pen, search, &done, maker)?;
    Ok(done.kept)
}

/// Writes an epoch, and paves its root where it has one. Its rows are renewed by the maker, where
/// this is active.
fn put_epoch<P: Pen, M: Renewals>(
    alloc: Global,
    pen: &mut P,
    wanted: &Wanted,
    epoch: &LogEpoch,
    maker: &M,
) -> Result<Option<Box3>, WriteFault>
    requires fits { BlockFits form.Rows (block_of epoch.now) }
    requires enough { is_few (block_of epoch.now) ≡ false
        → wanted.now.rules.outliers + 4 ≤ length (rows_of epoch.now.sats.items) }
    requires serves { (M.maker maker.now).active ≡ true
        → Serves (M.sats maker.now) (M.root maker.now) (block_of epoch.now) }
    ensures written { WroteBlock wanted.now.directions (M.maker maker.now) wanted.now.rules
        (block_of epoch.now) (P.seen pen.old) result (P.seen pen.new) }
    ensures trust { Trusts (P.trust pen.old) result (P.trust pen.new) }
{
    let first = epoch_line(epoch.is_few(), epoch.index, epoch.ps, epoch.n);
    let report = epoch_text(epoch.is_few(), epoch.index, epoch.ps, epoch.n);
    pen.put(first.as_bytes(), report.as_bytes())?;
    put_sats(pen, &epoch.sats)?;
    match &epoch.body {
        Some(body) => {
            let rows = rows_in(alloc, &epoch.sats)?;
            let plan = plan_of(alloc, &rows, &wanted.rules, &body.root)?;
            let search = Search {
                rows: &rows,
                root: &body.root,
                wanted,
            };
            put_run(pen, plan, &search, maker)
        }
        None => Ok(None),
    }
}

/// Writes the head and the blocks, each one before it asks for the next.
fn put_blocks<P: Pen, B: Blocks>(
    alloc: Global,
    wanted: &Wanted,
    blocks: &mut B,
    pen: &mut P,
) -> Result<(), WriteFault>
    requires rules { (B.standing blocks.old).rules ≡ wanted.now.rules }
    requires first { (B.standing blocks.old).before ≡ None }
    requires ready { B.ready blocks.old }
    ensures written { WroteLog (source_of B.gives B.maker wanted.now.directions)
        wanted.now.rules blocks.old blocks.new (B.standing blocks.old).most
        (P.seen pen.old) result (P.seen pen.new) }
    ensures trust { Trusts (P.trust pen.old) result (P.trust pen.new) }
{
    put_head(pen, wanted, blocks.active())?;
    let mut kept = None;
    while let Some(epoch) = blocks.next(alloc, kept)? {
        kept = put_epoch(alloc, pen, wanted, &epoch, &*blocks)?;
    }
    Ok(())
}

/// Writes the log of a source, and sends on all lines that were made where no device failed.
pub(crate) fn put_whole<P: Pen, B: Blocks>(
    alloc: Global,
    wanted: &Wanted,
    blocks: &mut B,
    pen: &mut P,
) -> Result<(), WriteFault>
    requires rules { (B.standing blocks.old).rules ≡ wanted.now.rules }
    requires first { (B.standing blocks.old).before ≡ None }
    requires ready { B.ready blocks.old }
    requires room { (P.seen pen.old).left ≤ longest_file }
    ensures finished { Finished (source_of B.gives B.maker wanted.now.directions)
        wanted.now.rules blocks.old blocks.new (B.standing blocks.old).most
        (P.seen pen.old) result (P.seen pen.new) }
    ensures trust { Trusts (P.trust pen.old) result (P.trust pen.new) }
{
    match put_blocks(alloc, wanted, blocks, pen) {
        Ok(()) => pen.flush(),
        Err(fault) => {
            if fault.is_of_device() {
                return Err(fault);
            }
            pen.flush()?;
            Err(fault)
        }
    }
}
