//! The tests of a block's own lines: its first line, and its satellites.

ghost use Rattle.std.specs.Prelude.{◌≡◌, ◌+◌, ◌↔◌, length, IsTrue, MatchOption, Contains, map};
ghost use Rattle.std.specs.Prelude.{None};
ghost use Rattle.sat_model.specs.Logs.{sat_of, rows_of};
ghost use Rattle.sat_model.specs.Verdicts.{IsLater, SuitsNumber, HeadPasses, HeadFails};
ghost use Rattle.sat_model.specs.Verdicts.{NoneRepeats, IsFirstRepeat};
ghost use Rattle.paving_log.specs.RowsText.{IsNumberedIn, OwnPasses, OwnFails, AllOwnPass};
ghost use Rattle.paving_log.specs.RowsText.{HasOwnFault, has_row};
ghost use Rattle.log_lines.specs.declared.line.Form.TheVariants as form;
ghost use Rattle.paving_log.specs.Values.{block_of, log_value};

use crate::log::{Log, LogEpoch};
use gnss_model::Sat;
use sat_model::{Rules, SatEntry};

/// An epoch's index isn't greater than the one before, or its number of satellites doesn't suit it.
pub const EPOCH_DIFFERS: u8 = 51;
/// An epoch's number isn't that of its rows, or a satellite is named twice.
pub const SATELLITE_DIFFERS: u8 = 52;

/// A line that fails: how far it is behind the first of its lines, and the least number of a test
/// that fails there.
#[derive(Clone, Copy, Debug, PartialEq, Eq)]
pub struct LineFault {
    pub offset: usize,
    pub number: u8,
}

/// Whether an index is greater than that of the block before.
pub fn is_later(before: Option<u32>, index: u32) -> bool
    ensures { IsTrue result ↔ IsLater before index }
{
    match before {
        Some(last) => last < index,
        None => true,
    }
}

/// Whether a block, of few satellites or not, may have so many.
pub fn suits(few: bool, q: u8, n: u32) -> bool
    ensures { IsTrue result ↔ SuitsNumber few q n }
{
    let enough = u32::from(q) + 4;
    if few { n < enough } else { enough <= n }
}

/// Whether a satellite line has a row.
fn is_row(entry: &SatEntry) -> bool
    ensures { result ≡ has_row entry.now }
{
    matches!(entry, SatEntry::Row(_))
}

/// How many satellite lines have a row.
#[tactic(auto, using(crate::proofs::OwnLemmas::count_rows))]
pub fn rows_in(sats: &[SatEntry]) -> usize
    ensures { result ≡ length (rows_of sats.now) }
{
    sats.iter().filter(|entry| is_row(entry)).count()
}

/// The number of the first test that the block's first line fails.
fn head_fault(rules: &Rules, before: Option<u32>, epoch: &LogEpoch) -> Option<u8>
    ensures { MatchOption result (HeadPasses rules.now before (block_of epoch.now))
        (λ number. HeadFails rules.now before (block_of epoch.now) number) }
{
    let few = epoch.is_few();
    if !is_later(before, epoch.index) || !suits(few, rules.outliers, epoch.n) {
        return Some(EPOCH_DIFFERS);
    }
    if !few && rows_in(&epoch.sats) != epoch.n as usize {
        return Some(SATELLITE_DIFFERS);
    }
    None
}

/// The satellite of a line.
fn satellite(entry: &SatEntry) -> Sat
    ensures { result ≡ sat_of entry.now }
{
    match entry {
        SatEntry::Row(row) => row.sat,
        SatEntry::Skipped { sat, .. } => *sat,
    }
}

/// Whether a line names the satellite.
fn names(sats: &[SatEntry], sat: Sat) -> bool
    ensures { IsTrue result ↔ Contains (map sat_of sats.now) sat }
{
    for entry in sats {
        if satellite(entry) == sat {
            return true;
        }
    }
    false
}

/// The first line that names the satellite of a line before it.
pub fn first_repeat(sats: &[SatEntry]) -> Option<usize>
    ensures { MatchOption result (NoneRepeats sats.now) (λ k. IsFirstRepeat sats.now k) }
{
    for (k, entry) in sats.iter().enumerate() {
        if names(&sats[..k], satellite(entry)) {
            return Some(k);
        }
    }
    None
}

/// The first line of the block that fails a test of its own lines, behind a block of the index
/// `before`: the index isn't greater than that one, the number of satellites doesn't suit the kind
/// of block or, in an epoch's block, isn't that of its rows, or a satellite is named twice.
pub fn own_fault(rules: &Rules, before: Option<u32>, epoch: &LogEpoch) -> Option<LineFault>
    ensures { MatchOption result (OwnPasses rules.now before (block_of epoch.now))
        (λ fault. OwnFails rules.now before (block_of epoch.now) (epoch.now.line
        + fault.offset) fault.number) }
{
    if let Some(number) = head_fault(rules, before, epoch) {
        return Some(LineFault { offset: 0, number });
    }
    let k = first_repeat(&epoch.sats)?;
    Some(LineFault {
        offset: 1 + k,
        number: SATELLITE_DIFFERS,
    })
}

/// The number of the first line that fails such a test.
pub(crate) fn first_own_fault(log: &Log) -> Option<u32>
    requires { IsNumberedIn form.Rows 3 (log_value log.now).blocks }
    ensures { MatchOption result (AllOwnPass log.now.rules None (log_value log.now).blocks)
        (λ line. HasOwnFault (log_value log.now) line) }
{
    let mut before: Option<u32> = None;
    for epoch in &log.epochs {
        if let Some(fault) = own_fault(&log.rules, before, epoch) {
            return Some(epoch.line + fault.offset as u32);
        }
        before = Some(epoch.index);
    }
    None
}
