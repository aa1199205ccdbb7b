//! Rows beside rows of another program.

ghost use Rattle.std.specs.Prelude.{IfSome};
ghost use Rattle.grid_model.specs.Boxes.{grid_box};
ghost use Rattle.grid_model.specs.SearchBoxes.{IsSearchBox};

use crate::inputs::Inputs;
use arrayvec::ArrayString;
use error_bounds::{Centre, Settings};
use gnss_model::spare;
use grid_model::{Box3, NoMemory, Span};
use itoa::Buffer;
use paving_log::LogEpoch;
use rinex_obs::{Obs, ObsEpoch};
use sat_model::{Row, SatEntry};
use sat_rows::{EpochRows, SatLine, rows};
use std::alloc::Global;

/// What was seen.
#[derive(Clone, Copy, Debug)]
pub struct Comparison {
    /// How many satellites were compared.
    pub satellites: u32,
    /// How many of them differ.
    pub differ: u32,
    /// The width of the widest span.
    pub widest: i64,
    /// The greatest width that was allowed.
    pub allowed: i64,
}

impl Comparison {
    /// `satellites N differ M`
    pub fn counts_line(&self) -> ArrayString<128> {
        let mut buffer = Buffer::new();
        let mut line = ArrayString::new();
        line.push_str("satellites ");
        line.push_str(buffer.format(self.satellites));
        line.push_str(" differ ");
        line.push_str(buffer.format(self.differ));
        line.push_str("\n");
        line
    }

    /// `widest W of A`
    pub fn widths_line(&self) -> ArrayString<128> {
        let mut buffer = Buffer::new();
        let mut line = ArrayString::new();
        line.push_str("widest ");
        line.push_str(buffer.format(self.widest));
        line.push_str(" of ");
        line.push_str(buffer.format(self.allowed));
        line.push_str("\n");
        line
    }
}

/// Whether the first span holds the second.
fn holds(theirs: Span, ours: Span) -> bool {
    theirs.lo <= ours.lo && ours.hi <= theirs.hi
}

/// How wide a span is, and 0 where that isn't a number of 64 bits.
fn width(span: Span) -> i64 {
    span.hi.saturating_sub(span.lo)
}

/// The width of the widest of a row's spans.
fn widest(row: &Row) -> i64 {
    width(row.x)
        .max(width(row.y))
        .max(width(row.z))
        .max(width(row.range))
}

/// Whether their line says the same of the satellite, with spans that hold ours.
fn agrees(theirs: &SatEntry, ours: &SatLine) -> bool {
    match (theirs, ours) {
        (SatEntry::Row(a), SatLine::Usable(b)) => {
            a.sat == b.sat
                && holds(a.x, b.x)
                && holds(a.y, b.y)
                && holds(a.z, b.z)
                && holds(a.range, b.range)
                && a.err == b.err
        }
        (SatEntry::Skipped { sat: a, skip: s }, SatLine::Skipped { sat: b, skip: t }) => a == b
            && s == t,
        _ => false,
    }
}

impl Comparison {
    /// Takes in a satellite's lines.
    fn take(&mut self, theirs: &SatEntry, ours: &SatLine) {
        self.satellites = self.satellites.saturating_add(1);
        if let SatLine::Usable(row) = ours {
            self.widest = self.widest.max(widest(row));
        }
        if !agrees(theirs, ours) || self.widest > self.allowed {
            self.differ = self.differ.saturating_add(1);
        }
    }

    /// Takes in a block beside the lines of its epoch.
    fn take_block(&mut self, theirs: &LogEpoch, ours: &EpochRows) {
        if theirs.n != ours.usable || theirs.sats.len() != ours.lines.len() {
            self.differ = self.differ.saturating_add(1);
        }
        for (entry, line) in theirs.sats.iter().zip(&ours.lines) {
            self.take(entry, line);
        }
    }
}

/// The epoch with this number.
fn epoch_of(obs: &Obs, index: u32) -> Option<&ObsEpoch> {
    obs.epochs.iter().find(|epoch| epoch.index == index)
}

/// The search box of settings with a point as its centre.
fn root_of(settings: &Settings) -> Option<Box3>
    ensures { IfSome result (λ root. IsSearchBox (grid_box root)) }
{
    match settings.centre {
        Centre::At(_) => Some(settings.root(None)),
        Centre::Header => None,
    }
}

/// Compares each of their epochs with ours; one that isn't in the file differs, and so do settings
/// whose centre is that of a header.
pub fn compare(alloc: Global, inputs: &Inputs) -> Result<Comparison, NoMemory> {
    let mut seen = Comparison {
        satellites: 0,
        differ: 0,
        widest: 0,
        allowed: 0,
    };
    let Some(root) = root_of(&inputs.settings) else {
        seen.differ = 1;
        return Ok(seen);
    };
    seen.allowed = spare(&root);
    for theirs in &inputs.theirs.epochs {
        match epoch_of(&inputs.obs, theirs.index) {
            Some(epoch) => {
                let ours = rows(alloc, epoch, &inputs.nav, &inputs.settings, &root)?;
                seen.take_block(theirs, &ours);
            }
            None => seen.differ = seen.differ.saturating_add(1),
        }
    }
    Ok(seen)
}
