//! The lines that are told of epochs and zones.

ghost use Rattle.std.specs.Prelude.{◌≡◌, ◌++◌, length, ◌+◌, ◌≤◌};
ghost use Rattle.zone_guard.specs.Texts.{answer_text, zone_text, few_text, extent_text, reach_text};
ghost use Rattle.zone_guard.specs.Texts.{finding_text, counts_text, whole_text};

use crate::found::{Counts, Finding};
use crate::planes::Extent;
use crate::zone::{Zone, ZoneAnswer};
use arrayvec::ArrayString;
use itoa::Buffer;
pub use log_lines::Line;

/// The word for an answer.
fn word_of(found: &ZoneAnswer) -> &'static str
    ensures word { result.now ≡ answer_text found.now }
    ensures short { length result.now ≤ 7 }
{
    match found {
        ZoneAnswer::Outside => "outside",
        ZoneAnswer::Inside => "inside",
        ZoneAnswer::Open => "open",
    }
}

/// `epoch INDEX zone NAME ANSWER`.
pub fn zone_line(index: u32, zone: &Zone, found: &ZoneAnswer) -> Line
    ensures { result.bytes ≡ zone_text index zone.now.name.bytes found.now }
{
    answer_line(index, &zone.name, found)
}

/// The same of any zone with this name.
fn answer_line(index: u32, name: &ArrayString<16>, found: &ZoneAnswer) -> Line
    ensures { result.bytes ≡ zone_text index name.now.bytes found.now }
{
    let mut buffer = Buffer::new();
    let mut line = Line::new();
    line.push_str("epoch ");
    line.push_str(buffer.format(index));
    line.push_str(" zone ");
    line.push_str(name.as_str());
    line.push_str(" ");
    line.push_str(word_of(found));
    line.push_str("\n");
    line
}

/// `epoch INDEX few`.
pub fn few_line(index: u32) -> Line
    ensures { result.bytes ≡ few_text index }
{
    let mut buffer = Buffer::new();
    let mut line = Line::new();
    line.push_str("epoch ");
    line.push_str(buffer.format(index));
    line.push_str(" few\n");
    line
}

/// The ends of a reach, or `none`.
fn push_extent(line: &mut Line, found: &Option<Extent>)
    requires { length line.old.bytes + 128 ≤ 256 }
    ensures bytes { line.new.bytes ≡ line.old.bytes ++ extent_text found.now }
    ensures short { length line.new.bytes ≤ length line.old.bytes + 82 }
{
    match found {
        None => line.push_str("none"),
        Some(extent) => {
            let mut buffer = Buffer::new();
            line.push_str(buffer.format(extent.least));
            line.push_str(" ");
            line.push_str(buffer.format(extent.greatest));
        }
    }
}

/// `epoch INDEX reach NAME LO HI`.
fn reach_line(index: u32, name: &ArrayString<16>, found: &Option<Extent>) -> Line
    ensures { result.bytes ≡ reach_text index name.now.bytes found.now }
{
    let mut buffer = Buffer::new();
    let mut line = Line::new();
    line.push_str("epoch ");
    line.push_str(buffer.format(index));
    line.push_str(" reach ");
    line.push_str(name.as_str());
    line.push_str(" ");
    push_extent(&mut line, found);
    line.push_str("\n");
    line
}

/// What is told of a zone or a direction in an epoch: `epoch INDEX zone NAME ANSWER`, or `epoch
/// INDEX reach NAME` with the ends of the reach or `none`.
pub fn finding_line(index: u32, name: &ArrayString<16>, found: &Finding) -> Line
    ensures { result.bytes ≡ finding_text index name.now.bytes found.now }
{
    match found {
        Finding::Zone(answer) => answer_line(index, name, answer),
        Finding::Reach(extent) => reach_line(index, name, extent),
    }
}

/// `zone NAME outside A inside B open C few D`.
pub fn counts_line(name: &ArrayString<16>, counts: &Counts) -> Line
    ensures { result.bytes ≡ counts_text name.now.bytes counts.now }
{
    let mut buffer = Buffer::new();
    let mut line = Line::new();
    line.push_str("zone ");
    line.push_str(name.as_str());
    line.push_str(" outside ");
    line.push_str(buffer.format(counts.outside));
    line.push_str(" inside ");
    line.push_str(buffer.format(counts.inside));
    line.push_str(" open ");
    line.push_str(buffer.format(counts.undecided));
    line.push_str(" few ");
    line.push_str(buffer.format(counts.few));
    line.push_str("\n");
    line
}

/// `reach NAME` with the ends of the reach over all epochs, or `none`.
pub fn whole_line(name: &ArrayString<16>, found: &Option<Extent>) -> Line
    ensures { result.bytes ≡ whole_text name.now.bytes found.now }
{
    let mut line = Line::new();
    line.push_str("reach ");
    line.push_str(name.as_str());
    line.push_str(" ");
    push_extent(&mut line, found);
    line.push_str("\n");
    line
}
