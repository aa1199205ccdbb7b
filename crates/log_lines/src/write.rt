//! The lines of a log, each in its one spelling with its LF. They take no memory.

ghost use Rattle.std.specs.Prelude.{◌≡◌, ◌+◌, ◌<◌, ◌≤◌, ◌/◌, ◌%◌, [], ◌∷◌, ◌++◌, length};
ghost use Rattle.std.specs.Fmt.{decimal, signed_decimal};
ghost use Rattle.grid_model.specs.Boxes.{grid_box};
ghost use Rattle.sat_model.specs.Logs.{sat_of};
ghost use Rattle.grid_model.specs.Sizes.{IsErrorSize};
ghost use Rattle.log_lines.specs.declared.line.LogLine.TheVariants as line;
ghost use Rattle.sat_model.specs.declared.rows.SatEntry.TheVariants as entry;
ghost use Rattle.log_tokens.specs.Words.{joined};
ghost use Rattle.log_tokens.specs.Fields.{span_words};
ghost use Rattle.log_lines.specs.Rows.{corners_of, root_words, error_words};
ghost use Rattle.log_lines.specs.Lines.{line_text, text_of};
ghost use Rattle.log_lines.specs.Text.{first_line, head_lines};

use crate::rows::has_ends;
use gnss_model::{Sat, Skip};
use grid_model::{Box3, Pos, Span};
use itoa::Buffer;
use sat_model::{Row, Rules, SatEntry};
use step_lines::{Line, push_number, push_numbers, push_three};

/// The line of the number of splits.
pub fn done_line(bisections: u32) -> Line
    ensures { result.bytes ≡ line_text (line.Done bisections) ++ 10 ∷ [] }
{
    let mut line = Line::new();
    line.push_str("done");
    push_number(&mut line, i64::from(bisections));
    line.push_str("\n");
    line
}

/// The two lines of the head. The version tells whether the rules have pairs.
pub fn head_lines(version: u8, rules: &Rules) -> Line
    ensures { result.bytes ≡ text_of (head_lines version rules.now) }
{
    let mut line = Line::new();
    line.push_str("gpscover");
    push_number(&mut line, i64::from(version));
    line.push_str("\nrules");
    push_numbers(
        &mut line,
        i64::from(rules.outliers),
        i64::from(rules.bisections),
    );
    push_number(&mut line, rules.width);
    line.push_str("\n");
    line
}

/// The first line of a block: its index, its tag in ps, and the number of satellites that count.
pub fn epoch_line(few: bool, index: u32, ps: i128, n: u32) -> Line
    ensures { result.bytes ≡ line_text (first_line few (record { index = index; ps = ps; n = n }))
        ++ 10 ∷ [] }
{
    let mut line = Line::new();
    if few {
        line.push_str("few");
    } else {
        line.push_str("epoch");
    }
    push_header(&mut line, index, ps, n);
    line.push_str("\n");
    line
}

/// The three numbers of a block's first line.
fn push_header(line: &mut Line, index: u32, ps: i128, n: u32)
    requires { length line.old.bytes ≤ 100 }
    ensures pushed { line.new.bytes ≡ line.old.bytes ++ 32
        ∷ (decimal index ++ 32 ∷ (signed_decimal ps ++ 32 ∷ decimal n)) }
    ensures length { length line.new.bytes ≤ length line.old.bytes + 83 }
{
    let mut buffer = Buffer::new();
    push_number(line, i64::from(index));
    line.push_str(" ");
    line.push_str(buffer.format(ps));
    push_number(line, i64::from(n));
}

/// The coordinates of a point.
fn push_pos(line: &mut Line, point: Pos)
    requires { length line.old.bytes ≤ 193 }
    ensures pushed { line.new.bytes ≡ line.old.bytes ++ 32
        ∷ (signed_decimal point.x ++ 32 ∷ (signed_decimal point.y ++ 32 ∷ signed_decimal point.z)) }
    ensures length { length line.new.bytes ≤ length line.old.bytes + 63 }
{
    push_three(line, point.x, point.y, point.z);
}

/// The low and the high corner of a box.
fn push_box(line: &mut Line, part: &Box3)
    requires { length line.old.bytes ≤ 100 }
    ensures pushed { line.new.bytes ≡ line.old.bytes ++ 32
        ∷ joined (root_words (corners_of (grid_box part.now))) }
    ensures length { length line.new.bytes ≤ length line.old.bytes + 126 }
{
    push_pos(line, part.lo);
    push_pos(line, part.hi);
}

/// The line of the box of a renewal. The satellite lines of its rows stand behind it.
pub fn renew_line(part: &Box3) -> Line
    ensures { result.bytes ≡ line_text (line.Renew (corners_of (grid_box part.now))) ++ 10 ∷ [] }
{
    let mut line = Line::new();
    line.push_str("renew");
    push_box(&mut line, part);
    line.push_str("\n");
    line
}

/// The line of a root: its low and its high corner.
pub fn root_line(root: &Box3) -> Line
    ensures { result.bytes ≡ line_text (line.Root (corners_of (grid_box root.now))) ++ 10 ∷ [] }
{
    let mut line = Line::new();
    line.push_str("root");
    push_box(&mut line, root);
    line.push_str("\n");
    line
}

/// An ASCII character.
fn push_ascii(line: &mut Line, byte: u8)
    requires { length line.old.bytes ≤ 250 }
    ensures pushed { byte < 128 → line.new.bytes ≡ line.old.bytes ++ byte ∷ [] }
    ensures length { length line.new.bytes ≤ length line.old.bytes + 4 }
{
    line.push(char::from(byte));
}

/// A blank and a satellite: the letter of its system, and its number in two digits.
fn push_sat(line: &mut Line, sat: Sat)
    requires { length line.old.bytes ≤ 100 }
    ensures pushed { sat.system < 128 → line.new.bytes ≡ line.old.bytes ++ 32
        ∷ (sat.system ∷ (48 + sat.number / 10) ∷ (48 + sat.number % 10) ∷ []) }
    ensures length { length line.new.bytes ≤ length line.old.bytes + 13 }
{
    line.push_str(" ");
    push_ascii(line, sat.system);
    push_ascii(line, b'0' + sat.number / 10);
    push_ascii(line, b'0' + sat.number % 10);
}

/// The two ends of a span.
fn push_span(line: &mut Line, span: Span)
    requires { length line.old.bytes ≤ 214 }
    ensures pushed { line.new.bytes ≡ line.old.bytes ++ 32
        ∷ (signed_decimal span.lo ++ 32 ∷ signed_decimal span.hi) }
    ensures length { length line.new.bytes ≤ length line.old.bytes + 42 }
{
    push_numbers(line, span.lo, span.hi);
}

/// The spans of a row's place.
fn push_place(line: &mut Line, row: &Row)
    requires { length line.old.bytes ≤ 100 }
    ensures pushed { line.new.bytes ≡ line.old.bytes ++ 32
        ∷ joined (span_words row.now.x ++ (span_words row.now.y ++ span_words row.now.z)) }
    ensures length { length line.new.bytes ≤ length line.old.bytes + 126 }
{
    push_span(line, row.x);
    push_span(line, row.y);
    push_span(line, row.z);
}

/// Two numbers of at most 10^12 in amount, each behind a blank.
fn push_errors(line: &mut Line, low: i64, high: i64)
    requires room { length line.old.bytes ≤ 214 }
    requires low { IsErrorSize low }
    requires high { IsErrorSize high }
    ensures pushed { line.new.bytes ≡ line.old.bytes ++ 32
        ∷ (signed_decimal low ++ 32 ∷ signed_decimal high) }
    ensures length { length line.new.bytes ≤ length line.old.bytes + 30 }
{
    push_numbers(line, low, high);
}

/// The span of a row's error, and what is surely allowed of it, where these are other ends.
fn push_bounds(line: &mut Line, row: &Row)
    requires { length line.old.bytes ≤ 184 }
    ensures pushed { line.new.bytes ≡ line.old.bytes ++ 32 ∷ joined (error_words row.now) }
    ensures length { length line.new.bytes ≤ length line.old.bytes + 60 }
{
    push_errors(line, row.err.lo, row.err.hi);
    if has_ends(&row.err, row.sure_lo, row.sure_hi) {
        return;
    }
    push_errors(line, row.sure_lo, row.sure_hi);
}

fn row_line(row: &Row) -> Line
    ensures { row.now.sat.system < 128 → result.bytes ≡ line_text (line.Sat (entry.Row row.now))
        ++ 10 ∷ [] }
{
    let mut line = Line::new();
    line.push_str("sat");
    push_sat(&mut line, row.sat);
    push_place(&mut line, row);
    push_span(&mut line, row.range);
    push_bounds(&mut line, row);
    line.push_str("\n");
    line
}

fn skip_line(sat: Sat, skip: Skip) -> Line
    ensures { sat.system < 128 → result.bytes ≡ line_text (line.Sat (entry.Skipped sat skip)) ++ 10
        ∷ [] }
{
    let mut line = Line::new();
    line.push_str("skip");
    push_sat(&mut line, sat);
    push_number(&mut line, i64::from(skip.number));
    if skip.field > 0 {
        push_number(&mut line, i64::from(skip.field));
    }
    line.push_str("\n");
    line
}

/// A satellite line, where the letter of the system is an ASCII character.
pub fn sat_line(entry: &SatEntry) -> Line
    ensures { (sat_of entry.now).system < 128 → result.bytes ≡ line_text (line.Sat entry.now) ++ 10
        ∷ [] }
{
    match entry {
        SatEntry::Row(row) => row_line(row),
        SatEntry::Skipped { sat, skip } => skip_line(*sat, *skip),
    }
}
