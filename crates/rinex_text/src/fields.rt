//! Columns of a line, which count from 1. Past the end of a line they read as blank.

ghost use Rattle.std.specs.Prelude.{◌≡◌, ◌≤◌, ◌-◌, ◌+◌, ◌<◌, ◌↔◌, IsTrue, length};
ghost use Rattle.exact_decimal.specs.NumberFields.{is_blank};
ghost use Rattle.std.specs.List.{list_all};
ghost use Rattle.rinex_text.specs.Bodies.{is_printable};
ghost use Rattle.rinex_text.specs.Columns.{column_of, columns_of, trimmed, label_of};

/// What the line has of the columns from `first` to `last`, both included.
pub fn columns(line: &[u8], first: u16, last: u16) -> &[u8]
    ensures value { result.now ≡ columns_of line.now first last }
    ensures width { length result.now ≤ last + 1 - first }
{
    let end = usize::from(last).min(line.len());
    let start = usize::from(first).saturating_sub(1).min(end);
    &line[start..end]
}

/// The byte in a column, a space past the end of the line.
pub fn column(line: &[u8], place: u16) -> u8
    requires { 0 < place }
    ensures { result ≡ column_of line.now place }
{
    match line.get(usize::from(place) - 1) {
        Some(byte) => *byte,
        None => b' ',
    }
}

/// Whether the byte is a space or a tab.
pub fn is_blank_byte(byte: u8) -> bool
    ensures { result ≡ is_blank byte }
{
    byte == b' ' || byte == b'\t'
}

/// The field without the blanks at its end.
fn without_blank_end(field: &[u8]) -> &[u8]
    ensures { result.now ≡ trimmed field.now }
{
    let mut end = field.len();
    'blanks: while end > 0 {
        if !is_blank_byte(field[end - 1]) {
            return &field[..end];
        }
        end -= 1;
    }
    &field[..end]
}

/// The label of a header line: its columns 61 to 80 without trailing blanks.
pub fn label(line: &[u8]) -> &[u8]
    ensures { result.now ≡ label_of line.now }
{
    without_blank_end(columns(line, 61, 80))
}

/// Whether the label of the line is this text.
pub fn is_labelled(line: &[u8], text: &[u8]) -> bool
    ensures { IsTrue result ↔ (label_of line.now ≡ text.now) }
{
    label(line) == text
}

/// Whether the text has blanks alone. Its last byte is asked first, since most lines end with one
/// that isn't blank.
pub fn is_blank_text(text: &[u8]) -> bool
    ensures { result ≡ list_all is_blank text.now }
{
    if let Some(last) = text.last() {
        if !is_blank_byte(*last) {
            return false;
        }
    }
    text.iter().all(|byte| is_blank_byte(*byte))
}

/// Whether each byte is printable ASCII, from 32 to 126. No byte ends the walk, so that the
/// processor takes many at once.
pub fn is_printable_text(text: &[u8]) -> bool
    ensures { result ≡ list_all is_printable text.now }
{
    let mut printable = true;
    for byte in text {
        printable = is_printable_byte(*byte) & printable;
    }
    printable
}

/// Whether the byte is printable ASCII.
fn is_printable_byte(byte: u8) -> bool
    ensures { result ≡ is_printable byte }
{
    32 <= byte && byte <= 126
}
