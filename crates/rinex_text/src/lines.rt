//! The lines of a file.

ghost use Rattle.std.specs.Prelude.{◌≡◌, ◌≤◌, ◌<◌, ◌+◌, ◌∷◌, [], length, IfSome, IfNone};
ghost use Rattle.rinex_text.specs.Lines.{lines_of};
ghost use Rattle.rinex_text.specs.LineEnds.{ends_with_cr, without_cr};
ghost use Rattle.memchr.specs.Find.{IsFirstByte, is_byte};

use memchr::memchr_iter;

/// A line.
#[derive(Clone, Copy)]
pub struct Line<'a> {
    /// The line without LF, and without one CR before it.
    pub text: &'a [u8],
    /// The number of its bytes without LF.
    pub size: usize,
}

/// What is left of a file, and the number of its first line.
#[derive(Clone, Copy)]
pub struct Lines<'a> {
    pub rest: &'a [u8],
    pub number: u32,
    pub ghost room: { number + length rest.now ≤ 4000000001 },
}

/// Whether the last byte is CR.
fn ends_with_cr(line: &[u8]) -> bool
    ensures { result ≡ ends_with_cr line.now }
{
    match line.last() {
        Some(byte) => *byte == b'\r',
        None => false,
    }
}

/// The line without one CR at its end.
fn without_cr(line: &[u8]) -> &[u8]
    ensures { result.now ≡ without_cr line.now }
{
    if ends_with_cr(line) {
        &line[..line.len() - 1]
    } else {
        line
    }
}

/// Where the first LF is. The iterator looks at the next few bytes first, where `memchr` itself
/// reads far past the end of a line of 80 bytes.
#[inline]
fn first_lf(text: &[u8]) -> Option<usize>
    ensures { IsFirstByte (is_byte 10) text.now result }
{
    memchr_iter(b'\n', text).next()
}

impl<'a> Lines<'a> {
    ghost use Rattle.rinex_text.specs.Reading.{plain_line, lines_left, IsNextLine};

    /// The lines of a file of at most 4 * 10^9 bytes.
    pub fn new(bytes: &'a [u8]) -> Lines<'a>
        requires { length bytes.now ≤ 4000000000 }
        ensures lines { lines_left result ≡ lines_of bytes.now }
        ensures number { result.number ≡ 1 }
    {
        Lines {
            rest: bytes,
            number: 1,
        }
    }

    /// The next line and the lines behind it, none at the end.
    pub fn split_first(self) -> Option<(Line<'a>, Lines<'a>)>
        ensures line { IfSome result (λ t. lines_left self.entry ≡ plain_line t.0
            ∷ lines_left t.1) }
        ensures number { IfSome result (λ t. t.1.number ≡ self.entry.number + 1) }
        ensures shorter { IfSome result (λ t. length t.1.rest.now < length self.entry.rest.now) }
        ensures end { IfNone result (lines_left self.entry ≡ []) }
    {
        if self.rest.is_empty() {
            return None;
        }
        let number = self.number + 1;
        match first_lf(self.rest) {
            Some(end) => {
                let line = Line {
                    text: without_cr(&self.rest[..end]),
                    size: end,
                };
                let rest = &self.rest[end + 1..];
                Some((line, Lines { rest, number }))
            }
            None => {
                let line = Line {
                    text: self.rest,
                    size: self.rest.len(),
                };
                Some((line, Lines { rest: &[], number }))
            }
        }
    }

    /// The number and the text of the next line, none at the end.
    pub fn next(&mut self) -> Option<(u32, &'a [u8])>
        ensures line { IfSome result (λ t. IsNextLine self.old t.0 t.1.now self.new) }
        ensures end { IfNone result ((lines_left self.old ≡ []) × (self.new ≡ self.old)) }
    {
        let number = self.number;
        let (line, behind) = self.split_first()?;
        *self = behind;
        Some((number, line.text))
    }
}
