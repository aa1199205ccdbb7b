//! The first line of an epoch or an event.

ghost use Rattle.std.specs.Prelude.{◌≡◌, ◌↔◌, ◌^◌, ◌≤◌, ◌<◌, ◌≤ℤ◌, ◌<ℤ◌, ℕ, ℤ, pos, neg_ℤ, IsTrue};
ghost use Rattle.std.specs.Prelude.{IfOk, IfSome, IfNone};
ghost use Rattle.rinex_text.specs.Columns.{columns_of};
ghost use Rattle.rinex_text.specs.Reading.{plain_line};
ghost use Rattle.rinex_obs.specs.Epochs.{IsSeconds, IsTag, flag_of, IsFlag, IsLineCount};
ghost use Rattle.rinex_obs.specs.Epochs.{in_order, head_line};
ghost use Rattle.rinex_obs.specs.declared.head.Head.TheVariants.{Epoch};
ghost use Rattle.rinex_obs.specs.Reading.{AreTenths, IsHeadBehind};

use exact_decimal::{Decimal, read_fixed};
use rinex_text::{
    Fault, Line, column, columns, four_digits, gps_ps, is_blank_byte, is_blank_text,
    is_printable_text, is_short, three_digits, two_digits,
};

/// The most epochs of a file.
const MOST_EPOCHS: usize = 200_000;

/// A minute, in 10^-7 s.
const MINUTE: i64 = 600_000_000;

/// The first line of an epoch or an event, and the number of the lines behind it.
#[derive(Clone, Copy)]
pub enum Head {
    /// The receiver's time, in ps since 1980-01-06 00:00:00 GPS time.
    Epoch { tag: i128, lines: u16 },
    /// Whether the labels of the lines are looked at.
    Event { labelled: bool, lines: u16 },
}

/// A power of ten.
fn ten_to(places: u8) -> u64
    requires { places ≤ 7 }
    ensures value { result ≡ 10 ^ places }
    ensures bound { result ≤ 10000000 }
{
    10_u64.pow(u32::from(places))
}

/// The number of decimals for a power of ten, where it is at most 7.
fn few_decimals(ten: i8) -> Option<u8>
    ensures decimals { IfSome result (λ n. ten ≡ neg_ℤ (pos n)) }
    ensures few { IfSome result (λ n. n ≤ 7) }
    ensures none { IfNone result ((n : ℕ) → ten ≡ neg_ℤ (pos n) → n ≤ 7 → ⊥) }
{
    if ten < -7 {
        return None;
    }
    if ten > 0 {
        return None;
    }
    Some((-ten) as u8)
}

/// The number, where it is from 0 to under the number of 10^-7 s in a minute.
fn under_minute(digits: i64) -> Option<u64>
    ensures digits { IfSome result (λ n. digits ≡ pos n) }
    ensures under { IfSome result (λ n. n < 600000000) }
    ensures none { IfNone result ((n : ℕ) → digits ≡ pos n → n < 600000000 → ⊥) }
{
    if digits < 0 {
        return None;
    }
    if digits >= MINUTE {
        return None;
    }
    Some(digits as u64)
}

/// A number of seconds in 10^-7 s, where it has at most 7 decimals and is from 0 to under 60.
fn in_tenths(number: Decimal) -> Option<u64>
    ensures tenths { IfSome result (AreTenths number) }
    ensures none { IfNone result ((tenths : ℕ) → AreTenths number tenths → ⊥) }
{
    let decimals = few_decimals(number.ten)?;
    let digits = under_minute(number.digits)?;
    let tenths = digits * ten_to(7 - decimals);
    if tenths >= MINUTE as u64 {
        return None;
    }
    Some(tenths)
}

/// The seconds in columns 19 to 29, in 10^-7 s.
fn seconds(text: &[u8]) -> Option<u64>
    ensures tenths { IfSome result (IsSeconds (columns_of text.now 19 29)) }
    ensures none { IfNone result ((tenths : ℕ) → IsSeconds (columns_of text.now 19 29) tenths → ⊥) }
{
    match read_fixed(columns(text, 19, 29)) {
        Ok(Some(number)) => in_tenths(number),
        _ => None,
    }
}

/// The time of an epoch, in ps since 1980-01-06 00:00:00 GPS time.
fn tag(text: &[u8]) -> Option<i128>
    ensures tag { IfSome result (IsTag text.now) }
    ensures none { IfNone result ((tag : ℤ) → IsTag text.now tag → ⊥) }
    ensures from { IfSome result (λ tag. pos 0 ≤ℤ tag) }
    ensures under { IfSome result (λ tag. tag <ℤ pos 4000000000000000000000) }
{
    let year = four_digits(text, 3)?;
    let month = two_digits(text, 8)?;
    let day = two_digits(text, 11)?;
    let hour = two_digits(text, 14)?;
    let minute = two_digits(text, 17)?;
    let tenths = seconds(text)?;
    match gps_ps(year, month, day, hour, minute, tenths) {
        Ok(tag) => Some(tag),
        Err(_) => None,
    }
}

/// The digit of the flag in column 32; blank is `0`.
fn flag_digit(text: &[u8]) -> u8
    ensures { result ≡ flag_of text.now }
{
    let byte = column(text, 32);
    if is_blank_byte(byte) {
        return b'0';
    }
    byte
}

/// Whether the byte is a digit from `0` to `6`.
fn is_flag(byte: u8) -> bool
    ensures { IsTrue result ↔ IsFlag byte }
{
    b'0' <= byte && byte <= b'6'
}

/// The number of lines in columns 33 to 35; blank is none.
fn line_count(text: &[u8]) -> Option<u16>
    ensures lines { IfSome result (IsLineCount (columns_of text.now 33 35)) }
    ensures none { IfNone result ((lines : ℕ) → IsLineCount (columns_of text.now 33 35) lines → ⊥) }
{
    if is_blank_text(columns(text, 33, 35)) {
        return Some(0);
    }
    three_digits(text, 33)
}

/// An epoch, where its time is later than the one before or none is told.
fn in_order(before: Option<i128>, tag: i128, lines: u16) -> Result<Head, Fault>
    ensures order { in_order before tag lines result }
    ensures epoch { IfOk result (λ head. head ≡ Epoch tag lines) }
{
    let Some(before) = before else {
        return Ok(Head::Epoch { tag, lines });
    };
    if tag <= before {
        return Err(Fault::NotRising);
    }
    Ok(Head::Epoch { tag, lines })
}

/// The first line of an epoch or an event, behind so many epochs. The time of an epoch has to be
/// later than the one before, where that is told.
pub fn head_line(line: Line<'_>, count: usize, before: Option<i128>) -> Result<Head, Fault>
    ensures line { head_line count before (plain_line line.entry) result }
    ensures behind { IfOk result (IsHeadBehind count) }
{
    if !is_short(line) {
        return Err(Fault::LongLine);
    }
    if !is_printable_text(line.text) {
        return Err(Fault::NotAscii);
    }
    if column(line.text, 1) != b'>' {
        return Err(Fault::BadEpoch);
    }
    let flag = flag_digit(line.text);
    if !is_flag(flag) {
        return Err(Fault::BadEpoch);
    }
    let Some(lines) = line_count(line.text) else {
        return Err(Fault::BadCount);
    };
    if flag > b'1' {
        let labelled = flag <= b'5';
        return Ok(Head::Event { labelled, lines });
    }
    let Some(tag) = tag(line.text) else {
        return Err(Fault::BadEpoch);
    };
    if count >= MOST_EPOCHS {
        return Err(Fault::TooMany);
    }
    in_order(before, tag, lines)
}
