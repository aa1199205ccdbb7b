//! Lengths and times as text, put behind what a line has.

ghost use Rattle.std.specs.Prelude.{◌≡◌, ◌+◌, ◌<◌, ◌≤◌, ◌∷◌, ◌++◌, length};
ghost use Rattle.std.specs.Fmt.{sign_text};
ghost use Rattle.decimal_digits.specs.Digits.{last_digits};
ghost use Rattle.epoch_report.specs.Metres.{metres_text, seconds_text};

use arrayvec::ArrayString;
use itoa::Buffer;
use log_lines::Line;

const MILLION: u32 = 1_000_000;

const UM_IN_METRE: u64 = 1_000_000;

const PS_IN_SECOND: u128 = 1_000_000_000_000;

const PS_IN_MICROSECOND: u128 = 1_000_000;

/// The six digits of a number below a million, zeros in front included.
fn push_six_digits<const N: usize>(text: &mut ArrayString<N>, number: u32)
    requires few { number < 1000000 }
    requires room { length text.old.bytes + 6 ≤ N }
    ensures pushed { text.new.bytes ≡ text.old.bytes ++ last_digits 6 number }
    ensures length { length text.new.bytes ≡ length text.old.bytes + 6 }
{
    let mut buffer = Buffer::new();
    // The one in front keeps the zeros behind it.
    let behind_one = buffer.format(MILLION + number);
    text.push_str(&behind_one[1..]);
}

/// A minus for a negative number.
fn sign(negative: bool) -> &'static str
    ensures spelled { result.now ≡ sign_text negative }
    ensures length { length result.now ≤ 1 }
{
    if negative { "-" } else { "" }
}

/// A length in um, as metres with six decimals.
fn push_length<const N: usize>(text: &mut ArrayString<N>, um: i64)
    requires { length text.old.bytes + 24 ≤ N }
    ensures pushed { text.new.bytes ≡ text.old.bytes ++ metres_text um }
    ensures length { length text.new.bytes ≤ length text.old.bytes + 24 }
{
    let mut buffer = Buffer::new();
    let amount = um.unsigned_abs();
    text.push_str(sign(um < 0));
    text.push_str(buffer.format(amount / UM_IN_METRE));
    text.push_str(".");
    push_six_digits(text, (amount % UM_IN_METRE) as u32);
}

/// A length in um, as metres with six decimals.
pub fn metres(um: i64) -> ArrayString<24>
    ensures { result.bytes ≡ metres_text um }
{
    let mut text = ArrayString::new();
    push_length(&mut text, um);
    text
}

/// A blank and a length in um, as metres with six decimals.
pub(crate) fn push_metres(line: &mut Line, um: i64)
    requires { length line.old.bytes ≤ 230 }
    ensures pushed { line.new.bytes ≡ line.old.bytes ++ 32 ∷ metres_text um }
    ensures length { length line.new.bytes ≤ length line.old.bytes + 25 }
{
    line.push_str(" ");
    push_length(line, um);
}

/// A blank and a time in ps, as seconds with twelve decimals.
pub(crate) fn push_seconds(line: &mut Line, ps: i128)
    requires { length line.old.bytes ≤ 150 }
    ensures pushed { line.new.bytes ≡ line.old.bytes ++ 32 ∷ seconds_text ps }
    ensures length { length line.new.bytes ≤ length line.old.bytes + 65 }
{
    let mut buffer = Buffer::new();
    let amount = ps.unsigned_abs();
    line.push_str(" ");
    line.push_str(sign(ps < 0));
    line.push_str(buffer.format(amount / PS_IN_SECOND));
    line.push_str(".");
    push_six_digits(line, (amount / PS_IN_MICROSECOND % 1_000_000) as u32);
    push_six_digits(line, (amount % PS_IN_MICROSECOND) as u32);
}
