//! What the data of a Galileo record come from, and its health.

ghost use Rattle.std.specs.Prelude.{ℕ, ◌≡◌, ◌⊎◌, ◌↔◌, ◌/◌, ◌%◌, IsTrue, IfSome, IfNone};
ghost use Rattle.rinex_nav.specs.Sources.{IsWhole, IsFnav, IsInav, IsOf, IsKept, is_inav};
ghost use Rattle.rinex_nav.specs.Sources.{is_zero, AreClear, IsHealthy};

use exact_decimal::{Decimal, Unit, to_unit_between};
use gnss_model::{Message, Sat};

/// One, in 10^-6.
const ONE: u32 = 1_000_000;

/// The greatest number of ten bits, in 10^-6.
const GREATEST: i128 = 1_023_000_000;

/// The number, where it is a whole one from 0 to 1,023.
fn whole(number: &Decimal) -> Option<u16>
    ensures value { IfSome result (IsWhole number.now) }
    ensures none { IfNone result ((value : ℕ) → IsWhole number.now value → ⊥) }
{
    let held = to_unit_between(*number, Unit::Length, 0, GREATEST)?;
    if held.lo != held.hi {
        return None;
    }
    let millionths = held.lo as u32;
    if millionths % ONE != 0 {
        return None;
    }
    Some((millionths / ONE) as u16)
}

/// Whether bits 1 and 8 are set.
fn has_bits(value: u16) -> bool
    ensures { IsTrue result ↔ ((value / 2 % 2 ≡ 1) × (value / 256 % 2 ≡ 1)) }
{
    value / 2 % 2 == 1 && value / 256 % 2 == 1
}

/// Whether the bits of F/NAV on E5a and of the clock for E1 and E5a are set.
fn is_fnav(source: &Decimal) -> bool
    ensures { IsTrue result ↔ IsFnav source.now }
{
    let Some(value) = whole(source) else {
        return false;
    };
    has_bits(value)
}

/// Whether bits 0 or 2 and bit 9 are set, and bits 1 and 8 aren't.
fn has_inav_bits(value: u16) -> bool
    ensures { IsTrue result ↔ (((value % 2 ≡ 1) ⊎ (value / 4 % 2 ≡ 1)) × (value / 512 % 2 ≡ 1)
        × (value / 2 % 2 ≡ 0) × (value / 256 % 2 ≡ 0)) }
{
    (value % 2 == 1 || value / 4 % 2 == 1)
        && value / 512 % 2 == 1
        && value / 2 % 2 == 0
        && value / 256 % 2 == 0
}

/// Whether the bits of I/NAV and of the clock for E1 and E5b are set, and no others of these.
fn is_inav_source(source: &Decimal) -> bool
    ensures { IsTrue result ↔ IsInav source.now }
{
    let Some(value) = whole(source) else {
        return false;
    };
    has_inav_bits(value)
}

/// Whether the record is of the message whose records are kept.
fn is_of(galileo: Option<Message>, source: &Decimal) -> bool
    ensures { IsTrue result ↔ IsOf galileo source.now }
{
    match galileo {
        None => false,
        Some(Message::Fnav) => is_fnav(source),
        Some(Message::Inav) => is_inav_source(source),
    }
}

/// Whether a record is kept.
pub fn is_kept(galileo: Option<Message>, sat: Sat, source: &Decimal) -> bool
    ensures { IsTrue result ↔ IsKept galileo sat source.now }
{
    sat.system != b'E' || is_of(galileo, source)
}

/// Whether the letter is that of Galileo, whose records of I/NAV are kept.
pub fn is_inav(galileo: Option<Message>, system: u8) -> bool
    ensures { result ≡ is_inav galileo system }
{
    matches!(galileo, Some(Message::Inav)) && system == b'E'
}

/// Whether the number is zero.
fn is_zero(number: &Decimal) -> bool
    ensures { result ≡ is_zero number.now.digits }
{
    number.digits == 0
}

/// Whether bits 0 to 2 aren't set.
fn has_clear_first(value: u16) -> bool
    ensures { IsTrue result ↔ (value % 8 ≡ 0) }
{
    value % 8 == 0
}

/// Whether none from bit 6 on is set.
fn has_clear_rest(value: u16) -> bool
    ensures { IsTrue result ↔ (value / 64 ≡ 0) }
{
    value / 64 == 0
}

/// Whether bits 0 to 2 and those from 6 on aren't set.
fn has_clear_bits(value: u16) -> bool
    ensures { IsTrue result ↔ ((value % 8 ≡ 0) × (value / 64 ≡ 0)) }
{
    has_clear_first(value) && has_clear_rest(value)
}

/// Whether the bits of E1 and E5b are clear.
fn are_clear(health: &Decimal) -> bool
    ensures { IsTrue result ↔ AreClear health.now }
{
    let Some(value) = whole(health) else {
        return false;
    };
    has_clear_bits(value)
}

/// Whether a satellite is healthy, by its health.
pub fn is_healthy(health: &Decimal, inav: bool) -> bool
    ensures { IsHealthy inav health.now result }
{
    if inav {
        return are_clear(health);
    }
    is_zero(health)
}
