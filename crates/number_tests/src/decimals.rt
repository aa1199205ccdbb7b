//! Fields of numbers, their units, and counts.

use exact_decimal::{
    BadNumber, Decimal, Range, Unit, read_count, read_exp, read_fixed, to_unit, to_unit_between,
};
use grid_model::Wide;
use std::test::Fail;

// The digits and the power of ten that a field gives.
fn parts(read: Result<Option<Decimal>, BadNumber>) -> Option<(i64, i8)> {
    match read {
        Ok(Some(decimal)) => Some((decimal.digits, decimal.ten)),
        _ => None,
    }
}

/// Fields, and their digits and power of ten.
static FIXED: [(&[u8], i64, i8); 9] = [
    (b" -12.50 ", -1250, -2),
    (b"20985472.060", 20_985_472_060, -3),
    (b"5", 5, 0),
    (b"+.5", 5, -1),
    (b"7.", 7, 0),
    (b"-0.0", 0, -1),
    (b"\t0012 ", 12, 0),
    (b"999999999999999999", 999_999_999_999_999_999, 0),
    (b"-99999999.9999999999", -999_999_999_999_999_999, -10),
];

#[test]
fn fixed_fields_are_read(rt: HostRuntime) -> Result<(), Fail> {
    for &(field, digits, ten) in &FIXED {
        assert_eq!(rt; parts(read_fixed(field)), Some((digits, ten)));
    }
    Ok(())
}

/// The same of fields that may have an exponent.
static WITH_EXPONENT: [(&[u8], i64, i8); 9] = [
    (b"-0.123456789012D-03", -123_456_789_012, -15),
    (b" -.942564574329D+00", -942_564_574_329, -12),
    (b"  .580000000000D+02", 580_000_000_000, -10),
    (b" 0.123456789012d+03", 123_456_789_012, -9),
    (b"1.5E2", 15, 1),
    (b"1e-99 ", 1, -99),
    (b"0.15D-15", 15, -17),
    (b"5.153600000000D+03", 5_153_600_000_000, -9),
    (b" -12.50 ", -1250, -2),
];

#[test]
fn exponent_fields_are_read(rt: HostRuntime) -> Result<(), Fail> {
    for &(field, digits, ten) in &WITH_EXPONENT {
        assert_eq!(rt; parts(read_exp(field)), Some((digits, ten)));
    }
    Ok(())
}

/// Fields that are no number of either kind.
static NO_NUMBERS: [&[u8]; 12] = [
    b"1234567890123456789",
    b"0.1D-0x",
    b"1.2.3",
    b"+",
    b".",
    b"- 5",
    b"1 2",
    b"--1",
    b"1D",
    b"1D+",
    b"1D+123",
    b"1\xa0",
];

static BLANKS: [&[u8]; 3] = [b"", b"   ", b"\t "];

#[test]
fn other_fields_are_bad_numbers(rt: HostRuntime) -> Result<(), Fail> {
    for &field in &NO_NUMBERS {
        assert!(rt; read_exp(field) == Err(BadNumber));
        assert!(rt; read_fixed(field) == Err(BadNumber));
    }
    assert!(rt; read_fixed(b"1.0D+01") == Err(BadNumber));
    for &field in &BLANKS {
        assert!(rt; read_exp(field) == Ok(None));
        assert!(rt; read_fixed(field) == Ok(None));
    }
    Ok(())
}

/// The digits and the power of ten of a decimal, a unit, and the whole numbers of the unit round
/// the decimal, or none where it is out of the unit's range.
static IN_UNITS: [(i64, i8, Unit, Option<(i128, i128)>); 12] = [
    (-1250, -2, Unit::Length, Some((-12_500_000, -12_500_000))),
    (
        -123_456_789_012,
        -15,
        Unit::Clock,
        Some((-1_234_567_890_120, -1_234_567_890_120)),
    ),
    (15, -17, Unit::Clock, Some((1, 2))),
    (-15, -17, Unit::Clock, Some((-2, -1))),
    (1, -128, Unit::Length, Some((0, 1))),
    (0, 127, Unit::Drift, Some((0, 0))),
    (
        64,
        0,
        Unit::Ratio,
        Some((640_000_000_000_000_000, 640_000_000_000_000_000)),
    ),
    (
        51_536,
        -1,
        Unit::RootA,
        Some((5_153_600_000_000_000, 5_153_600_000_000_000)),
    ),
    (10_000_000_000_001, -4, Unit::Length, None),
    (1, 1, Unit::Clock, None),
    (-641, -1, Unit::Ratio, None),
    (1, 127, Unit::Time, None),
];

// The ends that a decimal gives.
fn ends(held: Result<Wide, Range>) -> Option<(i128, i128)> {
    match held {
        Ok(wide) => Some((wide.lo, wide.hi)),
        Err(Range) => None,
    }
}

#[test]
fn units_hold_the_decimal(rt: HostRuntime) -> Result<(), Fail> {
    for &(digits, ten, unit, held) in &IN_UNITS {
        assert_eq!(rt;
            ends(to_unit(Decimal { digits, ten }, unit)),
            held,
            "of {digits}"
        );
    }
    Ok(())
}

/// Fields, and the counts that they are.
static COUNTS: [(&[u8], Option<u64>); 11] = [
    (b"  4", Some(4)),
    (b"04 ", Some(4)),
    (b"\t12\t", Some(12)),
    (b"999999999999999999", Some(999_999_999_999_999_999)),
    (b"", None),
    (b"   ", None),
    (b"+4", None),
    (b"-1", None),
    (b"4 5", None),
    (b"4.", None),
    (b"x4", None),
];

#[test]
fn counts_are_digits_among_blanks(rt: HostRuntime) -> Result<(), Fail> {
    for &(field, count) in &COUNTS {
        assert!(rt; field.len() <= 18 && read_count(field) == count);
    }
    Ok(())
}

/// Decimals, and whether they lie between 3 and 3.05, ends included.
static BETWEEN: [(i64, i8, bool); 7] = [
    (3, 0, true),
    (305, -2, true),
    (30_000_000_000_000_001, -16, true),
    (299_999, -5, false),
    (305_000_000_000_000_001, -17, false),
    (-3, 0, false),
    (3, 2, false),
];

#[test]
fn ends_belong_to_what_lies_between(rt: HostRuntime) -> Result<(), Fail> {
    let (low, high) = (30_000_000_000_000_000, 30_500_000_000_000_000);
    for &(digits, ten, lies) in &BETWEEN {
        let held = to_unit_between(Decimal { digits, ten }, Unit::Ratio, low, high);
        assert_eq!(rt; held.is_some(), lies, "of {digits}");
    }
    Ok(())
}
