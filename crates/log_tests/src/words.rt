use log_tokens::{number, satellite, skip, span};
use std::test::Fail;

/// The starts of lines, and the number that each begins with, from -5 to 9.
static NUMBERS: [(&str, Option<i64>); 12] = [
    ("0", Some(0)),
    ("-5", Some(-5)),
    ("5 6", Some(5)),
    ("", None),
    ("-0", None),
    ("05", None),
    ("+5", None),
    (" 5", None),
    ("5\t6", None),
    ("-6", None),
    ("9", Some(9)),
    ("10", None),
];

#[test]
fn a_number_has_one_spelling(rt: HostRuntime) -> Result<(), Fail> {
    for &(line, value) in &NUMBERS {
        let read = number(Some(line.as_bytes()), -5, 9);
        assert_eq!(rt; read.map(|(number, _)| number), value, "at {line}");
    }
    Ok(())
}

/// The same of spans whose ends are at most 7.
static SPANS: [(&str, Option<(i64, i64)>); 7] = [
    ("-7 7", Some((-7, 7))),
    ("1 1 x", Some((1, 1))),
    ("2 1", None),
    ("-8 7", None),
    ("-7 8", None),
    ("1", None),
    ("1  1", None),
];

#[test]
fn spans_are_in_order_and_within_their_bound(rt: HostRuntime) -> Result<(), Fail> {
    for &(line, ends) in &SPANS {
        let read = span(Some(line.as_bytes()), 7);
        assert_eq!(rt; read.map(|(span, _)| (span.lo, span.hi)), ends, "at {line}");
    }
    Ok(())
}

/// The same of satellites, by system and number.
static SATELLITES: [(&str, Option<(u8, u8)>); 9] = [
    ("G01", Some((b'G', 1))),
    ("G99", Some((b'G', 99))),
    ("E01", Some((b'E', 1))),
    ("E00", None),
    ("G00", None),
    ("G1", None),
    ("G001", None),
    ("g01", None),
    ("R01", None),
];

/// The same of why a satellite is skipped, by the test and its field.
static SKIPS: [(&str, Option<(u8, u8)>); 14] = [
    ("1", Some((1, 0))),
    ("5", Some((5, 0))),
    ("6 20", Some((6, 20))),
    ("0", None),
    ("5 1", None),
    ("6", None),
    ("6 21", None),
    ("6 1 1", None),
    ("7", Some((7, 0))),
    ("7 1", None),
    ("8", Some((8, 0))),
    ("9", Some((9, 0))),
    ("9 1", None),
    ("10", None),
];

#[test]
fn satellites_and_why_one_is_skipped(rt: HostRuntime) -> Result<(), Fail> {
    for &(line, value) in &SATELLITES {
        let read = satellite(Some(line.as_bytes()));
        assert_eq!(rt;
            read.map(|(sat, _)| (sat.system, sat.number)),
            value,
            "at {line}"
        );
    }
    for &(line, value) in &SKIPS {
        let read = skip(Some(line.as_bytes()));
        assert_eq!(rt;
            read.map(|skip| (skip.number, skip.field)),
            value,
            "at {line}"
        );
    }
    Ok(())
}
