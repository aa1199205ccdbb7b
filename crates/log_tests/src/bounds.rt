//! Bounds behind the splits of a log, as they are read and judged.

use crate::renewed::{Want, found, log_with, wanted};
use std::alloc::{AllocError, Global};
use std::test::Fail;

/// The kept box ends there, so a sum without rows shows it.
pub const SHOWN: &str = "bound 1 0 0 6250000 1\nby 1 0 0 0 0 0 0 0 0 0 0\n";

/// A log of 12 lines, and these behind them.
pub fn bounded_log(alloc: Global, version: &str, bounds: &[&str; 2]) -> Result<String, AllocError> {
    let mut text = log_with(alloc, version, "", &[""; 4])?;
    for bound in bounds {
        text.push_str(*bound)?;
    }
    Ok(text)
}

/// Lines behind the splits, and what is found in the log.
static BOUNDS: [([&str; 2], Want); 9] = [
    (["", ""], Want::Yes),
    ([SHOWN, ""], Want::Yes),
    (
        [SHOWN, "bound 0 -1 0 1000000 1\nby 2 3 0 0 0 1 0 2 0 3 0\n"],
        Want::Yes,
    ),
    // Two sums without rows are one too many, and do no harm.
    (
        [
            "bound 1 0 0 6250000 2\nby 1 0 0 0 0 0 0 0 0 0 0\n",
            "by 1 0 0 0 0 0 0 0 0 0 0\n",
        ],
        Want::Yes,
    ),
    // The box has points beyond.
    (
        ["bound 1 0 0 6249999 1\nby 1 0 0 0 0 0 0 0 0 0 0\n", ""],
        Want::No(66, 13),
    ),
    (
        [SHOWN, "bound 1 0 0 6249999 1\nby 1 0 0 0 0 0 0 0 0 0 0\n"],
        Want::No(66, 15),
    ),
    // The direction isn't in the sum.
    (
        ["bound 1 0 0 6250000 1\nby 0 0 0 0 0 0 0 0 0 0 0\n", ""],
        Want::No(66, 13),
    ),
    // There is no fifth row.
    (
        ["bound 1 0 0 6250000 1\nby 1 4 0 0 0 0 0 0 0 0 0\n", ""],
        Want::No(66, 13),
    ),
    // The clock offset stays in the sum.
    (
        ["bound 1 0 0 6250000 1\nby 1 0 1 0 0 0 0 0 0 0 0\n", ""],
        Want::No(66, 13),
    ),
];

#[test]
fn bounds_are_judged(rt: HostRuntime) -> Result<(), Fail> {
    let alloc = rt.alloc();
    for (bounds, want) in &BOUNDS {
        let text = bounded_log(alloc, "gpscover 4\n", bounds)?;
        assert_eq!(rt; found(alloc, &text)?, wanted(*want), "at {text}");
    }
    Ok(())
}

/// The first line, lines behind the splits, and the first that doesn't fit, with its kind.
static NO_BOUNDS: [(&str, [&str; 2], (u32, u8)); 10] = [
    ("gpscover 3\n", [SHOWN, ""], (13, 2)),
    ("gpscover 4\n", ["by 1 0 0 0 0 0 0 0 0 0 0\n", ""], (13, 2)),
    ("gpscover 4\n", ["bound 1 0 0 0 0\n", ""], (13, 3)),
    ("gpscover 4\n", ["bound 1 0 0 0 65\n", ""], (13, 3)),
    ("gpscover 4\n", ["bound 1000001 0 0 0 1\n", ""], (13, 3)),
    ("gpscover 4\n", ["bound 1 0 0 0 1\n", ""], (14, 4)),
    ("gpscover 4\n", ["bound 1 0 0 0 1\n", "done 0\n"], (14, 2)),
    (
        "gpscover 4\n",
        ["bound 1 0 0 0 1\n", "by 1 64 0 0 0 0 0 0 0 0 0\n"],
        (14, 3),
    ),
    (
        "gpscover 4\n",
        [SHOWN, "by 1 0 0 0 0 0 0 0 0 0 0\n"],
        (15, 2),
    ),
    ("gpscover 4\n", [SHOWN, "done 0\n"], (15, 2)),
];

#[test]
fn lines_that_are_no_bounds_are_refused(rt: HostRuntime) -> Result<(), Fail> {
    let alloc = rt.alloc();
    for (version, bounds, want) in &NO_BOUNDS {
        let text = bounded_log(alloc, *version, bounds)?;
        assert_eq!(rt; found(alloc, &text)?, Err(*want), "at {text}");
    }
    Ok(())
}
