//! Logs that are written with bounds.

use crate::renewed::found;
use crate::writing::{
    Devices, FIRST_REPORT, Held, MORE_REPORT, WHOLE, both, log_bytes, rows_in, write,
};
use arrayvec::ArrayVec;
use bound_directions::{Direction, Directions};
use log_writer::{LogBlocks, Wanted, WriteFault};
use paving_log_check::Verdict;
use std::alloc::{AllocError, Global};
use std::test::Fail;

/// A box that is closed at the edge, as it is in version 3, with what stands behind its root: 0.5 m are
/// left of each of four ranges, three of them along the axes.
static ROWS: [&str; 2] = [
    "rules 0 0 1000000\nepoch 1 1388102400000000000000 4\n\
sat G01 20000000000000 20000000000000 0 0 0 0 20000000000000 20000000000000 -500000 500000\n\
sat G02 0 0 20000000000000 20000000000000 0 0 20000000000000 20000000000000 -500000 500000\n",
    "sat G03 0 0 0 0 20000000000000 20000000000000 20000000000000 20000000000000 -500000 500000\n\
sat G04 12000000000000 12000000000000 16000000000000 16000000000000 0 0 20000000000000 20000000000000 -500000 500000\n\
root -1000000 -900000 -900000 1000000 900000 900000\n",
];

const STEPS: &str = "edge 0 -1400000 1400000\ndone 0\n";

/// A text of these lines, with its version in front.
fn text_of(alloc: Global, version: &str, lines: &[&str]) -> Result<String, AllocError> {
    let mut text = String::from_str(alloc, version)?;
    for line in lines {
        text.push_str(line)?;
    }
    Ok(text)
}

/// Vectors along which bounds are sought.
const ALONG: [Direction; 5] = [
    Direction { x: 1, y: -1, z: 0 },
    Direction { x: -1, y: 0, z: 1 },
    Direction { x: 1, y: 0, z: 0 },
    Direction { x: 0, y: 0, z: 1 },
    Direction { x: 1, y: 1, z: 1 },
];

/// The first lines of their bounds. Two rows leave x - y or z - x and nothing of the offset, so that
/// it is at most 1 m, and 3 um for rounding. Along the others the box ends before any sum of rows does.
static BOUNDS: [&str; 5] = [
    "bound 1 -1 0 1000003 1\n",
    "bound -1 0 1 1000003 1\n",
    "bound 1 0 0 1000000 1\n",
    "bound 0 0 1 900000 1\n",
    "bound 1 1 1 2800000 1\n",
];

/// Rows of a box of 800 m: 301 m are left of each of four ranges, two of them from the two ends of an
/// axis.
static LONG_ROWS: [&str; 2] = [
    "rules 0 0 1000000\nepoch 1 1388102400000000000000 4\n\
sat G01 20000000000000 20000000000000 0 0 0 0 20000000000000 20000000000000 -301000000 301000000\n\
sat G02 -20000000000000 -20000000000000 0 0 0 0 20000000000000 20000000000000 -301000000 301000000\n",
    "sat G03 0 0 20000000000000 20000000000000 0 0 20000000000000 20000000000000 -301000000 301000000\n\
sat G04 0 0 0 0 20000000000000 20000000000000 20000000000000 20000000000000 -301000000 301000000\n\
root -400000000 -400000000 -400000000 400000000 400000000 400000000\n",
];

const LONG_STEPS: &str = "edge 0 -701007999 701000000\ndone 0\n";

/// The first lines of their bounds, where one along x is asked for. Two rows leave x, and end it at
/// 301 m and what their forms leave out. The last end is nearer than the first, which is along x too,
/// as the bounds before it made the hull shorter. On the other axes the box ends before any sum does.
static LONG_BOUNDS: [&str; 7] = [
    "bound 1 0 0 301006322 1",
    "bound -1 0 0 301005840 1",
    "bound 0 1 0 400000000 1",
    "bound 0 -1 0 400000000 1",
    "bound 0 0 1 400000000 1",
    "bound 0 0 -1 400000000 1",
    "bound 1 0 0 301005431 1",
];

/// Writes the log of the rows, where pairs are asked, with bounds along these directions.
fn write_bounded(
    alloc: Global,
    rows: &[&str],
    along: &[Direction],
    limit: u32,
    devices: &Devices,
) -> Result<Held, Fail> {
    let log = rows_in(alloc, &text_of(alloc, "gpscover 3\n", rows)?)?;
    if !log.rules.pairs {
        return Err(Fail::from("no pairs"));
    }
    let mut vectors: ArrayVec<Direction, 64> = ArrayVec::new();
    let _ = vectors.try_extend_from_slice(along);
    let wanted = Wanted {
        rules: log.rules,
        directions: Some(Directions::Vectors(vectors)),
    };
    write(alloc, &wanted, &mut LogBlocks::of_log(log), limit, devices)
}

/// The log up to its number of splits.
fn log_before(alloc: Global, rows: &[&str], steps: &str) -> Result<String, AllocError> {
    let mut text = text_of(alloc, "gpscover 4\n", rows)?;
    text.push_str(steps)?;
    Ok(text)
}

#[test]
fn bounds_are_written_behind_the_splits(rt: HostRuntime) -> Result<(), Fail> {
    let alloc = rt.alloc();
    for i in 0..5 {
        let text = both(alloc, &log_before(alloc, &ROWS, STEPS)?, BOUNDS[i])?;
        let held = write_bounded(alloc, &ROWS, &ALONG[i..i + 1], 5_000, &WHOLE)?;
        assert_eq!(rt; held.result, Ok(()));
        assert!(rt; log_bytes(&held).starts_with(text.as_bytes()), "at {text}");
        assert_eq!(rt;
            held.out.bytes(),
            both(alloc, FIRST_REPORT, MORE_REPORT)?.as_bytes()
        );
        let Ok(log) = std::str::from_utf8(log_bytes(&held)) else {
            return Err(Fail::from("no text"));
        };
        assert_eq!(rt; found(alloc, log)?, Ok(Verdict::Yes { boxes: 1 }));
    }
    Ok(())
}

#[test]
fn bounds_along_the_axes_come_first_over_a_long_hull(rt: HostRuntime) -> Result<(), Fail> {
    let alloc = rt.alloc();
    let held = write_bounded(alloc, &LONG_ROWS, &ALONG[2..3], 5_000, &WHOLE)?;
    assert_eq!(rt; held.result, Ok(()));
    let before = log_before(alloc, &LONG_ROWS, LONG_STEPS)?;
    assert!(rt; log_bytes(&held).starts_with(before.as_bytes()));
    let Ok(log) = std::str::from_utf8(log_bytes(&held)) else {
        return Err(Fail::from("no text"));
    };
    let mut count: usize = 0;
    for line in log.lines().filter(|line| line.starts_with("bound ")) {
        assert!(rt; count < 7);
        assert_eq!(rt; line, LONG_BOUNDS[count]);
        count += 1;
    }
    assert_eq!(rt; count, 7);
    assert_eq!(rt; found(alloc, log)?, Ok(Verdict::Yes { boxes: 1 }));
    Ok(())
}

/// A limit and devices, the fault that ends the writing, and how many bytes the log has then. The
/// lines up to the number of splits have 535 bytes, and the next one has 23.
static LIMITS: [(u32, Devices, WriteFault, usize); 4] = [
    (557, WHOLE, WriteFault::Full, 535),
    (558, WHOLE, WriteFault::Full, 558),
    (559, WHOLE, WriteFault::Full, 558),
    (5_000, Devices { fails: 2, ..WHOLE }, WriteFault::Log, 0),
];

#[test]
fn a_log_may_be_full_among_its_bounds(rt: HostRuntime) -> Result<(), Fail> {
    let alloc = rt.alloc();
    let whole = write_bounded(alloc, &ROWS, &ALONG, 5_000, &WHOLE)?;
    for (limit, devices, fault, bytes) in &LIMITS {
        let held = write_bounded(alloc, &ROWS, &ALONG, *limit, devices)?;
        assert_eq!(rt; held.result, Err(*fault));
        assert_eq!(rt; log_bytes(&held).len(), *bytes);
        assert!(rt; log_bytes(&whole).starts_with(log_bytes(&held)));
    }
    Ok(())
}
