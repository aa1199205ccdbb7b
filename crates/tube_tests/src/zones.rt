//! Zones that are read, and answers of boxes.

use grid_model::{Box3, Pos};
use std::alloc::Global;
use std::test::Fail;
use zone_guard::{
    Direction, Extent, Finding, HalfSpace, ZoneAnswer, ZoneError, found_in, read_watches,
    read_zones,
};

/// How many zones a text has, or its first line that doesn't fit, which is 0 for want of memory.
fn read(alloc: Global, text: &str) -> Result<usize, u32> {
    if text.len() > 4_000_000_000 {
        return Err(0);
    }
    match read_zones(alloc, text.as_bytes()) {
        Ok(zones) => Ok(zones.len()),
        Err(ZoneError::BadZones { line }) => Err(line),
        Err(ZoneError::NoMemory) => Err(0),
    }
}

/// Texts of zones, and what is read of each.
static ZONES: [(&str, Result<usize, u32>); 17] = [
    ("gpszones 1\n", Ok(0)),
    ("gpszones 1", Err(1)),
    ("", Err(1)),
    ("gpszones 2\n", Err(1)),
    ("gpszones 1\nzone a 0 0 0 1 1 1\n", Ok(1)),
    ("gpszones 1\nzone a 0 0 0 1 1 1", Err(2)),
    (
        "gpszones 1\nzone a 0 0 0 1 1 1\nzone a 0 0 0 1 1 1\n",
        Err(3),
    ),
    (
        "gpszones 1\nzone a 0 0 0 1 1 1\nzone b-9 -5 0 0 1 1 1\n",
        Ok(2),
    ),
    ("gpszones 1\n\n", Err(2)),
    ("gpszones 1\nzone A 0 0 0 1 1 1\n", Err(2)),
    ("gpszones 1\nzone a 0 0 0 1 1 -1\n", Err(2)),
    ("gpszones 1\nzone a 0 0 0 1 1 01\n", Err(2)),
    ("gpszones 1\nzone a  0 0 0 1 1 1\n", Err(2)),
    ("gpszones 1\nzone abcdefghijklmnop 0 0 0 1 1 1\n", Ok(1)),
    ("gpszones 1\nzone abcdefghijklmnopq 0 0 0 1 1 1\n", Err(2)),
    ("gpszones 1\nzone a 0 0 0 10000000000000 1 1\n", Ok(1)),
    ("gpszones 1\nzone a 0 0 0 10000000000001 1 1\n", Err(2)),
];

#[test]
fn zones_are_read_up_to_the_first_bad_line(rt: HostRuntime) -> Result<(), Fail> {
    for &(text, want) in &ZONES {
        assert_eq!(rt; read(rt.alloc(), text), want, "at {text}");
    }
    Ok(())
}

/// How many zones and directions a text of either form has, or its first line that doesn't fit.
fn read_all(alloc: Global, text: &str) -> Result<usize, u32> {
    if text.len() > 4_000_000_000 {
        return Err(0);
    }
    match read_watches(alloc, text.as_bytes()) {
        Ok(watches) => Ok(watches.list.len()),
        Err(ZoneError::BadZones { line }) => Err(line),
        Err(ZoneError::NoMemory) => Err(0),
    }
}

/// What is read of a prism that says so many sides, and has so many.
fn read_sides(alloc: Global, said: &str, count: usize) -> Result<Result<usize, u32>, Fail> {
    let mut text = String::from_str(alloc, "gpszones 2\nprism a ")?;
    text.push_str(said)?;
    text.push_str("\n")?;
    for _ in 0..count {
        text.push_str("side 1 0 0 5\n")?;
    }
    Ok(read_all(alloc, &text))
}

/// How many sides a prism says that it has, how many it has, and what is read.
static SIDES: [(&str, usize, Result<usize, u32>); 6] = [
    ("0", 0, Err(2)),
    ("1", 1, Ok(1)),
    ("1", 2, Err(4)),
    ("2", 1, Err(4)),
    ("16", 16, Ok(1)),
    ("17", 17, Err(2)),
];

#[test]
fn a_prism_has_as_many_sides_as_it_says_from_1_to_16(rt: HostRuntime) -> Result<(), Fail> {
    for &(said, count, want) in &SIDES {
        assert_eq!(rt;
            read_sides(rt.alloc(), said, count)?,
            want,
            "at {said} {count}"
        );
    }
    Ok(())
}

/// Texts of either form, and what is read of each.
static WATCHES: [(&str, Result<usize, u32>); 19] = [
    ("gpszones 2\n", Ok(0)),
    ("gpszones 2", Err(1)),
    ("gpszones 3\n", Err(1)),
    ("gpszones 2\nzone a 0 0 0 1 1 1\n", Ok(1)),
    ("gpszones 1\nzone a 0 0 0 1 1 1\n", Ok(1)),
    ("gpszones 1\nreach a 1 0 0\n", Err(2)),
    ("gpszones 2\nreach a 1 0 0\n", Ok(1)),
    ("gpszones 2\nreach a 0 0 0\n", Err(2)),
    ("gpszones 2\nreach a 1048576 -1048576 0\n", Ok(1)),
    ("gpszones 2\nreach a 1048577 0 0\n", Err(2)),
    ("gpszones 2\nreach a 1 0 0 0\n", Err(2)),
    ("gpszones 2\nside 1 0 0 5\n", Err(2)),
    (
        "gpszones 2\nprism a 1\nside 0 0 -1 -100000000000000000000\n",
        Ok(1),
    ),
    (
        "gpszones 2\nprism a 1\nside 0 0 -1 100000000000000000001\n",
        Err(3),
    ),
    ("gpszones 2\nprism a 1\nside 0 0 0 5\n", Err(3)),
    ("gpszones 2\nprism a 1\nside 1 0 0 -0\n", Err(3)),
    ("gpszones 2\nprism a 1\nside 1 0 0 5", Err(3)),
    ("gpszones 2\nprism a 1\nreach b 1 0 0\n", Err(3)),
    (
        "gpszones 2\nprism a 1\nside 1 0 0 5\nreach a 1 0 0\n",
        Err(4),
    ),
];

#[test]
fn the_second_form_is_read_up_to_the_first_line_that_does_not_fit(
    rt: HostRuntime,
) -> Result<(), Fail> {
    for &(text, want) in &WATCHES {
        assert_eq!(rt; read_all(rt.alloc(), text), want, "at {text}");
    }
    Ok(())
}

/// The points from -1 to 1 on each axis.
const MIDDLE: Box3 = Box3 {
    lo: Pos {
        x: -1,
        y: -1,
        z: -1,
    },
    hi: Pos { x: 1, y: 1, z: 1 },
};

/// Those from 5 to 6.
const BESIDE: Box3 = Box3 {
    lo: Pos { x: 5, y: 5, z: 5 },
    hi: Pos { x: 6, y: 6, z: 6 },
};

/// Those up to 1 m on either side of the origin.
const METRES: Box3 = Box3 {
    lo: Pos {
        x: -1_000_000,
        y: -1_000_000,
        z: -1_000_000,
    },
    hi: Pos {
        x: 1_000_000,
        y: 1_000_000,
        z: 1_000_000,
    },
};

/// All boxes of the grid lie in it.
const WHOLE: Box3 = Box3 {
    lo: Pos {
        x: -10_000_000_000_000,
        y: -10_000_000_000_000,
        z: -10_000_000_000_000,
    },
    hi: Pos {
        x: 10_000_000_000_000,
        y: 10_000_000_000_000,
        z: 10_000_000_000_000,
    },
};

/// What boxes within bounds say of the first zone or direction behind a head.
fn found_within(
    alloc: Global,
    lines: &str,
    bounds: &[HalfSpace],
    boxes: &[Box3],
) -> Result<Option<Finding>, Fail> {
    let mut text = String::from_str(alloc, "gpszones 2\n")?;
    text.push_str(lines)?;
    if text.len() > 4_000_000_000 {
        return Ok(None);
    }
    match read_watches(alloc, text.as_bytes()) {
        Ok(watches) => Ok(
            watches
                .list
                .first()
                .map(|watch| found_in(watch, bounds, boxes)),
        ),
        Err(_) => Ok(None),
    }
}

/// The boxes that an epoch keeps.
#[derive(Clone, Copy)]
enum Kept {
    Nothing,
    Middle,
    MiddleAndBeside,
    Metres,
    Whole,
}

/// What they say of the first zone or direction without bounds.
fn found(alloc: Global, lines: &str, kept: Kept) -> Result<Option<Finding>, Fail> {
    match kept {
        Kept::Nothing => found_within(alloc, lines, &[], &[]),
        Kept::Middle => found_within(alloc, lines, &[], &[MIDDLE]),
        Kept::MiddleAndBeside => found_within(alloc, lines, &[], &[MIDDLE, BESIDE]),
        Kept::Metres => found_within(alloc, lines, &[], &[METRES]),
        Kept::Whole => found_within(alloc, lines, &[], &[WHOLE]),
    }
}

/// Lines, boxes, and what these say without bounds.
static CORNERS: [(&str, Kept, ZoneAnswer); 12] = [
    // a slanted side that touches a corner
    (
        "prism a 1\nside 1 1 1 -4\n",
        Kept::Middle,
        ZoneAnswer::Outside,
    ),
    ("prism a 1\nside 1 1 1 -3\n", Kept::Middle, ZoneAnswer::Open),
    ("prism a 1\nside 1 1 1 2\n", Kept::Middle, ZoneAnswer::Open),
    (
        "prism a 1\nside 1 1 1 3\n",
        Kept::Middle,
        ZoneAnswer::Inside,
    ),
    (
        "prism a 1\nside -2 0 1 3\n",
        Kept::Middle,
        ZoneAnswer::Inside,
    ),
    (
        "prism a 1\nside -2 0 1 3\n",
        Kept::Nothing,
        ZoneAnswer::Outside,
    ),
    // each box must answer so
    (
        "prism a 1\nside 1 1 1 3\n",
        Kept::MiddleAndBeside,
        ZoneAnswer::Open,
    ),
    (
        "prism a 2\nside 1 0 0 4\nside -1 0 0 -2\n",
        Kept::MiddleAndBeside,
        ZoneAnswer::Outside,
    ),
    // the sides of a box, and the box
    (
        "prism a 2\nside 1 0 0 2\nside -1 0 0 -1\n",
        Kept::Middle,
        ZoneAnswer::Open,
    ),
    ("zone a 1 -9 -9 2 9 9\n", Kept::Middle, ZoneAnswer::Open),
    (
        "prism a 2\nside 1 0 0 3\nside -1 0 0 -2\n",
        Kept::Middle,
        ZoneAnswer::Outside,
    ),
    ("zone a 2 -9 -9 3 9 9\n", Kept::Middle, ZoneAnswer::Outside),
];

#[test]
fn boxes_answer_by_corners(rt: HostRuntime) -> Result<(), Fail> {
    for &(lines, kept, answer) in &CORNERS {
        let found = found(rt.alloc(), lines, kept)?;
        assert_eq!(rt; found, Some(Finding::Zone(answer)), "at {lines}");
    }
    Ok(())
}

/// The same of zones that share nothing with the box, hold it, hold half of it, or share a face.
static AROUND: [(&str, Kept, ZoneAnswer); 5] = [
    (
        "zone a 2000000 -2000000 -2000000 3000000 2000000 2000000\n",
        Kept::Metres,
        ZoneAnswer::Outside,
    ),
    (
        "zone a -2000000 -2000000 -2000000 2000000 2000000 2000000\n",
        Kept::Metres,
        ZoneAnswer::Inside,
    ),
    (
        "zone a 0 -2000000 -2000000 2000000 2000000 2000000\n",
        Kept::Metres,
        ZoneAnswer::Open,
    ),
    (
        "zone a 1000000 -2000000 -2000000 2000000 2000000 2000000\n",
        Kept::Metres,
        ZoneAnswer::Open,
    ),
    (
        "zone a -2000000 -2000000 -2000000 2000000 2000000 2000000\n",
        Kept::Nothing,
        ZoneAnswer::Outside,
    ),
];

#[test]
fn zones_around_a_box_of_two_metres(rt: HostRuntime) -> Result<(), Fail> {
    for &(lines, kept, answer) in &AROUND {
        let found = found(rt.alloc(), lines, kept)?;
        assert_eq!(rt; found, Some(Finding::Zone(answer)), "at {lines}");
    }
    Ok(())
}

/// Of the box from -1 to 1 this leaves what has x + y <= 0.
const SLANTED: HalfSpace = HalfSpace {
    along: Direction {
        vector: Pos { x: 1, y: 1, z: 0 },
    },
    most: 0,
};

/// What has 2 x <= 1.
const HALVED: HalfSpace = HalfSpace {
    along: Direction {
        vector: Pos { x: 2, y: 0, z: 0 },
    },
    most: 1,
};

/// All of it.
const ALL: HalfSpace = HalfSpace {
    along: Direction {
        vector: Pos { x: 2, y: 0, z: 0 },
    },
    most: 2,
};

/// Nothing.
const NOTHING: HalfSpace = HalfSpace {
    along: Direction {
        vector: Pos { x: 1, y: 0, z: 0 },
    },
    most: -2,
};

/// The bound that an epoch has.
#[derive(Clone, Copy)]
enum Cut {
    Slanted,
    Halved,
    All,
    Nothing,
}

/// What the box from -1 to 1 says within it, or without any.
fn found_cut(alloc: Global, lines: &str, cut: Option<Cut>) -> Result<Option<Finding>, Fail> {
    match cut {
        None => found_within(alloc, lines, &[], &[MIDDLE]),
        Some(Cut::Slanted) => found_within(alloc, lines, &[SLANTED], &[MIDDLE]),
        Some(Cut::Halved) => found_within(alloc, lines, &[HALVED], &[MIDDLE]),
        Some(Cut::All) => found_within(alloc, lines, &[ALL], &[MIDDLE]),
        Some(Cut::Nothing) => found_within(alloc, lines, &[NOTHING], &[MIDDLE]),
    }
}

/// Lines, bounds, and what the box from -1 to 1 says within these.
static CUTS: [(&str, Option<Cut>, ZoneAnswer); 15] = [
    // the bound itself, and what lies beyond it
    (
        "prism a 1\nside 1 1 0 0\n",
        Some(Cut::Slanted),
        ZoneAnswer::Inside,
    ),
    ("prism a 1\nside 1 1 0 0\n", None, ZoneAnswer::Open),
    (
        "prism a 1\nside 1 1 0 -1\n",
        Some(Cut::Slanted),
        ZoneAnswer::Open,
    ),
    (
        "prism a 1\nside -1 -1 0 -1\n",
        Some(Cut::Slanted),
        ZoneAnswer::Outside,
    ),
    (
        "prism a 1\nside -1 -1 0 0\n",
        Some(Cut::Slanted),
        ZoneAnswer::Open,
    ),
    // the greatest 2 x + y is 1, at x = 1 and y = -1
    (
        "prism a 1\nside 2 1 0 1\n",
        Some(Cut::Slanted),
        ZoneAnswer::Inside,
    ),
    (
        "prism a 1\nside 2 1 0 0\n",
        Some(Cut::Slanted),
        ZoneAnswer::Open,
    ),
    (
        "prism a 1\nside -2 -1 0 -2\n",
        Some(Cut::Slanted),
        ZoneAnswer::Outside,
    ),
    (
        "prism a 1\nside -2 -1 0 -1\n",
        Some(Cut::Slanted),
        ZoneAnswer::Open,
    ),
    // the points that box and zone share
    (
        "zone a 0 1 -9 9 9 9\n",
        Some(Cut::Slanted),
        ZoneAnswer::Outside,
    ),
    (
        "zone a 0 0 -9 9 9 9\n",
        Some(Cut::Slanted),
        ZoneAnswer::Open,
    ),
    (
        "zone a -9 -9 -9 0 9 9\n",
        Some(Cut::Halved),
        ZoneAnswer::Inside,
    ),
    ("zone a -9 -9 -9 0 9 9\n", Some(Cut::All), ZoneAnswer::Open),
    // nothing is left
    (
        "zone a -9 -9 -9 9 9 9\n",
        Some(Cut::Nothing),
        ZoneAnswer::Outside,
    ),
    (
        "prism a 1\nside 0 0 1 5\n",
        Some(Cut::Nothing),
        ZoneAnswer::Outside,
    ),
];

#[test]
fn bounds_cut_boxes(rt: HostRuntime) -> Result<(), Fail> {
    for &(lines, cut, answer) in &CUTS {
        let found = found_cut(rt.alloc(), lines, cut)?;
        assert_eq!(rt; found, Some(Finding::Zone(answer)), "at {lines}");
    }
    Ok(())
}

/// x + y + z is at most 9 * 10^12, and 2^20 times that is 9437184 * 10^12.
const LARGEST: HalfSpace = HalfSpace {
    along: Direction {
        vector: Pos {
            x: 1_000_000,
            y: 1_000_000,
            z: 1_000_000,
        },
    },
    most: 9_000_000_000_000_000_000,
};

/// Lines, and what the whole grid says within this bound.
static LARGEST_SIDES: [(&str, ZoneAnswer); 3] = [
    (
        "prism a 1\nside 1048576 1048576 1048576 9437184000000000000\n",
        ZoneAnswer::Inside,
    ),
    (
        "prism a 1\nside 1048576 1048576 1048576 9437183999999999999\n",
        ZoneAnswer::Open,
    ),
    (
        "prism a 1\nside -1048576 -1048576 -1048576 -100000000000000000000\n",
        ZoneAnswer::Outside,
    ),
];

#[test]
fn the_largest_bounds_and_sides_fit(rt: HostRuntime) -> Result<(), Fail> {
    for &(lines, answer) in &LARGEST_SIDES {
        let found = found_within(rt.alloc(), lines, &[LARGEST], &[WHOLE])?;
        assert_eq!(rt; found, Some(Finding::Zone(answer)), "at {lines}");
    }
    Ok(())
}

/// Lines, boxes, and from where to where these reach.
static REACHES: [(&str, Kept, Option<Extent>); 3] = [
    (
        "reach a 2 0 -1\n",
        Kept::MiddleAndBeside,
        Some(Extent {
            least: -3,
            greatest: 7,
        }),
    ),
    ("reach a 2 0 -1\n", Kept::Nothing, None),
    (
        "reach a 1048576 1048576 1048576\n",
        Kept::Whole,
        Some(Extent {
            least: -31_457_280_000_000_000_000,
            greatest: 31_457_280_000_000_000_000,
        }),
    ),
];

#[test]
fn reaches_go_from_corner_to_corner(rt: HostRuntime) -> Result<(), Fail> {
    for &(lines, kept, extent) in &REACHES {
        let found = found(rt.alloc(), lines, kept)?;
        assert_eq!(rt; found, Some(Finding::Reach(extent)), "at {lines}");
    }
    Ok(())
}
