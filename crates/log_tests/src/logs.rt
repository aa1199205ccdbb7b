ghost use Rattle.subpaving.specs.Folding.{StepsFold};
ghost use Rattle.grid_model.specs.Boxes.{grid_box};
ghost use Rattle.sat_model.specs.Fold.{first_boxes};
ghost use Rattle.sat_model.specs.Logs.{IsNumbered};
ghost use Rattle.paving_log.specs.Values.{log_value};

use crate::bounds::{SHOWN, bounded_log};
use crate::renewed::{LEFT, ROWS, kept_text, log_with};
use bound_lines::{BoundHead, bound_line, sum_line};
use grid_model::{Box3, NoMemory, Pos};
use log_lines::{done_line, epoch_line, head_lines, renew_line, root_line, sat_line, step_line};
use paving_log::{Body, Bound, Log, LogEpoch, LogError, Renewal, cover_boxes, read_log, read_rows};
use paving_log_check::{Verdict, judge, judged_folds};
use sat_model::{SatEntry, Step};
use std::alloc::{AllocError, Global};
use std::test::Fail;
use step_lines::LoggedSteps;

const LOG: &str = "gpscover 1
rules 0 0 1000000
epoch 1 1388102400000000000000 4
sat G01 20000000000000 20000000000000 0 0 0 0 20000000000000 20000000000000 -500000 500000
sat G02 0 0 20000000000000 20000000000000 0 0 20000000000000 20000000000000 -500000 500000
sat G03 0 0 0 0 20000000000000 20000000000000 20000000000000 20000000000000 -500000 500000
sat G04 12000000000000 12000000000000 16000000000000 16000000000000 0 0 20000000000000 20000000000000 -500000 500000
root -1000000 -900000 -900000 1000000 900000 900000
edge 0 -1400000 1400000
done 0
";

/// The number of the first line that doesn't fit and its kind, 41 where its word isn't built, and
/// two zeros for the text of a log.
fn fault(alloc: Global, text: &str) -> (u32, u8) {
    if text.len() > 4_000_000_000 {
        return (0, 255);
    }
    match kept_text(alloc, text) {
        Ok(bytes) => told(&read_log(alloc, &bytes)),
        Err(_) => (0, 254),
    }
}

/// The same of the text of rows.
fn rows_fault(alloc: Global, text: &str) -> (u32, u8) {
    if text.len() > 4_000_000_000 {
        return (0, 255);
    }
    match kept_text(alloc, text) {
        Ok(bytes) => told(&read_rows(alloc, &bytes)),
        Err(_) => (0, 254),
    }
}

/// A fault's line and kind.
fn told(read: &Result<Log, LogError>) -> (u32, u8) {
    match read {
        Ok(_) => (0, 0),
        Err(LogError::BadLog { line, kind }) => (*line, *kind),
        Err(LogError::NoMemory) => (0, 254),
    }
}

/// The text with `new` in the first place of `old`.
fn changed(alloc: Global, text: &str, old: &str, new: &str) -> Result<String, AllocError> {
    let (front, back) = text.split_once(old).unwrap_or(("", ""));
    let mut whole = String::new(alloc);
    whole.push_str(front)?;
    whole.push_str(new)?;
    whole.push_str(back)?;
    Ok(whole)
}

const EDGE: &str = "edge 0 -1400000 1400000";

/// Texts in place of one in the log, and where its first fault is then, by line and kind; or twice
/// 0.
static CHANGES: [(&str, &str, u32, u8); 58] = [
    ("done 0", "done 0", 0, 0),
    (EDGE, "out 0\nin 0 0 -1 1\nsplit 400000 2", 0, 0),
    ("sat G01", "skip G01 6 20\nsat G01", 0, 0),
    ("sat G01", "skip G01 8\nsat G01", 0, 0),
    ("sat G01", "skip G01 9\nsat G01", 0, 0),
    ("gpscover 1", "gpscover 3", 0, 0),
    ("gpscover 1", "gpscover 2", 0, 0),
    ("gpscover 1", "gpscover 4", 0, 0),
    ("gpscover 1", "gpscover 5", 1, 1),
    ("gpscover 1", "gpscover 03", 1, 1),
    ("gpscover 1", "gpscover 3 ", 1, 1),
    ("gpscover 1", "gpscover 1 3", 1, 1),
    ("gpscover 1", "gpscover 1\r", 1, 1),
    ("rules 0", "rules 9", 2, 1),
    ("1000000", "999", 2, 1),
    ("\nepoch", "\n\nepoch", 3, 2),
    ("epoch", " epoch", 3, 2),
    ("epoch 1", "epoch\t1", 3, 2),
    ("epoch 1", "epoch 01", 3, 3),
    ("epoch 1", "epoch 200001", 3, 3),
    ("1388102400000000000000", "4000000000000000000000", 3, 3),
    ("sat G01", "sat G1", 4, 3),
    ("sat G01", "sat G00", 4, 3),
    ("sat G01", "sat R01", 4, 3),
    ("G01 20000000000000", "G01 20000000000001", 4, 3),
    ("500000\n", "500000 \n", 4, 3),
    ("500000\n", "500000 -500000 500000\n", 4, 3),
    ("500000\n", "500000 -500001 400000\n", 4, 3),
    ("500000\n", "500000 -400000 500001\n", 4, 3),
    ("500000\n", "500000 -400000\n", 4, 3),
    ("sat G01", "skip G01 10\nsat G01", 4, 3),
    ("sat G01", "skip G01 7 1\nsat G01", 4, 3),
    ("sat G01", "skip G01 6\nsat G01", 4, 3),
    ("sat G01", "skip G01 6 21\nsat G01", 4, 3),
    ("sat G01", "skip G01 5 1\nsat G01", 4, 3),
    ("root", "few", 8, 2),
    ("root -1000000", "root 1000001", 8, 3),
    (EDGE, "edge 0 -0 5", 9, 3),
    (
        EDGE,
        "edge 1234567890123456789012345678901234567890 0 0",
        9,
        3,
    ),
    (EDGE, "edge 400001 0 0", 9, 3),
    (EDGE, "in 0 1 2 1", 9, 3),
    (EDGE, "split 0 3", 9, 3),
    (EDGE, "out\t0", 9, 2),
    (EDGE, "out  0", 9, 3),
    (EDGE, "out 0 ", 9, 3),
    (EDGE, "out", 9, 3),
    (EDGE, "cut 400000 5 -10000000000000", 0, 0),
    (EDGE, "cut 400001 0 5", 9, 3),
    (EDGE, "cut 0 6 5", 9, 3),
    (EDGE, "cut 0 0 10000000000001", 9, 3),
    (EDGE, "cut 0 0", 9, 3),
    (EDGE, "cut 0 0 5 5", 9, 3),
    (EDGE, "cut", 9, 3),
    ("done 0\n", "done 200001\n", 10, 3),
    ("done 0\n", "done 00", 10, 3),
    ("done 0\n", "done 0", 10, 4),
    ("done 0\n", "", 10, 4),
    ("done 0\n", "done 0\ncut 0 0 5\n", 11, 2),
];

#[test]
fn each_changed_log_is_refused_at_its_first_fault(rt: HostRuntime) -> Result<(), Fail> {
    for &(old, new, line, kind) in &CHANGES {
        let text = changed(rt.alloc(), LOG, old, new)?;
        assert_eq!(rt; fault(rt.alloc(), &text), (line, kind), "at {new}");
    }
    Ok(())
}

/// The rows of the log, which are its lines up to the root.
fn rows_of_log() -> &'static str {
    let (rows, _) = LOG.split_once("edge").unwrap_or(("", ""));
    rows
}

const ROOT: &str = "root -1000000 -900000 -900000 1000000 900000 900000\n";

/// The same of the text of rows.
static ROW_CHANGES: [(&str, &str, u32, u8); 19] = [
    (ROOT, ROOT, 0, 0),
    // A block of few has less than q + 4, the block of an epoch at least as many.
    ("rules 0", "rules 1", 3, 5),
    ("4\nsat", "5\nsat", 3, 5),
    ("4\nsat", "3\nsat", 3, 5),
    ("sat G04", "sat G03", 7, 5),
    ("sat G01", "skip G04 1\nsat G01", 8, 5),
    ("epoch 1", "few 1 0 0\nepoch 1", 4, 5),
    ("epoch 1", "few 1 0 0\nepoch 2", 0, 0),
    ("epoch", "few 1 0 4\nepoch", 3, 5),
    (
        "epoch 1",
        "few 1 0 0\nskip G01 1\nskip G01 2\nepoch 2",
        5,
        5,
    ),
    ("gpscover 1", "gpscover 2", 1, 1),
    ("gpscover 1", "gpscover 3", 0, 0),
    ("gpscover 1", "gpscover 4", 1, 1),
    ("root", "cut 0 0 5\nroot", 8, 2),
    (ROOT, "root 0 0 0 0 0 0\ncut 0 0 5\n", 9, 2),
    (ROOT, "root 0 0 0 0 0 0\nsplit 0 0\n", 9, 2),
    (ROOT, "root 0 0 0 0 0 0\ndone 0\n", 9, 2),
    (ROOT, "root 0 0 0 0 0 0", 8, 4),
    (ROOT, "", 8, 4),
];

#[test]
fn each_changed_text_of_rows_is_refused_at_its_first_fault(rt: HostRuntime) -> Result<(), Fail> {
    for &(old, new, line, kind) in &ROW_CHANGES {
        let text = changed(rt.alloc(), rows_of_log(), old, new)?;
        assert_eq!(rt; rows_fault(rt.alloc(), &text), (line, kind), "at {new}");
    }
    Ok(())
}

/// What stands behind a block of too few satellites, and the first fault.
static LAST_LINES: [(&str, u32, u8); 4] = [
    ("", 3, 5),
    ("few 3\n", 5, 3),
    ("few 3 0 0", 5, 4),
    ("few 3 0 0\nsat\n", 6, 2),
];

#[test]
fn kind_5_yields_to_a_later_line_of_another_kind(rt: HostRuntime) -> Result<(), Fail> {
    for &(last, line, kind) in &LAST_LINES {
        let mut text = String::new(rt.alloc());
        text.push_str("gpscover 1\nrules 0 0 1000\nepoch 2 0 3\nroot 0 0 0 0 0 0\n")?;
        text.push_str(last)?;
        assert_eq!(rt; rows_fault(rt.alloc(), &text), (line, kind), "at {last}");
    }
    Ok(())
}

/// Texts, and their first fault by line and kind, or twice 0.
static SHORT_TEXTS: [(&str, u32, u8); 10] = [
    ("", 1, 4),
    ("gpscove", 1, 1),
    ("gpscover 1", 1, 4),
    ("gpscover 1\n", 2, 4),
    ("gpscover 1\nrules 0 0 1000000\n", 0, 0),
    (
        "gpscover 1\nrules 1 0 1000000\nfew 1 1388102400000000000000 4\n",
        0,
        0,
    ),
    (
        "gpscover 1\nrules 1 0 1000\nfew 1 0 1\nskip G02 1\nfew 2 1 0\nepoch 3 2 64\nroot 0 0 0 0 0 0\ndone 0\n",
        0,
        0,
    ),
    ("gpscover 1\nrules 1 0 1000\nfew 1 0 1\nsat G02 1\n", 4, 2),
    ("gpscover 1\nrules 1 0 1000\nfew 1 0 1\ndone 0\n", 4, 2),
    ("gpscover 1\nrules 1 0 1000\nfew 1 0 1\nskip G02 1", 4, 4),
];

#[test]
fn short_texts(rt: HostRuntime) -> Result<(), Fail> {
    for &(text, line, kind) in &SHORT_TEXTS {
        assert_eq!(rt; fault(rt.alloc(), text), (line, kind), "at {text}");
    }
    Ok(())
}

#[test]
fn a_block_has_at_most_64_satellite_lines(rt: HostRuntime) -> Result<(), Fail> {
    for first in ["epoch 1 0 0\n", "few 1 0 0\n"] {
        let mut text = String::new(rt.alloc());
        text.push_str("gpscover 1\nrules 0 0 1000\n")?;
        text.push_str(first)?;
        for _ in 0..64u8 {
            text.push_str("skip G01 1\n")?;
        }
        text.push_str("skip\n")?;
        assert_eq!(rt; fault(rt.alloc(), &text), (68, 2));
    }
    Ok(())
}

/// The text of a log, line by line.
fn written(alloc: Global, log: &Log) -> Result<String, AllocError> {
    let mut text = String::new(alloc);
    text.push_str(&head_lines(log.version, &log.rules))?;
    for epoch in &log.epochs {
        text.push_str(&epoch_line(epoch.is_few(), epoch.index, epoch.ps, epoch.n))?;
        for entry in &epoch.sats {
            text.push_str(&sat_line(entry))?;
        }
        if let Some(body) = &epoch.body {
            put_body(&mut text, body)?;
        }
    }
    Ok(text)
}

/// The lines of a root and of all that stands behind it.
fn put_body(text: &mut String, body: &Body) -> Result<(), AllocError> {
    text.push_str(&root_line(&body.root))?;
    for (at, step) in body.steps.ahead().enumerate() {
        put_renewals(text, body, at)?;
        text.push_str(&step_line(&step))?;
    }
    put_renewals(text, body, body.steps.len())?;
    text.push_str(&done_line(body.done))?;
    for bound in &body.bounds {
        put_bound(text, bound)?;
    }
    Ok(())
}

/// The lines of a bound.
fn put_bound(text: &mut String, bound: &Bound) -> Result<(), AllocError> {
    let sums = bound.sums.len();
    if sums == 0 || 64 < sums {
        return Ok(());
    }
    let head = BoundHead {
        half: bound.half,
        sums: sums as u8,
    };
    text.push_str(&bound_line(&head))?;
    for sum in &bound.sums {
        text.push_str(&sum_line(sum))?;
    }
    Ok(())
}

/// The lines of the renewals behind so many steps.
fn put_renewals(text: &mut String, body: &Body, at: usize) -> Result<(), AllocError> {
    for renewal in &body.renewals {
        if renewal.at as usize == at {
            put_renewal(text, renewal)?;
        }
    }
    Ok(())
}

/// The line of a renewal and those of its rows.
fn put_renewal(text: &mut String, renewal: &Renewal) -> Result<(), AllocError> {
    text.push_str(&renew_line(&renewal.part))?;
    for row in &renewal.rows {
        text.push_str(&sat_line(&SatEntry::Row(*row)))?;
    }
    Ok(())
}

#[test]
fn rows_that_were_read_are_written_as_they_were(rt: HostRuntime) -> Result<(), Fail> {
    let mut text = String::new(rt.alloc());
    text.push_str(rows_of_log())?;
    text.push_str("few 2 1388102401000000000000 1\nskip G02 1\nskip G03 6 20\n")?;
    if text.len() > 4_000_000_000 {
        return Ok(());
    }
    match read_rows(rt.alloc(), &kept_text(rt.alloc(), &text)?) {
        Ok(log) => {
            let mut whole = String::new(rt.alloc());
            whole.push_str(rows_of_log())?;
            whole.push_str("done 0\nfew 2 1388102401000000000000 1\nskip G02 1\nskip G03 6 20\n")?;
            assert_eq!(rt; written(rt.alloc(), &log)?, whole);
            for (epoch, line) in log.epochs.iter().zip([3, 9]) {
                assert_eq!(rt; epoch.line, line);
            }
        }
        Err(error) => assert!(rt; false, "refused: {error:?}"),
    }
    Ok(())
}

#[test]
fn a_log_that_was_read_is_written_as_it_was(rt: HostRuntime) -> Result<(), Fail> {
    let mut text = String::new(rt.alloc());
    text.push_str(LOG)?;
    text.push_str(
        "few 2 1388102401000000000000 1\nskip G02 1\nskip G03 6 20\nepoch 3 1388102402000000000000 0\nroot 0 0 0 1 1 1\ncut 0 3 0\nsplit 0 2\nout 1\nin 2 -3 -4 5\ndone 1\n",
    )?;
    let renewed = log_with(rt.alloc(), "gpscover 2\n", LEFT, &ROWS)?;
    let bounded = bounded_log(rt.alloc(), "gpscover 4\n", &[SHOWN, SHOWN])?;
    for text in [text.as_str(), renewed.as_str(), bounded.as_str()] {
        if text.len() > 4_000_000_000 {
            return Ok(());
        }
        match read_log(rt.alloc(), &kept_text(rt.alloc(), text)?) {
            Ok(log) => assert_eq!(rt; written(rt.alloc(), &log)?.as_str(), text),
            Err(error) => assert!(rt; false, "refused: {error:?}"),
        }
    }
    Ok(())
}

/// First lines, their version, and whether pairs are tested.
static FIRST_LINES: [(&str, u8, bool); 2] = [("gpscover 1", 1, false), ("gpscover 3", 3, true)];

#[test]
fn the_first_line_tells_whether_pairs_are_tested(rt: HostRuntime) -> Result<(), Fail> {
    for &(first, version, pairs) in &FIRST_LINES {
        let text = changed(rt.alloc(), LOG, "gpscover 1", first)?;
        let rows = changed(rt.alloc(), rows_of_log(), "gpscover 1", first)?;
        if text.len() > 4_000_000_000 || rows.len() > 4_000_000_000 {
            return Ok(());
        }
        let kept = kept_text(rt.alloc(), &text)?;
        let log = read_log(rt.alloc(), &kept).ok().ok_or("refused")?;
        assert_eq!(rt; (log.version, log.rules.pairs), (version, pairs));
        assert_eq!(rt; written(rt.alloc(), &log)?, text);
        let kept = kept_text(rt.alloc(), &rows)?;
        let log = read_rows(rt.alloc(), &kept).ok().ok_or("refused")?;
        assert_eq!(rt; log.rules.pairs, pairs);
    }
    Ok(())
}

/// The boxes of an epoch with this search box and these steps.
fn cover(alloc: Global, root: Box3, steps: &[Step]) -> Result<Vec<Box3>, NoMemory>
    requires { StepsFold (first_boxes (grid_box root)) steps.now }
{
    let Some(steps) = LoggedSteps::from_slice(alloc, steps)? else {
        return Err(NoMemory);
    };
    let epoch = LogEpoch {
        line: 3,
        index: 1,
        ps: 0,
        n: 0,
        sats: Vec::new(alloc),
        body: Some(Body {
            root,
            steps,
            renewals: Vec::new(alloc),
            done: 0,
            bounds: Vec::new(alloc),
        }),
    };
    cover_boxes(alloc, &epoch)
}

/// The boxes that are left of the first epoch of a log that is judged to be right.
fn judged_cover(alloc: Global, log: &Log) -> Result<Vec<Box3>, Fail>
    requires { IsNumbered (log_value log.now) }
{
    let Verdict::Yes { .. } = judge(alloc, log)? else {
        return Err(Fail::from("no"));
    };
    if log.epochs.is_empty() {
        return Err(Fail::from("no epoch"));
    }
    let epoch = &log.epochs[0];
    judged_folds(epoch, &log.rules);
    Ok(cover_boxes(alloc, epoch)?)
}

/// A box with sides of 2, 1.8 and 1.8 m round the origin: that of the log.
pub fn search_box() -> Box3 {
    Box3 {
        lo: Pos {
            x: -1_000_000,
            y: -900_000,
            z: -900_000,
        },
        hi: Pos {
            x: 1_000_000,
            y: 900_000,
            z: 900_000,
        },
    }
}

#[test]
fn the_cover_of_the_log_is_its_search_box(rt: HostRuntime) -> Result<(), Fail> {
    if LOG.len() > 4_000_000_000 {
        return Ok(());
    }
    let kept = kept_text(rt.alloc(), LOG)?;
    let log = read_log(rt.alloc(), &kept).ok().ok_or("refused")?;
    let boxes = judged_cover(rt.alloc(), &log)?;
    assert_eq!(rt; boxes.as_slice(), &[search_box()][..]);
    Ok(())
}

#[test]
fn the_cover_has_the_kept_boxes_in_order_of_closing(rt: HostRuntime) -> Result<(), Fail> {
    let root = Box3 {
        lo: Pos { x: 0, y: 0, z: 0 },
        hi: Pos { x: 7, y: 3, z: 1 },
    };
    let low_half = Box3 {
        lo: Pos { x: 0, y: 0, z: 0 },
        hi: Pos { x: 3, y: 3, z: 1 },
    };
    let high_quarter = Box3 {
        lo: Pos { x: 4, y: 2, z: 0 },
        hi: Pos { x: 7, y: 3, z: 1 },
    };
    let steps = [
        Step::Split { id: 0, axis: 0 },
        Step::Split { id: 2, axis: 1 },
        Step::Outside { id: 3 },
        Step::Edge {
            id: 4,
            lo: -1,
            hi: 1,
        },
        Step::Inside {
            id: 1,
            clock: 0,
            lo: -1,
            hi: 1,
        },
    ];
    let boxes = cover(rt.alloc(), root, &steps)?;
    assert_eq!(rt; boxes.as_slice(), &[high_quarter, low_half][..]);
    Ok(())
}
