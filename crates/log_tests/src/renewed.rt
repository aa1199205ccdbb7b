//! The judge on a log with renewed rows.

ghost use Rattle.std.specs.Prelude.{◌≡◌, IfOk};

use grid_model::Span;
use paving_log::{LogError, read_log};
use paving_log_check::{Fault, Verdict, judge};
use std::alloc::{AllocError, Global};
use std::rc::Rc;
use std::test::Fail;

const FIRST: &str =
    "sat G01 20000000000000 20000000000000 0 0 0 0 20000000000000 20000000000000 -5000000 5000000\n";

const SECOND: &str =
    "sat G02 0 0 20000000000000 20000000000000 0 0 20000000000000 20000000000000 -50000000 50000000\n";

const THIRD: &str =
    "sat G03 0 0 0 0 20000000000000 20000000000000 20000000000000 20000000000000 -50000000 50000000\n";

const LAST: &str =
    "sat G05 -20000000000000 -20000000000000 0 0 0 0 20000000000000 20000000000000 -5000000 5000000\n";

pub static ROWS: [&str; 4] = [FIRST, SECOND, THIRD, LAST];

/// What is left of the root behind both cuts.
pub const LEFT: &str = "renew -6000000 -1000000 -1000000 6250000 1000000 1000000\n";

/// A log whose rows are renewed behind two cuts, with these lines for their satellites, of which
/// one may be empty.
pub fn log_with(
    alloc: Global,
    version: &str,
    renew: &str,
    renewed: &[&str; 4],
) -> Result<String, AllocError> {
    let mut text = String::from_str(alloc, version)?;
    text.push_str("rules 0 0 1000000\nepoch 1 1388102400000000000000 4\n")?;
    for row in &ROWS {
        text.push_str(*row)?;
    }
    text.push_str("root -8000000 -1000000 -1000000 8000000 1000000 1000000\n")?;
    text.push_str("cut 0 0 -6000000\ncut 0 1 6250000\n")?;
    text.push_str(renew)?;
    for row in renewed {
        text.push_str(*row)?;
    }
    text.push_str("edge 0 -11000000 11000000\ndone 0\n")?;
    Ok(text)
}

/// The bytes of a text, as a log keeps them.
pub fn kept_text(alloc: Global, text: &str) -> Result<Rc<Vec<u8>>, AllocError>
    ensures { IfOk result (λ kept. kept.value.items ≡ text.now) }
{
    let bytes = Vec::from_slice(alloc, text.as_bytes())?;
    Ok(Rc::new(alloc, bytes)?)
}

/// The verdict on the text, or the line and kind where it is no log.
pub fn found(alloc: Global, text: &str) -> Result<Result<Verdict, (u32, u8)>, Fail> {
    if text.len() > 4_000_000_000 {
        return Err(Fail::from("too long"));
    }
    match read_log(alloc, &kept_text(alloc, text)?) {
        Ok(log) => Ok(Ok(judge(alloc, &log)?)),
        Err(LogError::BadLog { line, kind }) => Ok(Err((line, kind))),
        Err(LogError::NoMemory) => Err(Fail::from("no memory")),
    }
}

/// What is found in a text: that the log is right, with one box, the number of its first fault and
/// the line, or the line and kind where it is no log.
#[derive(Clone, Copy)]
pub enum Want {
    Yes,
    No(u8, u32),
    NoLog(u32, u8),
}

/// The same as it is found.
pub fn wanted(want: Want) -> Result<Verdict, (u32, u8)> {
    match want {
        Want::Yes => Ok(Verdict::Yes { boxes: 1 }),
        Want::No(number, line) => Ok(Verdict::No(Fault {
            number,
            line,
            theirs: Span { lo: 0, hi: 0 },
            ours: Span { lo: 0, hi: 0 },
        })),
        Want::NoLog(line, kind) => Err((line, kind)),
    }
}

const OTHER: &str =
    "sat G04 20000000000000 20000000000000 0 0 0 0 20000000000000 20000000000000 -5000000 5000000\n";

/// The second cut leaves less than this at one end.
const NARROW: &str = "renew -5999999 -1000000 -1000000 6250000 1000000 1000000\n";

/// The root ends before this.
const WIDE: &str = "renew -8000001 -1000000 -1000000 8000000 1000000 1000000\n";

/// The first line, that of the renewal and those of its rows, and what is found.
static CASES: [(&str, &str, [&str; 4], Want); 8] = [
    (
        "gpscover 2\n",
        LEFT,
        [FIRST, SECOND, THIRD, LAST],
        Want::Yes,
    ),
    (
        "gpscover 3\n",
        LEFT,
        [FIRST, SECOND, THIRD, LAST],
        Want::Yes,
    ),
    (
        "gpscover 1\n",
        LEFT,
        [FIRST, SECOND, THIRD, LAST],
        Want::NoLog(11, 2),
    ),
    (
        "gpscover 2\n",
        NARROW,
        [FIRST, SECOND, THIRD, LAST],
        Want::No(65, 11),
    ),
    (
        "gpscover 2\n",
        WIDE,
        [FIRST, SECOND, THIRD, LAST],
        Want::No(65, 11),
    ),
    (
        "gpscover 2\n",
        LEFT,
        [FIRST, SECOND, THIRD, ""],
        Want::NoLog(15, 2),
    ),
    (
        "gpscover 2\n",
        LEFT,
        [OTHER, SECOND, THIRD, LAST],
        Want::No(52, 12),
    ),
    ("gpscover 2\n", "", ["", "", "", ""], Want::Yes),
];

#[test]
fn renewed_rows_are_judged(rt: HostRuntime) -> Result<(), Fail> {
    let alloc = rt.alloc();
    for (version, renew, rows, want) in &CASES {
        let text = log_with(alloc, *version, *renew, rows)?;
        assert_eq!(rt; found(alloc, &text)?, wanted(*want), "at {text}");
    }
    Ok(())
}
