//! A run over objects in memory, and what it leaves.

ghost use Rattle.std.specs.Prelude.{◌<◌};

use crate::shelves::{shelf, words};
use crate::texts::{LOG, REPORT, ROWS, SOLVED, SOLVED_REPORT, STEPS};
use cover_run::{Limits, Status, run};
use outer_io::{MemoryShelf, MemorySink};
use std::process::Abort;
use std::test::Fail;

/// A run over the files of a receiver and the file `a.log`, and what it leaves. On the shelf `b.log`
/// alone can be written.
#[derive(Clone, Copy)]
pub struct Case {
    pub words: &'static [&'static str],
    /// What `a.log` holds.
    pub log: &'static str,
    /// The most bytes of a log.
    pub limit: u64,
    /// How many bytes the shelf takes, and how many standard output.
    pub room: u64,
    pub out_room: u64,
    /// The call of the shelf that fails, that of standard output and that of standard error, none
    /// where it is 0.
    pub fails: u64,
    pub out_fails: u64,
    pub err_fails: u64,
    pub status: Status,
    pub out: &'static str,
    pub err: &'static str,
    /// What `b.log` holds, in two parts.
    pub written: Option<(&'static str, &'static str)>,
}

pub const SOLVE: Case = Case {
    words: &["solve", "a.obs", "a.nav", "a.toml", "b.log"],
    log: SOLVED,
    limit: 2_000,
    room: 2_000,
    out_room: 400,
    fails: 0,
    out_fails: 0,
    err_fails: 0,
    status: Status::Done,
    out: SOLVED_REPORT,
    err: "",
    written: Some((SOLVED, "")),
};

pub const CHECK: Case = Case {
    words: &["check", "a.obs", "a.nav", "a.toml", "a.log"],
    out: "yes 0\n",
    written: None,
    ..SOLVE
};

pub const JUDGE: Case = Case {
    words: &["judge", "a.log"],
    log: LOG,
    out: "yes 1\n",
    ..CHECK
};

pub const PAVE: Case = Case {
    words: &["pave", "a.log", "b.log"],
    log: ROWS,
    out: REPORT,
    written: Some((ROWS, STEPS)),
    ..SOLVE
};

/// The run over a shelf of its own, once more where a call of it moves one byte. Calls that are to
/// fail have other numbers then.
pub fn expect(rt: &(impl Abort + AllocGlobal), case: &Case) -> Result<(), Fail> {
    let mut whole = shelf(rt.alloc(), case.log, "b.log", case.room, case.fails)?;
    expect_on(rt, &mut whole, case)?;
    if case.fails == 0 {
        let mut by_bytes = shelf(rt.alloc(), case.log, "b.log", case.room, 0)?;
        by_bytes.set_piece(1);
        expect_on(rt, &mut by_bytes, case)?;
    }
    Ok(())
}

/// The run over this shelf.
pub fn expect_on(
    rt: &(impl Abort + AllocGlobal),
    shelf: &mut MemoryShelf,
    case: &Case,
) -> Result<(), Fail> {
    let alloc = rt.alloc();
    let limits = Limits {
        file: 10_000,
        settings: 2_000,
        log: case.limit.min(4_000_000_000),
    };
    let words = words(alloc, case.words)?;
    let mut out = MemorySink::make(alloc, case.out_room, vec![in alloc; case.out_fails]?)?;
    let mut err = MemorySink::make(alloc, 200, vec![in alloc; case.err_fails]?)?;
    let ended = run(alloc, &limits, &words, shelf, &mut out, &mut err);
    assert_eq!(rt; ended, case.status);
    assert_eq!(rt; out.bytes(), case.out.as_bytes());
    assert_eq!(rt; err.bytes(), case.err.as_bytes());
    let is_written = match (shelf.file("b.log"), case.written) {
        (Some(bytes), Some((first, second))) => {
            bytes.strip_prefix(first.as_bytes()) == Some(second.as_bytes())
        }
        (None, None) => true,
        _ => false,
    };
    assert!(rt; is_written);
    Ok(())
}
