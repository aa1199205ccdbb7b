//! Runs that meet a limit, a full device or a call that fails, runs of which each call moves one
//! byte, and runs that follow one another over one shelf.

use crate::cases::{CHECK, Case, JUDGE, PAVE, SOLVE, expect, expect_on};
use crate::shelves::shelf;
use crate::texts::{
    EMPTY_REPORT, EMPTY_ROWS, EPOCH_LINE, FEW_ROWS, INNER_REPORT, INNER_ROWS, LOG, ROWS, SOLVED,
    SPLIT_REPORT, SPLIT_ROWS, SPLIT_STEPS,
};
use cover_run::Status;
use std::process::Abort;
use std::test::Fail;

// The run where a call that reads fails.
fn unread(case: &Case, call: u64, err: &'static str) -> Case {
    Case {
        fails: call,
        status: Status::ReadFault,
        out: "",
        err,
        written: None,
        ..*case
    }
}

// Runs where a call that creates or writes the log fails.
const UNWRITTEN_SOLVE: Case = Case {
    status: Status::WriteFault,
    out: "",
    err: "log fault\n",
    written: None,
    ..SOLVE
};

const UNWRITTEN_PAVE: Case = Case {
    status: Status::WriteFault,
    out: "",
    err: "log fault\n",
    written: None,
    ..PAVE
};

// Runs where standard output fails.
const UNSAID_JUDGE: Case = Case {
    out_fails: 1,
    status: Status::WriteFault,
    out: "",
    err: "out fault\n",
    ..JUDGE
};

// A paving whose log would pass its limit.
const FULL: Case = Case {
    status: Status::LogFull,
    out: "",
    ..PAVE
};

// The run, once for each of the calls that read a file: it fails there.
fn expect_unread(
    rt: &(impl Abort + AllocGlobal),
    case: &Case,
    calls: &[u64; 3],
    err: &'static str,
) -> Result<(), Fail> {
    for call in calls {
        expect(rt, &unread(case, *call, err))?;
    }
    Ok(())
}

// Each file is begun by one call and read by two more, in the order of settings, records,
// observations and log. So are rows.
static READS: [(Case, [u64; 3], &str); 9] = [
    (SOLVE, [1, 2, 3], "settings fault\n"),
    (SOLVE, [4, 5, 6], "nav fault\n"),
    (SOLVE, [7, 8, 9], "obs fault\n"),
    (CHECK, [1, 2, 3], "settings fault\n"),
    (CHECK, [4, 5, 6], "nav fault\n"),
    (CHECK, [7, 8, 9], "obs fault\n"),
    (CHECK, [10, 11, 12], "log fault\n"),
    (JUDGE, [1, 2, 3], "log fault\n"),
    (PAVE, [1, 2, 3], "rows fault\n"),
];

#[test]
fn each_read_that_fails_has_its_status(rt: HostRuntime) -> Result<(), Fail> {
    for (case, calls, err) in &READS {
        expect_unread(&rt, case, calls, *err)?;
    }
    Ok(())
}

// Behind what is read the log is created by one call and written by the next. Behind the last call
// none fails. Standard output can't end a quiet run.
static WRITES: [Case; 13] = [
    Case {
        fails: 10,
        ..UNWRITTEN_SOLVE
    },
    Case {
        fails: 11,
        written: Some(("", "")),
        ..UNWRITTEN_SOLVE
    },
    Case { fails: 12, ..SOLVE },
    Case { fails: 13, ..CHECK },
    Case {
        fails: 4,
        ..UNWRITTEN_PAVE
    },
    Case {
        fails: 5,
        written: Some(("", "")),
        ..UNWRITTEN_PAVE
    },
    Case {
        out_fails: 1,
        status: Status::WriteFault,
        out: "",
        err: "out fault\n",
        ..SOLVE
    },
    Case {
        out_fails: 1,
        status: Status::WriteFault,
        out: "",
        err: "out fault\n",
        ..CHECK
    },
    UNSAID_JUDGE,
    Case {
        out_fails: 1,
        status: Status::WriteFault,
        out: "",
        err: "out fault\n",
        ..PAVE
    },
    Case {
        err_fails: 1,
        err: "",
        ..UNSAID_JUDGE
    },
    Case {
        words: &["solve", "--quiet", "a.obs", "a.nav", "a.toml", "b.log"],
        out_fails: 1,
        out: "",
        ..SOLVE
    },
    Case {
        words: &["pave", "a.log", "b.log", "--quiet"],
        out_room: 0,
        out: "",
        ..PAVE
    },
];

#[test]
fn each_write_that_fails_has_its_status(rt: HostRuntime) -> Result<(), Fail> {
    for case in &WRITES {
        expect(&rt, case)?;
    }
    Ok(())
}

const HEAD: &str = "gpscover 1\nrules 0 0 1000000\nepoch 1 1388102400000000000000 4\n";

const NONE: &str = "gpscover 1\nrules 8 200000 1000\n";

const MAKE: &[&str] = &["make", "7", "1"];

// A line that would pass the limit of the log isn't begun, and a device that is full keeps what it
// took. A log of E epochs with B splits allowed isn't full at 512 + 256 * E * (1,237 + 1,801 * (2 *
// B + 1)) bytes: here E and B are 1 and 0, 1 and 1, 2 and 0, and none and 200,000.
static LIMITS: [Case; 20] = [
    SOLVE,
    Case {
        room: 20,
        written: Some(("gpscover 1\nrules 1 4", "")),
        ..UNWRITTEN_SOLVE
    },
    Case {
        limit: LOG.len() as u64,
        ..JUDGE
    },
    Case {
        limit: 9,
        status: Status::Refused,
        out: "",
        err: "log 29 TooLong 9\n",
        ..JUDGE
    },
    Case {
        out_room: 3,
        status: Status::WriteFault,
        out: "yes",
        err: "out fault\n",
        ..JUDGE
    },
    Case {
        limit: 100,
        out: EPOCH_LINE,
        err: "log full 100\n",
        written: Some((HEAD, "")),
        ..FULL
    },
    Case {
        limit: 62,
        out: EPOCH_LINE,
        err: "log full 62\n",
        written: Some((HEAD, "")),
        ..FULL
    },
    Case {
        limit: 28,
        err: "log full 28\n",
        written: Some(("gpscover 1\n", "")),
        ..FULL
    },
    Case {
        limit: 0,
        err: "log full 0\n",
        written: Some(("", "")),
        ..FULL
    },
    Case {
        room: 20,
        written: Some(("gpscover 1\nrules 0 0", "")),
        ..UNWRITTEN_PAVE
    },
    Case {
        out_room: 20,
        status: Status::WriteFault,
        out: "epoch 1 gps 13881024",
        err: "out fault\n",
        ..PAVE
    },
    // No other name than `b.log` can be created.
    Case {
        words: &["pave", "a.log", "c.log"],
        ..UNWRITTEN_PAVE
    },
    Case {
        limit: 778_240,
        ..PAVE
    },
    Case {
        limit: 1_700_352,
        log: SPLIT_ROWS,
        out: SPLIT_REPORT,
        written: Some((SPLIT_ROWS, SPLIT_STEPS)),
        ..PAVE
    },
    Case {
        limit: 1_555_968,
        log: EMPTY_ROWS,
        out: EMPTY_REPORT,
        written: Some((EMPTY_ROWS, "out 0\ndone 0\n")),
        ..PAVE
    },
    Case {
        limit: 512,
        log: NONE,
        out: "",
        written: Some((NONE, "")),
        ..PAVE
    },
    Case {
        log: INNER_ROWS,
        out: INNER_REPORT,
        written: Some((INNER_ROWS, "in 0 0 -1900000 1900000\ndone 0\n")),
        ..PAVE
    },
    Case {
        log: FEW_ROWS,
        out: "epoch 1 gps 1388102400.000000000000 few 4\n",
        written: Some((FEW_ROWS, "")),
        ..PAVE
    },
    Case {
        words: MAKE,
        limit: 61,
        err: "log full 61\n",
        written: None,
        ..FULL
    },
    Case {
        words: MAKE,
        limit: 1_000_000,
        out_room: 30,
        status: Status::WriteFault,
        out: "made seed 7 epochs 1 satellite",
        err: "out fault\n",
        written: None,
        ..PAVE
    },
];

#[test]
fn a_run_ends_at_a_limit_or_a_full_device(rt: HostRuntime) -> Result<(), Fail> {
    for case in &LIMITS {
        expect(&rt, case)?;
    }
    Ok(())
}

// What one run writes the next one reads or writes over.
static FOLLOWING: [Case; 5] = [
    PAVE,
    Case {
        words: &["judge", "b.log"],
        out: "yes 1\n",
        ..PAVE
    },
    SOLVE,
    Case {
        words: &["check", "a.obs", "a.nav", "a.toml", "b.log"],
        written: Some((SOLVED, "")),
        ..CHECK
    },
    SOLVE,
];

#[test]
fn runs_follow_one_another(rt: HostRuntime) -> Result<(), Fail> {
    let mut shelf = shelf(rt.alloc(), ROWS, "b.log", 4_000, 0)?;
    for case in &FOLLOWING {
        expect_on(&rt, &mut shelf, case)?;
    }
    Ok(())
}
