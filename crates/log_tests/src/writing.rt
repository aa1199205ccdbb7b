//! A log and its report while they are written: in pieces of up to 64 KiB, the log's before the
//! report's.

ghost use Rattle.std.specs.Prelude.{◌≡◌, None, IfOk};
ghost use Rattle.paving_log.specs.RowsText.{AllOwnPass};
ghost use Rattle.log_lines.specs.Text.{LogFits};
ghost use Rattle.paving_log.specs.Values.{log_value};
ghost use Rattle.log_lines.specs.declared.line.Kind.TheVariants as kind;

use crate::renewed::kept_text;
use grid_model::{Box3, NoMemory};
use log_writer::{Blocks, LogBlocks, Wanted, WriteFault, write_log};
use outer_io::{MemoryShelf, MemorySink, Shelf, Slot};
use paving::Renewals;
use paving_log::{Log, LogEpoch, read_rows};
use sat_model::Row;
use std::alloc::{AllocError, Global};
use std::test::Fail;

/// The rows of a text.
pub fn rows_in(alloc: Global, text: &str) -> Result<Log, Fail>
    ensures fits { IfOk result (λ rows. LogFits kind.Rows (log_value rows)) }
    ensures passes { IfOk result (λ rows. AllOwnPass rows.rules None (log_value rows).blocks) }
{
    if text.len() > 4_000_000_000 {
        return Err(Fail::from("too long"));
    }
    match read_rows(alloc, &kept_text(alloc, text)?) {
        Ok(rows) => Ok(rows),
        Err(_) => Err(Fail::from("no rows")),
    }
}

/// Devices on which a log is written: the bytes that each takes, and the number of its call that
/// fails, none where it is 0. The log is created by call 1 of the shelf.
#[derive(Clone, Copy)]
pub struct Devices {
    pub room: u64,
    pub fails: u64,
    pub out_room: u64,
    pub out_fails: u64,
}

/// Devices that take all.
pub const WHOLE: Devices = Devices {
    room: 200_000,
    fails: 0,
    out_room: 200_000,
    out_fails: 0,
};

/// What they hold in the end.
#[derive(Drop)]
pub struct Held {
    pub result: Result<(), WriteFault>,
    pub shelf: MemoryShelf,
    pub out: MemorySink,
}

/// Writes the log of these blocks up to the limit.
pub fn write<B: Blocks>(
    alloc: Global,
    wanted: &Wanted,
    blocks: &mut B,
    limit: u32,
    devices: &Devices,
) -> Result<Held, Fail>
    requires rules { (B.standing blocks.old).rules ≡ wanted.now.rules }
    requires first { (B.standing blocks.old).before ≡ None }
    requires ready { B.ready blocks.old }
{
    let name = String::from_str(alloc, "b.log")?;
    let fails = vec![in alloc; devices.fails]?;
    let mut shelf = MemoryShelf::make(alloc, Vec::new(alloc), name, devices.room, fails)?;
    let mut out = MemorySink::make(alloc, devices.out_room, vec![in alloc; devices.out_fails]?)?;
    shelf.create("b.log", Slot::Log)?;
    let limit = (limit as u64).min(4_000_000_000);
    let result = write_log(alloc, &mut shelf, &mut out, limit, wanted, blocks);
    Ok(Held { result, shelf, out })
}

/// Writes the log of these rows.
fn write_rows(alloc: Global, rows: &str, limit: u32, devices: &Devices) -> Result<Held, Fail> {
    let log = rows_in(alloc, rows)?;
    let wanted = Wanted {
        rules: log.rules,
        directions: None,
    };
    write(alloc, &wanted, &mut LogBlocks::of_log(log), limit, devices)
}

/// The bytes of the log.
pub fn log_bytes(held: &Held) -> &[u8] {
    held.shelf.file("b.log").unwrap_or(&[])
}

/// A box that is closed at the edge.
const ROWS: &str = "\
gpscover 1
rules 0 0 1000000
epoch 1 1388102400000000000000 4
sat G01 20000000000000 20000000000000 0 0 0 0 20000000000000 20000000000000 -500000 500000
sat G02 0 0 20000000000000 20000000000000 0 0 20000000000000 20000000000000 -500000 500000
sat G03 0 0 0 0 20000000000000 20000000000000 20000000000000 20000000000000 -500000 500000
sat G04 12000000000000 12000000000000 16000000000000 16000000000000 0 0 20000000000000 20000000000000 -500000 500000
root -1000000 -900000 -900000 1000000 900000 900000
";

const HEAD: &str = "gpscover 1\nrules 0 0 1000000\nepoch 1 1388102400000000000000 4\n";

const STEPS: &str = "edge 0 -1400000 1400000\ndone 0\n";

pub const FIRST_REPORT: &str = "epoch 1 gps 1388102400.000000000000 satellites 4\n";

pub const MORE_REPORT: &str = "\
edge -1.000000 1.000000 -0.900000 0.900000 -0.900000 0.900000 clock -1.400000 1.400000
total in 0 edge 1 out 0 bisections 0
";

/// Two texts, one behind the other.
pub fn both(alloc: Global, first: &str, second: &str) -> Result<String, AllocError> {
    let mut text = String::from_str(alloc, first)?;
    text.push_str(second)?;
    Ok(text)
}

/// A limit and devices, the fault that ends the writing, if one does, and what the log and the
/// report hold then, each in two parts.
type Piece = (
    u32,
    Devices,
    Option<WriteFault>,
    (&'static str, &'static str),
    (&'static str, &'static str),
);

static PIECES: [Piece; 8] = [
    (
        2_000,
        WHOLE,
        None,
        (ROWS, STEPS),
        (FIRST_REPORT, MORE_REPORT),
    ),
    (
        100,
        WHOLE,
        Some(WriteFault::Full),
        (HEAD, ""),
        (FIRST_REPORT, ""),
    ),
    (
        28,
        WHOLE,
        Some(WriteFault::Full),
        ("gpscover 1\n", ""),
        ("", ""),
    ),
    (0, WHOLE, Some(WriteFault::Full), ("", ""), ("", "")),
    (
        2_000,
        Devices { fails: 2, ..WHOLE },
        Some(WriteFault::Log),
        ("", ""),
        ("", ""),
    ),
    (
        100,
        Devices { room: 20, ..WHOLE },
        Some(WriteFault::Log),
        ("gpscover 1\nrules 0 0", ""),
        ("", ""),
    ),
    (
        2_000,
        Devices {
            out_fails: 1,
            ..WHOLE
        },
        Some(WriteFault::Out),
        (ROWS, STEPS),
        ("", ""),
    ),
    (
        100,
        Devices {
            out_room: 20,
            ..WHOLE
        },
        Some(WriteFault::Out),
        (HEAD, ""),
        ("epoch 1 gps 13881024", ""),
    ),
];

/// How the writing ends.
fn ended(fault: Option<WriteFault>) -> Result<(), WriteFault> {
    match fault {
        Some(fault) => Err(fault),
        None => Ok(()),
    }
}

// What fits one piece goes out at the end, or at a full log in the middle of the epoch. A device
// that is full keeps what it took.
#[test]
fn one_piece_goes_out_at_the_end(rt: HostRuntime) -> Result<(), Fail> {
    let alloc = rt.alloc();
    for (limit, devices, fault, log, report) in &PIECES {
        let held = write_rows(alloc, ROWS, *limit, devices)?;
        assert_eq!(rt; held.result, ended(*fault));
        assert_eq!(rt; log_bytes(&held), both(alloc, log.0, log.1)?.as_bytes());
        assert_eq!(rt;
            held.out.bytes(),
            both(alloc, report.0, report.1)?.as_bytes()
        );
    }
    Ok(())
}

/// A box that is cut at two faces before it is closed: its rows, its steps and what the report says
/// of them.
const CUT_ROWS: &str = "\
gpscover 1
rules 0 0 1000000
epoch 1 1388102400000000000000 4
sat G01 20000000000000 20000000000000 0 0 0 0 20000000000000 20000000000000 -5000000 5000000
sat G02 0 0 20000000000000 20000000000000 0 0 20000000000000 20000000000000 -50000000 50000000
sat G03 0 0 0 0 20000000000000 20000000000000 20000000000000 20000000000000 -50000000 50000000
sat G05 -20000000000000 -20000000000000 0 0 0 0 20000000000000 20000000000000 -5000000 5000000
root -8000000 -1000000 -1000000 8000000 1000000 1000000
";

const CUT_STEPS: &str = "\
cut 0 0 -6000000
cut 0 1 6250000
edge 0 -11000000 11000000
done 0
";

const CUT_REPORT: &str = "\
out -8.000000 -6.000001 -1.000000 1.000000 -1.000000 1.000000
out 6.250001 8.000000 -1.000000 1.000000 -1.000000 1.000000
edge -6.000000 6.250000 -1.000000 1.000000 -1.000000 1.000000 clock -11.000000 11.000000
total in 0 edge 1 out 2 bisections 0
";

#[test]
fn a_cut_is_written_and_told(rt: HostRuntime) -> Result<(), Fail> {
    let alloc = rt.alloc();
    let held = write_rows(alloc, CUT_ROWS, 2_000, &WHOLE)?;
    assert_eq!(rt; held.result, Ok(()));
    assert_eq!(rt;
        log_bytes(&held),
        both(alloc, CUT_ROWS, CUT_STEPS)?.as_bytes()
    );
    assert_eq!(rt;
        held.out.bytes(),
        both(alloc, FIRST_REPORT, CUT_REPORT)?.as_bytes()
    );
    Ok(())
}

/// How many epochs the long rows have. Each has a line of 36 bytes, and one of 47 in the report.
const EPOCHS: u32 = 2_000;

/// Rows of epochs with too few satellites.
fn long_rows(alloc: Global) -> Result<String, Fail> {
    let mut text = String::from_str(alloc, "gpscover 1\nrules 1 8 1000\n")?;
    for index in 100_001..100_001 + EPOCHS {
        text.push_str(&format!(in alloc; "few {index} 1388102400000000000000 4\n")?)?;
    }
    Ok(text)
}

/// The same with the lengths of the log and of the report, of epochs that fill more than a piece.
static LONG_PIECES: [(u32, Devices, Option<WriteFault>, usize, usize); 8] = [
    (100_000, WHOLE, None, 72_026, 94_000),
    (
        100_000,
        Devices { fails: 2, ..WHOLE },
        Some(WriteFault::Log),
        0,
        0,
    ),
    (
        100_000,
        Devices { fails: 3, ..WHOLE },
        Some(WriteFault::Log),
        50_210,
        65_518,
    ),
    (
        100_000,
        Devices {
            room: 60_000,
            ..WHOLE
        },
        Some(WriteFault::Log),
        60_000,
        65_518,
    ),
    (
        100_000,
        Devices {
            out_fails: 1,
            ..WHOLE
        },
        Some(WriteFault::Out),
        50_210,
        0,
    ),
    (
        100_000,
        Devices {
            out_fails: 2,
            ..WHOLE
        },
        Some(WriteFault::Out),
        72_026,
        65_518,
    ),
    (
        100_000,
        Devices {
            out_room: 70_000,
            ..WHOLE
        },
        Some(WriteFault::Out),
        72_026,
        70_000,
    ),
    (60_000, WHOLE, Some(WriteFault::Full), 59_966, 78_255),
];

// The report fills the first piece, with the lines of 1,394 epochs: 65,518 of 65,536 bytes. The
// head has 26 bytes.
#[test]
fn the_logs_piece_goes_out_before_the_reports(rt: HostRuntime) -> Result<(), Fail> {
    let alloc = rt.alloc();
    let rows = long_rows(alloc)?;
    let whole = write_rows(alloc, &rows, 100_000, &WHOLE)?;
    assert_eq!(rt; log_bytes(&whole), rows.as_bytes());
    for (limit, devices, fault, log, report) in &LONG_PIECES {
        let held = write_rows(alloc, &rows, *limit, devices)?;
        assert_eq!(rt; held.result, ended(*fault));
        assert_eq!(rt;
            (log_bytes(&held).len(), held.out.bytes().len()),
            (*log, *report)
        );
        assert!(rt; rows.as_bytes().starts_with(log_bytes(&held)));
        assert!(rt; whole.out.bytes().starts_with(held.out.bytes()));
    }
    Ok(())
}

/// The blocks of a log, of which so many come before memory ends.
#[derive(Drop)]
struct Ending {
    blocks: LogBlocks,
    left: u32,
}

impl Renewals for Ending {
    ghost maker = { λ ending. ⟦<LogBlocks as Renewals>⟧.maker ending.blocks };

    ghost sats = { λ ending. ⟦<LogBlocks as Renewals>⟧.sats ending.blocks };

    ghost root = { λ ending. ⟦<LogBlocks as Renewals>⟧.root ending.blocks };

    ghost of_sat = { λ ending i part row gives. absurd gives };

    fn active(&self) -> bool {
        self.blocks.active()
    }

    fn row(&self, i: u32, part: &Box3) -> Option<Row> {
        self.blocks.row(i, part)
    }
}

impl Blocks for Ending {
    ghost gives = { λ old kept next new.
        ⟦<LogBlocks as Blocks>⟧.gives old.blocks kept next new.blocks };

    ghost standing = { λ ending. ⟦<LogBlocks as Blocks>⟧.standing ending.blocks };

    ghost ready = { λ ending. ⟦<LogBlocks as Blocks>⟧.ready ending.blocks };

    fn next(&mut self, alloc: Global, kept: Option<Box3>) -> Result<Option<LogEpoch>, NoMemory> {
        if self.left == 0 {
            return Err(NoMemory);
        }
        self.left -= 1;
        self.blocks.next(alloc, kept)
    }
}

/// How many blocks come before memory ends, devices, the fault that ends the writing, and the
/// lengths of the log and of the report.
static ENDINGS: [(u32, Devices, WriteFault, usize, usize); 4] = [
    (0, WHOLE, WriteFault::NoMemory, 26, 0),
    (1_500, WHOLE, WriteFault::NoMemory, 54_026, 70_500),
    (
        1_500,
        Devices { fails: 3, ..WHOLE },
        WriteFault::Log,
        50_210,
        65_518,
    ),
    (
        1_500,
        Devices {
            out_fails: 2,
            ..WHOLE
        },
        WriteFault::Out,
        54_026,
        65_518,
    ),
];

// What was gathered goes out, where a device doesn't fail then.
#[test]
fn finished_epochs_go_out_where_memory_ends(rt: HostRuntime) -> Result<(), Fail> {
    let alloc = rt.alloc();
    for (left, devices, fault, log, report) in &ENDINGS {
        let rows = rows_in(alloc, &long_rows(alloc)?)?;
        let wanted = Wanted {
            rules: rows.rules,
            directions: None,
        };
        let mut blocks = Ending {
            blocks: LogBlocks::of_log(rows),
            left: *left,
        };
        let held = write(alloc, &wanted, &mut blocks, 100_000, devices)?;
        assert_eq!(rt; held.result, Err(*fault));
        assert_eq!(rt;
            (log_bytes(&held).len(), held.out.bytes().len()),
            (*log, *report)
        );
    }
    Ok(())
}
