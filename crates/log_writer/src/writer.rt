//! A log and its report while they are written.

ghost use Rattle.std.specs.Prelude.{◌≡◌, ◌≤◌, ◌+◌, ◌++◌, [], length, true, OnOk};
ghost use Rattle.arrayvec.specs.ArrayVec.{array_vec_len};
ghost use Rattle.log_writer.specs.Sizes.{piece_size};
ghost use Rattle.log_writer.specs.Writing.{devices, Sends, trust_of, Trusts};
ghost use Rattle.outer_io.specs.Slots.{at};
ghost use Rattle.outer_io.specs.declared.shelf.Phase.TheVariants.{Writing};
ghost use Rattle.outer_io.specs.declared.slots.Slot.TheVariants.{Log};

use crate::fault::WriteFault;
use crate::pen::Pen;
use arrayvec::ArrayVec;
use outer_io::{Shelf, Sink, Slot, write_shelf, write_sink};

/// The most bytes that are gathered for a device: `piece_size` of the clauses.
const PIECE: usize = 65536;

/// Appends these bytes to the log, and then these to `out`.
fn send<H: Shelf, O: Sink>(
    shelf: &mut H,
    out: &mut O,
    log: &[u8],
    report: &[u8],
) -> Result<(), WriteFault>
    requires { at (H.state shelf.old).openings.phases Log ≡ Writing }
    ensures sends { Sends (devices (H.state shelf.old) (O.state out.old)) log.now report.now
        result (devices (H.state shelf.new) (O.state out.new)) }
    ensures openings { (H.state shelf.new).openings ≡ (H.state shelf.old).openings }
    ensures trust { Trusts (trust_of (H.reliable shelf.old) (O.reliable out.old)) result
        (trust_of (H.reliable shelf.new) (O.reliable out.new)) }
{
    match write_shelf(shelf, Slot::Log, log) {
        Ok(()) => {}
        Err(_) => return Err(WriteFault::Log),
    }
    match write_sink(out, report) {
        Ok(()) => Ok(()),
        Err(_) => Err(WriteFault::Out),
    }
}

/// A shelf whose log is open, the sink of the report, the bytes that wait for them, and how many
/// more of the log may come.
#[derive(Drop)]
pub(crate) struct Writer<'a, 'b, H: Shelf, O: Sink> {
    shelf: &'a mut H,
    out: &'b mut O,
    lines: ArrayVec<u8, PIECE>,
    reports: ArrayVec<u8, PIECE>,
    left: u64,
    ghost open: { at (H.state shelf.now).openings.phases Log ≡ Writing },
}

impl<'a, 'b, H: Shelf, O: Sink> Writer<'a, 'b, H, O> {
    /// The log of the shelf, with room for so many bytes, and the report on `out`.
    pub fn over(shelf: &'a mut H, out: &'b mut O, left: u64) -> Writer<'a, 'b, H, O>
        requires { at (H.state shelf.old).openings.phases Log ≡ Writing }
        ensures shelf { result.shelf.ghost_name ≡ shelf.entry.ghost_name }
        ensures out { result.out.ghost_name ≡ out.entry.ghost_name }
        ensures shelf_value { result.shelf.now ≡ shelf.old }
        ensures out_value { result.out.now ≡ out.old }
        ensures lines { result.lines.items ≡ [] }
        ensures reports { result.reports.items ≡ [] }
        ensures left { result.left ≡ left }
    {
        Writer {
            shelf,
            out,
            lines: ArrayVec::new(),
            reports: ArrayVec::new(),
            left,
        }
    }

    /// Whether a line and its report can be gathered.
    fn has_room(&self, line: &[u8], report: &[u8]) -> bool
        ensures lines { result ≡ true
            → array_vec_len self.now.lines + length line.now ≤ piece_size }
        ensures reports { result ≡ true
            → array_vec_len self.now.reports + length report.now ≤ piece_size }
    {
        line.len() <= self.lines.remaining_capacity()
            && report.len() <= self.reports.remaining_capacity()
    }

    /// Gathers them.
    fn gather(&mut self, line: &[u8], report: &[u8])
        requires lines { array_vec_len self.old.lines + length line.now ≤ piece_size }
        requires reports { array_vec_len self.old.reports + length report.now ≤ piece_size }
        ensures lines { self.new.lines.items ≡ self.old.lines.items ++ line.now }
        ensures reports { self.new.reports.items ≡ self.old.reports.items ++ report.now }
        ensures left { self.new.left ≡ self.old.left }
        ensures shelf { self.new.shelf ≡ self.old.shelf }
        ensures out { self.new.out ≡ self.old.out }
    {
        let _ = self.lines.try_extend_from_slice(line);
        let _ = self.reports.try_extend_from_slice(report);
    }

    /// Sends on what is gathered.
    fn empty(&mut self) -> Result<(), WriteFault>
        ensures sends { Sends (devices (H.state self.old.shelf.now) (O.state self.old.out.now))
            self.old.lines.items self.old.reports.items result
            (devices (H.state self.new.shelf.now) (O.state self.new.out.now)) }
        ensures trust { Trusts
            (trust_of (H.reliable self.old.shelf.now) (O.reliable self.old.out.now)) result
            (trust_of (H.reliable self.new.shelf.now) (O.reliable self.new.out.now)) }
        ensures lines { OnOk result (self.new.lines.items ≡ []) }
        ensures reports { OnOk result (self.new.reports.items ≡ []) }
        ensures left { self.new.left ≡ self.old.left }
        ensures same_shelf { self.new.shelf.ghost_name ≡ self.old.shelf.ghost_name }
        ensures same_out { self.new.out.ghost_name ≡ self.old.out.ghost_name }
    {
        send(
            self.shelf,
            self.out,
            self.lines.as_slice(),
            self.reports.as_slice(),
        )?;
        self.lines.clear();
        self.reports.clear();
        Ok(())
    }
}

impl<H: Shelf, O: Sink> Pen for Writer<'_, '_, H, O> {
    ghost seen = { λ w. record {
      at = devices (H.state w.shelf.now) (O.state w.out.now);
      shelf = w.shelf.ghost_name;
      out = w.out.ghost_name;
      log_waits = w.lines.items;
      report_waits = w.reports.items;
      left = w.left;
    } };

    ghost trust = { λ w. trust_of (H.reliable w.shelf.now) (O.reliable w.out.now) };

    fn put(&mut self, line: &[u8], report: &[u8]) -> Result<(), WriteFault> {
        let length = line.len() as u64;
        if self.left < length {
            return Err(WriteFault::Full);
        }
        if self.has_room(line, report) {
            self.left -= length;
            self.gather(line, report);
            return Ok(());
        }
        self.empty()?;
        self.left -= length;
        if self.has_room(line, report) {
            self.gather(line, report);
            return Ok(());
        }
        // One of them is longer than a piece, so it goes out by itself.
        send(self.shelf, self.out, line, report)
    }

    fn flush(&mut self) -> Result<(), WriteFault> {
        self.empty()
    }
}
