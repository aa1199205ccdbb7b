//! The whole log of some blocks.

ghost use Rattle.std.specs.Prelude.{◌≡◌, ◌≤◌, ℕ, List, None, is_some};
ghost use Rattle.log_writer.specs.Sizes.{most_bytes, HasRoom};
ghost use Rattle.log_writer.specs.Sources.{source_of};
ghost use Rattle.log_writer.specs.Texts.{IsText};
ghost use Rattle.log_writer.specs.Writing.{devices, Sent, Counts, trust_of, Trusts};
ghost use Rattle.outer_io.specs.Sizes.{longest_file};
ghost use Rattle.outer_io.specs.Slots.{at};
ghost use Rattle.outer_io.specs.declared.shelf.Phase.TheVariants.{Writing};
ghost use Rattle.outer_io.specs.declared.slots.Slot.TheVariants as slot;

use crate::blocks::Blocks;
use crate::epochs::put_whole;
use crate::fault::WriteFault;
use crate::wanted::Wanted;
use crate::writer::Writer;
use outer_io::{Shelf, Sink};
use std::alloc::Global;

/// Paves the blocks of this source, each one before it asks for the next, and writes their log to
/// the slot `Log` of the shelf, as far as `limit` bytes, and the report to `out`. Where the source
/// is active, it renews the rows of each block while this is paved. Where bounds are asked for, the
/// rows are renewed once more behind the last step, over the hull of the kept boxes, and at most one
/// bound along each direction stands behind the number of splits. The lines go out in large
/// pieces, each line of the log before the report's line of it. Ends early with the first fault: of
/// a write, of the log's line for which there is no room left, or of memory. Where no device was at
/// fault, all lines before went out then.
pub fn write_log<H: Shelf, O: Sink, B: Blocks>(
    alloc: Global,
    shelf: &mut H,
    out: &mut O,
    limit: u64,
    wanted: &Wanted,
    blocks: &mut B,
) -> Result<(), WriteFault>
    requires open { at (H.state shelf.old).openings.phases slot.Log ≡ Writing }
    requires limit { limit ≤ longest_file }
    requires rules { (B.standing blocks.old).rules ≡ wanted.now.rules }
    requires first { (B.standing blocks.old).before ≡ None }
    requires ready { B.ready blocks.old }
    ensures text { (bytes said : List ℕ)
        × IsText (source_of B.gives B.maker wanted.now.directions) wanted.now.rules blocks.old
        blocks.new limit result bytes said
        × Sent (devices (H.state shelf.old) (O.state out.old)) bytes said
        (devices (H.state shelf.new) (O.state out.new)) }
    ensures room { HasRoom limit (most_bytes (is_some wanted.now.directions)
        (B.standing blocks.old).most wanted.now.rules.bisections) result }

    // When a write fails.
    ensures counts { Counts (devices (H.state shelf.old) (O.state out.old)) result
        (devices (H.state shelf.new) (O.state out.new)) }
    ensures trust { Trusts (trust_of (H.reliable shelf.old) (O.reliable out.old)) result
        (trust_of (H.reliable shelf.new) (O.reliable out.new)) }
{
    let mut writer = Writer::over(shelf, out, limit);
    put_whole(alloc, wanted, blocks, &mut writer)
}
