//! Files read to their end.

ghost use Rattle.std.specs.Prelude.{◌≡◌, ◌≤◌, ◌<◌, ◌+◌, ℕ, List, Option, vec_len, IfOk};
ghost use Rattle.std.specs.Prelude.{IfSome, IsErrOf};
ghost use Rattle.outer_io.specs.Causes.{Rose};
ghost use Rattle.outer_io.specs.Reading.{IsTooLong};
ghost use Rattle.outer_io.specs.Slots.{at};
ghost use Rattle.outer_io.specs.Told.{left_of, MovedBy};
ghost use Rattle.outer_io.specs.declared.shelf.Phase.{Phase};

use crate::{Failed, Shelf, Slot};
use std::alloc::{AllocError, Global};

/// Why a file wasn't read to its end.
#[derive(Clone, Copy, Debug, PartialEq, Eq)]
pub enum ReadAll {
    /// A `read` has failed.
    ReadFault,
    /// There are more bytes than the limit.
    TooLong { limit: u64 },
    NoMemory,
}

impl From<Failed> for ReadAll {
    ghost use Rattle.outer_io.specs.declared.reading.ReadAll.TheVariants.{ReadFault};

    ghost from_gives = { λ _ error. error ≡ ReadFault };

    fn from(_: Failed) -> Self {
        ReadAll::ReadFault
    }
}

impl From<AllocError> for ReadAll {
    ghost use Rattle.outer_io.specs.declared.reading.ReadAll.TheVariants.{NoMemory};

    ghost from_gives = { λ _ error. error ≡ NoMemory };

    fn from(_: AllocError) -> Self {
        ReadAll::NoMemory
    }
}

/// The rest of the slot's file, which is read to its end where it has at most `limit` bytes.
pub fn read_all<H: Shelf>(
    alloc: Global,
    shelf: &mut H,
    slot: Slot,
    limit: u64,
) -> Result<Vec<u8>, ReadAll>
    requires { at (H.state shelf.old).openings.phases slot ≡ Phase.Reading }

    ensures whole { IfOk result (λ all.
        IfSome (left_of slot (H.state shelf.old)) (λ left. all.items ≡ left)) }
    ensures within { IfOk result (λ all. vec_len all ≤ limit) }
    ensures ended { IfOk result (λ all.
        MovedBy (H.state shelf.old) (H.state shelf.new) slot (vec_len all)) }

    // It is refused exactly where more than the limit is there.
    ensures too_long { (l : ℕ) → IsErrOf result (ReadAll.TooLong l)
        → (l ≡ limit) × IsTooLong (left_of slot (H.state shelf.old)) limit }
    ensures at_most { (k : ℕ) × (k ≤ limit + 1)
        × MovedBy (H.state shelf.old) (H.state shelf.new) slot k }

    // When it fails.
    ensures fault { IsErrOf result ReadAll.ReadFault
        → Rose (H.state shelf.old).read_faults (H.state shelf.new).read_faults }
    ensures later { (H.state shelf.old).read_faults ≤ (H.state shelf.new).read_faults }
    ensures other { (H.state shelf.new).write_faults ≡ (H.state shelf.old).write_faults }
    ensures openings { (H.state shelf.new).openings ≡ (H.state shelf.old).openings }
    ensures reliable { (log : Option (List ℕ)) → H.reliable shelf.new log
        → H.reliable shelf.old log × (¬ IsErrOf result ReadAll.ReadFault)
        × ((H.state shelf.new).read_faults ≡ (H.state shelf.old).read_faults) }
{
    let mut all = Vec::new(alloc);
    let mut buf = [0u8; 4096];
    'reading: loop {
        let room = room_for(limit, all.len());
        let piece = &mut buf[..room];
        let count = shelf.read(slot, piece)?;
        if count == 0 {
            return Ok(all);
        }
        all.extend_from_slice(&piece[..count])?;
        if all.len() as u64 > limit {
            return Err(ReadAll::TooLong { limit });
        }
    }
}

// How many bytes the next read may give: at most one byte more than the limit is read in all.
fn room_for(limit: u64, len: usize) -> usize
    requires { len ≤ limit }
    ensures some { 0 < result }
    ensures fits { result ≤ 4096 }
    ensures one_more { len + result ≤ limit + 1 }
{
    let left = limit - len as u64;
    if left < 4095 { left as usize + 1 } else { 4096 }
}
