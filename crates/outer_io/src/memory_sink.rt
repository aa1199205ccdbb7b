//! A sink in memory.

ghost use Rattle.std.specs.Prelude.{◌≡◌, ◌≤◌, ◌<◌, ◌+◌, ◌^◌, ◌↔◌, ℕ, [], vec_len, vec_capacity};
ghost use Rattle.std.specs.Prelude.{length, Some, IfOk, Contains};
ghost use Rattle.outer_io.specs.Taken.{SinkTold, taken_of};

use crate::failing_calls::FailingCalls;
use crate::pieces::part;
use crate::{Failed, Sink};
use grid_model::NoMemory;
use std::alloc::Global;

/// A sink in memory, which tells what it has taken. It takes no memory after `make`, and fails
/// only where it is asked to, or where there is no room for any byte of a piece.
#[derive(Drop)]
pub struct MemorySink {
    bytes: Vec<u8>,
    room: u64,
    failing: FailingCalls,
    faults: u64,
    ghost reserved: { vec_len bytes + room ≤ vec_capacity bytes },
    ghost quiet: { failing.numbers.items ≡ [] → 0 < room → faults ≡ 0 },
}

impl MemorySink {
    /// An empty sink that takes `room` bytes in all, and fails at the calls of these numbers,
    /// counted from 1.
    pub fn make(alloc: Global, room: u64, fails: Vec<u64>) -> Result<MemorySink, NoMemory>
        ensures told { IfOk result (λ s. (⟦<MemorySink as Sink>⟧.state s).told
            ≡ Some (record { bytes = []; terms = record { room = room; fails = fails.items } })) }
        ensures faults { IfOk result (λ s. (⟦<MemorySink as Sink>⟧.state s).faults ≡ 0) }
        ensures listed { IfOk result (λ s. (k : ℕ) → k < 2 ^ 64
            → ⟦<MemorySink as Sink>⟧.fails_at s k ↔ Contains fails.items k) }
        ensures reliable { IfOk result (λ s.
            ⟦<MemorySink as Sink>⟧.reliable s ↔ ((fails.items ≡ []) × (0 < room))) }
    {
        Ok(MemorySink {
            bytes: Vec::with_capacity(alloc, room as usize)?,
            room,
            failing: FailingCalls::new(fails),
            faults: 0,
        })
    }

    /// What was taken.
    pub fn bytes(&self) -> &[u8]
        ensures { Some result.now ≡ taken_of (⟦<MemorySink as Sink>⟧.state self.now) }
    {
        &self.bytes
    }

    /// How many bytes may still be written. A sink of which no call is to fail is reliable while
    /// there is room.
    pub fn room(&self) -> u64
        ensures left { (t : SinkTold) → (⟦<MemorySink as Sink>⟧.state self.now).told ≡ Some t
            → length t.bytes + result ≡ t.terms.room }
        ensures reliable { (t : SinkTold) → (⟦<MemorySink as Sink>⟧.state self.now).told ≡ Some t
            → t.terms.fails ≡ [] → 0 < result → ⟦<MemorySink as Sink>⟧.reliable self.now }
    {
        self.room
    }
}

impl Sink for MemorySink {
    ghost use Rattle.outer_io.specs.Failing.{IsListed};

    ghost state = { λ s. record {
      told = Some (record {
        bytes = s.bytes.items;
        terms = record {
          room = vec_len s.bytes + s.room;
          fails = s.failing.numbers.items;
        };
      });
      faults = s.faults;
    } };

    ghost fails_at = { λ s k. IsListed s.failing k };

    ghost reliable = { λ s. (s.failing.numbers.items ≡ []) × (0 < s.room) };

    fn write(&mut self, bytes: &[u8]) -> Result<usize, Failed> {
        if self.failing.next_fails() {
            self.faults = self.faults.saturating_add(1);
            return Err(Failed);
        }
        if self.room == 0 && !bytes.is_empty() {
            self.faults = self.faults.saturating_add(1);
            return Err(Failed);
        }
        let count = part(bytes.len(), self.room, usize::MAX);
        match self.bytes.extend_from_slice(&bytes[..count]) {
            Ok(()) => {
                self.room -= count as u64;
                Ok(count)
            }
            Err(_) => unreachable!(),
        }
    }
}
