//! A sink for what nobody reads.

use outer_io::{Failed, Sink};

/// A sink that takes everything and keeps nothing.
#[derive(Clone, Copy)]
pub struct Unseen;

impl Sink for Unseen {
    ghost use Rattle.std.specs.Prelude.{None};

    ghost state = { λ _. record { told = None; faults = 0 } };

    ghost fails_at = { λ _ k. ⊥ };

    ghost reliable = { λ _. Unit {0} };

    fn write(&mut self, bytes: &[u8]) -> Result<usize, Failed> {
        Ok(bytes.len())
    }
}
