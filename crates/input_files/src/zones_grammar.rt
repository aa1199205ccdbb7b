//! The texts of zones.

use crate::grammar::Grammar;
use crate::notice::Notice;
use crate::role::Role;
use std::alloc::Global;
use zone_guard::{Watches, read_watches};

/// The texts of zones and directions, of either form.
#[derive(Clone, Copy)]
pub struct ZonesText;

impl Grammar<Watches> for ZonesText {
    ghost use Rattle.input_files.specs.Zones.{zones_text};

    ghost text = { λ _. zones_text };

    fn role(&self) -> Role {
        Role::Zones
    }

    fn read(&self, alloc: Global, bytes: Vec<u8>) -> Result<Watches, Notice> {
        match read_watches(alloc, &bytes) {
            Ok(watches) => Ok(watches),
            Err(error) => Err(Notice::of_zones(error)),
        }
    }
}
