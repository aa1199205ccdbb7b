//! The records of a navigation file.

use crate::places::{Places, places_of};
use crate::record::NavRecord;
use gnss_model::Sat;
use std::marker::Model;

/// The GPS records of a navigation file, in file order. Contracts see it as their list.
#[derive(Drop)]
pub struct Nav {
    pub(crate) records: Vec<NavRecord>,
    pub(crate) places: Places,
}

impl Model for Nav {
    ghost use Rattle.std.specs.Prelude.{List, length, ◌≤◌};
    ghost use Rattle.rinex_nav.specs.declared.record.NavRecord.{NavRecord};
    ghost use Rattle.rinex_nav.specs.Index.{IsIndex};

    ghost Value = { List NavRecord };

    ghost view = { λ nav. nav.records.items };

    ghost invariant = { λ nav. (length nav.records.items ≤ 200000)
        × IsIndex nav.places nav.records.items };
}

impl Nav {
    ghost use Rattle.std.specs.Prelude.{◌≡◌, ◌<◌, ◌≤◌, length, slice_get, Some};
    ghost use Rattle.rinex_nav.specs.Places.{places_of};

    /// How many records there are.
    pub fn count(&self) -> u32
        ensures value { result ≡ length self.now }
        ensures most { result ≤ 200000 }
    {
        self.records.len() as u32
    }

    /// The record at a place, from 0.
    pub fn at(&self, i: u32) -> &NavRecord
        requires { i < length self.now }
        ensures { slice_get self.now i ≡ Some result.now }
    {
        &self.records[i as usize]
    }

    /// The places of the satellite's records, in rising order.
    pub fn places(&self, sat: Sat) -> &[u32]
        ensures { result.now ≡ places_of self.now sat }
    {
        places_of(&self.places, sat)
    }
}
