//! What is written in a navigation record.

use crate::field_number::FieldNumber;

/// The fields of the record of GPS satellite `number` that are read, by their names in IS-GPS-200.
/// Its clock time is 2024-01-07 02:00:00, and the satellite is healthy.
#[derive(Clone, Copy, Debug, PartialEq, Eq)]
pub struct Ephemeris {
    pub number: u8,
    pub af0: FieldNumber,
    pub af1: FieldNumber,
    pub af2: FieldNumber,
    pub crs: FieldNumber,
    pub dn: FieldNumber,
    pub m0: FieldNumber,
    pub cuc: FieldNumber,
    pub e: FieldNumber,
    pub cus: FieldNumber,
    pub root_a: FieldNumber,
    pub toe: FieldNumber,
    pub cic: FieldNumber,
    pub om0: FieldNumber,
    pub cis: FieldNumber,
    pub i0: FieldNumber,
    pub crc: FieldNumber,
    pub omega: FieldNumber,
    pub om_dot: FieldNumber,
    pub idot: FieldNumber,
    pub tgd: FieldNumber,
}
