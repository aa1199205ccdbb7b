//! The record of a made satellite.

ghost use Rattle.std.specs.Prelude.{◌≡◌, ◌≤◌, ◌<◌, ◌+◌, ◌*◌};
ghost use Rattle.made_texts.specs.Fields.{number_of};
ghost use Rattle.made_texts.specs.NavText.{broadcast_of, IsNamed};
ghost use Rattle.made_input.specs.MadeRecords.{plain_number, thousandths, made_broadcast};
ghost use Rattle.made_input.specs.MadeRecords.{IsWellWritten, AreWellWritten};

use made_texts::{Ephemeris, FieldNumber, ZERO};

/// A digit times a power of ten that is negative.
fn small(digit: u8, places: u8) -> FieldNumber
    requires from { 1 ≤ digit }
    requires to { digit ≤ 9 }
    requires some { 1 ≤ places }
    requires places { places ≤ 99 }
    ensures number { number_of result ≡ plain_number digit places }
    ensures written { IsWellWritten result }
{
    FieldNumber {
        negative: false,
        digits: u64::from(digit) * 1_000_000_000_000,
        negative_power: true,
        power: places,
    }
}

/// A digit.
fn whole(digit: u8) -> FieldNumber
    requires { digit ≤ 9 }
    ensures number { number_of result ≡ plain_number digit 0 }
    ensures written { IsWellWritten result }
{
    if digit == 0 {
        return ZERO;
    }
    FieldNumber {
        negative: false,
        digits: u64::from(digit) * 1_000_000_000_000,
        negative_power: false,
        power: 0,
    }
}

/// A number of thousandths, from 1 / 10 to under 10.
fn in_thousandths(number: u64) -> FieldNumber
    requires from { 100 ≤ number }
    requires under { number < 10000 }
    ensures number { number_of result ≡ thousandths number }
    ensures written { IsWellWritten result }
{
    if number < 1_000 {
        return FieldNumber {
            negative: false,
            digits: number * 10_000_000_000,
            negative_power: true,
            power: 1,
        };
    }
    FieldNumber {
        negative: false,
        digits: number * 1_000_000_000,
        negative_power: false,
        power: 0,
    }
}

/// The root of the semi-major axis, in m^(1/2).
const ROOT_A: FieldNumber = FieldNumber {
    negative: false,
    digits: 5_153_600_000_000,
    negative_power: false,
    power: 3,
};

/// The ephemeris time, in s.
const TOE: FieldNumber = FieldNumber {
    negative: false,
    digits: 7_200_000_000_000,
    negative_power: false,
    power: 3,
};

/// The inclination.
const INCLINATION: FieldNumber = FieldNumber {
    negative: false,
    digits: 9_600_000_000_000,
    negative_power: true,
    power: 1,
};

/// The rate of the ascending node.
const NODE_RATE: FieldNumber = FieldNumber {
    negative: true,
    digits: 8_000_000_000_000,
    negative_power: true,
    power: 9,
};

/// The group delay, in s.
const GROUP_DELAY: FieldNumber = FieldNumber {
    negative: true,
    digits: 1_000_000_000_000,
    negative_power: true,
    power: 8,
};

/// The record of satellite `k` with the draw `u`.
pub(crate) fn made_record(k: u8, u: u32) -> Ephemeris
    requires from { 1 ≤ k }
    requires to { k ≤ 8 }
    requires draw { u < 100 }
    ensures named { IsNamed result }
    ensures record { broadcast_of result ≡ made_broadcast k u }
    ensures written { AreWellWritten result }
{
    Ephemeris {
        number: k,
        af0: small(k, 5),
        af1: ZERO,
        af2: ZERO,
        crs: ZERO,
        dn: ZERO,
        m0: in_thousandths(700 * u64::from(k) + u64::from(u)),
        cuc: ZERO,
        e: small(k, 3),
        cus: ZERO,
        root_a: ROOT_A,
        toe: TOE,
        cic: ZERO,
        om0: whole(k % 6),
        cis: ZERO,
        i0: INCLINATION,
        crc: ZERO,
        omega: small(5, 1),
        om_dot: NODE_RATE,
        idot: ZERO,
        tgd: GROUP_DELAY,
    }
}
