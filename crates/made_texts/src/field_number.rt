//! A number as it stands in an exponent field of a navigation file.

/// The number `digits * 10^(power - 12)`: 13 digits at most, a power of two digits at most, and a
/// minus in front of either. Digits and power beyond that are cut off.
#[derive(Clone, Copy, Debug, PartialEq, Eq)]
pub struct FieldNumber {
    pub negative: bool,
    pub digits: u64,
    pub negative_power: bool,
    pub power: u8,
}

/// Zero.
pub const ZERO: FieldNumber = FieldNumber {
    negative: false,
    digits: 0,
    negative_power: false,
    power: 0,
};
