//! Quotients by constants, guessed by a multiplication and then set right: a division of 128 bits
//! takes far longer.

ghost use Rattle.std.specs.Prelude.{◌≡◌, ◌*◌, ◌/◌, ◌^◌, ◌≤◌};

/// One, in units of 10^-18.
const FINE: u128 = 1_000_000_000_000_000_000;

/// 2^56, 2^67, and 2^123 / `FINE` cut off.
const FINE_CUT: u128 = 72_057_594_037_927_936;

const FINE_SHIFT: u128 = 147_573_952_589_676_412_928;

const FINE_INVERSE: u128 = 10_633_823_966_279_326_983;

/// The unit of a square, in its parts.
const SQUARE: u128 = 100_000_000_000_000;

/// 2^42, 2^68, and 2^110 / `SQUARE` cut off.
const SQUARE_CUT: u128 = 4_398_046_511_104;

const SQUARE_SHIFT: u128 = 295_147_905_179_352_825_856;

const SQUARE_INVERSE: u128 = 12_980_742_146_337_069_071;

/// A half turn, in units of 10^-20 rad.
const HALF_TURN: u128 = 314_159_265_358_979_323_846;

/// 2^120, and 2^120 / `HALF_TURN` cut off.
const TURN_SHIFT: u128 = 1_329_227_995_784_915_872_903_807_060_280_344_576;

const TURN_INVERSE: u128 = 4_231_064_120_506_047;

/// 2^73, and 2^73 / 10^4 cut off.
const REST_SHIFT: u128 = 9_444_732_965_739_290_427_392;

const REST_INVERSE: u128 = 944_473_296_573_929_042;

/// x / 10^18, rounded down.
#[inline(always)]
fn over_fine(x: u128) -> u64
    requires { x ≤ 10 ^ 36 }
    ensures value { result ≡ x / (10 ^ 18) }
    ensures size { result ≤ 10 ^ 18 }
{
    // At most one too small.
    let guess = x / FINE_CUT * FINE_INVERSE / FINE_SHIFT;
    if x - guess * FINE < FINE {
        guess as u64
    } else {
        guess as u64 + 1
    }
}

/// a * b / 10^18, rounded down.
#[inline(always)]
pub(crate) fn fine_product(a: u64, b: u64) -> u64
    requires a_size { a ≤ 10 ^ 18 }
    requires b_size { b ≤ 10 ^ 18 }
    ensures value { result ≡ a * b / 10 ^ 18 }
    ensures size { result ≤ 10 ^ 18 }
{
    over_fine(u128::from(a) * u128::from(b))
}

/// x / 10^14, rounded down.
#[inline(always)]
pub(crate) fn over_square(x: u128) -> u64
    requires { x ≤ 62 * 10 ^ 30 }
    ensures value { result ≡ x / (10 ^ 14) }
    ensures size { result ≤ 62 * 10 ^ 16 }
{
    // At most one too small.
    let guess = x / SQUARE_CUT * SQUARE_INVERSE / SQUARE_SHIFT;
    if x - guess * SQUARE < SQUARE {
        guess as u64
    } else {
        guess as u64 + 1
    }
}

/// x over a half turn, in units of 10^-20 rad, rounded down.
#[inline(always)]
pub(crate) fn over_half_turn(x: u128) -> u64
    requires { x ≤ 27 * 10 ^ 21 }
    ensures value { result ≡ x / 314159265358979323846 }
    ensures size { result ≤ 86 }
{
    // At most one too small.
    let guess = x * TURN_INVERSE / TURN_SHIFT;
    if x - guess * HALF_TURN < HALF_TURN {
        guess as u64
    } else {
        guess as u64 + 1
    }
}

/// x / 10^4, rounded down.
#[inline(always)]
pub(crate) fn over_ten_thousand(x: u128) -> u64
    requires { x ≤ 16 * 10 ^ 19 }
    ensures value { result ≡ x / 10000 }
    ensures size { result ≤ 16 * 10 ^ 15 }
{
    // At most one too small.
    let guess = x * REST_INVERSE / REST_SHIFT;
    if x - guess * 10_000 < 10_000 {
        guess as u64
    } else {
        guess as u64 + 1
    }
}
