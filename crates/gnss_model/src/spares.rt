//! How wide the spans of a row may be over a search box.

ghost use Rattle.std.specs.Prelude.{◌≡◌, ◌+◌, ◌*◌, ◌/◌, ◌^◌, ◌≤◌, pos};
ghost use Rattle.grid_model.specs.Boxes.{grid_box};
ghost use Rattle.grid_model.specs.Lengths.{spare_of};
ghost use Rattle.gnss_model.specs.Delays.{IsDelayWithin, AreDelays, span_amount, spare_over};
ghost use Rattle.gnss_model.specs.Delays.{delay_spare, err_spare_of};
ghost use Rattle.gnss_model.specs.Layers.{layer_room};

use crate::delays::{Delays, Layer};
use grid_model::{Box3, Span};

/// How wide, in um, the spans of a row's place and range may be over this search box: 2,000 and a
/// 40,000th of the longest side.
pub fn spare(root: &Box3) -> i64
    ensures { result ≡ pos (spare_of (grid_box root.now)) }
{
    let (_, longest) = root.longest_axis();
    (2_000 + longest / 40_000) as i64
}

/// The greater amount of the ends.
fn greater_amount(span: &Span) -> u64
    ensures { result ≡ span_amount span.now }
{
    span.lo.unsigned_abs().max(span.hi.unsigned_abs())
}

/// How long a box has to be, in um, for the layer's mapping to spread by 1 over it.
fn room_of(layer: Layer) -> u128
    ensures { result ≡ layer_room layer }
{
    match layer {
        Layer::Troposphere => 3_000_000_000,
        Layer::Ionosphere => 175_000_000_000,
    }
}

/// How far a delay of this amount straight up spreads over a box with this longest side, and
/// 2,000.
fn spread(layer: Layer, amount: u64, side: u64) -> i64
    requires amount { amount ≤ 10 ^ 8 }
    requires side { side ≤ 2 * 10 ^ 13 }
    ensures value { result ≡ pos (spare_over layer amount side) }
    ensures most { spare_over layer amount side ≤ 10 ^ 12 }
{
    (2_000 + amount as u128 * side as u128 / room_of(layer)) as i64
}

/// How far the delay of a layer spreads over the search box, where a span within 100 m is declared
/// of it.
fn delay_spread(layer: Layer, root: &Box3, delay: Option<Span>) -> i64
    requires { IsDelayWithin (10 ^ 8) delay }
    ensures value { result ≡ pos (delay_spare layer (grid_box root.now) delay) }
    ensures most { delay_spare layer (grid_box root.now) delay ≤ 10 ^ 12 }
{
    match delay {
        None => 0,
        Some(span) => {
            let (_, longest) = root.longest_axis();
            spread(layer, greater_amount(&span), longest)
        }
    }
}

/// How wide, in um, the span of a row's low ends of the error, and that of its high ends, may be
/// over this search box, by the delays, in um, that are declared straight up, that of the
/// troposphere within 10 m and that of the ionosphere within 100 m. For each that is declared it is
/// 2,000, and the greater amount of its ends times the longest side, over 3 * 10^9 for the
/// troposphere and 175 * 10^9 for the ionosphere, rounded down.
pub fn err_spare(root: &Box3, delays: Delays) -> i64
    requires { AreDelays delays }
    ensures { result ≡ pos (err_spare_of (grid_box root.now) delays) }
{
    delay_spread(Layer::Troposphere, root, delays.zenith)
        + delay_spread(Layer::Ionosphere, root, delays.vertical)
}
