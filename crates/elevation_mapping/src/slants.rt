//! Slants: the roots of a layer's floor and the square of its part of a sine.

ghost use Rattle.std.specs.Prelude.{◌≡◌, ◌+◌, ◌*◌, ◌^◌, ◌≤◌, ℤ, pos};
ghost use Rattle.grid_model.specs.Amounts.{square};
ghost use Rattle.grid_model.specs.Roots.{root};
ghost use Rattle.grid_model.specs.Squares.{least_end, greatest_end};
ghost use Rattle.fix_interval.specs.Factors.{Holds, HasAmount};
ghost use Rattle.gnss_model.specs.Layers.{layer_floor};
ghost use Rattle.gnss_model.specs.Mapping.{layer_sine, slant_of};
ghost use Rattle.elevation_mapping.specs.SineSizes.{sine_amount};

use fix_interval::{Exact, ExactArea, Interval};
use gnss_model::Layer;

/// The least amount of a member.
fn least_amount(sine: Exact) -> u128
    requires { HasAmount sine_amount sine }
    ensures { result ≡ least_end sine.lo sine.hi }
{
    sine.lo.max(-sine.hi).max(0) as u128
}

/// The greatest amount of a member.
fn greatest_amount(sine: Exact) -> u128
    requires { HasAmount sine_amount sine }
    ensures { result ≡ greatest_end sine.lo sine.hi }
{
    sine.hi.max(-sine.lo).max(0) as u128
}

/// 0.002001 of the troposphere, and 1 - (Re / (Re + h))^2 of the ionosphere, times 10^32.
fn floor_of(layer: Layer) -> u128
    ensures value { result ≡ layer_floor layer }
    ensures most { result ≤ 10 ^ 32 }
{
    match layer {
        Layer::Troposphere => 200_100_000_000_000_000_000_000_000_000,
        Layer::Ionosphere => 10_133_458_172_795_012_207_442_187_408_082,
    }
}

/// The amount of a sine, of the ionosphere times Re / (Re + h), cut off.
fn layer_sine(layer: Layer, amount: u128) -> u128
    requires { amount ≤ sine_amount }
    ensures value { result ≡ layer_sine layer amount }
    ensures most { result ≤ amount }
{
    match layer {
        Layer::Troposphere => amount,
        Layer::Ionosphere => amount * 63_781_363 / 67_281_363,
    }
}

/// Every slant of the layer, in 10^-16, of a sine.
pub(crate) fn slants(sine: Exact, layer: Layer) -> Exact
    requires { HasAmount sine_amount sine }
    ensures holds { (s : ℤ) → Holds sine s → Holds result (pos (slant_of layer s)) }
    ensures low { result.lo ≡ pos (root (layer_floor layer
        + square (layer_sine layer (least_end sine.lo sine.hi)))) }
    ensures high { result.hi ≡ pos (root (layer_floor layer
        + square (layer_sine layer (greatest_end sine.lo sine.hi)))) }
{
    let least = layer_sine(layer, least_amount(sine));
    let greatest = layer_sine(layer, greatest_amount(sine));
    let floor = floor_of(layer);
    <Exact as Interval>::root(ExactArea {
        lo: floor + least * least,
        hi: floor + greatest * greatest,
    })
}
