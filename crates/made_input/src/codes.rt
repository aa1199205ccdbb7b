//! The codes that a made receiver measures.

ghost use Rattle.std.specs.Prelude.{◌≡◌, ◌≤◌, ◌<◌, ◌+◌, ◌*◌, ◌%◌, IfOk, length};
ghost use Rattle.made_input.specs.Generator.{drawn};
ghost use Rattle.made_input.specs.MadeCodes.{AreElementsOf, AreMadeSats, IsMadeCode, goal_by};
ghost use Rattle.made_input.specs.MadeCodes.{tag_of};
ghost use Rattle.made_input.specs.MadeRecords.{made_broadcast, mean_draw};

use crate::generator::Generator;
use crate::receiver::Receiver;
use code_simulation::code_for;
use gnss_model::Elements;
use grid_model::NoMemory;
use made_texts::SatCode;
use std::alloc::Global;

/// 2024-01-07 01:00:00 GPS time, in ps since 1980-01-06 00:00:00.
const FIRST_TAG: i128 = 1_388_624_400_000_000_000_000;

const PS_BETWEEN_EPOCHS: i128 = 30_000_000_000_000;

/// Codes are searched in mm from here on.
const FIRST_CODE: i64 = -20_000_000_000;

/// The time of epoch `j`, in ps since 1980-01-06 00:00:00 GPS time.
fn tag(j: u32) -> i128
    requires { j < 240 }
    ensures { result ≡ tag_of j }
{
    FIRST_TAG + PS_BETWEEN_EPOCHS * i128::from(j)
}

/// The elements of satellite `k`.
fn elements(receiver: &Receiver, k: u8) -> Elements
    requires from { 1 ≤ k }
    requires to { k ≤ 8 }
    ensures { AreElementsOf (made_broadcast k (mean_draw receiver.now.seed k)) result }
{
    receiver.nav.at(u32::from(k) - 1).elements().unwrap()
}

/// What is to be left of the code of satellite `k` in epoch `j`, in um, by the draw of its noise.
fn goal(j: u32, k: u8, draw: u32) -> i64
    requires draw { draw < 4001 }
    ensures { result ≡ goal_by draw j k }
{
    let noise = i64::from(draw) - 2_000;
    if u32::from(k) == 1 + j % 8 {
        return (noise + 500_000) * 1_000;
    }
    noise * 1_000
}

/// The code of satellite `k` in epoch `j`, in mm.
fn made_code(receiver: &Receiver, j: u32, k: u8, draw: u32) -> i64
    requires epoch { j < 240 }
    requires from { 1 ≤ k }
    requires to { k ≤ 8 }
    requires draw { draw ≡ drawn receiver.now.seed (10 + 8 * j + k) 4001 }
    requires below { draw < 4001 }
    ensures { IsMadeCode receiver.now.seed j k result }
{
    let el = elements(receiver, k);
    code_for(&el, tag(j), goal(j, k, draw), &receiver.place) as i64 + FIRST_CODE
}

/// The codes of the eight satellites in epoch `j`.
pub(crate) fn epoch_codes(
    alloc: Global,
    receiver: &Receiver,
    draws: &mut Generator,
    j: u32,
) -> Result<Vec<SatCode>, NoMemory>
    requires epoch { j < 240 }
    requires seed { draws.old.seed ≡ receiver.now.seed }
    requires taken { draws.old.taken ≡ 11 + 8 * j }
    ensures codes { IfOk result (λ sats. AreMadeSats receiver.now.seed j 1 sats.items) }
    ensures eight { IfOk result (λ sats. length sats.items ≡ 8) }
    ensures seed { draws.new.seed ≡ draws.old.seed }
    ensures taken { IfOk result (λ _. draws.new.taken ≡ 11 + 8 * (j + 1)) }
{
    let mut sats = Vec::new(alloc);
    for number in 1..9_u8 {
        let code = made_code(receiver, j, number, draws.below(4_001));
        sats.push(SatCode { number, code })?;
    }
    Ok(sats)
}
