//! The whole input.

ghost use Rattle.std.specs.Prelude.{◌≡◌, ◌≤◌, ◌*◌, ◌^◌, pos, IfOk};
ghost use Rattle.made_input.specs.MadeCodes.{place_x, place_y, place_z};
ghost use Rattle.made_input.specs.MadeInput.{IsMade};

use crate::epochs::made_epochs;
use crate::generator::Generator;
use crate::made::Made;
use crate::receiver::Receiver;
use crate::record_list::{made_records, read_back};
use grid_model::{NoMemory, Pos};
use made_texts::{obs_text, settings_text};
use std::alloc::Global;

/// A place, in m.
#[derive(Clone, Copy, Debug, PartialEq, Eq)]
struct Metres {
    x: u32,
    y: u32,
    z: u32,
}

/// The place, by the first three draws.
fn draw_place(draws: &mut Generator) -> Metres
    requires taken { draws.old.taken ≡ 0 }
    ensures x { result.x ≡ place_x draws.old.seed }
    ensures y { result.y ≡ place_y draws.old.seed }
    ensures z { result.z ≡ place_z draws.old.seed }
    ensures x_most { result.x ≤ 4000999 }
    ensures y_most { result.y ≤ 3000999 }
    ensures z_most { result.z ≤ 3900999 }
    ensures seed { draws.new.seed ≡ draws.old.seed }
    ensures taken { draws.new.taken ≡ 3 }
{
    let x = 4_000_000 + draws.below(1_000);
    let y = 3_000_000 + draws.below(1_000);
    let z = 3_900_000 + draws.below(1_000);
    Metres { x, y, z }
}

/// A number of m in um.
fn in_um(metres: u32) -> i64
    requires { metres ≤ 5000000 }
    ensures { result ≡ pos (metres * 10 ^ 6) }
{
    i64::from(metres) * 1_000_000
}

/// The input of a receiver whose place is known. A generator with this seed draws the place, a mean
/// anomaly for each of eight satellites, and their noise in each epoch; the epochs are 30 s apart,
/// and in each of them one satellite is wrong by 500 m.
pub fn make(alloc: Global, seed: u32, epochs: u32) -> Result<Made, NoMemory>
    requires from { 1 ≤ epochs }
    requires to { epochs ≤ 240 }
    ensures { IfOk result (IsMade seed epochs) }
{
    let mut draws = Generator::new(seed);
    let at = draw_place(&mut draws);
    let place = Pos {
        x: in_um(at.x),
        y: in_um(at.y),
        z: in_um(at.z),
    };
    let records = made_records(alloc, &mut draws)?;
    let (nav, read) = read_back(alloc, records.as_slice())?;
    let receiver = Receiver {
        seed,
        place,
        nav: read,
    };
    let epochs = made_epochs(alloc, &receiver, &mut draws, epochs)?;
    let obs = obs_text(alloc, epochs.as_slice())?;
    let settings = settings_text(
        alloc,
        i64::from(at.x) * 1_000 + 7_000,
        i64::from(at.y) * 1_000 - 5_000,
        i64::from(at.z) * 1_000 + 3_000,
    )?;
    Ok(Made {
        obs,
        nav,
        settings,
        place,
    })
}
