//! The epochs of a made receiver.

ghost use Rattle.std.specs.Prelude.{◌≡◌, ◌≤◌, ◌<◌, ◌+◌, ◌*◌, ◌/◌, ◌%◌, IfOk, length};
ghost use Rattle.made_input.specs.MadeCodes.{AreMadeEpochs, IsMadeEpoch};

use crate::codes::epoch_codes;
use crate::generator::Generator;
use crate::receiver::Receiver;
use grid_model::NoMemory;
use made_texts::EpochCodes;
use std::alloc::Global;

/// Epoch `j`, which is 30 j s behind 01:00:00.
fn made_epoch(
    alloc: Global,
    receiver: &Receiver,
    draws: &mut Generator,
    j: u32,
) -> Result<EpochCodes, NoMemory>
    requires epoch { j < 240 }
    requires seed { draws.old.seed ≡ receiver.now.seed }
    requires taken { draws.old.taken ≡ 11 + 8 * j }
    ensures epoch { IfOk result (λ epoch. IsMadeEpoch receiver.now.seed j epoch) }
    ensures seed { draws.new.seed ≡ draws.old.seed }
    ensures taken { IfOk result (λ _. draws.new.taken ≡ 11 + 8 * (j + 1)) }
{
    let sats = epoch_codes(alloc, receiver, draws, j)?;
    Ok(EpochCodes {
        hour: 1 + (j / 120) as u8,
        minute: (j / 2 % 60) as u8,
        second: (j % 2 * 30) as u8,
        sats,
    })
}

/// So many epochs.
pub(crate) fn made_epochs(
    alloc: Global,
    receiver: &Receiver,
    draws: &mut Generator,
    count: u32,
) -> Result<Vec<EpochCodes>, NoMemory>
    requires count { count ≤ 240 }
    requires seed { draws.old.seed ≡ receiver.now.seed }
    requires taken { draws.old.taken ≡ 11 }
    ensures epochs { IfOk result (λ epochs. AreMadeEpochs receiver.now.seed 0 epochs.items) }
    ensures count { IfOk result (λ epochs. length epochs.items ≡ count) }
{
    let mut epochs = Vec::new(alloc);
    for j in 0..count {
        epochs.push(made_epoch(alloc, receiver, draws, j)?)?;
    }
    Ok(epochs)
}
