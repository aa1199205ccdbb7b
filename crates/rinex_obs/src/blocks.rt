//! Epochs and events, one behind another.

ghost use Rattle.std.specs.Prelude.{◌≡◌, ℕ, List, [], ◌∷◌, IfOk, IfErr, Ok};
ghost use Rattle.std.specs.List.{filter};
ghost use Rattle.rinex_text.specs.Reading.{body_left, body_behind, Leaves, Refuses};
ghost use Rattle.rinex_obs.specs.Epochs.{Observed, block_from, time_before, epochs_from};
ghost use Rattle.rinex_obs.specs.Files.{is_between};
ghost use Rattle.rinex_obs.specs.Reading.{IsHeadBehind, wanted_of, block_of, plain_epoch};
ghost use Rattle.rinex_obs.specs.Reading.{plain_epochs};

use crate::event::take_event;
use crate::found::WantedPlaces;
use crate::head::{Head, head_line};
use crate::obs::ObsEpoch;
use crate::satellites::take_satellites;
use rinex_text::{Body, ReadError, Refusal};
use std::alloc::Global;

/// The epoch or the event behind its first line, and behind so many epochs.
fn read_block<'a>(
    alloc: Global,
    body: Body<'a>,
    places: &WantedPlaces,
    head: Head,
    count: usize,
) -> Result<(Option<ObsEpoch>, Body<'a>), ReadError>
    requires { IsHeadBehind count head }
    ensures block { IfOk result (λ t. (lines : ℕ)
        × block_from (wanted_of places.now) count head (body_behind body.entry)
        (Ok (block_of t.0 lines)) × Leaves body.entry lines t.1) }
    ensures fault { IfErr result
        (Refuses (block_from (wanted_of places.now) count head (body_behind body.entry))) }
{
    match head {
        Head::Epoch { tag, lines } => {
            let (sats, left) = take_satellites(alloc, body, places, lines)?;
            let epoch = ObsEpoch {
                index: count as u32 + 1,
                tag,
                sats,
            };
            Ok((Some(epoch), left))
        }
        Head::Event { labelled, lines } => {
            let left = take_event(body, places.galileo.is_some(), labelled, lines)?;
            Ok((None, left))
        }
    }
}

/// Whether the number of an epoch is from the one to the other.
fn is_between(from: u32, to: u32, epoch: &ObsEpoch) -> bool
    ensures { result ≡ is_between from to (plain_epoch epoch.now) }
{
    from <= epoch.index && epoch.index <= to
}

/// What the time of the epoch behind this one has to be later than, where times have to rise.
fn time_before(rising: bool, epoch: &ObsEpoch) -> Option<i128>
    ensures { result ≡ time_before rising (plain_epoch epoch.now ∷ []) }
{
    if rising { Some(epoch.tag) } else { None }
}

/// The epochs of a body whose numbers are from the one to the other; the times of all have to rise
/// or needn't. All are read, and one that isn't kept is let go before the next.
pub fn read_epochs(
    alloc: Global,
    body: Body<'_>,
    places: &WantedPlaces,
    rising: bool,
    from: u32,
    to: u32,
) -> Result<Vec<ObsEpoch>, ReadError>
    ensures epochs { IfOk result (λ kept. (all : List Observed)
        × epochs_from rising (wanted_of places.now) [] body.entry.lines.number 0
        (body_left body.entry) (Ok all)
        × (plain_epochs kept.items ≡ filter (is_between from to) all)) }
    ensures fault { IfErr result
        (Refuses (epochs_from rising (wanted_of places.now) [] body.entry.lines.number 0
        (body_left body.entry))) }
{
    let mut kept = Vec::new(alloc);
    let mut count = 0;
    let mut before = None;
    let mut left = body;
    'lines: while let Some((line, behind)) = left.split_first() {
        let head = match head_line(line, count, before) {
            Ok(head) => head,
            Err(fault) => {
                let refusal = Refusal::new(fault, left.lines.number);
                return Err(ReadError::Refused(refusal));
            }
        };
        let (found, after) = read_block(alloc, behind, places, head, count)?;
        left = after;
        if let Some(epoch) = found {
            // Epochs are numbered from 1, and events don't count.
            count = epoch.index as usize;
            before = time_before(rising, &epoch);
            if is_between(from, to, &epoch) {
                kept.push(epoch)?;
            }
        }
    }
    Ok(kept)
}
