//! In how many epochs of a log a zone is so.

ghost use Rattle.std.specs.Prelude.{◌≡◌, ◌<◌, ◌^◌, length};
ghost use Rattle.std.specs.List.{count_by};
ghost use Rattle.zone_guard.specs.Counted.{item_at, finding_at, is_answer, is_few, counts_at};

use crate::found::{Counts, EpochFindings, Finding};
use crate::zone::ZoneAnswer;

/// The item at a place.
fn item_at(found: &[Finding], place: usize) -> Option<Finding>
    ensures { result ≡ item_at place found.now }
{
    if place < found.len() {
        return Some(found[place]);
    }
    None
}

/// What is found in an epoch of the zone or direction at a place of the file, counted from 0.
fn finding_at(epoch: &EpochFindings, place: usize) -> Option<Finding>
    ensures { result ≡ finding_at place epoch.now }
{
    match &epoch.found {
        Some(found) => item_at(found, place),
        None => None,
    }
}

/// Whether this is the answer of a zone.
fn is_answer(wanted: &ZoneAnswer, found: &Option<Finding>) -> bool
    ensures { result ≡ is_answer wanted.now found.now }
{
    match found {
        Some(Finding::Zone(answer)) => match (wanted, answer) {
            (ZoneAnswer::Outside, ZoneAnswer::Outside) => true,
            (ZoneAnswer::Inside, ZoneAnswer::Inside) => true,
            (ZoneAnswer::Open, ZoneAnswer::Open) => true,
            _ => false,
        },
        _ => false,
    }
}

/// In how many epochs the zone at a place is so.
fn count_answer(epochs: &[EpochFindings], place: usize, wanted: &ZoneAnswer) -> u32
    requires { length epochs.now < 2 ^ 32 }
    ensures { result ≡ count_by (λ e. is_answer wanted.now (finding_at place e)) epochs.now }
{
    let mut count: u32 = 0;
    for epoch in epochs {
        if is_answer(wanted, &finding_at(epoch, place)) {
            count += 1;
        }
    }
    count
}

/// In how many epochs too few satellites are usable.
fn count_few(epochs: &[EpochFindings]) -> u32
    requires { length epochs.now < 2 ^ 32 }
    ensures { result ≡ count_by is_few epochs.now }
{
    let mut count: u32 = 0;
    for epoch in epochs {
        if epoch.found.is_none() {
            count += 1;
        }
    }
    count
}

/// In how many epochs the zone at a place of the file, counted from 0, lies outside, inside or
/// neither, and in how many nothing is said of it.
pub fn counts_at(epochs: &[EpochFindings], place: usize) -> Counts
    requires { length epochs.now < 2 ^ 32 }
    ensures { result ≡ counts_at place epochs.now }
{
    Counts {
        outside: count_answer(epochs, place, &ZoneAnswer::Outside),
        inside: count_answer(epochs, place, &ZoneAnswer::Inside),
        undecided: count_answer(epochs, place, &ZoneAnswer::Open),
        few: count_few(epochs),
    }
}
