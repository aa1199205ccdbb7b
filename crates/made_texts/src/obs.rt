//! The text of an observation file.

ghost use Rattle.std.specs.Prelude.{◌≡◌, ◌≤◌, ◌++◌, ◌+◌, ◌-◌, ◌/◌, ◌%◌, codes, cond, nat_lt};
ghost use Rattle.std.specs.Prelude.{replicate, false, None, [], ◌∷◌, IfOk, List, length};
ghost use Rattle.std.specs.Fmt.{decimal, sign_text};
ghost use Rattle.decimal_digits.specs.Digits.{last_digits};
ghost use Rattle.made_texts.specs.TextLines.{text_of};
ghost use Rattle.made_texts.specs.ObsText.{right, metres_text, two_wide, satellite_text, head_text};
ghost use Rattle.made_texts.specs.ObsText.{satellites_text, epoch_text, obs_lines, AreEpochs};
ghost use Rattle.made_texts.specs.ObsText.{observed_from, code_c1c};
ghost use Rattle.made_texts.specs.declared.sat_codes.EpochCodes.{EpochCodes};
ghost use Rattle.rinex_obs.specs.Files.{IsObsFile};
ghost use Rattle.gnss_model.specs.declared.satellites.Signal.TheVariants.{Single};

use crate::sat_codes::{EpochCodes, SatCode};
use decimal_digits::push_digits;
use grid_model::NoMemory;
use itoa::Buffer;
use std::alloc::Global;

/// The text of a file with these epochs is accepted with these epochs.
pub fn obs_is_accepted()
    ensures { (epochs : List EpochCodes) → AreEpochs epochs → length epochs ≤ 200000
        → IsObsFile (Single code_c1c) false (text_of (obs_lines epochs)) (record {
          position = None;
          epochs = observed_from 1 epochs;
        }) }
{}

/// So many blanks.
fn push_blanks(text: &mut Vec<u8>, count: usize) -> Result<(), NoMemory>
    ensures { IfOk result (λ _. text.new.items ≡ text.old.items ++ replicate count 32) }
{
    if count == 0 {
        return Ok(());
    }
    text.push(b' ')?;
    push_blanks(text, count - 1)?;
    Ok(())
}

/// A word with blanks in front, up to so many columns.
#[tactic(auto, unfolding(crate::specs::ObsText::right))]
fn push_right(text: &mut Vec<u8>, width: usize, word: &[u8]) -> Result<(), NoMemory>
    ensures { IfOk result (λ _. text.new.items ≡ text.old.items ++ right width word.now) }
{
    push_blanks(text, width.saturating_sub(word.len()))?;
    text.extend_from_slice(word)?;
    Ok(())
}

/// A number.
fn push_decimal(text: &mut Vec<u8>, number: u64) -> Result<(), NoMemory>
    ensures { IfOk result (λ _. text.new.items ≡ text.old.items ++ decimal number) }
{
    let mut buffer = Buffer::new();
    text.extend_from_slice(buffer.format(number).as_bytes())?;
    Ok(())
}

/// A minus for a negative number.
fn sign(negative: bool) -> &'static str
    ensures { result.now ≡ sign_text negative }
{
    if negative { "-" } else { "" }
}

/// A length in mm, as metres with three decimals.
fn push_metres(text: &mut Vec<u8>, mm: i64) -> Result<(), NoMemory>
    ensures { IfOk result (λ _. text.new.items ≡ text.old.items ++ metres_text mm) }
{
    let amount = mm.unsigned_abs();
    text.extend_from_slice(sign(mm < 0).as_bytes())?;
    push_decimal(text, amount / 1_000)?;
    text.push(b'.')?;
    push_digits(text, 3, amount)?;
    Ok(())
}

/// A satellite's line.
#[tactic(auto, unfolding(crate::specs::ObsText::satellite_text))]
fn push_satellite(alloc: Global, text: &mut Vec<u8>, seen: &SatCode) -> Result<(), NoMemory>
    ensures { IfOk result (λ _. text.new.items ≡ text.old.items ++ (satellite_text seen.now
        ++ 10 ∷ [])) }
{
    let mut word = Vec::new(alloc);
    push_metres(&mut word, seen.code)?;
    text.push(b'G')?;
    push_digits(text, 2, u64::from(seen.number))?;
    push_right(text, 14, word.as_slice())?;
    text.push(b'\n')?;
    Ok(())
}

/// The first of two columns without a zero in front.
fn lead(number: u8) -> u8
    requires { number ≤ 99 }
    ensures { result ≡ cond (nat_lt number 10) 32 (48 + number / 10) }
{
    if number < 10 {
        b' '
    } else {
        b'0' + number / 10
    }
}

/// Seconds with their decimals, and the flag.
fn push_seconds(text: &mut Vec<u8>, second: u8) -> Result<(), NoMemory>
    requires { second ≤ 99 }
    ensures { IfOk result (λ _. text.new.items ≡ text.old.items
        ++ two_wide second (codes ".0000000  0")) }
{
    text.push(lead(second))?;
    text.push(b'0' + second % 10)?;
    text.extend_from_slice(b".0000000  0")?;
    Ok(())
}

/// A time of the day in hours and minutes.
fn push_time(text: &mut Vec<u8>, hour: u8, minute: u8) -> Result<(), NoMemory>
    ensures { IfOk result (λ _. text.new.items ≡ text.old.items ++ (codes "> 2024 01 07 "
        ++ (last_digits 2 hour ++ 32 ∷ (last_digits 2 minute ++ 32 ∷ [])))) }
{
    text.extend_from_slice(b"> 2024 01 07 ")?;
    push_digits(text, 2, u64::from(hour))?;
    text.push(b' ')?;
    push_digits(text, 2, u64::from(minute))?;
    text.push(b' ')?;
    Ok(())
}

/// The first line of an epoch.
fn push_head(alloc: Global, text: &mut Vec<u8>, epoch: &EpochCodes) -> Result<(), NoMemory>
    requires { epoch.now.second ≤ 99 }
    ensures { IfOk result (λ _. text.new.items ≡ text.old.items
        ++ (head_text epoch.now.hour epoch.now.minute epoch.now.second (length
        epoch.now.sats.items) ++ 10 ∷ [])) }
{
    let mut word = Vec::new(alloc);
    let sats = epoch.sats.as_slice();
    push_decimal(&mut word, sats.len() as u64)?;
    push_time(text, epoch.hour, epoch.minute)?;
    push_seconds(text, epoch.second)?;
    push_right(text, 3, word.as_slice())?;
    text.push(b'\n')?;
    Ok(())
}

/// The satellites' lines of an epoch.
fn push_satellites(alloc: Global, text: &mut Vec<u8>, sats: &[SatCode]) -> Result<(), NoMemory>
    ensures { IfOk result (λ _. text.new.items ≡ text.old.items ++ satellites_text sats.now) }
{
    'sats: for seen in sats {
        push_satellite(alloc, text, seen)?;
    }
    Ok(())
}

/// The lines of an epoch.
#[tactic(auto, unfolding(crate::specs::ObsText::epoch_text))]
fn push_epoch(alloc: Global, text: &mut Vec<u8>, epoch: &EpochCodes) -> Result<(), NoMemory>
    requires { epoch.now.second ≤ 99 }
    ensures { IfOk result (λ _. text.new.items ≡ text.old.items ++ epoch_text epoch.now) }
{
    push_head(alloc, text, epoch)?;
    push_satellites(alloc, text, &epoch.sats)?;
    Ok(())
}

/// The text of an observation file with these epochs. Its reader accepts it with these epochs.
pub fn obs_text(alloc: Global, epochs: &[EpochCodes]) -> Result<Vec<u8>, NoMemory>
    requires are { AreEpochs epochs.now }
    requires few { length epochs.now ≤ 200000 }
    ensures text { IfOk result (λ text. text.items ≡ text_of (obs_lines epochs.now)) }
    ensures accepted { IfOk result (λ text. IsObsFile (Single code_c1c) false text.items (record {
      position = None;
      epochs = observed_from 1 epochs.now;
    })) }
{
    let mut text = Vec::new(alloc);
    text.extend_from_slice(
        b"     3.05           OBSERVATION DATA    G                   RINEX VERSION / TYPE\n",
    )?;
    text.extend_from_slice(
        b"G    1 C1C                                                  SYS / # / OBS TYPES\n",
    )?;
    text.extend_from_slice(
        b"  2024     1     7     1     0    0.0000000     GPS         TIME OF FIRST OBS\n",
    )?;
    text.extend_from_slice(
        b"                                                            END OF HEADER\n",
    )?;
    'epochs: for epoch in epochs {
        push_epoch(alloc, &mut text, epoch)?;
    }
    Ok(text)
}
