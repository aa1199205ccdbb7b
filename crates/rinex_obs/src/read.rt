//! Observation files.

ghost use Rattle.std.specs.Prelude.{◌≤◌, IfOk, IfErr, length};
ghost use Rattle.rinex_text.specs.Lines.{lines_of};
ghost use Rattle.rinex_text.specs.Reading.{Refuses, GivesRefusal};
ghost use Rattle.rinex_text.specs.Whole.{IsSettled};
ghost use Rattle.rinex_text.specs.declared.fault.Refusal.{Refusal};
ghost use Rattle.rinex_obs.specs.Facts.{AreNumbered, AreDistinct, AreGpsSats, AreNamedSats};
ghost use Rattle.rinex_obs.specs.Facts.{AreSatsOf, AreRisingFrom, AreRising, InEach};
ghost use Rattle.rinex_obs.specs.Header.{are_both};
ghost use Rattle.rinex_obs.specs.Files.{Observations, AreBetween, between, obs_file, obs_file_of};
ghost use Rattle.rinex_obs.specs.Files.{IsObsFile, IsObsFileOf, IsFirstFault, IsFirstFaultOf};
ghost use Rattle.rinex_obs.specs.Files.{obs_file_by, IsObsFileBy, station_file, IsStationFile};
ghost use Rattle.rinex_obs.specs.Files.{IsFirstStationFault};
ghost use Rattle.rinex_obs.specs.Files.{with_galileo};
ghost use Rattle.rinex_obs.specs.Reading.{observations_of, GivesObservations};
ghost use Rattle.rinex_obs.specs.Whole.{IsWhole, IsWholeOf};

use crate::blocks::read_epochs;
use crate::header::read_header;
use crate::obs::Obs;
use crate::sought::Sought;
use gnss_model::Signal;
use rinex_text::{Body, ReadError, behind_version_of};
use std::alloc::Global;

/// The number of a file's first epoch.
pub const FIRST_EPOCH: u32 = 1;

/// The greatest number of an epoch.
pub const LAST_EPOCH: u32 = 200_000;

/// The observations of a file with the epochs from the one number to the other, or its first fault.
/// The times of its epochs have to rise or needn't.
fn read_text(
    alloc: Global,
    bytes: &[u8],
    sought: &Sought,
    position: bool,
    rising: bool,
    from: u32,
    to: u32,
) -> Result<Obs, ReadError>
    requires { length bytes.now ≤ 4000000000 }
    ensures observations { IfOk result
        (λ obs. AreBetween from to (IsObsFileBy rising sought.now position bytes.now)
        (observations_of obs)) }
    ensures fault { IfErr result
        (Refuses (obs_file_by rising sought.now position (lines_of bytes.now))) }
{
    let header = match behind_version_of(bytes, b'O', sought.are_both()) {
        Ok(lines) => lines,
        Err(refusal) => return Err(ReadError::Refused(refusal)),
    };
    let (places, point, lines) = match read_header(header, sought, position) {
        Ok(start) => start,
        Err(refusal) => return Err(ReadError::Refused(refusal)),
    };
    let epochs = read_epochs(alloc, Body::new(lines), &places, rising, from, to)?;
    Ok(Obs {
        position: point,
        epochs,
    })
}

/// Reads an observation file as `read_obs_of` does, and keeps of its epochs those whose numbers are
/// from the one to the other. No memory is taken for the others, but for each while it is read.
pub fn read_obs_between(
    alloc: Global,
    bytes: &[u8],
    sought: &Sought,
    position: bool,
    from: u32,
    to: u32,
) -> Result<Obs, ReadError>
    requires { length bytes.now ≤ 4000000000 }
    // The text is an observation file, of whose observations these epochs were kept.
    ensures records { IfOk result
        (λ obs. AreBetween from to (IsObsFileOf sought.now position bytes.now)
        (observations_of obs)) }
    // What isn't read has this first fault, wherever it stands, unless memory ran out.
    ensures fault { IfErr result (Refuses (obs_file_of sought.now position (lines_of bytes.now))) }
    // An observation file is read as these epochs of its observations, unless memory runs out.
    ensures exact { (all : Observations) → IsObsFileOf sought.now position bytes.now all →
        GivesObservations (between from to all) result }
    // A text with a fault is refused with its first, unless memory runs out.
    ensures first { (refusal : Refusal) → IsFirstFaultOf sought.now position bytes.now refusal →
        GivesRefusal refusal result }
    // What is behind the line of the fault matters only where that is blank: then, whether all is.
    ensures settled { IfErr result (IsSettled (obs_file_of sought.now position) bytes.now) }
    // How its lines are shared out, and what comes of which.
    ensures whole { IfOk result
        (λ obs. AreBetween from to (IsWholeOf sought.now position (lines_of bytes.now))
        (observations_of obs)) }
    // Of the kept epochs of every file the same holds.
    ensures rising { IfOk result (λ obs. AreRisingFrom 1 (observations_of obs).epochs) }
    ensures distinct { IfOk result (λ obs. InEach AreDistinct (observations_of obs).epochs) }
    ensures named { IfOk result
        (λ obs. InEach (AreSatsOf (are_both sought.now)) (observations_of obs).epochs) }
{
    read_text(alloc, bytes, sought, position, false, from, to)
}

/// Reads an observation file of at most 4 * 10^9 bytes: its epochs with flags 0 and 1, with the
/// wanted codes of their GPS satellites, or of GPS and Galileo satellites where codes of both are
/// sought, and the position of its header where it is wanted. The header is read line by line, then
/// the lines behind it are counted and read once; no line is copied, and only what is given is
/// kept.
pub fn read_obs_of(
    alloc: Global,
    bytes: &[u8],
    sought: &Sought,
    position: bool,
) -> Result<Obs, ReadError>
    requires { length bytes.now ≤ 4000000000 }
    // What is read are the observations of an observation file with this text.
    ensures records { IfOk result
        (λ obs. IsObsFileOf sought.now position bytes.now (observations_of obs)) }
    // What isn't read has this first fault, unless memory ran out.
    ensures fault { IfErr result (Refuses (obs_file_of sought.now position (lines_of bytes.now))) }
    // An observation file is read as its observations, unless memory runs out.
    ensures exact { (observations : Observations) →
        IsObsFileOf sought.now position bytes.now observations →
        GivesObservations observations result }
    // A text with a fault is refused with its first, unless memory runs out.
    ensures first { (refusal : Refusal) → IsFirstFaultOf sought.now position bytes.now refusal →
        GivesRefusal refusal result }
    // What is behind the line of the fault matters only where that is blank: then, whether all is.
    ensures settled { IfErr result (IsSettled (obs_file_of sought.now position) bytes.now) }
    // How its lines are shared out, and what comes of which.
    ensures whole { IfOk result
        (λ obs. IsWholeOf sought.now position (lines_of bytes.now) (observations_of obs)) }
    // Of the epochs of every file the same holds.
    ensures numbered { IfOk result (λ obs. AreNumbered (observations_of obs).epochs) }
    ensures distinct { IfOk result (λ obs. InEach AreDistinct (observations_of obs).epochs) }
    ensures named { IfOk result
        (λ obs. InEach (AreSatsOf (are_both sought.now)) (observations_of obs).epochs) }
{
    read_text(
        alloc,
        bytes,
        sought,
        position,
        false,
        FIRST_EPOCH,
        LAST_EPOCH,
    )
}

/// Reads the observation file of a station as `read_obs_of` does that of a receiver, where each
/// epoch is later than the one before. Events don't count.
pub fn read_station(
    alloc: Global,
    bytes: &[u8],
    sought: &Sought,
    position: bool,
) -> Result<Obs, ReadError>
    requires { length bytes.now ≤ 4000000000 }
    // What is read are the observations of a station's file with this text.
    ensures records { IfOk result
        (λ obs. IsStationFile sought.now position bytes.now (observations_of obs)) }
    // What isn't read has this first fault, unless memory ran out.
    ensures fault { IfErr result (Refuses (station_file sought.now position (lines_of bytes.now))) }
    // A station's file is read as its observations, unless memory runs out.
    ensures exact { (observations : Observations) →
        IsStationFile sought.now position bytes.now observations →
        GivesObservations observations result }
    // A text with a fault is refused with its first, unless memory runs out.
    ensures first { (refusal : Refusal) →
        IsFirstStationFault sought.now position bytes.now refusal →
        GivesRefusal refusal result }
    // What is behind the line of the fault matters only where that is blank: then, whether all is.
    ensures settled { IfErr result (IsSettled (station_file sought.now position) bytes.now) }
    // How its lines are shared out, and what comes of which.
    ensures whole { IfOk result
        (λ obs. IsWholeOf sought.now position (lines_of bytes.now) (observations_of obs)) }
    // Of the epochs of every file the same holds.
    ensures numbered { IfOk result (λ obs. AreNumbered (observations_of obs).epochs) }
    ensures distinct { IfOk result (λ obs. InEach AreDistinct (observations_of obs).epochs) }
    ensures named { IfOk result
        (λ obs. InEach (AreSatsOf (are_both sought.now)) (observations_of obs).epochs) }
    // The epochs of a station rise.
    ensures rising { IfOk result (λ obs. AreRising obs.epochs.items) }
{
    read_text(
        alloc,
        bytes,
        sought,
        position,
        true,
        FIRST_EPOCH,
        LAST_EPOCH,
    )
}

/// Reads an observation file of at most 4 * 10^9 bytes: its epochs with flags 0 and 1, with the
/// wanted codes of their GPS satellites, and the position of its header where it is wanted.
pub fn read_obs(
    alloc: Global,
    bytes: &[u8],
    signal: &Signal,
    position: bool,
) -> Result<Obs, ReadError>
    requires { length bytes.now ≤ 4000000000 }
    // What is read are the observations of an observation file with this text.
    ensures records { IfOk result
        (λ obs. IsObsFile signal.now position bytes.now (observations_of obs)) }
    // What isn't read has this first fault, unless memory ran out.
    ensures fault { IfErr result (Refuses (obs_file signal.now position (lines_of bytes.now))) }
    // An observation file is read as its observations, unless memory runs out.
    ensures exact { (observations : Observations) →
        IsObsFile signal.now position bytes.now observations →
        GivesObservations observations result }
    // A text with a fault is refused with its first, unless memory runs out.
    ensures first { (refusal : Refusal) → IsFirstFault signal.now position bytes.now refusal →
        GivesRefusal refusal result }
    // What is behind the line of the fault matters only where that is blank: then, whether all is.
    ensures settled { IfErr result (IsSettled (obs_file signal.now position) bytes.now) }
    // How its lines are shared out, and what comes of which.
    ensures whole { IfOk result
        (λ obs. IsWhole signal.now position (lines_of bytes.now) (observations_of obs)) }
    // Of the epochs of every file the same holds.
    ensures numbered { IfOk result (λ obs. AreNumbered (observations_of obs).epochs) }
    ensures distinct { IfOk result (λ obs. InEach AreDistinct (observations_of obs).epochs) }
    ensures gps { IfOk result (λ obs. InEach AreGpsSats (observations_of obs).epochs) }
{
    let sought = Sought {
        gps: *signal,
        galileo: None,
    };
    read_obs_of(alloc, bytes, &sought, position)
}

/// Reads an observation file of at most 4 * 10^9 bytes: its epochs with flags 0 and 1, with the
/// wanted codes of their GPS and Galileo satellites, and the position of its header where it is
/// wanted.
pub fn read_obs_both(
    alloc: Global,
    bytes: &[u8],
    gps: &Signal,
    galileo: &Signal,
    position: bool,
) -> Result<Obs, ReadError>
    requires { length bytes.now ≤ 4000000000 }
    // What is read are the observations of an observation file with this text.
    ensures records { IfOk result
        (λ obs. IsObsFileOf (with_galileo gps.now galileo.now) position bytes.now
        (observations_of obs)) }
    // What isn't read has this first fault, unless memory ran out.
    ensures fault { IfErr result
        (Refuses (obs_file_of (with_galileo gps.now galileo.now) position (lines_of bytes.now))) }
    // An observation file is read as its observations, unless memory runs out.
    ensures exact { (observations : Observations) →
        IsObsFileOf (with_galileo gps.now galileo.now) position bytes.now observations →
        GivesObservations observations result }
    // A text with a fault is refused with its first, unless memory runs out.
    ensures first { (refusal : Refusal) →
        IsFirstFaultOf (with_galileo gps.now galileo.now) position bytes.now refusal →
        GivesRefusal refusal result }
    // What is behind the line of the fault matters only where that is blank: then, whether all is.
    ensures settled { IfErr result
        (IsSettled (obs_file_of (with_galileo gps.now galileo.now) position) bytes.now) }
    // How its lines are shared out, and what comes of which.
    ensures whole { IfOk result
        (λ obs. IsWholeOf (with_galileo gps.now galileo.now) position (lines_of bytes.now)
        (observations_of obs)) }
    // Of the epochs of every file the same holds.
    ensures numbered { IfOk result (λ obs. AreNumbered (observations_of obs).epochs) }
    ensures distinct { IfOk result (λ obs. InEach AreDistinct (observations_of obs).epochs) }
    ensures named { IfOk result (λ obs. InEach AreNamedSats (observations_of obs).epochs) }
{
    let sought = Sought {
        gps: *gps,
        galileo: Some(*galileo),
    };
    read_obs_of(alloc, bytes, &sought, position)
}
