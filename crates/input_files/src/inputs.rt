//! The files of a receiver.

ghost use Rattle.std.specs.Prelude.{◌≡◌, IfOk, None, is_some, option_map};
ghost use Rattle.command_words.specs.Seen.{files_asked};
ghost use Rattle.error_bounds.specs.Reading.{value_of_settings};
ghost use Rattle.grid_model.specs.Boxes.{grid_box};
ghost use Rattle.input_files.specs.Inputs.{AreEnough, AreShort, ReadsAfter, ReadsFor};
ghost use Rattle.input_files.specs.Inputs.{ReadsReceiver, ReadsStation, after_slot, input_files};
ghost use Rattle.input_files.specs.Inputs.{inputs_value, message_of, receiver_files, sought_of};
ghost use Rattle.input_files.specs.Inputs.{station_slot, station_value, wants_position};
ghost use Rattle.input_files.specs.Motion.{HasMotion, speed_of};
ghost use Rattle.input_files.specs.Reading.{Found, OnlyReads, valued};
ghost use Rattle.input_files.specs.Suits.{station_misfit};
ghost use Rattle.moving_tube.specs.Endings.{IsInsideOf, before_value};

use crate::earlier::EarlierText;
use crate::input_grammars::{NavText, ObsText, SettingsText, StationText};
use crate::limits::Limits;
use crate::named::read_named;
use crate::notice::Notice;
use crate::station_file::StationFile;
use command_words::Files;
use error_bounds::{Centre, Settings};
use gnss_model::Message;
use grid_model::Box3;
use moving_tube::Kept;
use outer_io::Shelf;
use rinex_nav::Nav;
use rinex_obs::{Obs, Sought};
use std::alloc::Global;

/// What is read from the files of a receiver, with the selected epochs, and from that of a station
/// where one is named; and what an earlier log leaves, where a track goes on behind one.
#[derive(Drop)]
pub struct Inputs {
    pub settings: Settings,
    pub nav: Nav,
    pub station: Option<StationFile>,
    pub obs: Obs,
    pub after: Option<Kept>,
}

/// Whether a place is the position of a header.
pub fn wants_position(centre: Centre) -> bool
    ensures { result ≡ wants_position centre }
{
    match centre {
        Centre::Header => true,
        Centre::At(_) => false,
    }
}

/// The codes that the settings want of the systems.
pub fn sought_of(settings: &Settings) -> Sought
    ensures { result ≡ sought_of (value_of_settings settings.now) }
{
    Sought {
        gps: settings.signal,
        galileo: settings.galileo_signal(),
    }
}

/// The message of Galileo whose records the settings want.
pub fn message_of(settings: &Settings) -> Option<Message>
    ensures { result ≡ message_of (value_of_settings settings.now) }
{
    match settings.galileo {
        Some(galileo) => Some(galileo.message),
        None => None,
    }
}

/// Whether a file is named.
fn is_named(name: Option<&str>) -> bool
    ensures { result ≡ is_some (option_map (λ name. name.now) name.entry) }
{
    match name {
        Some(_) => true,
        None => false,
    }
}

/// Reads the station's file where it is named, and with it a place declared.
fn read_station_file<H: Shelf>(
    alloc: Global,
    limits: &Limits,
    name: Option<&str>,
    settings: &Settings,
    shelf: &mut H,
) -> Result<Option<StationFile>, Notice>
    requires suits { station_misfit (is_some (option_map (λ name. name.now) name))
        (value_of_settings settings.now).station ≡ None }
    ensures found { Found (ReadsStation limits.now (sought_of (value_of_settings settings.now))
        (option_map (λ name. name.now) name.entry) (value_of_settings settings.now).station)
        (H.state shelf.old) (H.state shelf.new) (H.reliable shelf.new)
        (valued (option_map station_value) result) }
    ensures only { OnlyReads (station_slot (option_map (λ name. name.now) name.entry))
        (H.state shelf.old) (H.state shelf.new) result }
    ensures ages { IfOk result (AreShort settings.now.max_age) }
{
    let Some(name) = name else {
        return Ok(None);
    };
    let Some(declared) = settings.station else {
        unreachable!();
    };
    let sought = sought_of(settings);
    let text = StationText {
        sought: &sought,
        declared,
    };
    let station = read_named(alloc, limits, name, &text, shelf)?;
    Ok(Some(station))
}

/// Reads the settings, the navigation file, the station's file where it is named and the
/// observation file.
fn read_receiver<H: Shelf>(
    alloc: Global,
    limits: &Limits,
    words: &Files<'_>,
    moving: bool,
    shelf: &mut H,
) -> Result<Inputs, Notice>
    ensures found { Found (ReadsReceiver moving limits.now (files_asked words.now))
        (H.state shelf.old) (H.state shelf.new) (H.reliable shelf.new)
        (valued inputs_value result) }
    ensures only { OnlyReads (receiver_files (files_asked words.now))
        (H.state shelf.old) (H.state shelf.new) result }
    ensures enough { IfOk result AreEnough }
    ensures motion { IfOk result (λ inputs. HasMotion moving (speed_of inputs.settings)) }
    ensures none { IfOk result (λ inputs. inputs.after ≡ None) }
{
    let wanted = SettingsText {
        moving,
        stationed: is_named(words.station),
    };
    let settings = read_named(alloc, limits, words.settings, &wanted, shelf)?;
    let sought = sought_of(&settings);
    let text = NavText {
        galileo: message_of(&settings),
    };
    let nav = read_named(alloc, limits, words.nav, &text, shelf)?;
    let station = read_station_file(alloc, limits, words.station, &settings, shelf)?;
    let position = wants_position(settings.centre);
    let text = ObsText {
        sought: &sought,
        position,
        selection: words.selection,
    };
    let obs = read_named(alloc, limits, words.obs, &text, shelf)?;
    Ok(Inputs {
        settings,
        nav,
        station,
        obs,
        after: None,
    })
}

/// Reads what the earlier log leaves, where it is named.
fn read_after<H: Shelf>(
    alloc: Global,
    limits: &Limits,
    name: Option<&str>,
    search: Box3,
    shelf: &mut H,
) -> Result<Option<Kept>, Notice>
    ensures found { Found (ReadsAfter limits.now (grid_box search)
        (option_map (λ name. name.now) name.entry))
        (H.state shelf.old) (H.state shelf.new) (H.reliable shelf.new)
        (valued before_value result) }
    ensures only { OnlyReads (after_slot (option_map (λ name. name.now) name.entry))
        (H.state shelf.old) (H.state shelf.new) result }
    ensures inside { IfOk result (λ left. IsInsideOf (grid_box search) (before_value left)) }
{
    match name {
        Some(name) => read_named(alloc, limits, name, &EarlierText { search }, shelf),
        None => Ok(None),
    }
}

/// Reads the files of a receiver and of a station, and then the earlier log where it is named, each
/// whole, and keeps of the epochs those that the words select. Each is accepted or refused before
/// the next is begun. Settings are refused that lack the greatest speed of a receiver that moves or
/// the place of a station whose file is named, or have a place for no such file; an earlier log,
/// where it isn't right, or what it leaves doesn't lie in the search box.
pub fn read_inputs<H: Shelf>(
    alloc: Global,
    limits: &Limits,
    words: &Files<'_>,
    moving: bool,
    shelf: &mut H,
) -> Result<Inputs, Notice>
    ensures found { Found (ReadsFor moving limits.now (files_asked words.now))
        (H.state shelf.old) (H.state shelf.new) (H.reliable shelf.new)
        (valued inputs_value result) }
    ensures only { OnlyReads (input_files (files_asked words.now))
        (H.state shelf.old) (H.state shelf.new) result }
    ensures enough { IfOk result AreEnough }
    ensures motion { IfOk result (λ inputs. HasMotion moving (speed_of inputs.settings)) }
{
    let mut inputs = read_receiver(alloc, limits, words, moving, shelf)?;
    let search = inputs.settings.root(inputs.obs.position);
    inputs.after = read_after(alloc, limits, words.after, search, shelf)?;
    Ok(inputs)
}
