//! The texts of a receiver's files.

use crate::grammar::Grammar;
use crate::inputs::wants_position;
use crate::notice::Notice;
use crate::placed::placed;
use crate::role::Role;
use crate::station_file::StationFile;
use crate::suits::suited;
use command_words::Selection;
use error_bounds::{DeclaredStation, Settings, read_settings};
use gnss_model::Message;
use rinex_nav::{Nav, read_nav_of};
use rinex_obs::{Obs, Sought, read_obs_between, read_station};
use std::alloc::Global;

/// The texts of settings; of a receiver that moves its greatest speed has to be there, and a
/// station's place exactly where its file is named.
#[derive(Clone, Copy)]
pub struct SettingsText {
    pub moving: bool,
    pub stationed: bool,
}

impl Grammar<Settings> for SettingsText {
    ghost use Rattle.input_files.specs.Inputs.{settings_text};

    ghost text = { λ t. settings_text t.moving t.stationed };

    fn role(&self) -> Role {
        Role::Settings
    }

    fn read(&self, alloc: Global, bytes: Vec<u8>) -> Result<Settings, Notice> {
        match read_settings(alloc, &bytes) {
            Ok(settings) => suited(settings, self.moving, self.stationed),
            Err(error) => Err(Notice::of_settings(error)),
        }
    }
}

/// The texts of navigation files, of which the records of GPS are read, and where a message of
/// `galileo` is wanted its records too.
#[derive(Clone, Copy)]
pub struct NavText {
    pub galileo: Option<Message>,
}

impl Grammar<Nav> for NavText {
    ghost use Rattle.input_files.specs.Inputs.{nav_text};

    ghost text = { λ t. nav_text t.galileo };

    fn role(&self) -> Role {
        Role::Nav
    }

    fn read(&self, alloc: Global, bytes: Vec<u8>) -> Result<Nav, Notice> {
        match read_nav_of(alloc, &bytes, self.galileo) {
            Ok(nav) => Ok(nav),
            Err(error) => Err(Notice::of_nav(error)),
        }
    }
}

/// The texts of observation files, for the wanted codes and the selected epochs; and whether the
/// position of the header is wanted.
#[derive(Clone, Copy)]
pub struct ObsText<'a> {
    pub sought: &'a Sought,
    pub position: bool,
    pub selection: Selection,
}

impl<'a> Grammar<Obs> for ObsText<'a> {
    ghost use Rattle.command_words.specs.Seen.{epochs_asked};
    ghost use Rattle.input_files.specs.Inputs.{obs_text};

    ghost text = { λ t. obs_text t.sought.now t.position (epochs_asked t.selection) };

    fn role(&self) -> Role {
        Role::Obs
    }

    fn read(&self, alloc: Global, bytes: Vec<u8>) -> Result<Obs, Notice> {
        let Selection { from, to } = self.selection;
        match read_obs_between(alloc, &bytes, self.sought, self.position, from, to) {
            Ok(obs) => Ok(obs),
            Err(error) => Err(Notice::of_obs(error)),
        }
    }
}

/// The texts of a station's observation files, for the wanted codes: all epochs, and the place that
/// the settings declare.
#[derive(Clone, Copy)]
pub struct StationText<'a> {
    pub sought: &'a Sought,
    pub declared: DeclaredStation,
}

impl<'a> Grammar<StationFile> for StationText<'a> {
    ghost use Rattle.input_files.specs.Inputs.{station_text};

    ghost text = { λ t. station_text t.sought.now t.declared.place t.declared.age };

    fn role(&self) -> Role {
        Role::Station
    }

    fn read(&self, alloc: Global, bytes: Vec<u8>) -> Result<StationFile, Notice> {
        let position = wants_position(self.declared.place);
        match read_station(alloc, &bytes, self.sought, position) {
            Ok(obs) => placed(obs, &self.declared),
            Err(error) => Err(Notice::of_station(error)),
        }
    }
}
