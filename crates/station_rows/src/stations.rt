//! What a source of rows with a station means keeps the laws of a source.

ghost use Rattle.std.specs.Prelude.{List, Option};
ghost use Rattle.error_bounds.specs.declared.settings.Settings.{Settings};
ghost use Rattle.gnss_model.specs.declared.satellites.GalileoUse.{GalileoUse};
ghost use Rattle.rinex_nav.specs.declared.record.NavRecord.{NavRecord};
ghost use Rattle.sat_rows.specs.Meanings.{IsSound};
ghost use Rattle.station_epochs.specs.Stations.{Station};
ghost use Rattle.station_rows.specs.Stations.{station_meaning};

/// With a station each satellite is judged in one way, and something is allowed of a usable one at
/// each point of the search box. The call does nothing.
pub fn station_meaning_is_sound()
    ensures { (galileo : Option GalileoUse) (records : List NavRecord) (settings : Settings)
        (station : Station) → IsSound (station_meaning galileo records settings station) }
{}
