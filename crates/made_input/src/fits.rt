//! The satellites are usable, and the place fits.

ghost use Rattle.std.specs.Prelude.{◌≡◌, ◌≤◌, ℕ, List};
ghost use Rattle.error_bounds.specs.Reading.{value_of_settings};
ghost use Rattle.error_bounds.specs.declared.settings.Settings.{Settings};
ghost use Rattle.made_input.specs.MadeCodes.{centre_x, centre_y, centre_z};
ghost use Rattle.made_input.specs.MadeInput.{IsMade};
ghost use Rattle.made_input.specs.MadeRecords.{made_records};
ghost use Rattle.made_input.specs.PlaceFits.{FitsInEach, AreUsableInEach};
ghost use Rattle.made_input.specs.declared.made.Made.{Made};
ghost use Rattle.made_texts.specs.SettingsText.{settings_of};
ghost use Rattle.rinex_nav.specs.Reading.{records_of};
ghost use Rattle.rinex_nav.specs.declared.record.NavRecord.{NavRecord};

/// By what a made navigation file and made settings read as, the place fits each epoch of the
/// observation file at clock offset 0. The call does nothing.
pub fn place_fits()
    ensures { (seed count : ℕ) (made : Made) (records : List NavRecord) (settings : Settings)
        → (m : IsMade seed count made) → count ≤ 240
        → records_of records ≡ made_records seed
        → value_of_settings settings ≡ settings_of (centre_x seed) (centre_y seed) (centre_z
        seed)
        → FitsInEach records settings made.place m.epochs }
{}

/// By what a made navigation file and made settings read as, all eight satellites of each epoch of
/// the observation file are usable; so no code is blank. The call does nothing.
pub fn satellites_are_usable()
    ensures { (seed count : ℕ) (made : Made) (records : List NavRecord) (settings : Settings)
        → (m : IsMade seed count made) → count ≤ 240
        → records_of records ≡ made_records seed
        → value_of_settings settings ≡ settings_of (centre_x seed) (centre_y seed) (centre_z
        seed)
        → AreUsableInEach records settings m.epochs }
{}
