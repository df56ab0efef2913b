//! Settings by name.
ghost use Rattle.std.specs.Prelude.{◌≡◌, ◌<◌, IfSome, position};
ghost use Rattle.std.specs.Str.{bytes_eq};
ghost use Rattle.fleet_file.specs.declared.settings.Setting.{Setting};
ghost use Rattle.fleet_file.specs.FleetText.{all_settings, is_out, settings_of, value_at};
ghost use Rattle.fleet_file.specs.inner.Reading.{AreInRange};
ghost use Rattle.ride_model.specs.Settings.{IsSettings};

use ride_model::Settings;
use ride_model::limits::{
    GREATEST_PENALTY, GREATEST_WEIGHT, LARGEST_BATCH, LONGEST_DWELL, LONGEST_LEAD,
};

/// A setting: its name, the range of its values, and the value that it has where no line sets it.
pub struct Setting {
    name: &'static [u8],
    least: u64,
    greatest: u64,
    default: u64,
}

/// The settings, in the order in which their values are kept.
static SETTINGS: [Setting; 7] = [
    Setting {
        name: b"batch",
        least: 1,
        greatest: LARGEST_BATCH,
        default: 32,
    },
    Setting {
        name: b"penalty",
        least: 0,
        greatest: GREATEST_PENALTY,
        default: 3_600,
    },
    Setting {
        name: b"drive",
        least: 0,
        greatest: GREATEST_WEIGHT,
        default: 1,
    },
    Setting {
        name: b"wait",
        least: 0,
        greatest: GREATEST_WEIGHT,
        default: 0,
    },
    Setting {
        name: b"lead",
        least: 0,
        greatest: LONGEST_LEAD,
        default: 0,
    },
    Setting {
        name: b"dwell",
        least: 0,
        greatest: LONGEST_DWELL,
        default: 0,
    },
    Setting {
        name: b"log",
        least: 1,
        greatest: 2,
        default: 1,
    },
];

/// The value of each setting that was set, by its place in the list.
pub type Values = [Option<u64>; 7];

/// The settings with these values.
pub fn settings_of(values: &Values) -> Settings
    requires { AreInRange values.now }
    ensures value { result ≡ settings_of values.now }
    ensures fit { IsSettings result }
{
    Settings {
        batch: value_at(values, 0) as u32,
        penalty: value_at(values, 1),
        drive: value_at(values, 2),
        wait: value_at(values, 3),
        lead: value_at(values, 4),
        dwell: value_at(values, 5),
        log: value_at(values, 6) as u8,
    }
}

/// The value of the setting at a place.
fn value_at(values: &Values, place: usize) -> u64
    requires { place < 7 }
    ensures { result ≡ value_at values.now place }
{
    values[place].unwrap_or(SETTINGS[place].default)
}

/// The place of the setting of a name.
pub fn place_of(name: &[u8]) -> Option<usize>
    ensures place { result ≡ position (λ setting. bytes_eq setting.name name.now) all_settings }
    ensures within { IfSome result (λ place. place < 7) }
{
    place_in(&SETTINGS, name)
}

/// The place of the setting of a name in a list.
fn place_in(settings: &[Setting], name: &[u8]) -> Option<usize>
    ensures { result ≡ position (λ (s : Setting). bytes_eq s.name.now name.now) settings.now }
{
    settings.iter().position(|setting| setting.name == name)
}

/// Whether a value is out of the range of the setting at a place.
pub fn is_out(place: usize, value: u64) -> bool
    requires { place < 7 }
    ensures { result ≡ is_out place value }
{
    let setting = &SETTINGS[place];
    value < setting.least || value > setting.greatest
}
