//! The lines of a fleet file.
ghost use Rattle.std.specs.Prelude.{◌≡◌, ◌<◌, IfSome};
ghost use Rattle.fleet_file.specs.FleetText.{setting_of};

use crate::FleetError;
use crate::settings::{Values, is_out, place_of};
use crate::vehicles::{has_id, has_value_out, idle_vehicle, read_vehicle};
use line_text::{Fields, LineParser, words_of};
use ride_model::Vehicle;
use ride_model::limits::MOST_VEHICLES;
use std::alloc::Global;

/// What the lines so far said.
#[derive(Drop)]
pub struct FleetLines {
    /// The nodes of the map.
    pub nodes: u32,
    pub values: Values,
    pub vehicles: Vec<Vehicle>,
}

impl FleetLines {
    ghost use Rattle.line_text.specs.Fields.{numbers_of};
    ghost use Rattle.fleet_file.specs.FleetText.{after_words, fleet_format, setting_line, vehicle_from, vehicle_line};
    ghost use Rattle.fleet_file.specs.inner.Reading.{Gives, IsWithin, said};

    /// No lines, over a map of so many nodes.
    pub fn new(alloc: Global, nodes: u32) -> FleetLines
        ensures map { result.nodes ≡ nodes }
        ensures nothing { said result ≡ (fleet_format nodes).start }
        ensures within { IsWithin result }
    {
        FleetLines {
            nodes,
            values: [None; 7],
            vehicles: Vec::new(alloc),
        }
    }

    /// Takes what the line of this number says.
    fn words(&mut self, number: u64, words: Option<Fields<'_>>) -> Result<(), FleetError>
        requires { IsWithin self.old }
        ensures within { IsWithin self.new }
        ensures map { self.new.nodes ≡ self.old.nodes }
        ensures given { Gives result self.new
            (after_words self.old.nodes number (said self.old) words.entry) }
    {
        let Some(mut fields) = words else {
            return Err(FleetError::BadLine(number));
        };
        let Some(word) = fields.next_field() else {
            return Ok(());
        };
        if word == b"set".as_slice() {
            return self.setting_line(number, &mut fields);
        }
        if word == b"vehicle".as_slice() {
            return self.vehicle_line(number, &mut fields);
        }
        Err(FleetError::BadLine(number))
    }

    /// Takes the fields after `set`.
    fn setting_line(&mut self, number: u64, fields: &mut Fields<'_>) -> Result<(), FleetError>
        requires { IsWithin self.old }
        ensures within { IsWithin self.new }
        ensures map { self.new.nodes ≡ self.old.nodes }
        ensures given { Gives result self.new
            (setting_line number (said self.old) (setting_of fields.old)) }
    {
        let Some((place, value)) = read_setting(fields) else {
            return Err(FleetError::BadLine(number));
        };
        if self.values[place].is_some() {
            return Err(FleetError::Repeat(number));
        }
        if is_out(place, value) {
            return Err(FleetError::ValueOut(number));
        }
        self.values[place] = Some(value);
        Ok(())
    }

    /// Takes the fields after `vehicle`.
    fn vehicle_line(&mut self, number: u64, fields: &mut Fields<'_>) -> Result<(), FleetError>
        requires { IsWithin self.old }
        ensures within { IsWithin self.new }
        ensures map { self.new.nodes ≡ self.old.nodes }
        ensures given { Gives result self.new
            (vehicle_line self.old.nodes number (said self.old)
            (vehicle_from (numbers_of fields.old))) }
    {
        let Some(new) = read_vehicle(fields) else {
            return Err(FleetError::BadLine(number));
        };
        if has_id(self.vehicles.as_slice(), new.id) {
            return Err(FleetError::Repeat(number));
        }
        if new.node == 0 || new.node > u64::from(self.nodes) {
            return Err(FleetError::NodeOut(number));
        }
        if has_value_out(&new) {
            return Err(FleetError::ValueOut(number));
        }
        if self.vehicles.len() >= MOST_VEHICLES {
            return Err(FleetError::TooMany(number));
        }
        let Ok(()) = self.vehicles.push(idle_vehicle(&new)) else {
            return Err(FleetError::NoMemory);
        };
        Ok(())
    }
}

impl LineParser for FleetLines {
    type Refusal = FleetError;

    ghost use Rattle.fleet_file.specs.inner.Reading.{HasTaken, Refuses};

    ghost takes = { λ first lines now. HasTaken first lines now };

    ghost refuses = { λ first lines e. Refuses first lines e };

    fn line(&mut self, number: u64, line: &[u8], over: bool) -> Result<(), FleetError> {
        self.words(number, words_of(b'#', line, over))
    }
}

/// Reads the fields after `set`: the place of a setting, and its value.
fn read_setting(fields: &mut Fields<'_>) -> Option<(usize, u64)>
    ensures setting { result ≡ setting_of fields.old }
    ensures within { IfSome result (λ setting. setting.0 < 7) }
{
    let place = place_of(fields.next_field()?)?;
    match fields.numbers::<1>()?.as_slice() {
        [value] => Some((place, *value)),
        _ => None,
    }
}
