//! The texts of a run: each is brought by its name, read to its answer and given back.
ghost use Rattle.std.specs.Prelude.{◌≡◌, ◌+◌, ◌<◌, ◌≤◌, [], length, option_map, string_bytes, Err, IfOk, OnErr};
ghost use Rattle.ride_model.specs.declared.settings.Settings.{Settings};
ghost use Rattle.ride_model.specs.Fleet.{MayStart};
ghost use Rattle.ride_model.specs.Settings.{IsSettings};
ghost use Rattle.ride_ports.specs.Contents.{given_back};
ghost use Rattle.gr_reader.specs.MapText.{map_format};
ghost use Rattle.fleet_file.specs.FleetText.{fleet_format};
ghost use Rattle.dispatcher.specs.declared.stop.Stop.TheVariants.{FleetRefused, MapRefused};
ghost use Rattle.dispatcher.specs.Shelves.{shelved, IsFresh};
ghost use Rattle.dispatcher.specs.inner.Readings.{text_files, AsksOnce, BringsSecond, IsReadBy, MayBegin, ReadsAs, ReadsTexts};

use crate::handing::{bring, give_back};
use crate::stop::Stop;
use adaptive_roads::Roads;
use fleet_file::{FleetError, read_fleet};
use gr_reader::{MapError, read_map};
use ride_model::{Fleet, Network, Settings};
use ride_ports::{Shelf, Source};
use std::alloc::Global;

/// The names of a map and of a fleet file over it.
#[derive(Drop)]
pub struct TextNames {
    pub map: String,
    pub fleet: String,
}

/// What the texts of a run say, the map as its roads. Where there is no second fleet file, its fleet is empty.
#[derive(Drop)]
pub struct Texts {
    pub roads: Roads,
    pub settings: Settings,
    pub fleet: Fleet,
    pub second: Fleet,
}

/// Brings a map, a fleet file over it, and a second one where there is, and makes the map's roads. A session may start with either fleet.
pub fn bring_texts<H: Shelf>(
    alloc: Global,
    shelf: &mut H,
    names: TextNames,
    second: Option<String>,
) -> Result<Texts, Stop>
    requires fresh { IsFresh (shelved H.contents H.asked H.brought H.back H.faults shelf.old) }
    ensures texts { ReadsTexts (text_files (string_bytes names.map) (string_bytes names.fleet)
        (option_map string_bytes second))
        (shelved H.contents H.asked H.brought H.back H.faults shelf.old)
        (shelved H.contents H.asked H.brought H.back H.faults shelf.new) result }
    ensures start { IfOk result MayBegin }
{
    let TextNames { map, fleet } = names;
    let map = bring_map(alloc, shelf, map)?;
    let (settings, fleet) = bring_fleet(alloc, shelf, fleet, &map)?;
    let second = bring_second(alloc, shelf, second, &map)?;
    let roads = roads_of(alloc, &map)?;
    Ok(Texts {
        roads,
        settings,
        fleet,
        second,
    })
}

// Brings a map, reads it to its answer and gives it back.
fn bring_map<H: Shelf>(alloc: Global, shelf: &mut H, name: String) -> Result<Network, Stop>
    requires asked_room { length (H.asked shelf.old) < 8 }
    requires back_room { length (H.back shelf.old) < 8 }
    ensures asks { AsksOnce map_format MapRefused (string_bytes name)
        (shelved H.contents H.asked H.brought H.back H.faults shelf.old)
        (shelved H.contents H.asked H.brought H.back H.faults shelf.new) result }
    ensures one_asked { length (H.asked shelf.new) ≡ length (H.asked shelf.old) + 1 }
    ensures one_back { length (H.back shelf.new) ≤ length (H.back shelf.old) + 1 }
{
    let Ok(mut source) = bring(shelf, name) else {
        return Err(Stop::ShelfFault);
    };
    let read = map_from(alloc, &mut source);
    give_back(shelf, source);
    read
}

// Reads a map to its answer.
fn map_from<S: Source>(alloc: Global, source: &mut S) -> Result<Network, Stop>
    requires { S.faults source.old ≡ 0 }
    ensures answer { ReadsAs map_format MapRefused (S.left source.old) [] result }
    ensures read { IsReadBy map_format (S.left source.old)
        (given_back (S.faults source.new) (S.left source.new)) result }
    ensures source_fault { result ≡ Err Stop.ShelfFault → 0 < S.faults source.new }
{
    match read_map(alloc, source) {
        Ok(network) => Ok(network),
        Err(MapError::ReadFault) => Err(Stop::ShelfFault),
        Err(MapError::NoMemory) => Err(Stop::NoMemory),
        Err(error) => Err(Stop::MapRefused(error)),
    }
}

// Brings a second fleet file, where there is a name of one. Its settings are not used.
fn bring_second<H: Shelf>(
    alloc: Global,
    shelf: &mut H,
    name: Option<String>,
    map: &Network,
) -> Result<Fleet, Stop>
    requires asked_room { length (H.asked shelf.old) < 8 }
    requires back_room { length (H.back shelf.old) < 8 }
    ensures brings { BringsSecond map.now.nodes (option_map string_bytes name)
        (shelved H.contents H.asked H.brought H.back H.faults shelf.old)
        (shelved H.contents H.asked H.brought H.back H.faults shelf.new) result }
    ensures start { IfOk result (λ fleet. (settings : Settings) → IsSettings settings
        → MayStart map.now settings fleet) }
{
    let Some(name) = name else {
        return Ok(Fleet::new(Vec::new(alloc)));
    };
    match bring_fleet(alloc, shelf, name, map) {
        Ok((_, fleet)) => Ok(fleet),
        Err(stop) => Err(stop),
    }
}

// Brings a fleet file, reads it over the map to its answer and gives it back.
fn bring_fleet<H: Shelf>(
    alloc: Global,
    shelf: &mut H,
    name: String,
    map: &Network,
) -> Result<(Settings, Fleet), Stop>
    requires asked_room { length (H.asked shelf.old) < 8 }
    requires back_room { length (H.back shelf.old) < 8 }
    ensures asks { AsksOnce (fleet_format map.now.nodes) FleetRefused (string_bytes name)
        (shelved H.contents H.asked H.brought H.back H.faults shelf.old)
        (shelved H.contents H.asked H.brought H.back H.faults shelf.new) result }
    ensures one_asked { length (H.asked shelf.new) ≡ length (H.asked shelf.old) + 1 }
    ensures one_back { length (H.back shelf.new) ≤ length (H.back shelf.old) + 1 }
    ensures start { IfOk result (λ read. MayStart map.now read.0 read.1) }
{
    let Ok(mut source) = bring(shelf, name) else {
        return Err(Stop::ShelfFault);
    };
    let read = fleet_from(alloc, &mut source, map);
    give_back(shelf, source);
    read
}

// Reads a fleet file over the map to its answer.
fn fleet_from<S: Source>(
    alloc: Global,
    source: &mut S,
    map: &Network,
) -> Result<(Settings, Fleet), Stop>
    requires { S.faults source.old ≡ 0 }
    ensures answer { ReadsAs (fleet_format map.now.nodes) FleetRefused
        (S.left source.old) [] result }
    ensures read { IsReadBy (fleet_format map.now.nodes) (S.left source.old)
        (given_back (S.faults source.new) (S.left source.new)) result }
    ensures start { IfOk result (λ read. MayStart map.now read.0 read.1) }
    ensures source_fault { result ≡ Err Stop.ShelfFault → 0 < S.faults source.new }
{
    match read_fleet(alloc, source, map) {
        Ok(read) => Ok(read),
        Err(FleetError::ReadFault) => Err(Stop::ShelfFault),
        Err(FleetError::NoMemory) => Err(Stop::NoMemory),
        Err(error) => Err(Stop::FleetRefused(error)),
    }
}

// The roads of a map.
fn roads_of(alloc: Global, map: &Network) -> Result<Roads, Stop>
    ensures roads { IfOk result (λ roads. roads ≡ map.now) }
    ensures stopped { OnErr result (result ≡ Err Stop.NoMemory) }
{
    match Roads::new(alloc, map) {
        Ok(roads) => Ok(roads),
        Err(_) => Err(Stop::NoMemory),
    }
}
