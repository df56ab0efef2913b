//! Boards of one vehicle in a small town, and what stands around them.
ghost use Rattle.std.specs.Prelude.{◌≡◌};

mod batches;
mod cities;
mod days;
mod going_on;
mod restoring;
mod searches;
mod shared;

use adaptive_roads::Roads;
use plan_trials::trial_town;
use ride_model::{Command, Fleet, Settings};
use std::alloc::Global;
use std::marker::Model;
use std::process::Abort;

/// A request of one rider, from a node to a node.
macro_rules! request {
    ($id:expr, $from:expr, $to:expr) => {
        Command::Request {
            id: $id,
            from: $from,
            to: $to,
            seats: 1,
            latest: 600,
            longest: 300,
            chairs: 0,
        }
    };
}

const SEVEN: Command = request!(7, 2, 4);

const EIGHT: Command = request!(8, 4, 3);

const NINE: Command = request!(9, 3, 4);

/// Request 7 is cancelled.
const CANCEL: Command = Command::Cancel { id: 7 };

/// The roads of the town.
fn roads(rt: &impl Abort, alloc: Global) -> Roads
    ensures { result.nodes ≡ 4 }
{
    let Ok(roads) = trial_town::roads(alloc) else {
        panic!(rt; "there is memory");
    };
    roads
}

/// A town: its roads, and settings and a fleet that a session may start with there. To contracts it is its map.
#[derive(Drop)]
struct Town<'r> {
    roads: &'r Roads,
    settings: Settings,
    fleet: Fleet,
}

impl<'r> Model for Town<'r> {
    ghost use Rattle.ride_model.specs.Fleet.{MayStart};
    ghost use Rattle.ride_model.specs.Road.{RoadMap};

    ghost Value = { RoadMap };

    ghost view = { λ town. town.roads.now };

    ghost invariant = { λ town. MayStart town.roads.now town.settings town.fleet };
}

/// The town of one vehicle, with batches of one request.
fn small_town<'r>(rt: &impl Abort, alloc: Global, roads: &'r Roads) -> Town<'r>
    requires { roads.now.nodes ≡ 4 }
{
    let Ok(fleet) = trial_town::fleet(alloc, roads) else {
        panic!(rt; "there is memory");
    };
    Town {
        roads,
        settings: trial_town::settings(1),
        fleet,
    }
}
