//! What a session starts with.
ghost use Rattle.std.specs.Prelude.{◌≡◌, ◌≤◌};
ghost use Rattle.std.specs.Option.{ForSome};
ghost use Rattle.ride_model.specs.Fleet.{MayStart};
ghost use Rattle.ride_model.specs.declared.limits.TheConstants.{LONGEST_REACH};
ghost use Rattle.ride_model.specs.State.{start_state};
ghost use Rattle.session_run.specs.inner.Writing.{reach_of};

use crate::writes::Writes;
use adaptive_roads::Roads;
use ride_model::{Fleet, Settings};
use std::marker::Model;

/// A map, settings and a fleet that a session may start with, and what it writes. To contracts it is the state before anything happened,
/// and the reach of the sheets where these are written.
#[derive(Drop)]
pub(crate) struct Outset<'r> {
    pub(crate) roads: &'r Roads,
    pub(crate) settings: Settings,
    pub(crate) fleet: Fleet,
    pub(crate) writes: Writes,
}

impl<'r> Model for Outset<'r> {
    ghost use Rattle.std.specs.Prelude.{◌≤◌};
    ghost use Rattle.std.specs.Option.{ForSome};
    ghost use Rattle.ride_model.specs.Fleet.{MayStart};
    ghost use Rattle.ride_model.specs.declared.limits.TheConstants.{LONGEST_REACH};
    ghost use Rattle.ride_model.specs.State.{start_state};
    ghost use Rattle.session_run.specs.inner.SessionState.{SessionStart};
    ghost use Rattle.session_run.specs.inner.Writing.{reach_of};

    ghost Value = { SessionStart };

    ghost view = { λ o. record {
      start = start_state o.roads.now o.settings o.fleet;
      reach = reach_of o.writes;
    } };

    ghost invariant = { λ o. MayStart o.roads.now o.settings o.fleet
        × ForSome (reach_of o.writes) (λ r. r ≤ LONGEST_REACH) };
}

impl<'r> Outset<'r> {
    /// Returns the outset of a session.
    pub(crate) fn new(
        roads: &'r Roads,
        settings: Settings,
        fleet: Fleet,
        writes: Writes,
    ) -> Outset<'r>
        requires start { MayStart roads.now settings fleet }
        requires reach_limit { ForSome (reach_of writes) (λ r. r ≤ LONGEST_REACH) }
        ensures { result ≡ record {
          start = start_state roads.now settings fleet;
          reach = reach_of writes;
        } }
    {
        Outset {
            roads,
            settings,
            fleet,
            writes,
        }
    }
}
