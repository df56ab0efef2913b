//! The offer at a pair of places that was found.
ghost use Rattle.std.specs.Prelude.{◌≡◌, ◌≤◌, length, option_map};
ghost use Rattle.insertion.specs.inner.Joined.{joins_near};
ghost use Rattle.slack_tables.specs.inner.Offered.{offer_with};

use crate::found::Found;
use insertion::Near;
use insertion::joins::joins_at;
use ride_model::Offer;

/// The offer with its start and its legs, where they are there.
pub fn offered(found: Found, start: u64, near: &Near) -> Option<Offer>
    requires in_order { found.i ≤ found.j }
    requires in_range { found.j ≤ length near.now.stops.items }
    ensures { result ≡ option_map (offer_with found start) (joins_near near.now found.i found.j) }
{
    let joins = joins_at(near, found.i as usize, found.j as usize)?;
    Some(Offer {
        i: found.i,
        j: found.j,
        cost: found.cost,
        start,
        joins,
    })
}
