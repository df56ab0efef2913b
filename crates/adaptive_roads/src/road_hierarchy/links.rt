//! Arcs as a search meets them.
ghost use Rattle.std.specs.Prelude.{◌≡◌};
ghost use Rattle.road_times.specs.inner.Turned.{turned_arc};

use ride_model::RoadArc;
use road_times::Side;

/// An arc as a search meets it.
#[inline]
pub(crate) fn turned(arc: &RoadArc, side: Side) -> RoadArc
    ensures { result ≡ turned_arc side arc.now }
{
    match side {
        Side::Out => *arc,
        Side::Back => RoadArc {
            tail: arc.head,
            head: arc.tail,
            seconds: arc.seconds,
        },
    }
}
