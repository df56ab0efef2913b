//! Laws of contraction hierarchies, over walks and travel times alone, whatever the order in which nodes are contracted.
//! Each is the contract of a function that does nothing.
//!
//! The hierarchies are those of Geisberger, Sanders, Schultes and Delling (2008), and the sweep is that of Delling, Goldberg,
//! Nowatzyk and Werneck (PHAST, 2011), here with a core of nodes that were not contracted.
ghost use Rattle.std.specs.Prelude.{◌≡◌, ℕ, ◌+◌, ◌<◌, ◌≤◌, ◌⊎◌, List, Contains};
ghost use Rattle.ride_model.specs.declared.network.RoadArc.{RoadArc};
ghost use Rattle.ride_model.specs.Road.{RoadMap, IsRoadMap, travel};
ghost use Rattle.ride_model.specs.inner.Road.{IsWalk, weight_of};
ghost use Rattle.adaptive_roads.specs.inner.hierarchy_laws.Ways.{Reaches};
ghost use Rattle.adaptive_roads.specs.inner.hierarchy_laws.Hierarchy.{IsRising, IsFalling, IsHierarchyOf, IsBypassed, IsRaised, IsUpDown, flipped};
ghost use Rattle.adaptive_roads.specs.inner.hierarchy_laws.Labels.{IsLabel, IsGathered, time_of};

/// A hierarchy keeps what walks weigh: each walk has a way over the links that weighs no more, and each such way has a walk.
pub fn ways_are_carried()
    ensures onto { (roads : RoadMap) (links : List RoadArc) (level : ℕ → ℕ) (core x y limit : ℕ)
        → IsHierarchyOf roads links level core
        → Reaches (Contains roads.arcs) x y limit → Reaches (Contains links) x y limit }
    ensures back { (roads : RoadMap) (links : List RoadArc) (level : ℕ → ℕ) (core x y limit : ℕ)
        → IsHierarchyOf roads links level core
        → Reaches (Contains links) x y limit → Reaches (Contains roads.arcs) x y limit }
    ensures walks { (roads : RoadMap) (x y : ℕ) (walk : List RoadArc) → IsWalk roads x y walk
        → Reaches (Contains roads.arcs) x y (weight_of walk) }
{}

/// A map is a hierarchy of itself, in which no node is contracted.
pub fn a_map_is_a_hierarchy()
    ensures { (roads : RoadMap) (level : ℕ → ℕ) → ((x y : ℕ) → level x ≡ level y)
        → IsHierarchyOf roads roads.arcs level 0 }
{}

/// A hierarchy stays one when arcs within the core are added that weigh what a way weighs.
pub fn shortcuts_keep_a_hierarchy()
    ensures { (roads : RoadMap) (links more : List RoadArc) (level : ℕ → ℕ) (core : ℕ)
        → IsHierarchyOf roads links level core
        → ((arc : RoadArc) → Contains links arc → Contains more arc)
        → ((arc : RoadArc) → Contains more arc → Contains links arc
        ⊎ (Reaches (Contains links) arc.tail arc.head arc.seconds × (core ≤ level arc.tail)
        × (core ≤ level arc.head)))
        → IsHierarchyOf roads more level core }
{}

/// A hierarchy stays one when a node leaves the core over which nothing goes that the rest of the core does not carry as well.
pub fn a_bypassed_node_may_be_contracted()
    ensures { (roads : RoadMap) (links : List RoadArc) (level next : ℕ → ℕ) (core node : ℕ)
        → IsHierarchyOf roads links level core
        → core < level node → IsRaised level next core node
        → IsBypassed (Contains links) level core node
        → IsHierarchyOf roads links next (core + 1) }
{}

/// Each way has one up and then down that weighs no more.
pub fn every_way_climbs_and_descends()
    ensures { (roads : RoadMap) (links : List RoadArc) (level : ℕ → ℕ) (core x y limit : ℕ)
        → IsHierarchyOf roads links level core
        → Reaches (Contains links) x y limit → IsUpDown (Contains links) level x y limit }
{}

/// The label of a node is the least weight of a way up and down to it, if the labels of the nodes above it are.
pub fn the_sweep_gathers_least_weights()
    ensures { (never : ℕ) (links : List RoadArc)
        (level labels : ℕ → ℕ) (source node climb label : ℕ)
        → IsLabel never (Reaches (IsRising (Contains links) level) source node) climb
        → ((arc : RoadArc) → IsFalling (Contains links) level arc → arc.head ≡ node
        → IsLabel never (IsUpDown (Contains links) level source arc.tail) (labels arc.tail))
        → IsGathered never (Contains links) level labels node climb label
        → IsLabel never (IsUpDown (Contains links) level source node) label }
{}

/// The least weight of a way up and down is the travel time, if `never` is above each travel time.
pub fn labels_are_travel_times()
    ensures { (never : ℕ) (roads : RoadMap) (links : List RoadArc) (level : ℕ → ℕ)
        (core x y label : ℕ) → IsRoadMap roads
        → 500000000000000 < never → IsHierarchyOf roads links level core
        → IsLabel never (IsUpDown (Contains links) level x y) label
        → travel roads x y ≡ time_of never label }
{}

/// A hierarchy turned round is one of the map turned round, so that a sweep over it gives the travel times to a node.
pub fn a_hierarchy_may_be_turned_round()
    ensures hierarchy { (roads back : RoadMap) (links chain : List RoadArc) (level : ℕ → ℕ)
        (core : ℕ) → IsHierarchyOf roads links level core
        → ((arc : RoadArc) → Contains roads.arcs arc → Contains back.arcs (flipped arc))
        → ((arc : RoadArc) → Contains back.arcs arc → Contains roads.arcs (flipped arc))
        → ((arc : RoadArc) → Contains links arc → Contains chain (flipped arc))
        → ((arc : RoadArc) → Contains chain arc → Contains links (flipped arc))
        → IsHierarchyOf back chain level core }
    ensures times { (roads back : RoadMap) (x y : ℕ) → IsRoadMap roads → IsRoadMap back
        → ((arc : RoadArc) → Contains roads.arcs arc → Contains back.arcs (flipped arc))
        → ((arc : RoadArc) → Contains back.arcs arc → Contains roads.arcs (flipped arc))
        → travel back y x ≡ travel roads x y }
{}
