//! The sweep: one pass over the steps of a selection, from the highest node down.
ghost use Rattle.std.specs.Prelude.{◌≡◌, ℕ, ◌+◌, ◌<◌, ◌≤◌, ◌⊎◌, length, map, All};
ghost use Rattle.adaptive_roads.specs.inner.hierarchy_laws.Labels.{time_of};
ghost use Rattle.adaptive_roads.specs.inner.road_hierarchy.Parts.{AreParts};
ghost use Rattle.adaptive_roads.specs.inner.road_hierarchy.Marks.{node_at};
ghost use Rattle.adaptive_roads.specs.inner.road_hierarchy.Selection.{step_at, ComeEarlier};
ghost use Rattle.adaptive_roads.specs.inner.road_hierarchy.Sweep.{never, climb_to, through, IsSwept};

use crate::road_hierarchy::selected::Step;

/// A label above all travel times, which stands for no way: a million arcs of 10^9 seconds.
pub(crate) const NEVER: u64 = 1_000_000_000_000_000;

/// The least of the label of a climb and of the ways that end with a step.
#[inline]
fn least(climb: u64, steps: &[Step], times: &[u64]) -> u64
    requires inside { (k : ℕ) → k < length steps.now
        → (step_at steps.now k).place < length times.now }
    requires low { (k : ℕ) → k < length steps.now
        → node_at times.now (step_at steps.now k).place ≤ never }
    ensures climbed { result ≤ climb }
    ensures stepped { (k : ℕ) → k < length steps.now → result ≤ through steps.now times.now k }
    ensures attained { (result ≡ climb)
        ⊎ ((k : ℕ) × (k < length steps.now) × (result ≡ through steps.now times.now k)) }
{
    let mut label = climb;
    for step in steps {
        label = label.min(times[step.place as usize] + u64::from(step.seconds));
    }
    label
}

/// Sweeps: labels each place by the least of the climb to its node and of the ways that end with a step to it.
pub(crate) fn sweep(
    ranks: &[u32],
    climbs: &[u64],
    starts: &[usize],
    steps: &[Step],
    labels: &mut [u64],
)
    requires room { length ranks.now ≤ length labels.old }
    requires parts { AreParts (length ranks.now) starts.now (length steps.now) }
    requires earlier { ComeEarlier (length ranks.now) starts.now steps.now }
    requires inside { (place : ℕ) → place < length ranks.now
        → node_at ranks.now place < length climbs.now }
    requires low { (level : ℕ) → node_at climbs.now level ≤ never }
    ensures { (place : ℕ) → place < length ranks.now
        → IsSwept starts.now steps.now (climb_to ranks.now climbs.now) labels.new place }
{
    for (place, rank) in ranks.iter().enumerate() {
        let part = &steps[starts[place]..starts[place + 1]];
        let climb = climbs[*rank as usize];
        labels[place] = least(climb, part, labels);
    }
}

/// The travel time that a label stands for.
#[inline]
pub(crate) fn time_for(label: u64) -> Option<u64>
    ensures { result ≡ time_of never label }
{
    if label < NEVER { Some(label) } else { None }
}

/// The travel time that the label of a place stands for.
#[inline]
fn time_at(labels: &[u64], place: u32) -> Option<u64>
    requires { place < length labels.now }
    ensures { result ≡ time_of never (node_at labels.now place) }
{
    time_for(labels[place as usize])
}

/// Reads the travel times of the wanted nodes from the labels of their places.
pub(crate) fn read(places: &[u32], labels: &[u64], into: &mut [Option<u64>])
    requires sized { length places.now ≡ length into.old }
    requires inside { All (λ place. place < length labels.now) places.now }
    ensures { into.new ≡ map (λ place. time_of never (node_at labels.now place)) places.now }
{
    for (wanted, place) in places.iter().enumerate() {
        into[wanted] = time_at(labels, *place);
    }
}
