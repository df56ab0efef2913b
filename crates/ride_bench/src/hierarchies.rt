//! Rows of travel times by sweeps of a hierarchy, and by searches: the same sums, and how long they take.
ghost use Rattle.std.specs.Prelude.{◌≡◌, ◌≤◌, length, All, IfOk, IfSome};
ghost use Rattle.adaptive_roads.specs.inner.road_hierarchy.Selection.{IsSelectionOf};
ghost use Rattle.plan_trials.specs.trial_town.Streets.{IsPlace};

use crate::grid::{Grid, drawn, generate};
use crate::rows::{NEW_YORK, SMALL, roads_of, spread, sum_of};
use crate::sources::Sources;
use crate::stopwatch::Stopwatch;
use adaptive_roads::contraction::Contraction;
use adaptive_roads::road_hierarchy::{Hierarchy, Selected, SweepRoom};
use anyhow::{Result, bail, ensure};
use ride_model::{Network, NoMemory};
use road_times::{Roads, Scratch, Side};
use std::alloc::Global;
use std::io;
use std::rt::Clock;

/// The largest map, of which each street is there.
const LATTICE: Grid = Grid {
    nodes: 499_849,
    width: 707,
    kept: 10,
};

/// A map of drawn arcs, most of which stays uncontracted.
const RANDOM_NODES: u32 = 100_000;

const RANDOM_ARCS: u32 = 400_000;

/// The rows of a batch of 128 requests.
const ROWS: u32 = 512;

/// The rows of these that are searched too.
const SEARCHED: u32 = 8;

/// A map of which no node is contracted.
fn uncontracted(alloc: Global, roads: &Roads) -> Result<Contraction, NoMemory>
    ensures { IfOk result (λ contraction. contraction.nodes ≡ roads.now.nodes) }
{
    let network = roads.network(alloc)?;
    Contraction::new(alloc, &network)
}

/// Contracts a map as far as the budgets let.
fn contracted(alloc: Global, roads: &Roads) -> Result<Contraction, NoMemory>
    ensures { IfOk result (λ contraction. contraction.nodes ≡ roads.now.nodes) }
{
    let mut contraction = uncontracted(alloc, roads)?;
    contraction.contract_some(u64::MAX)?;
    Ok(contraction)
}

/// The hierarchy of a map. None where nodes are left that do not contract.
fn made(alloc: Global, roads: &Roads) -> Result<Option<Hierarchy>, NoMemory>
    ensures { IfOk result (λ made. IfSome made (λ hierarchy. hierarchy.nodes ≡ roads.now.nodes)) }
{
    let contraction = contracted(alloc, roads)?;
    Hierarchy::new(alloc, contraction)
}

/// The sum of the rows of these nodes by sweeps.
fn sweep_rows(
    alloc: Global,
    hierarchy: &Hierarchy,
    selected: &Selected,
    many: u32,
    sources: Sources,
) -> Result<u64, NoMemory>
    requires selected { IsSelectionOf hierarchy.now selected.now }
    requires many { length selected.now.wanted ≡ many }
    requires sources { sources.nodes ≡ hierarchy.now.nodes }
{
    let places = hierarchy.nodes() as usize + selected.count();
    let mut row = vec![in alloc; None; many as usize]?;
    let mut room = SweepRoom::new(alloc, places)?;
    let mut sum = 0u64;
    for turn in 0..sources.count {
        let source = sources.node(turn);
        hierarchy.row_in(selected, &mut room, source, &mut row);
        sum = sum.wrapping_add(sum_of(&row));
    }
    Ok(sum)
}

/// The same by searches.
fn search_rows(
    alloc: Global,
    roads: &Roads,
    wanted: &[u32],
    sources: Sources,
) -> Result<u64, NoMemory>
    requires wanted { All (IsPlace roads.now.nodes) wanted.now }
    requires sources { sources.nodes ≡ roads.now.nodes }
{
    let mut row = vec![in alloc; None; wanted.len()]?;
    let mut scratch = Scratch::new(alloc, roads)?;
    let mut sum = 0u64;
    for turn in 0..sources.count {
        let source = sources.node(turn);
        roads.rows(&mut scratch, source, Side::Out, wanted, &mut row);
        sum = sum.wrapping_add(sum_of(&row));
    }
    Ok(sum)
}

/// The sum of the rows of these nodes by sweeps of what is selected for the wanted.
fn sweep_wanted(
    alloc: Global,
    hierarchy: &Hierarchy,
    wanted: &[u32],
    sources: Sources,
) -> Result<u64, NoMemory>
    requires wanted { All (IsPlace hierarchy.now.nodes) wanted.now }
    requires few { length wanted.now ≤ 500000 }
    requires sources { sources.nodes ≡ hierarchy.now.nodes }
{
    let selected = Selected::of(alloc, hierarchy, Side::Out, wanted)?;
    sweep_rows(alloc, hierarchy, &selected, wanted.len() as u32, sources)
}

/// The sum of so many rows by sweeps and by searches, which must be the same.
fn compare(
    alloc: Global,
    roads: &Roads,
    hierarchy: &Hierarchy,
    wanted: &[u32],
    count: u32,
) -> Result<u64>
    requires nodes { hierarchy.now.nodes ≡ roads.now.nodes }
    requires wanted { All (IsPlace roads.now.nodes) wanted.now }
    requires few { length wanted.now ≤ 500000 }
    requires count { (1 ≤ count) × (count ≤ roads.now.nodes) }
{
    let sources = Sources::spread(roads.nodes(), count);
    let swept = sweep_wanted(alloc, hierarchy, wanted, sources)?;
    let searched = search_rows(alloc, roads, wanted, sources)?;
    ensure!(swept == searched, "sums {swept} and {searched}");
    Ok(swept)
}

/// The sum of the rows of a batch by sweeps, of how many selected nodes, and the microseconds of the selecting and of the rows.
#[derive(Clone, Copy)]
struct Swept {
    sum: u64,
    count: usize,
    selecting: u128,
    micros: u128,
}

/// Times the rows of a batch by sweeps of what was selected since the watch was started.
fn time_selected(
    rt: &impl Clock,
    alloc: Global,
    hierarchy: &Hierarchy,
    selected: &Selected,
    many: u32,
    watch: Stopwatch,
) -> Result<Swept, NoMemory>
    requires selected { IsSelectionOf hierarchy.now selected.now }
    requires many { length selected.now.wanted ≡ many }
    requires nodes { 512 ≤ hierarchy.now.nodes }
{
    let selecting = watch.elapsed(rt).as_micros();
    let sources = Sources::spread(hierarchy.nodes(), ROWS);
    let watch = Stopwatch::start(rt);
    let sum = sweep_rows(alloc, hierarchy, selected, many, sources)?;
    Ok(Swept {
        sum,
        count: selected.count(),
        selecting,
        micros: watch.elapsed(rt).as_micros(),
    })
}

/// Times the rows of a batch by sweeps.
fn time_sweeps(
    rt: &impl Clock,
    alloc: Global,
    hierarchy: &Hierarchy,
    wanted: &[u32],
) -> Result<Swept, NoMemory>
    requires nodes { 512 ≤ hierarchy.now.nodes }
    requires wanted { All (IsPlace hierarchy.now.nodes) wanted.now }
    requires few { length wanted.now ≤ 500000 }
{
    let watch = Stopwatch::start(rt);
    let selected = Selected::of(alloc, hierarchy, Side::Out, wanted)?;
    time_selected(rt, alloc, hierarchy, &selected, wanted.len() as u32, watch)
}

/// Times some rows of a batch by searches.
fn time_searches(
    rt: &(impl Clock + Print),
    alloc: Global,
    roads: &Roads,
    wanted: &[u32],
) -> io::Result<()>
    requires nodes { 512 ≤ roads.now.nodes }
    requires wanted { All (IsPlace roads.now.nodes) wanted.now }
{
    let many = wanted.len();
    let sources = Sources::spread(roads.nodes(), SEARCHED);
    let watch = Stopwatch::start(rt);
    let sum = search_rows(alloc, roads, wanted, sources)?;
    let micros = watch.elapsed(rt).as_micros();
    println!(rt; "wanted {many} rows {SEARCHED} sum {sum} by searches in {micros} us")
}

/// Times rows to wanted nodes both ways, if there is a hierarchy, and compares some.
fn time_wanted(
    rt: &(impl Clock + Print),
    alloc: Global,
    roads: &Roads,
    hierarchy: Option<&Hierarchy>,
    wanted: &[u32],
) -> Result<()>
    requires nodes { 512 ≤ roads.now.nodes }
    requires hierarchy { IfSome hierarchy (λ h. h.now.nodes ≡ roads.now.nodes) }
    requires wanted { All (IsPlace roads.now.nodes) wanted.now }
    requires few { length wanted.now ≤ 500000 }
{
    time_searches(rt, alloc, roads, wanted)?;
    let Some(hierarchy) = hierarchy else {
        return Ok(());
    };
    compare(alloc, roads, hierarchy, wanted, SEARCHED)?;
    let swept = time_sweeps(rt, alloc, hierarchy, wanted)?;
    Ok(tell_swept(rt, wanted.len(), swept)?)
}

/// Says what the sweeps found, and how long they took.
fn tell_swept(rt: &impl Print, many: usize, swept: Swept) -> io::Result<()> {
    let Swept {
        sum,
        count,
        selecting,
        micros,
    } = swept;
    println!(rt;
        "wanted {many} rows {ROWS} sum {sum}, selected {count} nodes in {selecting} us, rows in {micros} us"
    )
}

/// Times rows to so many nodes.
fn time_many(
    rt: &(impl Clock + Print),
    alloc: Global,
    roads: &Roads,
    hierarchy: Option<&Hierarchy>,
    many: u32,
) -> Result<()>
    requires nodes { 512 ≤ roads.now.nodes }
    requires hierarchy { IfSome hierarchy (λ h. h.now.nodes ≡ roads.now.nodes) }
    requires many { (1 ≤ many) × (many ≤ roads.now.nodes) }
{
    let wanted = spread(alloc, roads.nodes(), many)?;
    time_wanted(rt, alloc, roads, hierarchy, &wanted)
}

/// Times rows to some, to more and to many nodes, once it is said how long the packing took.
fn time_packed(
    rt: &(impl Clock + Print),
    alloc: Global,
    roads: &Roads,
    hierarchy: Option<&Hierarchy>,
    packing: u128,
) -> Result<()>
    requires nodes { 17000 ≤ roads.now.nodes }
    requires hierarchy { IfSome hierarchy (λ h. h.now.nodes ≡ roads.now.nodes) }
{
    println!(rt; "packed in {packing} ms")?;
    time_many(rt, alloc, roads, hierarchy, 1_000)?;
    time_many(rt, alloc, roads, hierarchy, 9_000)?;
    time_many(rt, alloc, roads, hierarchy, 17_000)
}

/// Times the packing of what was contracted, and rows both ways.
fn time_contracted(
    rt: &(impl Clock + Print),
    alloc: Global,
    roads: &Roads,
    contraction: Contraction,
) -> Result<()>
    requires nodes { 17000 ≤ roads.now.nodes }
    requires contraction { contraction.nodes ≡ roads.now.nodes }
{
    let watch = Stopwatch::start(rt);
    let made = Hierarchy::new(alloc, contraction)?;
    let packing = watch.elapsed(rt).as_millis();
    time_packed(rt, alloc, roads, made.as_ref(), packing)
}

/// Says how far a map was contracted, and how long it took.
fn tell_contracted(rt: &impl Print, contraction: &Contraction, millis: u128) -> io::Result<()> {
    let links = contraction.links();
    let done = contraction.order().len();
    println!(rt; "links {links}, nodes contracted {done}, in {millis} ms")
}

/// Times the making of a hierarchy, and rows both ways.
fn time_roads(rt: &(impl Clock + Print), alloc: Global, roads: &Roads) -> Result<()>
    requires { 17000 ≤ roads.now.nodes }
{
    let watch = Stopwatch::start(rt);
    let contraction = contracted(alloc, roads)?;
    tell_contracted(rt, &contraction, watch.elapsed(rt).as_millis())?;
    time_contracted(rt, alloc, roads, contraction)
}

/// The sum of the rows to wanted nodes that are spread over the map, both ways.
fn sum_spread(alloc: Global, roads: &Roads, hierarchy: &Hierarchy) -> Result<u64>
    requires some { 10 ≤ roads.now.nodes }
    requires nodes { hierarchy.now.nodes ≡ roads.now.nodes }
{
    let wanted = spread(alloc, roads.nodes(), 10)?;
    compare(alloc, roads, hierarchy, &wanted, 4)
}

/// The sum of the rows of a map, both ways, if all of it contracts.
fn sum_both_ways(alloc: Global, roads: &Roads) -> Result<u64>
    requires { 10 ≤ roads.now.nodes }
{
    let Some(hierarchy) = made(alloc, roads)? else {
        bail!("nodes are left");
    };
    sum_spread(alloc, roads, &hierarchy)
}

/// The roads of a small map.
fn small_roads(alloc: Global) -> Result<Roads, NoMemory>
    ensures { IfOk result (λ roads. 10 ≤ roads.nodes) }
{
    let map = generate(alloc, SMALL)?;
    Roads::new(alloc, &map)
}

/// Prints the sum of the rows of a small map.
pub fn small(rt: &impl Print, alloc: Global) -> Result<()> {
    let sum = sum_small(alloc)?;
    Ok(println!(rt; "hierarchy wanted 10 rows 4 sum {sum}")?)
}

/// The sum of the rows of a small map, both ways.
fn sum_small(alloc: Global) -> Result<u64> {
    let roads = small_roads(alloc)?;
    sum_both_ways(alloc, &roads)
}

/// A map by its name.
fn map_of(alloc: Global, name: &str) -> Result<Network>
    ensures { IfOk result (λ map. 17000 ≤ map.nodes) }
{
    let map = match name {
        "new_york" => generate(alloc, NEW_YORK),
        "lattice" => generate(alloc, LATTICE),
        "random" => drawn(alloc, RANDOM_NODES, RANDOM_ARCS),
        _ => bail!("new_york, lattice or random"),
    };
    Ok(map?)
}

/// The roads of a map by its name.
fn roads_by(rt: &impl Print, alloc: Global, name: &str) -> Result<Roads>
    ensures { IfOk result (λ roads. 17000 ≤ roads.nodes) }
{
    let map = map_of(alloc, name)?;
    Ok(roads_of(rt, alloc, &map)?)
}

/// Times a map by its name.
pub fn hierarchy(rt: &(impl Clock + Print), alloc: Global, name: &str) -> Result<()> {
    let roads = roads_by(rt, alloc, name)?;
    time_roads(rt, alloc, &roads)
}
