//! The columns as they are seen from a row.
ghost use Rattle.std.specs.Prelude.{◌≡◌, ℕ, ◌+◌, ◌<◌, ◌≤◌, ◌^◌, length, slice_index, slice_index_or, Some, None};
ghost use Rattle.dual_check.specs.declared.grids.TheConstants.{WIDEST_GRID};
ghost use Rattle.hungarian.specs.inner.Ways.{IsShortened, IsNearest, IsRelaxable, IsDistanceBy, nearest_of};

use dual_check::Cell;

/// A row that a search reached: its distance from the root, and its price.
#[derive(Clone, Copy)]
pub(crate) struct Reach {
    pub(crate) row: u32,
    pub(crate) distance: u64,
    pub(crate) price: u64,
}

/// How a column is reached: at what distance, and from which row.
#[derive(Clone, Copy)]
struct Way {
    distance: u64,
    source: u32,
}

/// The nearest open column so far; none where none is nearer than the limit that stands for its distance.
#[derive(Clone, Copy)]
pub(crate) struct Nearest {
    pub(crate) distance: u64,
    pub(crate) column: Option<u32>,
}

/// The distance of a column by a row, where there is an amount; else the distance that it had.
#[inline(always)]
fn distance_by(reach: Reach, cell: Cell, pay: u64, had: u64) -> u64
    requires { IsRelaxable reach cell pay }
    ensures { IsDistanceBy reach cell pay had result }
{
    match cell.amount() {
        Some(amount) => reach.distance + amount + pay - reach.price,
        None => had,
    }
}

/// The shorter way to a column.
#[inline(always)]
fn shorter(reach: Reach, cell: Cell, pay: u64, had: Way) -> Way
    requires { IsRelaxable reach cell pay }
    ensures { IsShortened reach cell pay had.distance had.source result.distance result.source }
{
    let distance = distance_by(reach, cell, pay, had.distance);
    if distance < had.distance {
        Way {
            distance,
            source: reach.row,
        }
    } else {
        had
    }
}

/// The nearer of the nearest open column and another column, if that is open.
#[inline(always)]
fn nearer(nearest: Nearest, ranks: &[u32], column: usize, distance: u64) -> Nearest
    requires column_in { column < length ranks.now }
    requires few { length ranks.now ≤ WIDEST_GRID }
    ensures nearer { result ≡ nearest_of nearest column distance (slice_index ranks.now column) }
{
    if distance < nearest.distance && ranks[column] == 0 {
        Nearest {
            distance,
            column: Some(column as u32),
        }
    } else {
        nearest
    }
}

/// Shortens the ways to all columns by a row, in one pass that also finds the nearest open column below a limit. It
/// stays a function of its own, so that its loop has all registers.
#[inline(never)]
pub(crate) fn relax(
    reach: Reach,
    cells: &[Cell],
    pays: &[u64],
    ranks: &[u32],
    limit: u64,
    distances: &mut [u64],
    sources: &mut [u32],
) -> Nearest
    requires few { length cells.now ≤ WIDEST_GRID }
    requires pays_each { length pays.now ≡ length cells.now }
    requires ranks_each { length ranks.now ≡ length cells.now }
    requires distances_each { length distances.old ≡ length cells.now }
    requires sources_each { length sources.old ≡ length cells.now }
    requires relaxable { (column : ℕ) → column < length cells.now
        → IsRelaxable reach (slice_index_or cells.now column None) (slice_index pays.now column) }
    ensures shortened { (column : ℕ) → column < length cells.now
        → IsShortened reach (slice_index_or cells.now column None) (slice_index pays.now column)
        (slice_index distances.old column) (slice_index sources.old column)
        (slice_index distances.new column) (slice_index sources.new column) }
    ensures nearest { IsNearest ranks.now distances.new (length cells.now) limit result }
{
    let mut nearest = Nearest {
        distance: limit,
        column: None,
    };
    for column in 0..cells.len() {
        let had = Way {
            distance: distances[column],
            source: sources[column],
        };
        let way = shorter(reach, cells[column], pays[column], had);
        distances[column] = way.distance;
        sources[column] = way.source;
        nearest = nearer(nearest, ranks, column, way.distance);
    }
    nearest
}
