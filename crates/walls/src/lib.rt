//! The rule of a wall map: no piece covers a wall cell.

#![tactic(auto)]

ghost use Rattle.std.specs.Prelude.{◌≡◌, ℕ, ◌+◌, ◌<◌, ◌≤◌, true, false, length, pos, ◌≤ℤ◌, ◌<ℤ◌, MatchOption, slice_index_or};
ghost use Rattle.room.specs.Limits.{max_cells, max_rows};
ghost use Rattle.room.specs.Listed.{rows_of};
ghost use Rattle.room.specs.Seen.{point_of};
ghost use Rattle.room.specs.declared.walls.Cell.TheVariants.{Open as OpenT};
ghost use Rattle.rule.specs.Gathered.{gathered};
ghost use Rattle.rule.specs.Kept.{Same};
ghost use Rattle.rule.specs.Subjects.{WithinBounds};
ghost use Rattle.walls.specs.Drawn.{LengthFits, cell_given, cells_of, length_seen, reach, run_region};
ghost use Rattle.walls.specs.Held.{Among, FirstWall, Found, Run, WholeRun, walls_of};
ghost use Rattle.walls.specs.Walled.{Spans, WallsKept, is_wall, wall, walls_shut, walls_suit};
ghost use Rattle.walls.specs.Walls;

use room::limits::{MAX_CELLS, MAX_ROWS};
use room::point::Point;
use room::region::Region;
use room::span::Span;
use room::walls::{Cell, WallMap};
use rule::interface::Rule;
use rule::listing::{Sources, count_boxes, listed_box};
use rule::subject::Subject;
use std::ops::Range;

/// The ends of a box on an axis along which walls do not end.
const MAX_BOX_END: i32 = 2_000_000;

/// The range of origins on such an axis.
const ANY_ORIGIN: Span = Span {
    lower: -MAX_BOX_END,
    upper: MAX_BOX_END,
};

/// No piece covers a wall cell of the map.
#[derive(Clone, Copy)]
pub struct WallRule {
    map: WallMap,
}

/// Where a cell lies.
#[derive(Clone, Copy)]
struct Place {
    row: usize,
    column: usize,
}

/// How many of so many cells lie below an end.
fn cells_below(end: i32, many: usize) -> usize
    ensures most { result ≤ many }
    ensures below { (cell : ℕ) → cell < result → pos cell <ℤ end }
    ensures rest { (cell : ℕ) → cell < many → result ≤ cell → end ≤ℤ pos cell }
{
    usize::try_from(end).map_or(0, |end| end.min(many))
}

/// Which of so many cells the piece covers on an axis, where its origins are a point within its bounds.
fn covered(subject: &Subject<'_>, point: &Point, axis: usize, many: usize) -> Range<usize>
    requires within { WithinBounds subject.now point.now.origins }
    requires axis { axis < subject.now.axes }
    ensures most { result.end ≤ many }
    ensures cells { (cell : ℕ) → cell < many → Same (Spans (point_of subject.now.axes point.now.origins axis) (length_seen subject.now axis) cell) (Among result cell) }
{
    let origin = point.origins[axis];
    let length = subject.record().lengths[axis];
    cells_below(origin, many)..cells_below(origin + length, many)
}

/// Whether a row has a wall at a column.
fn has_wall(cells: &[Cell], column: usize) -> bool
    ensures { result ≡ is_wall (slice_index_or cells.now column OpenT) }
{
    cells.get(column) == Some(&Cell::Wall)
}

/// The first wall of a row in some columns.
fn wall_in_row(cells: &[Cell], columns: &Range<usize>) -> Option<usize>
    ensures { MatchOption result ((column : ℕ) → columns.now.start ≤ column → column < columns.now.end → is_wall (slice_index_or cells.now column OpenT) ≡ false) (λ column. FirstWall cells.now columns.now column) }
{
    (columns.start..columns.end).find(|column| has_wall(cells, *column))
}

/// The origins at which a piece of this length covers some of the cells.
fn reach(length: i32, cells: &Range<usize>) -> Span
    requires length { LengthFits length }
    requires cells { (cells.now.start ≤ max_cells) × (cells.now.end ≤ max_cells) }
    ensures { result ≡ reach length cells.now }
{
    Span {
        // casts: the check proves that the numbers fit
        lower: cells.start as i32 - length + 1,
        upper: cells.end as i32 - 1,
    }
}

/// The origins at which the piece covers some cell of a run of rows in a column.
fn run_box(subject: &Subject<'_>, column: usize, run: &Range<usize>) -> Region
    requires axes { 2 ≤ subject.now.axes }
    requires cells { (column < max_cells) × (run.now.start ≤ max_rows) × (run.now.end ≤ max_rows) }
    ensures { result ≡ run_region (length_seen subject.now 0) (length_seen subject.now 1) column run.now }
{
    let [width, height, _] = subject.record().lengths;
    Region {
        spans: [
            reach(width, &(column..column + 1)),
            reach(height, run),
            ANY_ORIGIN,
        ],
    }
}

impl WallRule {
    /// The rule of a map.
    pub fn new(map: &WallMap) -> WallRule
        ensures held { walls_of result ≡ rows_of map.now }
        ensures kept { WallsKept (walls_of result) }
    {
        WallRule { map: *map }
    }

    /// The cells of a row; past the last row there are none.
    fn row(&self, row: usize) -> &[Cell]
        ensures { (column : ℕ) → wall (walls_of self.now) row column ≡ is_wall (slice_index_or result.now column OpenT) }
    {
        self.map
            .as_slice()
            .get(row)
            .map_or(&[], |cells| cells.as_slice())
    }

    /// Whether a cell is a wall.
    fn is_wall(&self, row: usize, column: usize) -> bool
        ensures { result ≡ wall (walls_of self.now) row column }
    {
        has_wall(self.row(row), column)
    }

    /// The first wall in some rows and columns, row by row.
    fn wall_among(&self, rows: &Range<usize>, columns: &Range<usize>) -> Option<Place>
        ensures { MatchOption result ((row column : ℕ) → Among rows.now row → Among columns.now column → wall (walls_of self.now) row column ≡ false) (λ place. Found (walls_of self.now) rows.now columns.now place) }
    {
        for row in rows.start..rows.end.min(self.map.len()) {
            if let Some(column) = wall_in_row(self.row(row), columns) {
                return Some(Place { row, column });
            }
        }
        None
    }

    // That the place is a wall is asked by these three alone, which are of one call: a type for it would be longer.

    /// The rows of the whole run of walls that a wall stands in, in its column.
    fn run_around(&self, place: Place) -> Range<usize>
        requires { wall (walls_of self.now) place.row place.column ≡ true }
        ensures { WholeRun (walls_of self.now) place result }
    {
        self.run_start(place)..self.run_end(place)
    }

    // one function over an iterator of rows is no plainer: its contract would have to say in which order they come
    /// The first row of the run of walls that goes up from a wall in its column.
    fn run_start(&self, place: Place) -> usize
        requires { wall (walls_of self.now) place.row place.column ≡ true }
        ensures order { result ≤ place.row }
        ensures run { Run (walls_of self.now) place.column result (place.row + 1) }
        ensures above { (row : ℕ) → row + 1 ≡ result → wall (walls_of self.now) row place.column ≡ false }
    {
        for row in (0..place.row).rev() {
            if !self.is_wall(row, place.column) {
                return row + 1;
            }
        }
        0
    }

    /// The row after the last of the run of walls that goes down from a wall in its column.
    #[tactic(auto, unfolding(crate::specs::Walled::wall))]
    fn run_end(&self, place: Place) -> usize
        requires { wall (walls_of self.now) place.row place.column ≡ true }
        ensures order { place.row < result }
        ensures within { result ≤ max_rows }
        ensures run { Run (walls_of self.now) place.column place.row result }
        ensures below { wall (walls_of self.now) result place.column ≡ false }
    {
        for row in place.row + 1..MAX_ROWS {
            if !self.is_wall(row, place.column) {
                return row;
            }
        }
        MAX_ROWS
    }
}

/// The sources are the cells, row by row, as if each row had all the cells that a row may have.
impl Sources for WallRule {
    ghost serves = { λ s k n. walls_suit (walls_of s) k n };

    ghost many = { λ s k r p. cells_of (walls_of s) };

    ghost given = { λ s k r p. cell_given (walls_of s) k r p };

    fn sources(&self, _subject: &Subject<'_>) -> usize {
        self.map.as_slice().len() * MAX_CELLS
    }

    fn source_box(&self, subject: &Subject<'_>, source: usize) -> Option<Region> {
        let row = source / MAX_CELLS;
        let column = source % MAX_CELLS;
        if !self.is_wall(row, column) {
            return None;
        }
        let region = run_box(subject, column, &(row..row + 1));
        let reached = region.meets(subject.axes, &subject.record().present);
        reached.then_some(region)
    }
}

impl Rule for WallRule {
    ghost suited = { λ s k n. walls_suit (walls_of s) k n };

    ghost shut = { λ s k r p x. walls_shut (walls_of s) k r p x };

    ghost boxes = { λ s k r p. gathered (cell_given (walls_of s) k r p) (cells_of (walls_of s)) };

    ghost narrows = { λ s k b c p x inside known within shut. Walls.narrows (walls_of s) k b c p x inside known shut };

    fn suits(&self, axes: usize, _pieces: usize) -> bool {
        let two_axes = axes >= 2;
        two_axes || self.map.len() == 0
    }

    fn cover(&self, subject: &Subject<'_>, point: &Point) -> Option<Region> {
        // a board of one axis has no rows
        if subject.axes < 2 {
            return None;
        }
        let columns = covered(subject, point, 0, MAX_CELLS);
        let rows = covered(subject, point, 1, MAX_ROWS);
        let place = self.wall_among(&rows, &columns)?;
        let run = self.run_around(place);
        Some(run_box(subject, place.column, &run))
    }

    fn count(&self, subject: &Subject<'_>) -> Option<usize> {
        count_boxes(self, subject)
    }

    fn listed(&self, subject: &Subject<'_>, number: usize) -> Region {
        listed_box(self, subject, number)
    }
}
