// The area, the grid of a scale over it, a point of the area and a cell of a grid, in millimetres.
ghost use Rattle.std.specs.Prelude.{◌≡◌, true, ◌≤◌, pos, nat_abs, ◌-ℤ◌};
ghost use Rattle.refusal.specs.Paper.{refuse◌unless◌};
ghost use Rattle.refusal.specs.Numbers.{Admits};
ghost use Rattle.division.specs.Words.{◌≤ᶻ◌};
ghost use Rattle.division.specs.Table.{is_scale, made, rows, columns};
ghost use Rattle.division.specs.Grid.{area, owns, millimetres, column_at, row_at, west_of, north_of, edges_of};
ghost use Rattle.division.specs.Sheet.{on_grid, index_at, sheet_of};
ghost use Rattle.division.specs.Given.{IsScale, OnGrid};

use crate::sheet::{area_index, number_in, parent_place};
use crate::table::{Scale, is_scale};
use crate::{Edges, Place};
use refusal::Refusal;

// The edges of the area.
pub const WEST: i64 = 200_000_000;

pub const EAST: i64 = 800_000_000;

pub const SOUTH: i64 = 4_570_000_000;

pub const NORTH: i64 = 5_170_000_000;

// A point of the area.
#[derive(Clone, Copy)]
pub(crate) struct Point {
    e: i64,
    n: i64,
    ghost inside: { owns area e n ≡ true },
}

// The grid of a scale.
#[derive(Clone, Copy)]
pub(crate) struct Grid {
    pub(crate) scale: u32,
    ghost known: { IsScale scale },
}

// A cell of a scale's grid, by its row and its column.
#[derive(Clone, Copy)]
pub(crate) struct Cell {
    pub(crate) scale: u32,
    pub(crate) place: Place,
    ghost on_grid: { OnGrid scale place },
}

impl Point {
    pub(crate) fn of(e: i64, n: i64) -> Result<Point, Refusal>
        ensures { Admits result (refuse 1 unless owns area e n) (λ point. (point.e ≡ e) × (point.n ≡ n)) }
    {
        let inside = ((WEST <= e) & (e < EAST)) & ((SOUTH < n) & (n <= NORTH));
        if !inside {
            return Err(Refusal::PointOutside);
        }
        Ok(Point { e, n })
    }
}

impl Grid {
    pub(crate) fn of(scale: u32) -> Result<Grid, Refusal>
        ensures { Admits result (refuse 2 unless is_scale scale) (λ grid. grid.scale ≡ scale) }
    {
        if !is_scale(scale) {
            return Err(Refusal::NoScale);
        }
        Ok(Grid { scale })
    }

    // The cell at a place.
    pub(crate) fn cell(self, place: Place) -> Result<Cell, Refusal>
        ensures { Admits result (refuse 6 unless on_grid self.scale place) (λ cell. (cell.scale ≡ self.scale) × (cell.place ≡ place)) }
    {
        let t = Scale(self.scale).row();
        let on_grid = (place.row < t.rows) & (place.column < t.columns);
        if !on_grid {
            return Err(Refusal::NoSuch);
        }
        Ok(Cell {
            scale: self.scale,
            place,
        })
    }

    // The column and the row in which a point lies. 32 bits hold any distance in the area, and a machine divides such numbers in less time than
    // those of 64 bits. Two functions, here and below, since columns go by the width, eastwards, and rows by the height, southwards.
    fn column_at(self, point: Point) -> u32
        ensures { result ≡ column_at self.scale point.e }
    {
        let w = Scale(self.scale).width() * 1_000;
        distance(point.e, WEST) as u32 / w
    }

    fn row_at(self, point: Point) -> u32
        ensures { result ≡ row_at self.scale point.n }
    {
        let h = Scale(self.scale).height() * 1_000;
        distance(NORTH, point.n) as u32 / h
    }

    // The cell in which it lies.
    pub(crate) fn cell_at(self, point: Point) -> Cell
        ensures scale_value { result.scale ≡ self.scale }
        ensures place_value { result.place ≡ record { row = row_at self.scale point.n; column = column_at self.scale point.e } }
    {
        let row = self.row_at(point);
        let column = self.column_at(point);
        Cell {
            scale: self.scale,
            place: Place { row, column },
        }
    }

    // The west edge of a column and the north edge of a row; one past the last is the area's east and south edge.
    fn west_of(self, column: u32) -> i64
        requires { column ≤ columns self.scale }
        ensures { result ≡ west_of self.scale column }
    {
        let w = millimetres(Scale(self.scale).width());
        let x = WEST as u64 + column as u64 * w;
        x as i64
    }

    fn north_of(self, row: u32) -> i64
        requires { row ≤ rows self.scale }
        ensures { result ≡ north_of self.scale row }
    {
        let h = millimetres(Scale(self.scale).height());
        let y = NORTH as u64 - row as u64 * h;
        y as i64
    }
}

impl Cell {
    // The index of the cell's sheet in its scale, by way of its parents. `index` is what the parts so far make, and `each` how many sheets of the
    // scale one of the scale in hand has.
    pub(crate) fn index(self) -> u32
        ensures { result ≡ index_at (made self.scale) self.place }
    {
        let mut t = Scale(self.scale).row();
        let mut at = self.place;
        let mut index: u32 = 0;
        let mut each: u32 = 1;
        while let Some(up) = t.parent {
            let j = number_in(t.side, at) - 1;
            index += each * j;
            each *= t.parts;
            at = parent_place(t.side, at);
            t = Scale(up).row();
        }
        let top = area_index(t.columns, at);
        index + each * top
    }

    // Its sheet.
    pub(crate) fn sheet(self) -> u32
        ensures { result ≡ sheet_of self.scale self.place }
    {
        Scale(self.scale).first() + self.index()
    }

    pub(crate) fn edges(self) -> Edges
        ensures { result ≡ edges_of self.scale self.place }
    {
        let grid = Grid { scale: self.scale };
        Edges {
            west: grid.west_of(self.place.column),
            east: grid.west_of(self.place.column + 1),
            south: grid.north_of(self.place.row + 1),
            north: grid.north_of(self.place.row),
        }
    }
}

pub(crate) fn millimetres(m: u32) -> u64
    ensures { result ≡ millimetres m }
{
    m as u64 * 1_000
}

// How far b lies beyond a.
pub(crate) fn distance(b: i64, a: i64) -> u64
    requires a_value { (pos 0 ≤ᶻ a) ≡ true }
    requires b_value { (a ≤ᶻ b) ≡ true }
    ensures { result ≡ nat_abs (b -ℤ a) }
{
    (b - a) as u64
}
