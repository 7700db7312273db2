// Sheet numbers and places, the sheet of a point, the corners of a sheet.
ghost use Rattle.std.specs.Prelude.{◌≡◌, true, ◌≤◌, ◌<◌};
ghost use Rattle.refusal.specs.Numbers.{paper};
ghost use Rattle.division.specs.Table.{made};
ghost use Rattle.division.specs.Sheet.{is_sheet, area_index, area_place, number_in, parent_place, child_place, place_at, scale_of, place_of, locate, sheet_on, sheet_at, corners_of};
ghost use Rattle.division.specs.Given.{Indexed, Parted, PartPlace, sheet_under};

use crate::grid::{Cell, Grid, Point};
use crate::table::Scale;
use crate::{Edges, Place, Spot};
use refusal::Refusal;

pub fn is_sheet(n: u32) -> bool
    ensures { result ≡ is_sheet n }
{
    n <= Scale::LAST_SHEET
}

// A place of the area in columns, and its index.
pub(crate) fn area_index(columns: u32, p: Place) -> u32
    requires { area_index columns p ≤ 6_000_000 }
    ensures { result ≡ area_index columns p }
{
    p.row * columns + p.column
}

fn area_place(columns: u32, i: u32) -> Place
    requires { 0 < columns }
    ensures { result ≡ area_place columns i }
{
    Place {
        row: i / columns,
        column: i % columns,
    }
}

// A part of a parent in k x k: its number there, its parent's place, its place.
pub(crate) fn number_in(k: u32, p: Place) -> u32
    requires { Parted k }
    ensures { result ≡ number_in k p }
{
    p.row % k * k + p.column % k + 1
}

pub(crate) fn parent_place(k: u32, p: Place) -> Place
    requires { Parted k }
    ensures { result ≡ parent_place k p }
{
    Place {
        row: p.row / k,
        column: p.column / k,
    }
}

fn child_place(k: u32, up: Place, number: u32) -> Place
    requires { PartPlace k up number }
    ensures { result ≡ child_place k up number }
{
    let j = number - 1;
    let down = j / k;
    let across = j % k;
    Place {
        row: up.row * k + down,
        column: up.column * k + across,
    }
}

// The place of an index of a scale.
fn place_in(s: u32, i: u32) -> Place
    requires { Indexed s i }
    ensures { result ≡ place_at (made s) i }
{
    let t = Scale(s).row();
    match t.parent {
        None => area_place(t.columns, i),
        Some(parent) => {
            let up = place_in(parent, i / t.parts);
            child_place(t.side, up, i % t.parts + 1)
        }
    }
}

// The scale of a sheet: as many scales begin at or before it as its number says. All nine are asked, which takes no guess.
pub(crate) fn scale_of(n: u32) -> u32
    requires { is_sheet n ≡ true }
    ensures { result ≡ scale_of n }
{
    let mut begun: u32 = 0;
    for s in 1..=Scale::LAST {
        begun += (Scale(s).first() <= n) as u32;
    }
    begun
}

// The cell of a sheet.
fn cell_of(n: u32) -> Cell
    requires { is_sheet n ≡ true }
    ensures scale_value { result.scale ≡ scale_of n }
    ensures place_value { result.place ≡ place_of n }
{
    let scale = scale_of(n);
    Cell {
        scale,
        place: place_in(scale, n - Scale(scale).first()),
    }
}

// Sheet to scale, row and column.
#[tactic(auto, unfolding(crate::specs::Sheet::locate))]
pub fn locate(sheet: u32) -> Result<Spot, Refusal>
    ensures { paper result ≡ locate sheet }
{
    if !is_sheet(sheet) {
        return Err(Refusal::NoSheet);
    }
    let Cell { scale, place } = cell_of(sheet);
    Ok(Spot { scale, place })
}

// Scale, row and column to sheet.
#[tactic(auto, unfolding(crate::specs::Sheet::sheet_on))]
pub fn sheet_on(scale: u32, place: Place) -> Result<u32, Refusal>
    ensures { paper result ≡ sheet_on scale place }
{
    let grid = Grid::of(scale)?;
    let cell = grid.cell(place)?;
    Ok(cell.sheet())
}

// The sheet of the ninth scale under a point: the number in the parent by hand, and the parent's index. A loop of three turns the compiler
// leaves as it is.
fn ninth_under(point: Point) -> u32
    ensures { result ≡ sheet_under 9 point.e point.n }
{
    let cell = Grid { scale: 9 }.cell_at(point);
    let j = number_in(2, cell.place) - 1;
    let up = Cell {
        scale: 8,
        place: parent_place(2, cell.place),
    };
    Scale(9).first() + up.index() * 4 + j
}

// The sheet of a grid under a point. Each scale has an arm of its own, so that a compiled program divides by numbers that it knows.
fn sheet_under(grid: Grid, point: Point) -> u32
    ensures { result ≡ sheet_under grid.scale point.e point.n }
{
    match grid.scale {
        1 => Grid { scale: 1 }.cell_at(point).sheet(),
        2 => Grid { scale: 2 }.cell_at(point).sheet(),
        3 => Grid { scale: 3 }.cell_at(point).sheet(),
        4 => Grid { scale: 4 }.cell_at(point).sheet(),
        5 => Grid { scale: 5 }.cell_at(point).sheet(),
        6 => Grid { scale: 6 }.cell_at(point).sheet(),
        7 => Grid { scale: 7 }.cell_at(point).sheet(),
        8 => Grid { scale: 8 }.cell_at(point).sheet(),
        _ => ninth_under(point),
    }
}

// The sheet of a scale in which a point lies.
#[tactic(auto, unfolding(crate::specs::Sheet::sheet_at))]
pub fn sheet_at(scale: u32, e: i64, n: i64) -> Result<u32, Refusal>
    ensures { paper result ≡ sheet_at scale e n }
{
    let grid = Grid::of(scale)?;
    let point = Point::of(e, n)?;
    Ok(sheet_under(grid, point))
}

// The corners of a sheet: its west, east, south and north edge.
#[tactic(auto, unfolding(crate::specs::Sheet::corners_of))]
pub fn corners_of(sheet: u32) -> Result<Edges, Refusal>
    ensures { paper result ≡ corners_of sheet }
{
    if !is_sheet(sheet) {
        return Err(Refusal::NoSheet);
    }
    Ok(cell_of(sheet).edges())
}
