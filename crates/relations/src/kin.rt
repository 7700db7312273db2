// Parent, child, step, offset and neighbours.
ghost use Rattle.std.specs.Prelude.{◌≡◌, pos, ◌-ℤ◌};
ghost use Rattle.refusal.specs.Numbers.{paper};
ghost use Rattle.division.specs.Given.{OnGrid};
ghost use Rattle.relations.specs.Given.{moved_on};
ghost use Rattle.relations.specs.Relations.{parent, child, is_part, walk, step, apart, offset, neighbour_row, neighbours};

use crate::Offset;
use division::sheet::{is_sheet, locate, sheet_on};
use division::table::{Scale, is_scale};
use division::{Place, Spot};
use refusal::Refusal;

// The sheet that a sheet is a part of.
#[tactic(auto, unfolding(crate::specs::Relations::parent))]
pub fn parent(sheet: u32) -> Result<u32, Refusal>
    ensures { paper result ≡ parent sheet }
{
    if !is_sheet(sheet) {
        return Err(Refusal::NoSheet);
    }
    let t = Scale::of(sheet).row();
    let up = t.parent.ok_or(Refusal::NoSuch)?;
    let above = (sheet - t.first) / t.parts;
    Ok(Scale(up).first() + above)
}

// Has a sheet of a scale, at scale s, a part of that number?
fn is_part(s: u32, above: u32, number: u32) -> bool
    ensures { result ≡ is_part s above number }
{
    let t = Scale(s).row();
    (t.parent == Some(above)) & (1..=t.parts).contains(&number)
}

// Part number `number`, from 1, of a sheet, at a scale that is made from the sheet's own.
#[tactic(auto, unfolding(crate::specs::Relations::child))]
pub fn child(sheet: u32, scale: u32, number: u32) -> Result<u32, Refusal>
    ensures { paper result ≡ child sheet scale number }
{
    if !is_sheet(sheet) {
        return Err(Refusal::NoSheet);
    }
    if !is_scale(scale) {
        return Err(Refusal::NoScale);
    }
    let above = Scale::of(sheet);
    if !is_part(scale, above.0, number) {
        return Err(Refusal::NoSuch);
    }
    let t = Scale(scale).row();
    let index = sheet - above.first();
    Ok(t.first + (index * t.parts + (number - 1)))
}

// A place of a line of `count` places, moved by a signed amount, if it is still on the line.
fn moved(at: u32, by: i64, count: u32) -> Result<u32, Refusal>
    ensures { paper result ≡ moved_on at by count }
{
    match u64::from(at).checked_add_signed(by) {
        Some(to) if to < u64::from(count) => Ok(to as u32),
        _ => Err(Refusal::NoSuch),
    }
}

// The sheet so many columns east and rows south of a place.
fn walk(at: Spot, east: i64, south: i64) -> Result<u32, Refusal>
    requires { OnGrid at.scale at.place }
    ensures { paper result ≡ walk at east south }
{
    let t = Scale(at.scale).row();
    let column = moved(at.place.column, east, t.columns)?;
    let row = moved(at.place.row, south, t.rows)?;
    sheet_on(at.scale, Place { row, column })
}

// The sheet so many columns east and rows south of a sheet.
#[tactic(auto, using(division::proofs::NumberLaws::located), unfolding(crate::specs::Relations::step))]
pub fn step(sheet: u32, east: i64, south: i64) -> Result<u32, Refusal>
    ensures { paper result ≡ step sheet east south }
{
    walk(locate(sheet)?, east, south)
}

// b - a.
fn less(b: u32, a: u32) -> i64
    ensures { result ≡ pos b -ℤ pos a }
{
    i64::from(b) - i64::from(a)
}

fn apart(a: Place, b: Place) -> Offset
    ensures { result ≡ apart a b }
{
    Offset {
        east: less(b.column, a.column),
        south: less(b.row, a.row),
    }
}

// The columns east and rows south from one sheet to another of its scale.
#[tactic(auto, using(division::proofs::NumberLaws::located), unfolding(crate::specs::Relations::offset))]
pub fn offset(a: u32, b: u32) -> Result<Offset, Refusal>
    ensures { paper result ≡ offset a b }
{
    let x = locate(a)?;
    let y = locate(b)?;
    if x.scale != y.scale {
        return Err(Refusal::NoSuch);
    }
    Ok(apart(x.place, y.place))
}

// Three steps, as the definition has them. An array's `map` would say them once; tried, and its law left open that it gives these three.
fn neighbour_row(sheet: u32, south: i64) -> [Option<u32>; 3]
    ensures { result ≡ neighbour_row sheet south }
{
    let west = step(sheet, -1, south);
    let here = step(sheet, 0, south);
    let east = step(sheet, 1, south);
    [west.ok(), here.ok(), east.ok()]
}

// The block of three rows of three around a sheet, rows from the north, each from the west.
#[tactic(auto, unfolding(crate::specs::Relations::neighbours))]
pub fn neighbours(sheet: u32) -> [[Option<u32>; 3]; 3]
    ensures { result ≡ neighbours sheet }
{
    let north = neighbour_row(sheet, -1);
    let here = neighbour_row(sheet, 0);
    let south = neighbour_row(sheet, 1);
    [north, here, south]
}
