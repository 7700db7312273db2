// Sheets, places and points.
ghost use Rattle.std.specs.Prelude.{◌≡◌};
ghost use Rattle.division.specs.Sheet.{locate, sheet_on, sheet_at, corners_of};
ghost use Rattle.telling.specs.Told.{status, carried, written};
ghost use Rattle.qubathimi_c.specs.Plain.{place};

use division::Place;
use division::sheet::{corners_of, locate, sheet_at, sheet_on};
use telling::number::tell;
use telling::several::{tell_corners, tell_spot};

#[unsafe(no_mangle)]
pub extern "C" fn qubathimi_locate(
    sheet: u32,
    scale: &mut u32,
    row: &mut u32,
    column: &mut u32,
) -> u32
    ensures value { result ≡ status (locate sheet) }
    ensures scale_after { scale.new ≡ written (λ at. at.scale) (locate sheet) scale.old }
    ensures row_after { row.new ≡ written (λ at. at.place.row) (locate sheet) row.old }
    ensures column_after { column.new ≡ written (λ at. at.place.column) (locate sheet) column.old }
{
    tell_spot(locate(sheet), scale, row, column)
}

#[unsafe(no_mangle)]
pub extern "C" fn qubathimi_sheet_on(scale: u32, row: u32, column: u32, value: &mut u64) -> u32
    ensures value { result ≡ status (sheet_on scale (place row column)) }
    ensures value_after { value.new ≡ carried (sheet_on scale (place row column)) }
{
    let at = Place { row, column };
    tell(sheet_on(scale, at), value)
}

#[unsafe(no_mangle)]
pub extern "C" fn qubathimi_sheet_at(scale: u32, e: i64, n: i64, value: &mut u64) -> u32
    ensures value { result ≡ status (sheet_at scale e n) }
    ensures value_after { value.new ≡ carried (sheet_at scale e n) }
{
    tell(sheet_at(scale, e, n), value)
}

#[unsafe(no_mangle)]
pub extern "C" fn qubathimi_corners(
    sheet: u32,
    west: &mut i64,
    east: &mut i64,
    south: &mut i64,
    north: &mut i64,
) -> u32
    ensures value { result ≡ status (corners_of sheet) }
    ensures west_after { west.new ≡ written (λ edges. edges.west) (corners_of sheet) west.old }
    ensures east_after { east.new ≡ written (λ edges. edges.east) (corners_of sheet) east.old }
    ensures south_after { south.new ≡ written (λ edges. edges.south) (corners_of sheet) south.old }
    ensures north_after { north.new ≡ written (λ edges. edges.north) (corners_of sheet) north.old }
{
    tell_corners(corners_of(sheet), west, east, south, north)
}
