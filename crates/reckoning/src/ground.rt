// What the fields behind a label's first number make at a scale, by way of its parents: an index, and how far the sheet lies from the area's
// corner; or the place of the first that is out of range. The scale is a parameter, so that a compiled program works with numbers that it
// knows. The fields are handed on by their tails, a slice for each scale, and that they are its fields is said of the slice: a struct would
// be made of each tail, and say the same of the same slice.
ghost use Rattle.std.specs.Prelude.{◌≡◌, ◌+◌, drop};
ghost use Rattle.division.specs.Words.{between};
ghost use Rattle.division.specs.Table.{parent_scale};
ghost use Rattle.reckoning.specs.Reckoning.{reckon};
ghost use Rattle.reckoning.specs.Given.{Fields};

use crate::Reach;
use division::table::Scale;

// Is a number that of one of so many parts?
fn is_part(parts: u32, number: u64) -> bool
    ensures { result ≡ between 1 parts number }
{
    (1..=u64::from(parts)).contains(&number)
}

// Is a number that of one of so many rows?
fn is_row(rows: u32, number: u64) -> bool
    ensures { result ≡ between 101 (100 + rows) number }
{
    (101..=100 + u64::from(rows)).contains(&number)
}

// At a scale that is made from the area, by the row and the column.
fn by_area<const S: u32>(fields: &[u64]) -> Result<Reach, usize>
    requires fields { Fields S fields.now }
    requires of_area { parent_scale S ≡ 0 }
    ensures { result ≡ reckon S fields.now }
{
    let t = Scale(S).row();
    let row = fields[0];
    let column = fields[1];
    let on_row = is_row(t.rows, row);
    let on_column = is_part(t.columns, column);
    if !(on_row & on_column) {
        return Err(usize::from(on_row)); // the row, or else the column
    }
    let below = (row - 101) as u32;
    let beside = (column - 1) as u32;
    Ok(Reach {
        index: below * t.columns + beside,
        right: beside * (t.width / 100),
        down: below * (t.height / 100),
    })
}

// At a scale that is made from another, by the number in the sheet that it is a part of, and what the other fields make of that sheet.
fn by_part<const S: u32>(fields: &[u64], above: Result<Reach, usize>) -> Result<Reach, usize>
    requires fields { Fields S fields.now }
    requires of_scale { parent_scale S ≡ 0 → ⊥ }
    requires above_value { above ≡ reckon (parent_scale S) (drop 1 fields.now) }
    ensures { result ≡ reckon S fields.now }
{
    let t = Scale(S).row();
    let number = fields[0];
    if !is_part(t.parts, number) {
        return Err(0);
    }
    match above {
        Err(i) => Err(1 + i),
        Ok(up) => {
            let j = (number - 1) as u32;
            Ok(Reach {
                index: up.index * t.parts + j,
                right: up.right + j % t.side * (t.width / 100),
                down: up.down + j / t.side * (t.height / 100),
            })
        }
    }
}

// At a scale that is made from the third, which is made from the area.
fn by_third<const S: u32>(fields: &[u64]) -> Result<Reach, usize>
    requires fields { Fields S fields.now }
    requires of_third { parent_scale S ≡ 3 }
    ensures { result ≡ reckon S fields.now }
{
    by_part::<S>(fields, by_area::<3>(&fields[1..]))
}

pub(crate) fn ground_from(s: u32, fields: &[u64]) -> Result<Reach, usize>
    requires { Fields s fields.now }
    ensures { result ≡ reckon s fields.now }
{
    match s {
        1 => by_area::<1>(fields),
        2 => by_area::<2>(fields),
        3 => by_area::<3>(fields),
        4 => by_third::<4>(fields),
        5 => by_third::<5>(fields),
        6 => by_part::<6>(fields, by_third::<4>(&fields[1..])),
        7 => by_third::<7>(fields),
        8 => by_part::<8>(fields, by_third::<7>(&fields[1..])),
        _ => {
            let eighth = &fields[1..];
            by_part::<9>(fields, by_part::<8>(eighth, by_third::<7>(&eighth[1..])))
        }
    }
}
