// What is asked of the division.
use crate::read::{signed, size, small};
use crate::{room, write};
use division::cover::cover as cover_in;
use division::table::Scale;
use division::{Edges, Place, sheet};
use relations::kin;
use std::io::{self, Write};

// Width and height in metres, first and last sheet; and the last scale and the last sheet of all.
pub(crate) fn table(to: &mut impl Write, s: &[u8]) -> io::Result<()> {
    let scale = Scale(small(s, 1));
    write::numbers(to, [scale.width(), scale.height()])?;
    write::numbers(to, [scale.first(), scale.last()])?;
    write::numbers(to, [Scale::LAST, Scale::LAST_SHEET])
}

// And the sheets around it, a hyphen for none: rows from the north.
pub(crate) fn number(to: &mut impl Write, s: &[u8]) -> io::Result<()> {
    let n = small(s, 1);
    told(to, n)?;
    for row in kin::neighbours(n) {
        to.write_all(b",")?;
        for neighbour in row {
            match neighbour {
                Some(n) => write::number(to, n),
                None => to.write_all(b" -"),
            }?;
        }
    }
    Ok(())
}

// Of a sheet: place, edges and parent, and what is found at the place and at the upper left corner.
pub(crate) fn told(to: &mut impl Write, n: u32) -> io::Result<()> {
    match sheet::locate(n) {
        Ok(at) => {
            write::numbers(to, [at.scale, at.place.row, at.place.column])?;
            write::answer(to, sheet::sheet_on(at.scale, at.place))
        }
        Err(why) => write::refused(to, why),
    }?;
    to.write_all(b",")?;
    match sheet::corners_of(n) {
        Ok(e) => {
            write::numbers(to, [e.west, e.east, e.south, e.north])?;
            write::answer(to, sheet::sheet_at(Scale::of(n).0, e.west, e.north))
        }
        Err(why) => write::refused(to, why),
    }?;
    to.write_all(b",")?;
    write::answer(to, kin::parent(n))
}

pub(crate) fn at(to: &mut impl Write, s: &[u8]) -> io::Result<()> {
    write::answer(to, sheet::sheet_at(small(s, 1), signed(s, 2), signed(s, 3)))
}

pub(crate) fn on(to: &mut impl Write, s: &[u8]) -> io::Result<()> {
    let row = small(s, 2);
    let column = small(s, 3);
    write::answer(to, sheet::sheet_on(small(s, 1), Place { row, column }))
}

pub(crate) fn down(to: &mut impl Write, s: &[u8]) -> io::Result<()> {
    write::answer(to, kin::child(small(s, 1), small(s, 2), small(s, 3)))
}

pub(crate) fn step(to: &mut impl Write, s: &[u8]) -> io::Result<()> {
    write::answer(to, kin::step(small(s, 1), signed(s, 2), signed(s, 3)))
}

// East and south.
pub(crate) fn from(to: &mut impl Write, s: &[u8]) -> io::Result<()> {
    match kin::offset(small(s, 1), small(s, 2)) {
        Ok(apart) => write::numbers(to, [apart.east, apart.south]),
        Err(why) => write::refused(to, why),
    }
}

// The cover in room for so many sheets.
pub(crate) fn cover(to: &mut impl Write, s: &[u8]) -> io::Result<()> {
    let window = Edges {
        west: signed(s, 3),
        east: signed(s, 4),
        south: signed(s, 5),
        north: signed(s, 6),
    };
    let mut room = [room::NO_SHEET; room::SHEETS];
    let places = room::places(&mut room, size(s, 1));
    let laid = cover_in(small(s, 2), window, places);
    write::answer(to, laid)?;
    room::show(to, room::count(laid), places)
}
