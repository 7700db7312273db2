// What is asked of official names.
use crate::part::before;
use crate::{read, room, write};
use official::lookup::{official_name, official_sheet};
use official::verdict::{Verdict, official_check};
use std::io::{self, Write};

// The name of a sheet in room for so many bytes, and the sheet that it leads back to.
pub(crate) fn known(to: &mut impl Write, s: &[u8]) -> io::Result<()> {
    let mut room = [room::MARK; 40];
    let places = room::places(&mut room, read::size(s, 2));
    let named = official_name(read::small(s, 1), places);
    match named {
        Ok(Some(n)) => write::number(to, n),
        Ok(None) => not_listed(to),
        Err(why) => write::refused(to, why),
    }?;
    let n = named.unwrap_or(None).unwrap_or(0);
    let name = before(places, n);
    to.write_all(b" ")?;
    to.write_all(name)?;
    room::kept(to, n, places)?;
    identified(to, name)
}

// The sheet that has a name.
pub(crate) fn identify(to: &mut impl Write, s: &[u8]) -> io::Result<()> {
    let mut places = [0; read::BYTES];
    identified(to, read::bytes(s, &mut places))
}

fn identified(to: &mut impl Write, name: &[u8]) -> io::Result<()> {
    match official_sheet(name) {
        Some(n) => write::number(to, n),
        None => not_listed(to),
    }
}

fn not_listed(to: &mut impl Write) -> io::Result<()> {
    to.write_all(b" not listed")
}

// What is said of a line.
pub(crate) fn yours(to: &mut impl Write, s: &[u8]) -> io::Result<()> {
    let mut places = [0; read::BYTES];
    match official_check(read::bytes(s, &mut places)) {
        Ok(Verdict::Agrees) => to.write_all(b" agrees"),
        Ok(Verdict::Differs) => to.write_all(b" differs"),
        Ok(Verdict::NotListed) => not_listed(to),
        Err(why) => write::refused(to, why),
    }
}
