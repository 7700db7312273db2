// What is asked of shelf lists, and of bytes that are changed. A question that begins with a capital is the same question of holdings.
use crate::part::before;
use crate::read::{size, small};
use crate::write::SUM;
use crate::{labels, read, room, write};
use list_reading::{read_holdings, read_list};
use list_writing::{holdings_length, list_length, write_holdings, write_list};
use refusal::Refusal;
use shelf::kind::{Holdings, Sheets};
use shelf::{Read, number};
use std::io::{self, Write};

// How many sheets a question may have: more than any list has.
pub(crate) const MOST: usize = 4_100;

// Room for few sheets, which is marked in less time than room for more than any list has.
const FEW: usize = 64;

// The questions of each kind of list.
pub(crate) trait Listed {
    fn length(numbers: &[u32]) -> Result<usize, Refusal>;

    fn write(numbers: &[u32], places: &mut [u8]) -> Result<usize, Refusal>;

    fn read(bytes: &[u8], places: &mut [u32]) -> Read;

    // What the bytes are read as in front of it.
    fn first(to: &mut impl Write, bytes: &[u8], size: usize) -> io::Result<()>;
}

impl Listed for Sheets {
    fn length(sheets: &[u32]) -> Result<usize, Refusal> {
        list_length(sheets)
    }

    fn write(sheets: &[u32], places: &mut [u8]) -> Result<usize, Refusal> {
        write_list(sheets, places)
    }

    fn read(bytes: &[u8], places: &mut [u32]) -> Read {
        read_list(bytes, places)
    }

    fn first(to: &mut impl Write, bytes: &[u8], _size: usize) -> io::Result<()> {
        labels::reading(to, bytes)
    }
}

impl Listed for Holdings {
    fn length(holdings: &[u32]) -> Result<usize, Refusal> {
        holdings_length(holdings)
    }

    fn write(holdings: &[u32], places: &mut [u8]) -> Result<usize, Refusal> {
        write_holdings(holdings, places)
    }

    fn read(bytes: &[u8], places: &mut [u32]) -> Read {
        read_holdings(bytes, places)
    }

    fn first(to: &mut impl Write, bytes: &[u8], size: usize) -> io::Result<()> {
        reading::<Sheets>(to, bytes, size)
    }
}

pub(crate) fn groups(to: &mut impl Write, s: &[u8]) -> io::Result<()> {
    write::number(to, number::groups(small(s, 1)))
}

// The sheets of the question, in room for so many bytes.
pub(crate) fn pack<L: Listed>(to: &mut impl Write, s: &[u8]) -> io::Result<()> {
    let mut sheets = [0; MOST];
    let n = size(s, 2);
    given(s, 3, n, &mut sheets);
    writing::<L>(to, front(n, &sheets), size(s, 1))
}

// Sheets by a rule, one of them another, in room for so many bytes.
pub(crate) fn rule<L: Listed>(to: &mut impl Write, s: &[u8]) -> io::Result<()> {
    let mut sheets = [0; MOST];
    ruled(small(s, 2), small(s, 3), &mut sheets);
    put(size(s, 5), small(s, 6), &mut sheets);
    writing::<L>(to, front(size(s, 4), &sheets), size(s, 1))
}

// So many sheets of a question, behind so many spaces.
pub(crate) fn given(s: &[u8], spaces: u8, n: usize, sheets: &mut [u32; MOST]) {
    for (i, sheet) in sheets.iter_mut().enumerate().take(n) {
        *sheet = small(s, i + usize::from(spaces));
    }
}

// A first sheet, and each later one so far from the one before; beyond 32 bits it starts again from 0.
pub(crate) fn ruled(first: u32, step: u32, sheets: &mut [u32; MOST]) {
    let mut n = first;
    for sheet in sheets.iter_mut() {
        *sheet = n;
        n = n.wrapping_add(step);
    }
}

// Puts a number in a place, counted from 1. There is no place 0.
pub(crate) fn put(place: usize, n: u32, sheets: &mut [u32; MOST]) {
    if 0 < place && place <= MOST {
        sheets[place - 1] = n;
    }
}

// The first so many.
pub(crate) fn front(n: usize, sheets: &[u32; MOST]) -> &[u32] {
    before(sheets, n)
}

// The length, and the list in room for so many bytes.
fn writing<L: Listed>(to: &mut impl Write, numbers: &[u32], size: usize) -> io::Result<()> {
    write::answer(to, L::length(numbers))?;
    to.write_all(b",")?;
    let mut room = [room::MARK; room::BYTES];
    let places = room::places(&mut room, size);
    let laid = L::write(numbers, places);
    write::answer(to, laid)?;
    let n = room::count(laid);
    room::show_bytes(to, n, places)?;
    back::<L>(to, n, places, numbers.len())
}

// What is read again where a list was written, which has at least a byte: from the list, from the list without its last
// byte and with the byte that follows in the room, and from the list in room for a sheet less.
fn back<L: Listed>(to: &mut impl Write, n: usize, places: &[u8], count: usize) -> io::Result<()> {
    if n == 0 {
        return Ok(());
    }
    reading::<L>(to, before(places, n), count)?;
    reading::<L>(to, before(places, n - 1), count)?;
    if n < places.len() {
        reading::<L>(to, &places[..=n], count)?;
    }
    if count > 0 {
        reading::<L>(to, before(places, n), count - 1)?;
    }
    Ok(())
}

// Reads a list in room for so many sheets.
fn reading<L: Listed>(to: &mut impl Write, bytes: &[u8], size: usize) -> io::Result<()> {
    write::named(to, b" from", bytes.len())?;
    write::named(to, b" in", size)?;
    if size > FEW {
        return reading_many::<L>(to, bytes, size);
    }
    let mut places = [room::NO_SHEET; FEW];
    read_in::<L>(to, bytes, room::places(&mut places, size))
}

fn reading_many<L: Listed>(to: &mut impl Write, bytes: &[u8], size: usize) -> io::Result<()> {
    let mut places = [room::NO_SHEET; room::SHEETS];
    read_in::<L>(to, bytes, room::places(&mut places, size))
}

fn read_in<L: Listed>(to: &mut impl Write, bytes: &[u8], places: &mut [u32]) -> io::Result<()> {
    let Read { ended, placed } = L::read(bytes, places);
    match ended {
        Ok(()) => to.write_all(b" whole"),
        Err(why) => write::refused(to, why),
    }?;
    write::named(to, b" placed", placed)?;
    room::show(to, placed, places)
}

// What is read as a label, or of holdings by the old reader, and as a list in room for so many sheets.
fn both<L: Listed>(to: &mut impl Write, bytes: &[u8], size: usize) -> io::Result<()> {
    L::first(to, bytes, size)?;
    to.write_all(b",")?;
    reading::<L>(to, bytes, size)
}

pub(crate) fn bytes<L: Listed>(to: &mut impl Write, s: &[u8]) -> io::Result<()> {
    let mut places = [0; read::BYTES];
    both::<L>(to, read::bytes(s, &mut places), size(s, 1))
}

// Every beginning of a list, the shortest first.
pub(crate) fn heads<L: Listed>(to: &mut impl Write, s: &[u8]) -> io::Result<()> {
    let mut places = [0; read::BYTES];
    let bytes = read::bytes(s, &mut places);
    for n in 0..=bytes.len() {
        reading::<L>(to, &bytes[..n], size(s, 1))?;
    }
    Ok(())
}

// A sum over what is read when each byte in turn is changed to each of the 256.
pub(crate) fn vary<L: Listed>(to: &mut impl Write, s: &[u8]) -> io::Result<()> {
    let mut places = [0; read::BYTES];
    let sum = changes::<L>(read::bytes(s, &mut places), size(s, 1))?;
    write::number(to, sum)
}

fn changes<L: Listed>(bytes: &mut [u8], size: usize) -> io::Result<u64> {
    let mut sum = SUM;
    for place in 0..bytes.len() {
        let byte = bytes[place];
        for other in 0..=u8::MAX {
            bytes[place] = other;
            both::<L>(&mut sum, bytes, size)?;
        }
        bytes[place] = byte;
    }
    Ok(sum.value)
}

// A sum over the sets of fewer than so many sheets by a rule.
pub(crate) fn many(to: &mut impl Write, s: &[u8]) -> io::Result<()> {
    let mut sheets = [0; MOST];
    ruled(small(s, 1), small(s, 2), &mut sheets);
    let mut sum = SUM;
    for n in 0..size(s, 3) {
        writing::<Sheets>(&mut sum, front(n, &sheets), 200)?;
    }
    write::number(to, sum.value)
}
