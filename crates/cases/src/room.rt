// Lent room, every place of which is looked at afterwards.
use crate::part::before;
use crate::write;
use crate::write::SUM;
use refusal::Refusal;
use std::io::{self, Write};

// What room is lent for: bytes, or sheets.
pub(crate) trait Item: Copy + PartialEq {
    // stands in every place of the room before the question
    const MARK: Self;

    fn show(items: &[Self], to: &mut impl Write) -> io::Result<()>;
}

impl Item for u8 {
    const MARK: u8 = MARK;

    fn show(bytes: &[u8], to: &mut impl Write) -> io::Result<()> {
        for &b in bytes {
            write::hexadecimal(to, b)?;
        }
        Ok(())
    }
}

impl Item for u32 {
    const MARK: u32 = NO_SHEET;

    fn show(sheets: &[u32], to: &mut impl Write) -> io::Result<()> {
        for &n in sheets {
            write::number(to, n)?;
        }
        Ok(())
    }
}

// No label has this byte.
pub(crate) const MARK: u8 = 238;

// No sheet has this number.
pub(crate) const NO_SHEET: u32 = u32::MAX;

// More bytes than any list has.
pub(crate) const BYTES: usize = 10_000;

// More sheets than any list has.
pub(crate) const SHEETS: usize = 4_200;

// Of more bytes or sheets than this only the sum is written.
const LISTED: usize = 40;

// So many places of room.
pub(crate) fn places<T>(s: &mut [T], size: usize) -> &mut [T] {
    let n = size.min(s.len());
    &mut s[..n]
}

// How many items were laid.
pub(crate) fn count(laid: Result<usize, Refusal>) -> usize {
    laid.unwrap_or(0)
}

// The first so many bytes in hexadecimal, and how many of the others keep their mark.
pub(crate) fn show_bytes(to: &mut impl Write, n: usize, places: &[u8]) -> io::Result<()> {
    if n <= LISTED {
        to.write_all(b" ")?;
    }
    show(to, n, places)
}

// The first so many bytes or sheets, and how many of the other places keep their mark.
pub(crate) fn show<T: Item>(to: &mut impl Write, n: usize, places: &[T]) -> io::Result<()> {
    let items = before(places, n);
    if n > LISTED {
        let mut sum = SUM;
        T::show(items, &mut sum)?;
        write::named(to, b" sum", sum.value)?;
    } else {
        T::show(items, to)?;
    }
    kept(to, n, places)
}

// How many places behind the first so many hold the mark.
pub(crate) fn kept<T: Item>(to: &mut impl Write, n: usize, places: &[T]) -> io::Result<()> {
    let held = places.iter().skip(n).filter(|&p| *p == T::MARK).count();
    write::named(to, b" kept", held)
}
