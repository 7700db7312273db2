// What is asked of labels, and of sheets one after the other.
use crate::part::{before, behind};
use crate::write::SUM;
use crate::{read, room, sheets, write};
use labelling::writing::{label_length, write_label};
use reading::labels::read_label;
use std::io::{self, Write};

// The label is what follows the word and a space.
pub(crate) fn label(to: &mut impl Write, s: &[u8]) -> io::Result<()> {
    reading(to, behind(s, 6))
}

pub(crate) fn reading(to: &mut impl Write, bytes: &[u8]) -> io::Result<()> {
    write::answer(to, read_label(bytes))
}

pub(crate) fn lent(to: &mut impl Write, s: &[u8]) -> io::Result<()> {
    writing(to, read::small(s, 1), read::size(s, 2))
}

// The length, and the label in room for so many bytes; and the sheet read back from it.
fn writing(to: &mut impl Write, sheet: u32, size: usize) -> io::Result<()> {
    write::answer(to, label_length(sheet))?;
    to.write_all(b",")?;
    let mut room = [room::MARK; 40];
    let places = room::places(&mut room, size);
    let laid = write_label(sheet, places);
    write::answer(to, laid)?;
    let n = room::count(laid);
    let label = before(places, n);
    to.write_all(b" ")?;
    to.write_all(label)?;
    room::kept(to, n, places)?;
    reading(to, label)
}

// A sum over the sheets from the first to the last, each so far from the one before.
pub(crate) fn every(to: &mut impl Write, s: &[u8]) -> io::Result<()> {
    let sum = swept(read::small(s, 1), read::small(s, 2), read::size(s, 3))?;
    write::number(to, sum)
}

fn swept(first: u32, last: u32, far: usize) -> io::Result<u64> {
    // the first alone where the next is no further
    let last = if far == 0 { last.min(first) } else { last };
    let mut sum = SUM;
    for n in (first..=last).step_by(far.max(1)) {
        sheets::told(&mut sum, n)?;
        writing(&mut sum, n, 20)?;
    }
    Ok(sum.value)
}
