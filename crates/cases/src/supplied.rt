// What is asked of deliveries.
use crate::lists::{MOST, front};
use crate::part::before;
use crate::read::{signed, size, small};
use crate::{lists, room, write};
use delivery::check_delivery;
use division::Edges;
use division::cover::cover;
use std::io::{self, Write};

// Of the question's sheets.
pub(crate) fn deliver(to: &mut impl Write, s: &[u8]) -> io::Result<()> {
    let mut sheets = [0; MOST];
    let n = size(s, 6);
    lists::given(s, 7, n, &mut sheets);
    checked(to, s, front(n, &sheets))
}

// Of the cover's own sheets, by a rule, one of them another.
pub(crate) fn supply(to: &mut impl Write, s: &[u8]) -> io::Result<()> {
    let mut places = [room::NO_SHEET; room::SHEETS];
    let n = room::count(cover(small(s, 1), window(s), &mut places));
    let covering = before(&places, n);
    let mut sheets = [0; MOST];
    lists::ruled(small(s, 6), small(s, 7), &mut sheets);
    for sheet in sheets.iter_mut() {
        *sheet = sheet_at(covering, *sheet);
    }
    lists::put(size(s, 9), small(s, 10), &mut sheets);
    checked(to, s, front(size(s, 8), &sheets))
}

fn window(s: &[u8]) -> Edges {
    Edges {
        west: signed(s, 2),
        east: signed(s, 3),
        south: signed(s, 4),
        north: signed(s, 5),
    }
}

// The sheet at that place, counted from 0, and behind the last from the first again; 0 where there is none.
fn sheet_at(covering: &[u32], n: u32) -> u32 {
    if covering.is_empty() {
        return 0;
    }
    covering[n as usize % covering.len()]
}

fn checked(to: &mut impl Write, s: &[u8], sheets: &[u32]) -> io::Result<()> {
    write::answer(to, check_delivery(small(s, 1), window(s), sheets))
}
