// What is asked of local numbers.
use crate::lists::{MOST, front};
use crate::read::{size, small};
use crate::{lists, write};
use local::numbers::{local_to_sheet, sheet_to_local};
use local::{Local, Triple};
use std::io::{self, Write};

// In the municipality of the question's sheets.
pub(crate) fn local(to: &mut impl Write, s: &[u8]) -> io::Result<()> {
    let mut sheets = [0; MOST];
    let n = size(s, 5);
    lists::given(s, 6, n, &mut sheets);
    asked(to, s, front(n, &sheets))
}

// In that of sheets by a rule, one of them another.
pub(crate) fn municipality(to: &mut impl Write, s: &[u8]) -> io::Result<()> {
    let mut sheets = [0; MOST];
    lists::ruled(small(s, 5), small(s, 6), &mut sheets);
    lists::put(size(s, 8), small(s, 9), &mut sheets);
    asked(to, s, front(size(s, 7), &sheets))
}

// The sheet of the local numbers, and the local numbers of the sheet.
fn asked(to: &mut impl Write, s: &[u8], sheets: &[u32]) -> io::Result<()> {
    let asked = Local::from(Triple {
        n: small(s, 1),
        a: small(s, 2),
        b: small(s, 3),
    });
    write::answer(to, local_to_sheet(sheets, asked))?;
    to.write_all(b",")?;
    match sheet_to_local(sheets, small(s, 4)) {
        Ok(Local::One(n)) => write::numbers(to, [n]),
        Ok(Local::Two(n, a)) => write::numbers(to, [n, a]),
        Ok(Local::Three(n, a, b)) => write::numbers(to, [n, a, b]),
        Err(why) => write::refused(to, why),
    }
}
