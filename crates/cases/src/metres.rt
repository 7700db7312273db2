// What is asked of frames and of points in metres.
use crate::read::{float, small};
use crate::write;
use frame::Frame;
use frame::metres::{frame_at_metres, frame_of, sheet_at_metres};
use refusal::Refusal;
use std::io::{self, Write};

pub(crate) fn quad(to: &mut impl Write, s: &[u8]) -> io::Result<()> {
    framed(to, frame_of(small(s, 1)))
}

// The sheet of the scale, and its frame.
pub(crate) fn under(to: &mut impl Write, s: &[u8]) -> io::Result<()> {
    let scale = small(s, 1);
    let e = float(s, 2);
    let n = float(s, 3);
    write::answer(to, sheet_at_metres(scale, e, n))?;
    to.write_all(b",")?;
    framed(to, frame_at_metres(scale, e, n))
}

// West, east, south and north, and the middle.
fn framed(to: &mut impl Write, found: Result<Frame, Refusal>) -> io::Result<()> {
    match found {
        Ok(m) => {
            for x in [m.west, m.east, m.south, m.north, m.middle_e, m.middle_n] {
                write::float(to, x)?;
            }
            Ok(())
        }
        Err(why) => write::refused(to, why),
    }
}
