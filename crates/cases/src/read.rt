// Reading the numbers and the bytes of a question.
ghost use Rattle.std.specs.Prelude.{◌<◌};

use crate::{part, room};

// How many bytes a question may have.
pub(crate) const BYTES: usize = 512;

// A number as it stands in a question: whether it has a minus, and its digits. No signed type holds all that is asked.
#[derive(Clone, Copy, Default)]
struct Digits {
    minus: bool,
    size: u64,
}

impl Digits {
    fn with_byte(self, b: u8) -> Digits {
        if b < b'0' {
            return Digits {
                minus: b == b'-',
                size: 0,
            };
        }
        Digits {
            minus: self.minus,
            size: self.size % 1_000_000_000_000_000_000 * 10 + u64::from(b - b'0'),
        }
    }
}

// The number after so many spaces, and 0 where there is none.
fn number(s: &[u8], spaces: usize) -> Digits {
    let mut value = Digits::default();
    for &b in s.split(|&b| b == b' ').nth(spaces).unwrap_or(&[]) {
        value = value.with_byte(b);
    }
    value
}

// The same as a sheet, a scale, a row, a column, a count or a size; 0 for a number that is too large.
pub(crate) fn small(s: &[u8], spaces: usize) -> u32 {
    u32::try_from(number(s, spaces).size).unwrap_or(0)
}

pub(crate) fn size(s: &[u8], spaces: usize) -> usize {
    small(s, spaces) as usize
}

// With its sign; 0 for a number that is too large, or too small.
pub(crate) fn signed(s: &[u8], spaces: usize) -> i64 {
    let n = number(s, spaces);
    if n.minus {
        0i64.checked_sub_unsigned(n.size).unwrap_or(0)
    } else {
        i64::try_from(n.size).unwrap_or(0)
    }
}

// The same as a float, told by its bits: those below the sign as a number, and a minus for the sign.
pub(crate) fn float(s: &[u8], spaces: usize) -> f64 {
    let n = number(s, spaces);
    let size = of_bits(n.size);
    if n.minus { -size } else { size }
}

// No number where the bits are of none.
fn of_bits(bits: u64) -> f64 {
    if bits > 0x7ff0_0000_0000_0000 {
        return f64::NAN;
    }
    f64::from_bits(bits)
}

// The bytes behind the last space, two hexadecimal digits each, in room for so many as a question may have.
pub(crate) fn bytes<'a>(s: &[u8], places: &'a mut [u8; BYTES]) -> &'a mut [u8] {
    let space = s.iter().rposition(|&b| b == b' ');
    let digits = part::behind(s, space.map_or(0, |i| i + 1));
    for (place, pair) in places.iter_mut().zip(digits.chunks_exact(2)) {
        *place = hexadecimal(pair[0]) * 16 + hexadecimal(pair[1]);
    }
    room::places(places, digits.len() / 2)
}

fn hexadecimal(b: u8) -> u8
    ensures { result < 16 }
{
    if b < b'a' {
        b % 16
    } else {
        (b - b'a') % 6 + 10
    }
}
