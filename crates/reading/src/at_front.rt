// The label at the front of a line, up to the first space: its end is found while it is read. Its fields tell where the sheet lies, so that its
// number need not be taken apart again.
ghost use Rattle.std.specs.Prelude.{◌≡◌, false, ◌||◌, [], ◌*◌, ◌≤◌, pos, length, get_or};
ghost use Rattle.refusal.specs.Numbers.{on_paper, paper};
ghost use Rattle.division.specs.Words.{◌=?◌};
ghost use Rattle.label.specs.Text.{split};
ghost use Rattle.label.specs.Label.{well_formed, formed};
ghost use Rattle.reckoning.specs.Given.{InReach};
ghost use Rattle.reading.specs.Front.{read_front};
ghost use Rattle.reading.specs.Given.{front_at};

use crate::Front;
use crate::labels::{form_fault, not_named};
use crate::numbers::numbers_in;
use arrayvec::ArrayVec;
use division::Edges;
use division::table::Scale;
use fault::piece::piece_end;
use reckoning::{Named, sheet_named};
use refusal::Refusal;

// An edge of so many hundred metres.
fn edge(hundreds: u32) -> i64
    ensures { result ≡ pos (hundreds * 100_000) }
{
    i64::from(hundreds) * 100_000
}

// The sheet that is named by a label that ends at a place.
fn front_at(named: Named, end: usize) -> Front
    requires { InReach named.scale named.reach }
    ensures { result ≡ front_at named end }
{
    let t = Scale(named.scale).row();
    let at = named.reach;
    let left = 2_000 + at.right;
    let top = 51_700 - at.down;
    Front {
        sheet: t.first + at.index,
        corners: Edges {
            west: edge(left),
            east: edge(left + t.width / 100),
            south: edge(top - t.height / 100),
            north: edge(top),
        },
        end,
    }
}

// Why the label in a line's first 17 bytes is not well formed.
fn front_fault(front: &[u8]) -> Refusal
    requires { well_formed (get_or (split 32 front.now) 0 []) ≡ false }
    ensures { on_paper result ≡ formed (get_or (split 32 front.now) 0 []) }
{
    let end = piece_end(front, b' ');
    if 16 < end {
        return Refusal::LabelLength(16);
    }
    form_fault(&front[..end])
}

// Whether a label may end at a place: where the line ends, or at a space.
fn is_end(line: &[u8], at: usize) -> bool
    requires { at ≤ length line.now }
    ensures { result ≡ (at =? length line.now || get_or line.now at 0 =? 32) }
{
    at == line.len() || line[at] == b' '
}

// What the label at a line's front names. Only the first 17 bytes can be a label's or show that it is too long.
pub fn read_front(line: &[u8]) -> Result<Front, Refusal>
    ensures { paper result ≡ read_front line.now }
{
    let front = &line[..line.len().min(17)];
    let mut numbers = ArrayVec::<u64, 8>::new();
    let Some(end) = numbers_in(front, &mut numbers) else {
        return Err(front_fault(front));
    };
    if !is_end(line, end) {
        return Err(front_fault(front));
    }
    match sheet_named(numbers.as_slice()) {
        Ok(named) => Ok(front_at(named, end)),
        Err(why) => Err(not_named(why, &line[..end])),
    }
}
