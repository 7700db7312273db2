// Sheet to label.
ghost use Rattle.std.specs.Prelude.{◌≡◌, ℕ, [], ◌∷◌, ◌++◌, ◌+◌, ◌≤◌, ◌<◌, List, length, take};
ghost use Rattle.refusal.specs.Paper.{counted, room_after};
ghost use Rattle.refusal.specs.Numbers.{paper};
ghost use Rattle.division.specs.Sheet.{scale_of};
ghost use Rattle.label.specs.Text.{decimal};
ghost use Rattle.label.specs.Label.{mark_of, label_of, write_label, label_length};
ghost use Rattle.label.specs.Given.{Small, behind, index_fields};
ghost use Rattle.labelling.specs.Given.{area_fields, AreaRoom, Room, IsSheetOf};

use division::sheet::is_sheet;
use division::table::Scale;
use refusal::{Refusal, lay};
use std::marker::Model;

// A label while it is written: so many bytes, at the front of 16. No `ArrayVec`, since a number is put as three digits of which those in front may
// count for nothing.
#[derive(Drop)]
struct Label {
    bytes: [u8; 16],
    len: usize,
}

impl Model for Label {
    ghost Value = { List ℕ };

    ghost view = { λ label. take label.len label.bytes };

    ghost invariant = { λ label. label.len ≤ 16 };
}

impl Label {
    fn new() -> Self
        ensures { result ≡ [] }
    {
        Label {
            bytes: [0; 16],
            len: 0,
        }
    }

    fn as_slice(&self) -> &[u8]
        ensures { result.now ≡ self.now }
    {
        &self.bytes[..self.len]
    }

    fn put_byte(&mut self, b: u8)
        requires { length self.old < 16 }
        ensures { self.new ≡ self.old ++ (b ∷ []) }
    {
        self.bytes[self.len] = b;
        self.len += 1;
    }

    // A number of at most three digits. All three are put, and a zero in front is put over by the digit behind it.
    fn put_number(&mut self, v: u32)
        requires { Small 1_000 v (length (decimal v)) (length self.old) 16 }
        ensures { self.new ≡ self.old ++ decimal v }
    {
        let hundreds = 48 + (v / 100) as u8;
        let tens = 48 + (v / 10 % 10) as u8;
        let ones = 48 + (v % 10) as u8;
        let a = self.len + usize::from(100 <= v);
        let b = a + usize::from(10 <= v);
        self.bytes[self.len] = hundreds;
        self.bytes[a] = tens;
        self.bytes[b] = ones;
        self.len = b + 1;
    }

    // A field behind a hyphen.
    fn put_field(&mut self, v: u32)
        requires { Small 1_000 v (1 + length (decimal v)) (length self.old) 16 }
        ensures { self.new ≡ self.old ++ (45 ∷ decimal v) }
    {
        self.put_byte(b'-');
        self.put_number(v);
    }

    // Row and column of an index of the area in columns.
    fn put_area(&mut self, columns: u32, i: u32)
        requires { AreaRoom columns i (length self.old) 16 }
        ensures { self.new ≡ self.old ++ behind (area_fields columns i) }
    {
        let row = 101 + i / columns;
        let column = 1 + i % columns;
        self.put_field(row);
        self.put_field(column);
    }

    // The fields of a sheet behind the first number, by its index in its scale and by way of its parents. Set into
    // each arm of `put_sheet`, where the scale is known.
    #[inline]
    fn put_fields(&mut self, s: u32, i: u32)
        requires { Room s i (length self.old) 16 }
        ensures { self.new ≡ self.old ++ behind (index_fields s i) }
    {
        let mut t = Scale(s).row();
        let mut index = i;
        while let Some(up) = t.parent {
            self.put_field(index % t.parts + 1);
            index /= t.parts;
            t = Scale(up).row();
        }
        self.put_area(t.columns, index);
    }

    // The label of a sheet of the scale, put into an empty one: the first number, and the fields behind it. That the sheet is of the scale is said
    // of the two, here and in what follows: each arm of `put_sheet` gives its own scale, and a type would be made in it only to be opened here.
    fn put_of(&mut self, s: u32, sheet: u32)
        requires of { IsSheetOf s sheet }
        requires none_yet { self.old ≡ [] }
        ensures { self.new ≡ label_of sheet }
    {
        self.put_number(mark_of(s));
        self.put_fields(s, sheet - Scale(s).first());
    }

    // The same of a sheet of the ninth scale: the number in its parent by hand, and the parent's fields, since the compiler leaves a loop of
    // three turns as it is.
    fn put_ninth(&mut self, sheet: u32)
        requires of { IsSheetOf 9 sheet }
        requires none_yet { self.old ≡ [] }
        ensures { self.new ≡ label_of sheet }
    {
        self.put_number(mark_of(9));
        let i = sheet - Scale(9).first();
        self.put_field(i % 4 + 1);
        self.put_fields(8, i / 4);
    }

    // The label of a sheet. Each scale has an arm of its own, so that a compiled program knows the first number, and divides by numbers that it
    // knows.
    fn put_sheet(&mut self, sheet: u32)
        requires of { IsSheetOf (scale_of sheet) sheet }
        requires none_yet { self.old ≡ [] }
        ensures { self.new ≡ label_of sheet }
    {
        match Scale::of(sheet).0 {
            1 => self.put_of(1, sheet),
            2 => self.put_of(2, sheet),
            3 => self.put_of(3, sheet),
            4 => self.put_of(4, sheet),
            5 => self.put_of(5, sheet),
            6 => self.put_of(6, sheet),
            7 => self.put_of(7, sheet),
            8 => self.put_of(8, sheet),
            _ => self.put_ninth(sheet),
        }
    }
}

// The first number of a scale's labels; of no scale 0, as the definition has it, so that nothing need be asked of the scale.
#[tactic(auto, unfolding(label::specs::Label::mark_of))]
fn mark_of(s: u32) -> u32
    ensures { result ≡ mark_of s }
{
    match s {
        1 => 250,
        2 => 100,
        3 => 50,
        4 => 25,
        5 => 10,
        6 => 5,
        7 => 2,
        8 => 1,
        9 => 5,
        _ => 0,
    }
}

// How many bytes a sheet's label has.
pub fn label_length(sheet: u32) -> Result<usize, Refusal>
    ensures { paper result ≡ label_length sheet }
{
    if !is_sheet(sheet) {
        return Err(Refusal::NoSheet);
    }
    let mut label = Label::new();
    label.put_sheet(sheet);
    Ok(label.as_slice().len())
}

// Writes the label of a sheet into lent room.
pub fn write_label(sheet: u32, room: &mut [u8]) -> Result<usize, Refusal>
    ensures result_value { paper result ≡ counted (write_label sheet (length room.old)) }
    ensures room_after { room.new ≡ room_after (write_label sheet (length room.old)) room.old }
{
    if !is_sheet(sheet) {
        return Err(Refusal::NoSheet);
    }
    let mut label = Label::new();
    label.put_sheet(sheet);
    lay(label.as_slice(), room)
}
