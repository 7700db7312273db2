// The refusals: document 01, "Numbers of refusal", and those that document 02 adds. Every question of the box gets its answer or one of
// these: a `Result` with a `Refusal`. And `lay`, for bytes that are there already and go into lent room.
#![tactic(auto)]

ghost use Rattle.std.specs.Prelude.{◌≡◌, [], ◌∷◌, ◌+◌, ◌≤◌, ◌<◌, length, None, Some};
ghost use Rattle.refusal.specs.Paper.{laid, counted, room_after};
ghost use Rattle.refusal.specs.Numbers.{IsNumbered, paper};
ghost use Rattle.refusal.specs.Given.{Wrote};

// Why there is no answer, in the order of the papers' numbers, from 1.
#[derive(Clone, Copy)]
pub enum Refusal {
    PointOutside,
    NoScale,
    NoSheet,
    // the place of the first offending byte in the label, here and below
    LabelLength(usize),
    FieldRange(usize),
    NoSuch,
    WindowOrder,
    WindowOutside,
    TooMany,
    // the room needed, in sheets or bytes
    Room(usize),
    EndsEarly,
    BadNumber,
    PastLast,
    MoreBytes,
    NotRising,
    NameForm,
    NameScale,
    NoNumber,
    StrangeByte(usize),
    FieldForm(usize),
    // a label that names no scale is wrong from its first byte on: its place is always 0
    NamesNoScale,
    Not250000,
    NoMunicipality,
    NoProduct,
    // the place in the delivery, here and below
    NotOfCover(usize),
    SeenBefore(usize),
    // the sheet
    Missing(u32),
}

// A refusal as the paper tells it: its number, and the value that it carries, if it carries one.
#[derive(Clone, Copy)]
pub struct Numbered {
    pub number: u32,
    pub value: Option<usize>,
}

impl Numbered {
    const fn bare(number: u32) -> Numbered
        ensures { result ≡ record { number = number; value = None } }
    {
        Numbered {
            number,
            value: None,
        }
    }

    const fn carrying(number: u32, value: usize) -> Numbered
        ensures { result ≡ record { number = number; value = Some value } }
    {
        Numbered {
            number,
            value: Some(value),
        }
    }
}

impl Refusal {
    pub fn numbered(self) -> Numbered
        ensures { IsNumbered self result }
    {
        match self {
            Refusal::PointOutside => Numbered::bare(1),
            Refusal::NoScale => Numbered::bare(2),
            Refusal::NoSheet => Numbered::bare(3),
            Refusal::LabelLength(place) => Numbered::carrying(4, place),
            Refusal::FieldRange(place) => Numbered::carrying(5, place),
            Refusal::NoSuch => Numbered::bare(6),
            Refusal::WindowOrder => Numbered::bare(7),
            Refusal::WindowOutside => Numbered::bare(8),
            Refusal::TooMany => Numbered::bare(9),
            Refusal::Room(needed) => Numbered::carrying(10, needed),
            Refusal::EndsEarly => Numbered::bare(11),
            Refusal::BadNumber => Numbered::bare(12),
            Refusal::PastLast => Numbered::bare(13),
            Refusal::MoreBytes => Numbered::bare(14),
            Refusal::NotRising => Numbered::bare(15),
            Refusal::NameForm => Numbered::bare(16),
            Refusal::NameScale => Numbered::bare(17),
            Refusal::NoNumber => Numbered::bare(18),
            Refusal::StrangeByte(place) => Numbered::carrying(19, place),
            Refusal::FieldForm(place) => Numbered::carrying(20, place),
            Refusal::NamesNoScale => Numbered::carrying(21, 0),
            Refusal::Not250000 => Numbered::bare(22),
            Refusal::NoMunicipality => Numbered::bare(23),
            Refusal::NoProduct => Numbered::bare(24),
            Refusal::NotOfCover(place) => Numbered::carrying(25, place),
            Refusal::SeenBefore(place) => Numbered::carrying(26, place),
            Refusal::Missing(sheet) => Numbered::carrying(27, sheet as usize),
        }
    }
}

// Lays bytes into lent room, from its first place on, where they fit. An answer is how many they are.
pub fn lay(bytes: &[u8], room: &mut [u8]) -> Result<usize, Refusal>
    ensures result_value { paper result ≡ counted (laid bytes.now (length room.old)) }
    ensures room_after { room.new ≡ room_after (laid bytes.now (length room.old)) room.old }
{
    let needed = bytes.len();
    if room.len() < needed {
        return Err(Refusal::Room(needed));
    }
    // byte by byte, of which the compiler makes a copy between places that do not overlap: `copy_from_slice` would have C bring memmove
    for (i, &byte) in bytes.iter().enumerate() {
        room[i] = byte;
    }
    Ok(needed)
}
