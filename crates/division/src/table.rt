// The nine scales: one table, and what is asked of a scale.
ghost use Rattle.std.specs.Prelude.{◌≡◌};
ghost use Rattle.division.specs.Table.{is_scale, code_row, width, height, first, last};
ghost use Rattle.division.specs.Sheet.{scale_of};

use crate::sheet::{is_sheet, scale_of};

// What belongs to a scale. Width and height are metres. Parts is the number of parts per parent, side how many of them lie each way (4 and 2
// for 2 x 2), and parent the scale that it is made from: there is none where it is made from the area, and both are 0, as the definitions
// `parts` and `side` have them. First is its first sheet number, the number of sheets of all the scales before it.
#[derive(Clone, Copy)]
pub struct Row {
    pub width: u32,
    pub height: u32,
    pub rows: u32,
    pub columns: u32,
    pub parts: u32,
    pub side: u32,
    pub parent: Option<u32>,
    pub first: u32,
}

// Of a number that is no scale.
const NO_ROW: Row = Row {
    width: 0,
    height: 0,
    rows: 0,
    columns: 0,
    parts: 0,
    side: 0,
    parent: None,
    first: 0,
};

// The nine rows, that of scale 1 at place 0; their first numbers are worked out from them below.
const TABLE: [Row; 9] = [
    Row {
        width: 150_000,
        height: 100_000,
        rows: 6,
        columns: 4,
        ..NO_ROW
    },
    Row {
        width: 60_000,
        height: 40_000,
        rows: 15,
        columns: 10,
        ..NO_ROW
    },
    Row {
        width: 30_000,
        height: 20_000,
        rows: 30,
        columns: 20,
        ..NO_ROW
    },
    Row {
        width: 15_000,
        height: 10_000,
        rows: 60,
        columns: 40,
        parts: 4,
        side: 2,
        parent: Some(3),
        ..NO_ROW
    },
    Row {
        width: 6_000,
        height: 4_000,
        rows: 150,
        columns: 100,
        parts: 25,
        side: 5,
        parent: Some(3),
        ..NO_ROW
    },
    Row {
        width: 3_000,
        height: 2_000,
        rows: 300,
        columns: 200,
        parts: 25,
        side: 5,
        parent: Some(4),
        ..NO_ROW
    },
    Row {
        width: 1_200,
        height: 800,
        rows: 750,
        columns: 500,
        parts: 625,
        side: 25,
        parent: Some(3),
        ..NO_ROW
    },
    Row {
        width: 600,
        height: 400,
        rows: 1_500,
        columns: 1_000,
        parts: 4,
        side: 2,
        parent: Some(7),
        ..NO_ROW
    },
    Row {
        width: 300,
        height: 200,
        rows: 3_000,
        columns: 2_000,
        parts: 4,
        side: 2,
        parent: Some(8),
        ..NO_ROW
    },
];

// Each scale begins where the one before it ends.
const FIRST_1: u32 = 0;

const FIRST_2: u32 = FIRST_1 + TABLE[0].rows * TABLE[0].columns;

const FIRST_3: u32 = FIRST_2 + TABLE[1].rows * TABLE[1].columns;

const FIRST_4: u32 = FIRST_3 + TABLE[2].rows * TABLE[2].columns;

const FIRST_5: u32 = FIRST_4 + TABLE[3].rows * TABLE[3].columns;

const FIRST_6: u32 = FIRST_5 + TABLE[4].rows * TABLE[4].columns;

const FIRST_7: u32 = FIRST_6 + TABLE[5].rows * TABLE[5].columns;

const FIRST_8: u32 = FIRST_7 + TABLE[6].rows * TABLE[6].columns;

const FIRST_9: u32 = FIRST_8 + TABLE[7].rows * TABLE[7].columns;

// A number given as a scale: 1 to 9 are the scales, and of any other number each answer is 0, as the definitions have it and C is told.
#[derive(Clone, Copy)]
pub struct Scale(pub u32);

impl Scale {
    // The last scale, and its last sheet.
    pub const LAST: u32 = 9;

    pub const LAST_SHEET: u32 = FIRST_9 + TABLE[8].rows * TABLE[8].columns - 1;

    // The scale of a sheet; of a number that is no sheet, no scale.
    pub fn of(sheet: u32) -> Scale
        ensures { result.0 ≡ scale_of sheet }
    {
        if !is_sheet(sheet) {
            return Scale(0);
        }
        Scale(scale_of(sheet))
    }

    // Arm by arm, so that a compiled program holds the numbers and not the table.
    #[tactic(auto, unfolding(crate::specs::Table::table, crate::specs::Table::table_row, crate::specs::Table::rows_of, crate::specs::Table::columns_of))]
    pub fn row(self) -> Row
        ensures { result ≡ code_row self.0 }
    {
        let table = TABLE;
        match self.0 {
            1 => Row {
                first: FIRST_1,
                ..table[0]
            },
            2 => Row {
                first: FIRST_2,
                ..table[1]
            },
            3 => Row {
                first: FIRST_3,
                ..table[2]
            },
            4 => Row {
                first: FIRST_4,
                ..table[3]
            },
            5 => Row {
                first: FIRST_5,
                ..table[4]
            },
            6 => Row {
                first: FIRST_6,
                ..table[5]
            },
            7 => Row {
                first: FIRST_7,
                ..table[6]
            },
            8 => Row {
                first: FIRST_8,
                ..table[7]
            },
            9 => Row {
                first: FIRST_9,
                ..table[8]
            },
            _ => NO_ROW,
        }
    }

    // Width and height of a sheet in metres.
    pub fn width(self) -> u32
        ensures { result ≡ width self.0 }
    {
        self.row().width
    }

    pub fn height(self) -> u32
        ensures { result ≡ height self.0 }
    {
        self.row().height
    }

    // The first and the last sheet number of the scale.
    pub fn first(self) -> u32
        ensures { result ≡ first self.0 }
    {
        self.row().first
    }

    pub fn last(self) -> u32
        ensures { result ≡ last self.0 }
    {
        if !is_scale(self.0) {
            return 0;
        }
        let t = self.row();
        t.first + t.rows * t.columns - 1
    }
}

pub fn is_scale(s: u32) -> bool
    ensures { result ≡ is_scale s }
{
    (1 <= s) & (s <= Scale::LAST)
}
