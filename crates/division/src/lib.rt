// The division of the area of HTRS96/TM into map sheets of nine scales (document 01, "The grid", and of "Relations" the cover of a window).
//
// A sheet is named by its sheet number, 0 to 7 953 173: the first number of its scale plus its index there. A scale's first number is the
// number of sheets of all the scales before it.
//   scale          1     2     3      4       5       6        7          8          9
//   sheets        24   150   600  2 400  15 000  60 000  375 000  1 500 000  6 000 000
//   first number   0    24   174    774   3 174  18 174   78 174    453 174  1 953 174
// At scales 1 to 3 the index is row x columns + column, counted from 0 at the upper left corner of the area. At the others it is
// the parent's index x the parts per parent + the number in the parent - 1; parts are numbered from 1, row by row from the upper left.
//
// Points and edges are whole millimetres. A sheet, a window and the area own their west and north edge, not their east and
// south edge: a point on the edge between two sheets lies in the eastern one and in the southern one.
#![tactic(auto)]

pub mod cover;
pub mod grid;
pub mod sheet;
pub mod table;

// A place on the grid of a scale, rows and columns counted from 0.
#[derive(Clone, Copy)]
pub struct Place {
    pub row: u32,
    pub column: u32,
}

// A place with its scale.
#[derive(Clone, Copy)]
pub struct Spot {
    pub scale: u32,
    pub place: Place,
}

// West, east, south and north in millimetres: the corners of a sheet, or a window.
#[derive(Clone, Copy)]
pub struct Edges {
    pub west: i64,
    pub east: i64,
    pub south: i64,
    pub north: i64,
}
