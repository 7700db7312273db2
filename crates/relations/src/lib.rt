// Parent, child, step, offset and neighbours of a sheet (document 01, "Relations"); the cover of a window is in division.
#![tactic(auto)]

pub mod kin;

// Columns east and rows south.
#[derive(Clone, Copy)]
pub struct Offset {
    pub east: i64,
    pub south: i64,
}
