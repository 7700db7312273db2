// Frames and points in metres, as 64-bit floats (document 02, a).
//
// Every edge of a sheet is a whole number of hundred metres, and the middle between two a whole number of fifty: a float holds either
// exactly. A point in floats lies in the sheet in which its exact value, a mantissa times a power of two, lies. It is rounded to whole
// millimetres by the float's own bits, without float arithmetic: the east value down and the north value up, since a sheet owns its west and
// north edge.
#![tactic(auto)]

pub mod metres;
mod millimetres;

// A sheet's edges and the middle between them, in metres, each field exactly that number.
#[derive(Clone, Copy)]
pub struct Frame {
    pub west: f64,
    pub east: f64,
    pub south: f64,
    pub north: f64,
    pub middle_e: f64,
    pub middle_n: f64,
}
