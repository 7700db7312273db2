// Labels (document 01, "Labels"; document 02, b) from bytes to a sheet, or to what is wrong and where. What a label is, and that no two of them
// stand for the same ground, is crates/label.
//
// A label by itself is `labels`, and one at the front of a line `at_front`: both by the numbers of its fields (`numbers`), and what these name
// (crates/reckoning).
#![tactic(auto)]

use division::Edges;

pub mod at_front;
pub mod labels;
mod numbers;

// The sheet that the label at a line's front names, its corners, and where the label ends.
#[derive(Clone, Copy)]
pub struct Front {
    pub sheet: u32,
    pub corners: Edges,
    pub end: usize,
}
