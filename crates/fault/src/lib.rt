// Where a label is wrong (document 02, b): its first strange byte, its first faulty field, where a field begins. What these are, and that a
// refusal's place is theirs, is crates/label.
//
// And the piece before the first mark, by which fields are told apart here, and labels and lines in the crates above.
#![tactic(auto)]

pub mod piece;
pub mod place;
