// The official names of the 1:250 000 sheets (document 02, d): sheet to name, name to sheet, and what the list says of a catalogue line.
//
// Fifteen of the 24 sheets have one; of the others "not listed" is the answer, and no refusal.
#![tactic(auto)]

mod list;
pub mod lookup;
pub mod verdict;
