// Answers told as a status and plain numbers, for the library for C (`qubathimi_c`).
//
// The result is a status, 0 for an answer and otherwise the number of the refusal. An answer that is one number goes to `value`, and so
// does what a refusal carries (`number`); an answer of several numbers goes to a place for each, and a refusal leaves them as they were
// (`several`). What nothing refuses has no status.
#![tactic(auto)]

pub mod known;
pub mod lines;
pub mod lists;
pub mod marks;
pub mod number;
pub mod several;
