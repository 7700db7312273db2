// The library for C and for any language that calls C: include/qubathimi.h declares these functions and says what each does.
//
// Each calls the function of the library and hands its answer to one of `telling`, which makes it a status, the result, and the numbers
// behind C's pointers.
#![tactic(auto)]

pub mod deliveries;
pub mod holdings;
pub mod kin;
pub mod known;
pub mod labels;
pub mod lines;
pub mod lists;
pub mod locals;
pub mod metres;
pub mod scales;
pub mod sheets;
