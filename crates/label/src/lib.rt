// No function: labels (document 01, "Labels"; document 02, b), what they are, what is wrong with one and where, and what is known of them. From
// a sheet to bytes is crates/labelling, from bytes to a sheet crates/reading, and where a label is wrong crates/fault.
//
// A label is the first number of its scale and then the fields of its sheet, joined by hyphens:
//   250, 100 or 50; row; column             1:250 000, 1:100 000, 1:50 000
//   25, 10 or 2; number; row; column        1:25 000, 1:10 000, 1:2 000
//   5; number; number; row; column          1:5 000
//   1; number; number; row; column          1:1 000
//   5; number; number; number; row; column  1:500
// Rows count from 101 and columns from 1; a number is the sheet's in its parent, then the parent's in its own.
// No two accepted labels stand for the same ground: a label is accepted exactly if it is the one that is written for its sheet.
#![tactic(auto)]
