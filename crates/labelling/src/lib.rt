// Labels (document 01, "Labels") from a sheet to bytes. What a label is, and that no two of them stand for the same ground, is crates/label.
#![tactic(auto)]

pub mod writing;
