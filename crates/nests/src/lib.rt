// No function: which scales nest, and that the children of a sheet fill it (document 02, l), over the definitions of the crates below.
#![tactic(auto)]
