// No function: strictly rising lists under any judge of a number, and what is known of them. A set of sheets is lent as such a list,
// and so is a municipality.
#![tactic(auto)]
