// The C face: the public calls under C names, on numbers, slices (a pointer and a length in C) and, for what an answer holds besides its
// number, single numbers and arrays of a fixed length. Nothing is decided here: each function makes one call and hands its answer out, and
// each contract is that call's own. The static library yavarosht_c exports them; include/yavarosht.h says the same in the words of C.
#![tactic(auto)]

pub mod calls; // collect, product, inverse, depth
pub mod checking; // the check
pub mod opening; // judge, fetch
