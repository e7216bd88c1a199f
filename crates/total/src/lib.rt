// What the witness programs (trials, foreign, corners) have in common: parts of slices and storing that ask nothing of their callers, and
// printing. The programs are proved safe and no more; the functions here promise which part comes back and what is stored.
#![tactic(auto)]

pub mod arith; // parts of slices, and storing that stays in bounds
pub mod print; // numbers on standard output

pub use arith::{part, part_mut, store};
pub use print::print_row;
