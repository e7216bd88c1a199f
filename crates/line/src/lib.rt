// The one line that the program prints for the check's answer.
//
// "prints one line": the line ends with one line feed (byte 10).
#![tactic(auto)]

pub mod count; // how many overlaps there are
pub mod verdict; // the line of a verdict

pub use verdict::{Line, line_of, refused_line};
