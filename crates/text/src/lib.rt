// Numbers and texts as bytes: 16-bit numbers out of the bytes of a file, and decimal numbers at the end of a text of fixed room.
// Nothing here knows of groups.
#![tactic(auto)]

pub mod reading; // bytes to 16-bit numbers
pub mod writing; // decimals at the end of a text

pub use reading::numbers_of;
pub use writing::{put_number, put_numbers};
