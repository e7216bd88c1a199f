// Numbers on standard output, each with a space before it.
use std::fmt::Display;
use std::io;

pub fn print_row<T: Display>(rt: &impl Print, row: &[T]) -> io::Result<()> {
    for x in row {
        print!(rt; " {x}")?;
    }
    Ok(())
}
