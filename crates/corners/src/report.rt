// Printing what came back.
use crate::work::State;
use collector::Answer;
use layout::given;
use std::io;
use total::print_row;

// An answer, the vector as it then was, and the workspace.
pub fn print_answer(
    rt: &impl Print,
    answer: Answer,
    vector: &[u8],
    state: State,
) -> io::Result<()> {
    let number = given(&answer.map_err(|refused| refused.refusal));
    let count = answer.unwrap_or_else(|refused| refused.count);
    print!(rt; " {number}; count {count}; vector")?;
    print_row(rt, vector)?;
    print!(rt; "; {state}")
}

// The check's line, and the workspace.
pub fn print_check(rt: &impl Print, line: &[u8], state: State) -> io::Result<()> {
    print!(rt; " ")?;
    rt.write_all(line)?;
    print!(rt; "; {state}")
}
