// Groups that GAP 4.12 computed: the program's line for each presentation, and products and inverses by the collector. The file
// `calls` asks for them, one to a line; each line is printed with what came back. What must be printed, the file `stdout`, is made by
// tools/foreign_tables.py from tables of GAP and of exact matrices: nothing in it was computed by this collector.
#![tactic(auto)]

use collector::{Answer, inverse, product};
use pcp_run::print_line;
use std::io;
use std::rt::Files;
use table::{each_line, field, numbers_in, read_numbers};
use total::print_row;

// More than any of these calls needs; one that needs more is printed as refused.
const BUDGET: u32 = 1000000;

// What came back: the vector, or the number of the refusal. `corners` prints the number, the count and the vector of every answer: one
// function for both would need a flag for each part.
fn print_answer(rt: &impl Print, answer: Answer, vector: &[u8]) -> io::Result<()> {
    match answer {
        Ok(_) => print_row(rt, vector)?,
        Err(refused) => {
            let number = u8::from(refused.refusal);
            print!(rt; " refused {number}")?;
        }
    }
    println!(rt)
}

// u times v, or the inverse of u, as the line asks. There is room for 8,192 slots.
fn change(rt: &impl Print, line: &[u8], numbers: &[u16]) -> io::Result<()> {
    let mut work = [0u16; 24576];
    let mut room = [0u8; 40];
    let vector = numbers_in(field(line, 2), &mut room);
    let answer = match line {
        [b'p', ..] => {
            let mut room = [0u8; 40];
            let right = numbers_in(field(line, 3), &mut room);
            product(numbers, vector, right, BUDGET, &mut work)
        }
        _ => inverse(numbers, vector, BUDGET, &mut work),
    };
    print_answer(rt, answer, vector)
}

// A call: "group" and a file, "product", a file, u and v, or "inverse", a file and u.
fn call(rt: &(impl Files + Print), line: &[u8]) -> io::Result<()> {
    rt.write_all(line)?;
    print!(rt; " =")?;
    match line {
        [b'g', ..] => {
            print!(rt; " ")?;
            print_line(rt, field(line, 1))
        }
        _ => {
            let mut numbers = [0u16; 22962];
            change(rt, line, read_numbers(rt, field(line, 1), &mut numbers))
        }
    }
}

fn main(rt: HostRuntime) -> io::Result<()> {
    each_line(&rt, b"calls", &mut [0u8; 65536], |line| call(&rt, line))
}
