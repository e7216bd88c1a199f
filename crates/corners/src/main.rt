// Document 01's examples that are not proved, and the corners of its rules: the limits of p and n, wrong lengths, budget and room one
// short, workspaces that hold no whole slot, refusals that touch nothing. The file `calls` asks for them, one call to a line; what came
// back is printed with the call's label. What must be printed, the file `stdout`, is worked out by a model of 01's rules in Python
// (tools/corners.py).
//
// A line of `calls` has seven fields: label, call, file of the presentation, vector, what is read beside it, budget, numbers in the
// workspace. A call that takes less has empty ones.
#![tactic(auto)]

mod report; // printing what came back
mod work; // the workspace before and after a call

use answer::line_for;
use collector::{collect, depth, inverse, product};
use layout::{Generator, given, judge, word_of};
use report::{print_answer, print_check};
use std::io;
use std::rt::Files;
use table::{before, decimal, each_line, field, numbers_in, read_file, read_numbers};
use total::{part_mut, print_row};
use work::{SOIL, state_of};

// The presentation's number, 0 to 6.
fn judge_it(rt: &impl Print, numbers: &[u16]) -> io::Result<()> {
    let number = given(&judge(numbers));
    print!(rt; " {number}")
}

// The word of the pair i j.
fn fetch(rt: &impl Print, line: &[u8], numbers: &[u16]) -> io::Result<()> {
    let mut pair = [0u16; 2];
    numbers_in(field(line, 3), &mut pair);
    print_row(rt, word_of(numbers, Generator(pair[0]), Generator(pair[1])))
}

// The depth of a vector, after the number; 0 where it is refused.
fn fathom(rt: &impl Print, line: &[u8], numbers: &[u16]) -> io::Result<()> {
    let mut room = [0u8; 64];
    let answer = depth(numbers, numbers_in(field(line, 3), &mut room));
    let number = given(&answer);
    let depth = answer.unwrap_or(0);
    print!(rt; " {number} {depth}")
}

// The calls that change a vector.
fn change(
    rt: &impl Print,
    line: &[u8],
    numbers: &[u16],
    budget: u32,
    work: &mut [u16],
) -> io::Result<()> {
    let mut room = [0u8; 64];
    let vector = numbers_in(field(line, 3), &mut room);
    let beside = field(line, 4);
    let answer = match field(line, 1) {
        [b'c', ..] => {
            let mut word = [0u16; 8200];
            collect(numbers, vector, numbers_in(beside, &mut word), budget, work)
        }
        [b'p', ..] => {
            let mut right = [0u8; 64];
            product(
                numbers,
                vector,
                numbers_in(beside, &mut right),
                budget,
                work,
            )
        }
        _ => inverse(numbers, vector, budget, work),
    };
    print_answer(rt, answer, vector, state_of(work))
}

// The check is asked through the line that tells its verdict.
fn check_it(
    rt: &(impl Files + Print),
    line: &[u8],
    budget: u32,
    work: &mut [u16],
) -> io::Result<()> {
    let mut room = [0u8; 45926];
    let bytes = read_file(rt, field(line, 2), &mut room);
    let mut numbers = [0u16; 22962];
    let told = line_for(bytes, &mut numbers, budget, work);
    print_check(rt, before(told.as_str().as_bytes(), b'\n'), state_of(work))
}

// The calls that take a workspace: the check, named "verdict", and those that change a vector. A budget past 32 bits is 0.
fn with_work(rt: &(impl Files + Print), line: &[u8], numbers: &[u16]) -> io::Result<()> {
    let mut room = [0u16; 24576];
    // The cast keeps the number, which has at most 44 bits; usize::try_from would name a failure that there is none of.
    let work = part_mut(&mut room, decimal(field(line, 6)) as usize);
    work.fill(SOIL);
    let budget = u32::try_from(decimal(field(line, 5))).unwrap_or(0);
    match field(line, 1) {
        [b'v', ..] => check_it(rt, line, budget, work),
        _ => change(rt, line, numbers, budget, work),
    }
}

fn with_numbers(rt: &(impl Files + Print), line: &[u8], numbers: &[u16]) -> io::Result<()> {
    match field(line, 1) {
        [b'j', ..] => judge_it(rt, numbers),
        [b'w', ..] => fetch(rt, line, numbers),
        [b'd', ..] => fathom(rt, line, numbers),
        _ => with_work(rt, line, numbers),
    }
}

fn call(rt: &(impl Files + Print), line: &[u8]) -> io::Result<()> {
    rt.write_all(field(line, 0))?;
    print!(rt; ":")?;
    let mut room = [0u16; 22963];
    let numbers = read_numbers(rt, field(line, 2), &mut room);
    with_numbers(rt, line, numbers)?;
    println!(rt)
}

fn main(rt: HostRuntime) -> io::Result<()> {
    each_line(&rt, b"calls", &mut [0u8; 131072], |line| call(&rt, line))
}
