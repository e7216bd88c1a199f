// From the bytes of a file to the line that the program prints: the rule on the number of bytes, the numbers, the check, the line.
// `program_line` is the program as a function; only reading and writing are left to do.
#![tactic(auto)]

ghost use Rattle.std.specs.Prelude.{◌≡◌, ◌/◌, ◌≤◌, length};
ghost use Rattle.answer.specs.File.{bytes_right, prime_in, rank_in, check_line, answer_of, program_line};

use consistency::check;
use layout::{Exponent, Generator, Refusal, view_of};
use line::{Line, line_of, refused_line};
use text::numbers_of;

// The most bytes that a presentation takes: 22,962 numbers.
const MOST: usize = 45924;

// Whether a file has a right number of bytes: even, and no more than a presentation takes.
pub fn bytes_right(bytes: &[u8]) -> bool
    ensures { result ≡ bytes_right bytes.now }
{
    bytes.len() % 2 == 0 && bytes.len() <= MOST
}

// p and n of numbers that have a header, and 0 otherwise: two numbers and no Option, since the definitions `prime_in` and `rank_in` say so.
fn named_in(numbers: &[u16]) -> (Exponent, Generator)
    ensures { (result.0.0 ≡ prime_in numbers.now) × (result.1.0 ≡ rank_in numbers.now) }
{
    if numbers.len() < 2 {
        return (Exponent(0), Generator(0));
    }
    let view = view_of(numbers);
    (view.prime, view.rank)
}

// Checks the numbers and answers the line.
#[tactic(auto, unfolding(crate::specs::File::check_line))]
fn checked_line(numbers: &[u16], budget: u32, work: &mut [u16]) -> Line
    ensures { result.bytes ≡ check_line numbers.now budget (length work.old / 3) }
{
    let (prime, rank) = named_in(numbers);
    line_of(prime, rank, check(numbers, budget, work))
}

// The line for the bytes of a file. The numbers are made in `numbers`.
#[tactic(auto, using(crate::proofs::Answers::decided))]
pub fn line_for(bytes: &[u8], numbers: &mut [u16], budget: u32, work: &mut [u16]) -> Line
    requires { 22962 ≤ length numbers.old }
    ensures { result.bytes ≡ answer_of bytes.now budget (length work.old / 3) }
{
    if !bytes_right(bytes) {
        return refused_line(Refusal::Length);
    }
    let count = numbers_of(bytes, numbers);
    checked_line(&numbers[..count], budget, work)
}

// What the program prints for the bytes of a file: with budget 1,000,000 and room 8,192, three numbers a slot.
pub fn program_line(bytes: &[u8]) -> Line
    ensures { result.bytes ≡ program_line bytes.now }
{
    let mut numbers = [0u16; 22962];
    let mut work = [0u16; 24576];
    line_for(bytes, &mut numbers, 1000000, &mut work)
}
