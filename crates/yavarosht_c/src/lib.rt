// The C library: each function of the C face under its C name, with its clauses. Nothing is decided here: each export calls the
// function of yavarosht that has its name. include/yavarosht.h says the same in the words of C.
// The C interface is why the seven stand twice: a crate is a library for other crates or a static library for C, not both.
#![tactic(auto)]

ghost use Rattle.std.specs.Prelude.{◌≡◌};
ghost use Rattle.layout.specs.Judged.{judged};
ghost use Rattle.collector.specs.Calls.{collect_call, product_call, inverse_call, depth_call};
ghost use Rattle.yavarosht.specs.Handed.{Handed, HandedDepth, HandedPart};
ghost use Rattle.yavarosht.specs.Verdict.{HandedVerdict};

use yavarosht::{calls, checking, opening};

// The number that the lent numbers get as a presentation.
#[unsafe(no_mangle)]
pub extern "C" fn yav_judge(numbers: &[u16]) -> u8
    ensures { result ≡ judged numbers.now }
{
    opening::yav_judge(numbers)
}

// Where the word of (i, j) begins among the numbers, and how many numbers it has: for any pair and any numbers.
#[unsafe(no_mangle)]
pub extern "C" fn yav_fetch(numbers: &[u16], i: u16, j: u16, start: &mut u32, count: &mut u32) -> u8
    ensures { HandedPart numbers.now i j result start.new count.new }
{
    opening::yav_fetch(numbers, i, j, start, count)
}

// Collects the word onto the vector.
#[unsafe(no_mangle)]
pub extern "C" fn yav_collect(
    numbers: &[u16],
    vector: &mut [u8],
    word: &[u16],
    budget: u32,
    work: &mut [u16],
    count: &mut u32,
) -> u8
    ensures { Handed (collect_call numbers.now vector.old word.now budget work.old)
        result count.new vector.new work.new }
{
    calls::yav_collect(numbers, vector, word, budget, work, count)
}

// The product of the left vector, which it replaces, and the right one, which is only read.
#[unsafe(no_mangle)]
pub extern "C" fn yav_product(
    numbers: &[u16],
    left: &mut [u8],
    right: &[u8],
    budget: u32,
    work: &mut [u16],
    count: &mut u32,
) -> u8
    ensures { Handed (product_call numbers.now left.old right.now budget work.old)
        result count.new left.new work.new }
{
    calls::yav_product(numbers, left, right, budget, work, count)
}

// Replaces the vector by its inverse.
#[unsafe(no_mangle)]
pub extern "C" fn yav_inverse(
    numbers: &[u16],
    vector: &mut [u8],
    budget: u32,
    work: &mut [u16],
    count: &mut u32,
) -> u8
    ensures { Handed (inverse_call numbers.now vector.old budget work.old)
        result count.new vector.new work.new }
{
    calls::yav_inverse(numbers, vector, budget, work, count)
}

// The depth of a vector.
#[unsafe(no_mangle)]
pub extern "C" fn yav_depth(numbers: &[u16], vector: &[u8], found: &mut u32) -> u8
    ensures { HandedDepth (depth_call numbers.now vector.now) result found.new }
{
    calls::yav_depth(numbers, vector, found)
}

// Checks all overlaps in their order.
#[unsafe(no_mangle)]
pub extern "C" fn yav_check(
    numbers: &[u16],
    budget: u32,
    work: &mut [u16],
    overlap: &mut [u16; 4],
    left: &mut [u8; 40],
    right: &mut [u8; 40],
) -> u8
    ensures { HandedVerdict numbers.now budget work.old
        result overlap.new left.new right.new work.new }
{
    checking::yav_check(numbers, budget, work, overlap, left, right)
}
