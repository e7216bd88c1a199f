// Collecting, products, inverses and depths, under C names. An answer's number is what a function returns, its count (or depth) what it
// stores. The order of the parameters is that of the calls, and what is stored comes last.
ghost use Rattle.std.specs.Prelude.{◌≡◌};
ghost use Rattle.collector.specs.Given.{number_in, count_in};
ghost use Rattle.collector.specs.Calls.{collect_call, product_call, inverse_call, depth_call};
ghost use Rattle.yavarosht.specs.Handed.{Handed, HandedDepth};

use collector::{Answer, collect, depth, inverse, product};
use layout::given;

// Stores the count of an answer and gives its number: at the C interface an answer is these two, for C has no `Result`.
fn hand_out(answer: Answer, count: &mut u32) -> u8
    ensures number { result ≡ number_in answer }
    ensures count_after { count.new ≡ count_in answer }
{
    match answer {
        Ok(replacements) => {
            *count = replacements;
            0
        }
        Err(refused) => {
            *count = refused.count;
            u8::from(refused.refusal)
        }
    }
}

// Collects the word onto the vector.
pub fn yav_collect(
    numbers: &[u16],
    vector: &mut [u8],
    word: &[u16],
    budget: u32,
    work: &mut [u16],
    count: &mut u32,
) -> u8
    ensures { Handed (collect_call numbers.now vector.old word.now budget work.old)
        result count.new vector.new work.new }
{
    let collected = collect(numbers, vector, word, budget, work);
    hand_out(collected, count)
}

// The product of the left vector, which it replaces, and the right one, which is only read.
pub fn yav_product(
    numbers: &[u16],
    left: &mut [u8],
    right: &[u8],
    budget: u32,
    work: &mut [u16],
    count: &mut u32,
) -> u8
    ensures { Handed (product_call numbers.now left.old right.now budget work.old)
        result count.new left.new work.new }
{
    let multiplied = product(numbers, left, right, budget, work);
    hand_out(multiplied, count)
}

// Replaces the vector by its inverse.
pub fn yav_inverse(
    numbers: &[u16],
    vector: &mut [u8],
    budget: u32,
    work: &mut [u16],
    count: &mut u32,
) -> u8
    ensures { Handed (inverse_call numbers.now vector.old budget work.old)
        result count.new vector.new work.new }
{
    let inverted = inverse(numbers, vector, budget, work);
    hand_out(inverted, count)
}

// The depth of a vector.
pub fn yav_depth(numbers: &[u16], vector: &[u8], found: &mut u32) -> u8
    ensures { HandedDepth (depth_call numbers.now vector.now) result found.new }
{
    let fathomed = depth(numbers, vector);
    *found = u32::from(fathomed.unwrap_or(0));
    given(&fathomed)
}
