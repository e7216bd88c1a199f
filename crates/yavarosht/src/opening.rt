// Judging a presentation and fetching a relation's word, under C names. C can't be given a part of the lent numbers, so fetching
// stores where the part begins among them and how many numbers it has.
ghost use Rattle.std.specs.Prelude.{◌≡◌, length, IfOk};
ghost use Rattle.layout.specs.Judged.{judged};
ghost use Rattle.layout.specs.Refusals.{given};
ghost use Rattle.layout.specs.Words.{word_of, word_at};
ghost use Rattle.yavarosht.specs.Handed.{HandedPart};

use layout::{Generator, Refusal, accept, given, judge, names_relation};

// The number that the lent numbers get as a presentation: at the C interface a refusal is its number, for C has no `Result`.
pub fn yav_judge(numbers: &[u16]) -> u8
    ensures { result ≡ judged numbers.now }
{
    given(&judge(numbers))
}

// A part of the lent numbers, as C is told it: where it begins among them, and how many numbers it has.
#[derive(Clone, Copy)]
struct Part {
    start: u32,
    count: u32,
}

// The word of (i, j) as such a part. For a pair that names no relation it is the empty part at the beginning.
fn fetch(numbers: &[u16], i: Generator, j: Generator) -> Result<Part, Refusal>
    ensures number { given result ≡ judged numbers.now }
    ensures part { IfOk result (λ part. (part.start ≡ word_at numbers.now i.0 j.0) × (part.count ≡ length (word_of numbers.now i.0 j.0))) }
{
    let group = accept(numbers)?;
    if !names_relation(group.view.rank, i, j) {
        return Ok(Part { start: 0, count: 0 });
    }
    let span = group.span_of(i, j);
    // Accepted numbers are far fewer than 32 bits count.
    Ok(Part {
        start: group.view.bodies as u32 + 2 * u32::from(span.start),
        count: 2 * u32::from(span.pairs),
    })
}

// Where the word of (i, j) begins among the numbers, and how many numbers it has: for any pair and any numbers.
pub fn yav_fetch(numbers: &[u16], i: u16, j: u16, start: &mut u32, count: &mut u32) -> u8
    ensures { HandedPart numbers.now i j result start.new count.new }
{
    let fetched = fetch(numbers, Generator(i), Generator(j));
    let part = fetched.unwrap_or(Part { start: 0, count: 0 });
    *start = part.start;
    *count = part.count;
    given(&fetched)
}
