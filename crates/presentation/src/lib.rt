// The opened presentation: a record over the lent numbers, and the calls over it.
//
// Opening gives the record, and whether the numbers are accepted is a field of the record itself. The record is passed by value: it is
// copied like a number and holds no `&mut`. Each call over it takes the record apart and calls the function on plain parameters on its
// numbers: that one judges the numbers afresh, and what the record says it was judged, its p and its n are read by no call. A record
// that was put together by hand, with another p or n, changes nothing. Each call is a function of this name and these parameters, as
// README has them.
#![tactic(auto)]

ghost use Rattle.std.specs.Prelude.{◌≡◌, ◌/◌, length};
ghost use Rattle.layout.specs.Contents.{Lies};
ghost use Rattle.layout.specs.Words.{word_of, word_at};
ghost use Rattle.collector.specs.Calls.{collect_call, product_call, inverse_call, depth_call, Leaves, Fathoms};
ghost use Rattle.consistency.specs.Check.{check_of, work_after};
ghost use Rattle.presentation.specs.Opened.{stood, Opens};

use collector::Answer;
use consistency::Checked;
use layout::{Exponent, Generator, Refusal, accept};

// A record and no `Result`: a refused opening is promised to be one too, of which p and n are 0 and which stands over no numbers.
#[derive(Clone, Copy)]
pub struct Presentation<'a> {
    // Whether the numbers are accepted, or why not.
    pub judged: Result<(), Refusal>,
    // p, and the last generator, x_n; both 0 if they are refused.
    pub p: Exponent,
    pub n: Generator,
    // The lent numbers; the empty part at their beginning if they are refused.
    pub numbers: &'a [u16],
}

pub fn open(numbers: &[u16]) -> Presentation<'_>
    ensures { Opens numbers.entry result }
{
    match accept(numbers) {
        Ok(group) => Presentation {
            judged: Ok(()),
            p: group.view.prime,
            n: group.view.rank,
            numbers: group.numbers,
        },
        Err(refusal) => Presentation {
            judged: Err(refusal),
            p: Exponent(0),
            n: Generator(0),
            numbers: &numbers[..0],
        },
    }
}

pub fn word_of<'a>(presentation: Presentation<'a>, i: Generator, j: Generator) -> &'a [u16]
    ensures result_value { result.now ≡ word_of presentation.entry.numbers.now i.0 j.0 }
    ensures lies { Lies presentation.entry.numbers (word_at presentation.entry.numbers.now i.0 j.0) result }
{
    layout::word_of(presentation.numbers, i, j)
}

pub fn collect(
    presentation: Presentation,
    vector: &mut [u8],
    word: &[u16],
    budget: u32,
    work: &mut [u16],
) -> Answer
    ensures { Leaves (collect_call presentation.entry.numbers.now vector.old word.now budget work.old) result
        vector.new work.new }
{
    collector::collect(presentation.numbers, vector, word, budget, work)
}

pub fn product(
    presentation: Presentation,
    left: &mut [u8],
    right: &[u8],
    budget: u32,
    work: &mut [u16],
) -> Answer
    ensures { Leaves (product_call presentation.entry.numbers.now left.old right.now budget work.old) result
        left.new work.new }
{
    collector::product(presentation.numbers, left, right, budget, work)
}

pub fn inverse(
    presentation: Presentation,
    vector: &mut [u8],
    budget: u32,
    work: &mut [u16],
) -> Answer
    ensures { Leaves (inverse_call presentation.entry.numbers.now vector.old budget work.old) result
        vector.new work.new }
{
    collector::inverse(presentation.numbers, vector, budget, work)
}

pub fn depth(presentation: Presentation, vector: &[u8]) -> Result<u16, Refusal>
    ensures { Fathoms (depth_call presentation.entry.numbers.now vector.now) result }
{
    collector::depth(presentation.numbers, vector)
}

pub fn check(presentation: Presentation, budget: u32, work: &mut [u16]) -> Checked
    ensures value { result ≡ check_of presentation.entry.numbers.now budget (length work.old / 3) }
    ensures work_after { work.new ≡ work_after presentation.entry.numbers.now work.old }
{
    consistency::check(presentation.numbers, budget, work)
}

// Opens the numbers and collects over what was opened: its parameters are plain, for callers that keep no record.
pub fn collect_opened(
    numbers: &[u16],
    vector: &mut [u8],
    word: &[u16],
    budget: u32,
    work: &mut [u16],
) -> Answer
    ensures { Leaves (collect_call (stood numbers.now) vector.old word.now budget work.old) result
        vector.new work.new }
{
    collect(open(numbers), vector, word, budget, work)
}
