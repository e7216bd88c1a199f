// The public calls: collect, product, inverse, depth. Each judges its own input afresh, in the order of document 01's table, and refuses by
// its number; only then does it touch anything.
ghost use Rattle.std.specs.Prelude.{◌≡◌, ◌≤◌, length, IfOk};
ghost use Rattle.layout.specs.Refusals.{given};
ghost use Rattle.collector.specs.Running.{Sets, begun_at};
ghost use Rattle.collector.specs.Calls.{vector_number, closed, collect_call, product_call, inverse_call, depth_call, first_entry, Leaves, Fathoms};

use crate::Answer;
use crate::closing::close;
use crate::inputs::{read, vector_right, wordless};
use crate::inverting::invert;
use crate::running::settle;
use crate::starting::{start_powers, start_word};
use layout::{Generator, Group, Refusal, accept};
use placing::Texts;

// The presentation that the numbers give, where they and a vector are accepted; or the refusal of the one or the other.
pub fn judge_vector<'a>(numbers: &'a [u16], vector: &[u8]) -> Result<Group<'a>, Refusal>
    ensures number { given result ≡ vector_number numbers.now vector.now }
    ensures same { IfOk result (λ group. group.numbers ≡ numbers.entry) }
{
    let group = accept(numbers)?;
    if !vector_right(group.numbers, group.view, vector) {
        return Err(Refusal::Vector);
    }
    Ok(group)
}

// From the `depth` starting slots of the workspace to the end, on a vector of the call's own: the lent one is replaced only at DONE.
fn finish(texts: Texts, vector: &mut [u8], budget: u32, work: &mut [u16], depth: usize) -> Answer
    requires long { length vector.old ≤ 40 }
    requires sets { Sets texts.group.numbers.now texts.group.bodies.now vector.old texts.word.now budget 0 work.old depth }
    ensures { Leaves (closed (begun_at texts.entry.group.numbers.now texts.entry.group.bodies.now vector.old texts.entry.word.now budget 0 work.old depth)
        vector.old work.old) result vector.new work.new }
{
    let mut own = [0u8; 40];
    let own = &mut own[..vector.len()];
    own.copy_from_slice(vector);
    let answer = settle(texts, own, budget, 0, work, depth);
    close(vector, own, work, answer);
    answer
}

// Collects the word onto the vector, which it replaces where it answers DONE.
pub fn collect(
    numbers: &[u16],
    vector: &mut [u8],
    word: &[u16],
    budget: u32,
    work: &mut [u16],
) -> Answer
    ensures { Leaves (collect_call numbers.now vector.old word.now budget work.old) result
        vector.new work.new }
{
    let group = judge_vector(numbers, vector)?;
    let texts = read(group, word)?;
    let depth = start_word(texts.word, work);
    finish(texts, vector, budget, work, depth)
}

// The product of the left vector, which it replaces where it answers DONE, and the right one, which is only read.
pub fn product(
    numbers: &[u16],
    left: &mut [u8],
    right: &[u8],
    budget: u32,
    work: &mut [u16],
) -> Answer
    ensures { Leaves (product_call numbers.now left.old right.now budget work.old) result
        left.new work.new }
{
    let group = judge_vector(numbers, left)?;
    if !vector_right(group.numbers, group.view, right) {
        return Err(Refusal::Vector.into());
    }
    let depth = start_powers(right, work);
    finish(wordless(group), left, budget, work, depth)
}

// Replaces the vector by its inverse where it answers DONE. It is worked out on two vectors of the call's own.
pub fn inverse(numbers: &[u16], vector: &mut [u8], budget: u32, work: &mut [u16]) -> Answer
    ensures { Leaves (inverse_call numbers.now vector.old budget work.old) result
        vector.new work.new }
{
    let group = judge_vector(numbers, vector)?;
    let mut own = [0u8; 40];
    let own = &mut own[..vector.len()];
    own.copy_from_slice(vector);
    let mut found = [0u8; 40];
    let found = &mut found[..vector.len()];
    let answer = invert(group, own, found, budget, work);
    close(vector, found, work, answer);
    answer
}

// The number of the first entry that isn't 0, or `none` if there is no such entry.
fn first_entry(vector: &[u8], none: u16) -> u16
    requires { length vector.now ≤ 40 }
    ensures { result ≡ first_entry none 1 vector.now }
{
    vector
        .iter()
        .position(|entry| *entry != 0)
        .map_or(none, |at| Generator::at(at).0)
}

// The depth of a vector: the number of its first entry that isn't 0.
pub fn depth(numbers: &[u16], vector: &[u8]) -> Result<u16, Refusal>
    ensures { Fathoms (depth_call numbers.now vector.now) result }
{
    let group = judge_vector(numbers, vector)?;
    Ok(first_entry(vector, group.view.rank.0))
}
