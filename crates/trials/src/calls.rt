// One call of the proved collector and the same by the second one: whether vectors and counts agree. Each call has a workspace or
// letters of its own, so that the functions above lend none.
use crate::groups::{Group, Vector};
use collector::{Answer, Refused, collect, inverse, product};
use second::{Rewritten, append_vector, append_word, rewrite, vector_of};
use std::fmt;
use total::{part, part_mut};

// More than any of these calls needs; a call that needs more is a disagreement.
const BUDGET: u32 = 1000000;

// Numbers in a workspace, room for 200 slots, and letters.
const WORK: usize = 600;

const LETTERS: usize = 512;

// What is asked of a vector: a word is collected onto it, it is multiplied by one on its right, or it is inverted.
#[derive(Clone, Copy)]
pub enum Call<'a> {
    Word(&'a [u16]),
    Product(Vector),
    Inverse,
}

impl fmt::Display for Call<'_> {
    fn fmt<W: fmt::Write>(&self, f: &mut fmt::Formatter<W>) -> fmt::Result {
        f.write_str(match self {
            Call::Word(_) => "a word",
            Call::Product(_) => "a product",
            Call::Inverse => "an inverse",
        })
    }
}

// The collectors found different vectors or counts, or one of them found none, after so many replacements by the proved one.
#[derive(Clone, Copy)]
pub struct Disagreement {
    pub count: u32,
}

// The call by the proved collector.
fn first(group: Group, vector: &mut Vector, call: Call) -> Answer {
    let Group { n, numbers, .. } = group;
    let vector = part_mut(vector, usize::from(n));
    let mut work = [0u16; WORK];
    match call {
        Call::Word(word) => collect(numbers, vector, word, BUDGET, &mut work),
        Call::Product(right) => {
            let right = part(&right, usize::from(n));
            product(numbers, vector, right, BUDGET, &mut work)
        }
        Call::Inverse => inverse(numbers, vector, BUDGET, &mut work),
    }
}

// The call by the second collector: a word, or a right factor's normal word, is appended to the vector's normal word. An inverse appends
// nothing. Why a call found no vector is not asked: it is a disagreement.
fn second_appends(numbers: &[u16], vector: &mut [u8], call: Call) -> Option<u32> {
    let mut letters = [0; LETTERS];
    let len = append_vector(vector, &mut letters, 0).ok()?;
    let len = match call {
        Call::Word(word) => append_word(word, &mut letters, len).ok()?,
        Call::Product(right) => append_vector(&right, &mut letters, len).ok()?,
        Call::Inverse => len,
    };
    let Rewritten { len, count } = rewrite(numbers, &mut letters, len, BUDGET).ok()?;
    (vector_of(&letters, len, vector) == len).then_some(count)
}

// Generator by generator, the entry there is brought to 0 by the power that the inverse has.
fn second_inverts(group: Group, vector: &mut Vector) -> Option<u32> {
    let mut stands = *vector;
    let mut count: u32 = 0;
    for (at, entry) in vector.iter_mut().enumerate() {
        let a = stands[at];
        *entry = if a == 0 { 0 } else { group.p.saturating_sub(a) };
        let power = [u16::try_from(at + 1).ok()?, u16::from(*entry)];
        count = count.saturating_add(second_appends(
            group.numbers,
            &mut stands,
            Call::Word(&power),
        )?);
    }
    Some(count)
}

fn second(group: Group, vector: &mut Vector, call: Call) -> Option<u32> {
    match call {
        Call::Inverse => second_inverts(group, vector),
        Call::Word(_) | Call::Product(_) => second_appends(group.numbers, vector, call),
    }
}

// Whether both find a vector, the same one, with the same count of replacements.
pub fn held(group: Group, vector: Vector, call: Call) -> Result<u32, Disagreement> {
    let mut ours = vector;
    let mut other = vector;
    match (
        first(group, &mut ours, call),
        second(group, &mut other, call),
    ) {
        (Ok(count), Some(same)) if count == same && ours == other => Ok(count),
        (Ok(count), _) | (Err(Refused { count, .. }), _) => Err(Disagreement { count }),
    }
}
