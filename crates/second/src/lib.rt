// A second collector, to hold the first one against: the definition itself.
//
// A word is a row of letters, one generator to a place. The leftmost non-normal subword is looked
// for from the front and replaced, again and again, until there is none: p equal letters become
// w_i, and x_j x_i with j > i becomes x_i x_j w_ij. Each replacement counts 1. No vector, no slot
// and no stack are used, and a relation's word is found by walking the contents from their start,
// so that an error of the other collector is not likely to be made here a second time.
//
// It is a witness and makes no promise on what it computes. Proved are that it is safe on any
// numbers and any letters, that it ends, that the lengths and counts it answers are within their
// bounds, and that a word it calls normal is normal.
#![tactic(auto)]

mod leftmost;
mod letters;
mod relation;

ghost use Rattle.std.specs.Prelude.{◌≡◌, ◌+◌, ◌≤◌, ◌<◌, length, IfOk, MatchResult, get_or};
ghost use Rattle.second.specs.Normal.{Normal};
ghost use Rattle.second.specs.Reach.{reach};

use leftmost::{Kind, leftmost};
use letters::{close, insert_word};
pub use letters::{Full, append_vector, append_word, vector_of};
use relation::{number, word_of};

// The letters are lent, so that a caller chooses their room; they and how many of them are the word stand side by side.

// Letters that a rewriting made normal: how many they are now, and its replacements.
#[derive(Clone, Copy, PartialEq, Eq, Debug)]
pub struct Rewritten {
    pub len: usize,
    pub count: u32,
}

// Why there is no normal word. After NoRoom and Senseless the letters say nothing.
#[derive(Clone, Copy, PartialEq, Eq, Debug)]
pub enum Fault {
    // The word is not normal yet, and the limit is reached.
    Limit,
    // A word did not fit into the lent letters.
    NoRoom,
    // The numbers or the letters make no sense.
    Senseless,
}

// A rewriting that did not come to a normal word: its letters and replacements up to there.
#[derive(Clone, Copy, PartialEq, Eq, Debug)]
pub struct Stopped {
    pub fault: Fault,
    pub len: usize,
    pub count: u32,
}

// A replacement that could not be made, and how many letters there are now.
#[derive(Clone, Copy)]
struct Unmade {
    fault: Fault,
    len: usize,
}

// The p equal letters from `at` on become the word of their power.
fn power(
    numbers: &[u16],
    letters: &mut [u16],
    len: usize,
    at: usize,
    p: usize,
) -> Result<usize, Unmade>
    requires { (at + p ≤ len) × (at < len) × (len ≤ length letters.old) }
    ensures len_bound { MatchResult result (λ grown. grown ≤ length letters.old) (λ unmade. unmade.len ≤ length letters.old) }
    ensures letters_len_unchanged { length letters.new ≡ length letters.old }
{
    let i = letters[at];
    let Some(word) = word_of(numbers, i, i) else {
        return Err(Unmade {
            fault: Fault::Senseless,
            len,
        });
    };
    let rest = close(letters, len, at, p);
    insert_word(word, letters, rest, at).map_err(|full| Unmade {
        fault: Fault::NoRoom,
        len: full.len,
    })
}

// The letter at `at` and the lower one after it change places, and their relation's word follows.
fn exchange(numbers: &[u16], letters: &mut [u16], len: usize, at: usize) -> Result<usize, Unmade>
    requires { (at + 2 ≤ len) × (len ≤ length letters.old) }
    ensures len_bound { MatchResult result (λ grown. grown ≤ length letters.old) (λ unmade. unmade.len ≤ length letters.old) }
    ensures letters_len_unchanged { length letters.new ≡ length letters.old }
{
    let j = letters[at];
    let i = letters[at + 1];
    let Some(word) = word_of(numbers, i, j) else {
        return Err(Unmade {
            fault: Fault::Senseless,
            len,
        });
    };
    letters.swap(at, at + 1);
    insert_word(word, letters, len, at + 2).map_err(|full| Unmade {
        fault: Fault::NoRoom,
        len: full.len,
    })
}

// The non-normal subword that begins at `at` is replaced.
fn replace(
    numbers: &[u16],
    letters: &mut [u16],
    len: usize,
    at: usize,
    kind: Kind,
    p: usize,
) -> Result<usize, Unmade>
    requires { (at < len) × (at + reach kind p ≤ len) × (len ≤ length letters.old) }
    ensures len_bound { MatchResult result (λ grown. grown ≤ length letters.old) (λ unmade. unmade.len ≤ length letters.old) }
    ensures letters_len_unchanged { length letters.new ≡ length letters.old }
{
    match kind {
        Kind::Equal => power(numbers, letters, len, at, p),
        Kind::Falls => exchange(numbers, letters, len, at),
    }
}

// Replaces until the first `len` letters are normal or `limit` replacements are made.
pub fn rewrite(
    numbers: &[u16],
    letters: &mut [u16],
    len: usize,
    limit: u32,
) -> Result<Rewritten, Stopped>
    ensures bounds { MatchResult result (λ r. (r.len ≤ length letters.old) × (r.count ≤ limit))
        (λ s. (s.len ≤ length letters.old) × (s.count ≤ limit)) }
    ensures letters_len_unchanged { length letters.new ≡ length letters.old }
    ensures normal { IfOk result (λ r. Normal letters.new r.len (get_or numbers.now 0 0)) }
{
    let p = number(numbers, 0);
    if numbers.len() < 2 || p < 2 || len > letters.len() {
        return Err(Stopped {
            fault: Fault::Senseless,
            len: 0,
            count: 0,
        });
    }
    let mut len = len;
    for count in 0..limit {
        let Some((at, kind)) = leftmost(letters, len, p) else {
            return Ok(Rewritten { len, count });
        };
        len = replace(numbers, letters, len, at, kind, p).map_err(|unmade| Stopped {
            fault: unmade.fault,
            len: unmade.len,
            count,
        })?;
    }
    match leftmost(letters, len, p) {
        None => Ok(Rewritten { len, count: limit }),
        Some(_) => Err(Stopped {
            fault: Fault::Limit,
            len,
            count: limit,
        }),
    }
}
