// Judging what a call is handed besides the presentation. Inner functions, for this crate and those above. The two judgements ask no more
// than a header, so the numbers and their view stay two parameters: accepted numbers would be more than they need.
ghost use Rattle.std.specs.Prelude.{◌≡◌, [], IfOk};
ghost use Rattle.layout.specs.Header.{Seen};
ghost use Rattle.layout.specs.Refusals.{given};
ghost use Rattle.collector.specs.Inputs.{vector_right, word_right};
ghost use Rattle.collector.specs.Calls.{word_number};

use layout::{Group, Refusal, View};
use placing::Texts;

// Whether the vector has n entries, each below p.
pub fn vector_right(numbers: &[u16], view: View, vector: &[u8]) -> bool
    requires { Seen numbers.now view }
    ensures { result ≡ vector_right numbers.now vector.now }
{
    vector.len() == usize::from(view.rank.0) && vector.iter().all(|a| u16::from(*a) < view.prime.0)
}

// Whether the word has at most 4,096 pairs, each of a generator from 1 to n and an exponent at least 1.
pub fn word_right(numbers: &[u16], view: View, word: &[u16]) -> bool
    requires { Seen numbers.now view }
    ensures { result ≡ word_right numbers.now word.now }
{
    if 8192 < word.len() {
        return false;
    }
    let (pairs, rest) = word.as_chunks::<2>();
    rest.is_empty()
        && pairs
            .iter()
            .all(|[g, a]| 1 <= *g && *g <= view.rank.0 && 1 <= *a)
}

// What a collection of the word reads, or the refusal of the word.
pub(crate) fn read<'a>(group: Group<'a>, word: &'a [u16]) -> Result<Texts<'a>, Refusal>
    ensures number { given result ≡ word_number group.entry.numbers.now word.now }
    ensures same { IfOk result (λ texts. (texts.group ≡ group.entry) × (texts.word ≡ word.entry)) }
{
    if !word_right(group.numbers, group.view, word) {
        return Err(Refusal::Word);
    }
    Ok(Texts { group, word })
}

// What is read where there is no input word: products, inverses and the check.
pub fn wordless<'a>(group: Group<'a>) -> Texts<'a>
    ensures { (result.group ≡ group.entry) × (result.word.now ≡ []) }
{
    Texts {
        group,
        word: &group.numbers[..0],
    }
}
