// Fetching a relation's word: `word_of` for any numbers, and `span_of` and `stretch_of`, inner functions for the crates above, for
// numbers that were judged.
ghost use Rattle.std.specs.Prelude.{◌≡◌, ◌≤◌, ◌<◌};
ghost use Rattle.layout.specs.Header.{rank_of};
ghost use Rattle.layout.specs.Contents.{Spans, place_of, body_at, stretch_of, Lies};
ghost use Rattle.layout.specs.Words.{names_relation, word_of, word_at};

use crate::contents::entry_of;
use crate::judging::accept;
use crate::listed::Listed;
use crate::spanned::Spanned;
use crate::{Generator, Group, Span};

impl<'a> Group<'a> {
    // What was known of the numbers before their bodies were judged.
    pub fn spanned(self) -> Spanned<'a>
        ensures { result.listed.numbers ≡ self.entry.numbers }
    {
        let listed = Listed {
            numbers: self.numbers,
            view: self.view,
        };
        Spanned { listed }
    }

    // Start and length of w_i (i = j) or w_ij, in pairs. Here, below and in `entry_of` i and j stay two arguments, as in `word_of`, whose form
    // is promised: a type for the pair would carry n, and each use would have to hold that n against the group's.
    #[tactic(auto, using(crate::proofs::Accepted::place_listed))]
    pub fn span_of(self, i: Generator, j: Generator) -> Span
        requires { (1 ≤ i.0) × (i.0 ≤ j.0) × (j.0 ≤ rank_of self.numbers.now) }
        ensures { Spans self.entry.numbers.now (place_of (rank_of self.entry.numbers.now) i.0 j.0) result }
    {
        let listed = self.spanned().listed;
        listed.span_at(entry_of(self.view.rank, i, j))
    }

    // The part of the lent numbers itself that holds w_i (i = j) or w_ij.
    #[tactic(auto, using(crate::proofs::Accepted::place_listed))]
    pub fn stretch_of(self, i: Generator, j: Generator) -> &'a [u16]
        requires { (1 ≤ i.0) × (i.0 ≤ j.0) × (j.0 ≤ rank_of self.numbers.now) }
        ensures result_value { result.now ≡ stretch_of self.entry.numbers.now i.0 j.0 }
        ensures lies { Lies self.entry.numbers (body_at self.entry.numbers.now (place_of (rank_of self.entry.numbers.now) i.0 j.0)) result }
    {
        self.spanned().stretch_at(entry_of(self.view.rank, i, j))
    }
}

// Whether (i, j) names a relation: 1 ≤ i ≤ j ≤ n.
pub fn names_relation(rank: Generator, i: Generator, j: Generator) -> bool
    ensures { result ≡ names_relation rank.0 i.0 j.0 }
{
    Generator(1) <= i && i <= j && j <= rank
}

// The part of the lent numbers itself that holds w_i (i = j) or w_ij; for any other pair, and for numbers that are not accepted,
// the empty part at their beginning: no Option, since the call's promise names that part.
pub fn word_of(numbers: &[u16], i: Generator, j: Generator) -> &[u16]
    ensures result_value { result.now ≡ word_of numbers.now i.0 j.0 }
    ensures lies { Lies numbers.entry (word_at numbers.now i.0 j.0) result }
{
    match accept(numbers) {
        Ok(group) if names_relation(group.view.rank, i, j) => group.stretch_of(i, j),
        _ => &numbers[..0],
    }
}
