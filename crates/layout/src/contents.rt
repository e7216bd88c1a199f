// The contents: the place of an entry, what it says, and the stretch of the lent numbers that it names.
// Inner functions, for this crate and those above.
ghost use Rattle.std.specs.Prelude.{◌≡◌, true, ◌+◌, ◌*◌, ◌≤◌, ◌<◌, eqb};
ghost use Rattle.layout.specs.Header.{rank_of};
ghost use Rattle.layout.specs.Header.{entries as entries_of};
ghost use Rattle.layout.specs.Contents.{Spans, row_at, place_of, body_at, stretch_at, Lies, starts_right, length_due};

use crate::header::entries;
use crate::listed::Listed;
use crate::spanned::Spanned;
use crate::{Generator, Span};

// Where row i of the contents begins, found by walking the rows before it: row 0 has the words w_j, row i the words w_ij.
pub fn row_of(rank: Generator, i: Generator) -> usize
    requires { i.0 ≤ rank.0 }
    ensures { (result ≡ row_at rank.0 i.0) × (result < 4294967296) }
{
    let mut row: usize = 0;
    for a in 0..i.0 {
        row += usize::from(rank.0 - a);
    }
    row
}

// The place of the entry of w_i (i = j) or w_ij among the contents.
pub fn entry_of(rank: Generator, i: Generator, j: Generator) -> usize
    requires { (1 ≤ i.0) × (i.0 ≤ j.0) × (j.0 ≤ rank.0) }
    ensures { result ≡ place_of rank.0 i.0 j.0 }
{
    if i == j {
        return usize::from(j.0 - 1);
    }
    row_of(rank, i) + usize::from(j.0 - i.0 - 1)
}

// Whether an entry starts where the pairs before it end, also where its own length is 0.
fn starts_at(span: Span, sum: usize) -> bool
    ensures { result ≡ eqb span.start sum }
{
    usize::from(span.start) == sum
}

impl<'a> Listed<'a> {
    // What an entry of the contents says. An entry stays a plain number: rows are walked by counting it up, and a type for the entries
    // of these numbers would be made anew at each step.
    pub fn span_at(self, entry: usize) -> Span
        requires { entry < entries_of (rank_of self.numbers.now) }
        ensures { Spans self.entry.numbers.now entry result }
    {
        let at = self.view.contents + 2 * entry;
        Span {
            start: self.numbers[at],
            pairs: self.numbers[at + 1],
        }
    }

    // Whether each start is the sum of all earlier lengths. The sum is wider than a start: it can pass 16 bits.
    pub fn starts_right(self) -> bool
        ensures { result ≡ starts_right self.entry.numbers.now }
    {
        let mut sum: usize = 0;
        for entry in 0..entries(self.view.rank) {
            let span = self.span_at(entry);
            if !starts_at(span, sum) {
                return false;
            }
            sum += usize::from(span.pairs);
        }
        true
    }

    // How many numbers there have to be. Where each start is right, the last entry's start and length sum to all the pairs.
    pub fn length_due(self) -> usize
        requires bound { 1 ≤ rank_of self.numbers.now }
        requires starts_value { starts_right self.numbers.now ≡ true }
        ensures { result ≡ length_due self.entry.numbers.now }
    {
        let last = self.span_at(entries(self.view.rank) - 1);
        self.view.bodies + 2 * (usize::from(last.start) + usize::from(last.pairs))
    }
}

// Where so many pairs end that begin at `start`.
fn end_of(start: usize, pairs: u16) -> usize
    requires { start < 9223372036854775808 }
    ensures { result ≡ start + 2 * pairs }
{
    start + 2 * usize::from(pairs)
}

impl<'a> Spanned<'a> {
    // The stretch of the numbers that an entry names: that part of the lent numbers itself.
    pub fn stretch_at(self, entry: usize) -> &'a [u16]
        requires { entry < entries_of (rank_of self.listed.numbers.now) }
        ensures result_value { result.now ≡ stretch_at self.entry.listed.numbers.now entry }
        ensures lies { Lies self.entry.listed.numbers (body_at self.entry.listed.numbers.now entry) result }
    {
        let span = self.listed.span_at(entry);
        let start = self.listed.view.bodies + 2 * usize::from(span.start);
        let end = end_of(start, span.pairs);
        &self.listed.numbers[start..end]
    }
}
