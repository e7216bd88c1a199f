// The lent layout of a presentation: contents first, then bodies.
//
// A presentation is a lent slice of 16-bit numbers: p, n, the contents, the bodies. Public are `accept`, `judge` and `word_of`, which
// take any numbers whatever. The other functions are inner ones: they go by numbers of which something was judged before, and the
// value that they take says what (`Listed`, then `Spanned`, then `Group`, by which the crates above go). They judge nothing again.
#![tactic(auto)]

pub mod bodies; // the pairs of every relation
pub mod contents; // the entries, their order, and the stretch that each names
pub mod group; // numbers that were judged and accepted
pub mod header; // p, n, and where the contents and the bodies begin
pub mod judging; // whether numbers are accepted, or why not
pub mod listed; // numbers with a header and all its entries
pub mod prime; // the primes from 2 to 251
pub mod refusal; // why a call is refused
pub mod spanned; // numbers whose contents and length were judged
pub mod words; // fetching a relation's word

ghost use Rattle.std.specs.Prelude.{◌≡◌, ◌+◌, ◌<◌};

pub use contents::{entry_of, row_of};
pub use group::Group;
pub use header::view_of;
pub use judging::{accept, judge};
pub use refusal::{Refusal, given};
pub use words::{names_relation, word_of};

// The number of a generator, 1 to n.
#[derive(Clone, Copy, PartialEq, Eq, PartialOrd, Ord, Debug)]
pub struct Generator(pub u16);

impl Generator {
    // The generator of the entry at an index. There are at most 40, so the cast is exact: `try_from` would have a branch that nothing takes.
    pub fn at(index: usize) -> Generator
        requires { index < 40 }
        ensures { result.0 ≡ index + 1 }
    {
        Generator((index + 1) as u16)
    }
}

// An exponent of a generator.
#[derive(Clone, Copy, PartialEq, Eq, PartialOrd, Ord, Debug)]
pub struct Exponent(pub u16);

// The header by value: read once, so that nothing else says where a header number stands.
#[derive(Clone, Copy, PartialEq, Eq, Debug)]
pub struct View {
    // p.
    pub prime: Exponent,
    // The last generator, x_n.
    pub rank: Generator,
    // Where the contents begin in the numbers.
    pub contents: usize,
    // Where the bodies begin.
    pub bodies: usize,
}

// An entry of the contents, counted in pairs, the start from the first body.
#[derive(Clone, Copy, PartialEq, Eq, Debug)]
pub struct Span {
    pub start: u16,
    pub pairs: u16,
}
