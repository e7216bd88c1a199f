// The consistency check and its verdict.
#![tactic(auto)]

pub mod judging; // judging one overlap
pub mod searching; // the order of the overlaps, and the first that settles the verdict
pub mod sides; // the two sides of an overlap as starting slots

ghost use Rattle.std.specs.Prelude.{◌≡◌, ◌∷◌, ◌/◌, length};
ghost use Rattle.consistency.specs.Verdict.{family_of, generators_of};
ghost use Rattle.consistency.specs.Check.{without_vectors, check_of, work_after};

use layout::{Exponent, Generator, Refusal, accept};
use searching::search;

// The two families of pairs: 2, "w_j x_i against x_j^(p-1) x_i x_j w_ij", and 3, "x_i x_j w_ij x_i^(p-1) against x_j w_i".
#[derive(Clone, Copy, PartialEq, Eq, Debug)]
pub enum Family {
    Upper,
    Lower,
}

// An overlap with its generators, of family 1, 2 or 3, and 4.
#[derive(Clone, Copy, PartialEq, Eq, Debug)]
pub enum Overlap {
    Triple(Generator, Generator, Generator),
    Pair(Family, Generator, Generator),
    Single(Generator),
}

// The number of its family and its generators, 0 for one that it does not have.
impl From<Overlap> for [u16; 4] {
    ghost from_gives = { λ overlap numbers. numbers ≡ family_of overlap ∷ generators_of overlap };

    fn from(overlap: Overlap) -> [u16; 4] {
        match overlap {
            Overlap::Triple(i, j, k) => [1, i.0, j.0, k.0],
            Overlap::Pair(Family::Upper, i, j) => [2, i.0, j.0, 0],
            Overlap::Pair(Family::Lower, i, j) => [3, i.0, j.0, 0],
            Overlap::Single(i) => [4, i.0, 0, 0],
        }
    }
}

// What the check says: refused with 1 to 6, which have no overlap, or stopped with 9 or 10 at an overlap. An enum of its own, since PASS,
// DIFFERS and REFUSED are what the check is promised to say.
#[derive(Clone, Copy, PartialEq, Eq, Debug)]
pub enum Verdict {
    Pass,
    Differs(Overlap),
    Refused(Refusal),
    Stopped(Refusal, Overlap),
}

// The verdict and beside it the two vectors: 0 past n, and 0 unless it differs. They are fields beside the verdict, which every caller reads
// as promised, whatever the verdict.
#[derive(Clone, Copy, PartialEq, Eq, Debug)]
pub struct Checked {
    pub verdict: Verdict,
    pub left: [u8; 40],
    pub right: [u8; 40],
}

impl Checked {
    // A verdict that is not DIFFERS: both vectors are 0.
    fn without_vectors(verdict: Verdict) -> Checked
        ensures { result ≡ without_vectors verdict }
    {
        Checked {
            verdict,
            left: [0; 40],
            right: [0; 40],
        }
    }
}

// A power in a side.
#[derive(Clone, Copy)]
pub struct Part(pub Generator, pub Exponent);

// A side of an overlap, first part on top: up to three powers, the word w_ij (w_i for i = j), and up to one power.
#[derive(Clone, Copy)]
pub struct Side {
    pub first: Option<Part>,
    pub second: Option<Part>,
    pub third: Option<Part>,
    pub i: Generator,
    pub j: Generator,
    pub last: Option<Part>,
}

// Checks all overlaps in their order, and answers the first that differs or is refused.
pub fn check(numbers: &[u16], budget: u32, work: &mut [u16]) -> Checked
    ensures value { result ≡ check_of numbers.now budget (length work.old / 3) }
    ensures work_after { work.new ≡ work_after numbers.now work.old }
{
    let group = match accept(numbers) {
        Ok(group) => group,
        Err(refusal) => return Checked::without_vectors(Verdict::Refused(refusal)),
    };
    let checked = match search(group, budget, work) {
        Ok(()) => Checked::without_vectors(Verdict::Pass),
        Err(settled) => settled,
    };
    work.fill(0);
    checked
}
