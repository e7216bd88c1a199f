// The collector: collecting a word onto a vector, products, inverses and depths.
#![tactic(auto)]

pub mod calls; // collect, product, inverse, depth
pub mod closing; // clearing the workspace, replacing the vector
pub mod inputs; // judging vectors and words
pub mod inverting; // the inverse, generator by generator
pub mod running; // the run under budget and room
pub mod starting; // starting slots

ghost use Rattle.std.specs.Prelude.{◌≡◌};

pub use calls::{collect, depth, inverse, product};
use layout::Refusal;

// Why a call is refused, and the count of replacements before that: 0 where what it was handed is refused.
#[derive(Clone, Copy, PartialEq, Eq, Debug)]
pub struct Refused {
    pub refusal: Refusal,
    pub count: u32,
}

// "Every refusal but 9 and 10 answers count 0".
impl From<Refusal> for Refused {
    ghost from_gives = { λ refusal refused. (refused.refusal ≡ refusal) × (refused.count ≡ 0) };

    fn from(refusal: Refusal) -> Refused {
        Refused { refusal, count: 0 }
    }
}

// What a call answers: the count of replacements, or why it is refused.
pub type Answer = Result<u32, Refused>;
