// Why a call is refused: document 01's table, one case for each of its numbers from 1 on. The number 0, DONE, is what is answered
// where nothing is refused.
ghost use Rattle.std.specs.Prelude.{◌≡◌};
ghost use Rattle.layout.specs.Refusals.{refusal_number};
ghost use Rattle.layout.specs.Refusals.{given as given_of};

// The cases stand in the order in which a call makes its checks.
#[derive(Clone, Copy, PartialEq, Eq, Debug)]
pub enum Refusal {
    // The presentation's numbers.
    Short = 1,
    Prime = 2,
    Rank = 3,
    Contents = 4,
    Length = 5,
    Body = 6,
    // The vector's and the word's.
    Vector = 7,
    Word = 8,
    // A placing's.
    Budget = 9,
    Room = 10,
}

// The number of the table.
impl From<Refusal> for u8 {
    ghost from_gives = { λ refusal number. number ≡ refusal_number refusal };

    fn from(refusal: Refusal) -> u8 {
        refusal as u8
    }
}

// The number that an answer gives back: 0, DONE, where nothing is refused.
pub fn given<T>(answer: &Result<T, Refusal>) -> u8
    ensures { result ≡ given_of answer.now }
{
    match answer {
        Ok(_) => 0,
        Err(refusal) => u8::from(*refusal),
    }
}
