// The header: p, n, and where the contents and the bodies begin. No other code reads a header number.
// Inner functions, for this crate and those above.
ghost use Rattle.std.specs.Prelude.{◌≡◌, ◌≤◌, ◌<◌, length};
ghost use Rattle.layout.specs.Header.{Seen};
ghost use Rattle.layout.specs.Header.{entries as entries_of};

use crate::{Exponent, Generator, View};

// R, the number of the contents' entries.
pub fn entries(rank: Generator) -> usize
    ensures { (result ≡ entries_of rank.0) × (result < 4294967296) }
{
    let n = usize::from(rank.0);
    n * (n + 1) / 2
}

// The view of numbers that have a whole header.
pub fn view_of(numbers: &[u16]) -> View
    requires { 2 ≤ length numbers.now }
    ensures { Seen numbers.now result }
{
    let rank = numbers[1];
    let contents = 2;
    let bodies = contents + 2 * entries(Generator(rank));
    View {
        prime: Exponent(numbers[0]),
        rank: Generator(rank),
        contents,
        bodies,
    }
}
