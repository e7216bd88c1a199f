// The bodies: whether the pairs of every relation are right. Inner functions of this crate.
ghost use Rattle.std.specs.Prelude.{◌≡◌, ◌<◌};
ghost use Rattle.layout.specs.Header.{rank_of, exponent_in};
ghost use Rattle.layout.specs.Contents.{row_at};
ghost use Rattle.layout.specs.Bodies.{pair_right, stretch_right, row_right, bodies_right};

use crate::spanned::Spanned;
use crate::{Exponent, Generator, View};

// Whether a pair stands above the generator `low`, within the rank and with an exponent in range.
pub fn pair_right(view: View, low: Generator, g: Generator, a: Exponent) -> bool
    ensures { result ≡ pair_right (exponent_in view) view.rank.0 low.0 g.0 a.0 }
{
    low < g && g <= view.rank && Exponent(0) < a && a < view.prime
}

// Whether all pairs of a stretch are right, the first of them above `floor`.
pub fn stretch_right(stretch: &[u16], floor: Generator, view: View) -> bool
    ensures { result ≡ stretch_right (exponent_in view) view.rank.0 floor.0 stretch.now }
{
    let (pairs, rest) = stretch.as_chunks::<2>();
    let mut low = floor;
    for [g, a] in pairs {
        let g = Generator(*g);
        if !pair_right(view, low, g, Exponent(*a)) {
            return false;
        }
        low = g;
    }
    rest.is_empty()
}

impl<'a> Spanned<'a> {
    // Whether the stretches of row i are right, the first of which is named by `first`. The floor of the word for j is j, and the
    // c-th word of the row is the one for j = i + c + 1, so c is counted: it says both the entry and the floor.
    pub fn row_right(self, i: u16, first: usize) -> bool
        requires i_bound { i < rank_of self.listed.numbers.now }
        requires first_value { first ≡ row_at (rank_of self.listed.numbers.now) i }
        ensures { result ≡ row_right self.entry.listed.numbers.now i }
    {
        let view = self.listed.view;
        for c in 0..view.rank.0 - i {
            let stretch = self.stretch_at(first + usize::from(c));
            if !stretch_right(stretch, Generator(i + c + 1), view) {
                return false;
            }
        }
        true
    }

    // Whether every stretch is right: the rows one after the other, which is the order of the bodies.
    pub fn bodies_right(self) -> bool
        ensures { result ≡ bodies_right self.entry.listed.numbers.now }
    {
        let rank = self.listed.view.rank.0;
        let mut first: usize = 0;
        for i in 0..rank {
            if !self.row_right(i, first) {
                return false;
            }
            first += usize::from(rank - i);
        }
        true
    }
}
