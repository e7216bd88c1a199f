// How many overlaps a presentation of rank n has.
ghost use Rattle.std.specs.Prelude.{◌≡◌};
ghost use Rattle.line.specs.Line.{overlaps_of};

use layout::Generator;

// The number of overlaps of all four families. It is right for any rank of 16 bits, so the product is made in 64.
pub fn overlaps(rank: Generator) -> u64
    ensures { result ≡ overlaps_of rank.0 }
{
    let n = u64::from(rank.0);
    let pairs = n * n.saturating_sub(1);
    pairs * n.saturating_sub(2) / 6 + pairs + n
}
