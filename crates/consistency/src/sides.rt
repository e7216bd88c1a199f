// The two sides of an overlap as starting slots. Inner functions of this crate.
ghost use Rattle.std.specs.Prelude.{◌≡◌, ◌≤◌, ◌/◌, length, drop};
ghost use Rattle.theory.specs.Overlaps.{Among};
ghost use Rattle.layout.specs.Header.{rank_of, bodies_at};
ghost use Rattle.layout.specs.Relations.{presentation};
ghost use Rattle.collector.specs.Running.{Answers};
ghost use Rattle.consistency.specs.Sides.{left_pieces, right_pieces, worded, side_pieces, IfPartRight, SideRight};
ghost use Rattle.consistency.specs.Check.{overlap_of, side_outcome};
ghost use Rattle.consistency.specs.Laying.{Laid, Lays, LaysPart};

use crate::{Family, Overlap, Part, Side};
use collector::Answer;
use collector::inputs::wordless;
use collector::running::settle;
use collector::starting::put;
use layout::{Exponent, Generator, Group};
use slots::Slot;

// Puts a power on `depth` slots, if there is one, and answers how many slots there are then.
fn put_part(work: &mut [u16], depth: usize, part: Option<Part>) -> usize
    requires { (depth ≤ 1000) × IfPartRight 40 part }
    ensures { LaysPart part work.old depth work.new result }
{
    let Some(power) = part else {
        return depth;
    };
    put(work, depth, Slot::Power(power.0, power.1));
    depth + 1
}

// Puts the word w_ij (w_i for i = j) on `depth` slots, if it is not empty, and answers how many slots there are then.
fn put_word(group: Group, i: Generator, j: Generator, work: &mut [u16], depth: usize) -> usize
    requires le_i { (1 ≤ i.0) × (i.0 ≤ j.0) × (j.0 ≤ rank_of group.numbers.now) }
    requires depth_bound { depth ≤ 1000 }
    ensures { let nums = group.entry.numbers.now in
        Lays (rank_of nums) (drop (bodies_at nums) nums) (worded nums i.0 j.0) work.old depth work.new result }
{
    let span = group.span_of(i, j);
    if span.pairs == 0 {
        return depth;
    }
    put(work, depth, Slot::from(span));
    depth + 1
}

// Puts the parts of a side, the last one first, and answers how many slots that is.
fn put_side(group: Group, side: Side, work: &mut [u16]) -> usize
    requires { SideRight (rank_of group.numbers.now) side }
    ensures few { result ≤ 1000 }
    ensures laid { let nums = group.entry.numbers.now in
        Laid (rank_of nums) (drop (bodies_at nums) nums) (side_pieces nums side) work.new result }
{
    let last = put_part(work, 0, side.last);
    let word = put_word(group, side.i, side.j, work, last);
    let third = put_part(work, word, side.third);
    let second = put_part(work, third, side.second);
    put_part(work, second, side.first)
}

// "Each side is collected from the identity .. with the whole budget and the whole room afresh."
pub fn collect_side(
    group: Group,
    side: Side,
    vector: &mut [u8],
    budget: u32,
    work: &mut [u16],
) -> Answer
    requires side_right { SideRight (rank_of group.numbers.now) side }
    requires vector_len { length vector.old ≡ rank_of group.numbers.now }
    ensures { let nums = group.entry.numbers.now in
        Answers (side_outcome nums budget (length work.old / 3) (side_pieces nums side)) work.old vector.new work.new result }
{
    vector.fill(0);
    let depth = put_side(group, side, work);
    settle(wordless(group), vector, budget, 0, work, depth)
}

// The left side and the right one: "x_j x_k w_jk x_i" and "x_k x_i x_j w_ij", "w_j x_i" and "x_j^(p-1) x_i x_j w_ij",
// "x_i x_j w_ij x_i^(p-1)" and "x_j w_i", "w_i x_i" and "x_i w_i".
pub fn sides_of(group: Group, o: Overlap) -> (Side, Side)
    requires { Among (presentation group.numbers.now) 1 (overlap_of o) }
    ensures left_right { SideRight (rank_of group.entry.numbers.now) result.0 }
    ensures right_right { SideRight (rank_of group.entry.numbers.now) result.1 }
    ensures left_value { side_pieces group.entry.numbers.now result.0 ≡ left_pieces group.entry.numbers.now (overlap_of o) }
    ensures right_value { side_pieces group.entry.numbers.now result.1 ≡ right_pieces group.entry.numbers.now (overlap_of o) }
{
    match o {
        Overlap::Triple(i, j, k) => (
            Side {
                first: Some(Part(j, Exponent(1))),
                second: Some(Part(k, Exponent(1))),
                third: None,
                i: j,
                j: k,
                last: Some(Part(i, Exponent(1))),
            },
            Side {
                first: Some(Part(k, Exponent(1))),
                second: Some(Part(i, Exponent(1))),
                third: Some(Part(j, Exponent(1))),
                i,
                j,
                last: None,
            },
        ),
        Overlap::Pair(Family::Upper, i, j) => (
            Side {
                first: None,
                second: None,
                third: None,
                i: j,
                j,
                last: Some(Part(i, Exponent(1))),
            },
            Side {
                first: Some(Part(j, Exponent(group.view.prime.0 - 1))),
                second: Some(Part(i, Exponent(1))),
                third: Some(Part(j, Exponent(1))),
                i,
                j,
                last: None,
            },
        ),
        Overlap::Pair(Family::Lower, i, j) => (
            Side {
                first: Some(Part(i, Exponent(1))),
                second: Some(Part(j, Exponent(1))),
                third: None,
                i,
                j,
                last: Some(Part(i, Exponent(group.view.prime.0 - 1))),
            },
            Side {
                first: Some(Part(j, Exponent(1))),
                second: None,
                third: None,
                i,
                j: i,
                last: None,
            },
        ),
        Overlap::Single(i) => (
            Side {
                first: None,
                second: None,
                third: None,
                i,
                j: i,
                last: Some(Part(i, Exponent(1))),
            },
            Side {
                first: Some(Part(i, Exponent(1))),
                second: None,
                third: None,
                i,
                j: i,
                last: None,
            },
        ),
    }
}
