// Judging one overlap: both sides are collected and compared. Inner functions of this crate.
ghost use Rattle.std.specs.Prelude.{◌≡◌, [], ◌∷◌, ◌/◌, length};
ghost use Rattle.theory.specs.Overlaps.{Among};
ghost use Rattle.layout.specs.Header.{rank_of};
ghost use Rattle.layout.specs.Relations.{presentation};
ghost use Rattle.consistency.specs.Check.{overlap_of, decide, settles};

use crate::sides::{collect_side, sides_of};
use crate::{Checked, Overlap, Verdict};
use layout::Group;

// What the check says where the overlap o is the first that settles the verdict; Ok where it settles nothing. The sides are collected "left
// side first", each with the whole budget and the whole room. That the overlap is one of this group's is asked here and of its sides: a type
// of such overlaps would carry the group, and be compared with the one at hand at each use.
pub fn judge_overlap(group: Group, o: Overlap, budget: u32, work: &mut [u16]) -> Result<(), Checked>
    requires { Among (presentation group.numbers.now) 1 (overlap_of o) }
    ensures { let nums = group.entry.numbers.now in
        result ≡ settles (rank_of nums) (decide nums budget (length work.old / 3) (overlap_of o ∷ [])) }
{
    let n = usize::from(group.view.rank.0); // the generators are counted in 16 bits, as the numbers are read, and places in a usize
    let (first, second) = sides_of(group, o);
    let mut left = [0u8; 40];
    let mut right = [0u8; 40];
    if let Err(refused) = collect_side(group, first, &mut left[..n], budget, work) {
        return Err(Checked::without_vectors(Verdict::Stopped(refused.refusal, o)));
    }
    if let Err(refused) = collect_side(group, second, &mut right[..n], budget, work) {
        return Err(Checked::without_vectors(Verdict::Stopped(refused.refusal, o)));
    }
    if left == right {
        return Ok(());
    }
    Err(Checked {
        verdict: Verdict::Differs(o),
        left,
        right,
    })
}
