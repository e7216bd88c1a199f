// The consistency check under its C name. C has no enum that carries values, so a verdict is handed out as a number and, where it has an
// overlap, the overlap's family and generators.
ghost use Rattle.std.specs.Prelude.{◌≡◌};
ghost use Rattle.consistency.specs.Verdict.{values_of};
ghost use Rattle.yavarosht.specs.Verdict.{verdict_number, HandedVerdict};

use consistency::{Verdict, check};

// What DIFFERS is given back as: the first number past the refusals.
const DIFFERS: u8 = 11;

// The number that a verdict is given back as.
fn verdict_number(verdict: Verdict) -> u8
    ensures { result ≡ verdict_number verdict }
{
    match verdict {
        Verdict::Pass => 0,
        Verdict::Differs(_) => DIFFERS,
        Verdict::Refused(refusal) | Verdict::Stopped(refusal, _) => u8::from(refusal),
    }
}

// The overlap of a verdict, all 0 where it has none.
fn verdict_overlap(verdict: Verdict) -> [u16; 4]
    ensures { result ≡ values_of verdict }
{
    match verdict {
        Verdict::Pass | Verdict::Refused(_) => [0; 4],
        Verdict::Differs(overlap) | Verdict::Stopped(_, overlap) => <[u16; 4]>::from(overlap),
    }
}

// Checks all overlaps in their order.
pub fn yav_check(
    numbers: &[u16],
    budget: u32,
    work: &mut [u16],
    overlap: &mut [u16; 4],
    left: &mut [u8; 40],
    right: &mut [u8; 40],
) -> u8
    ensures { HandedVerdict numbers.now budget work.old
        result overlap.new left.new right.new work.new }
{
    let checked = check(numbers, budget, work);
    // The borrow checker takes no field that is an array straight into a place: the two go by way of locals.
    let first = checked.left;
    let second = checked.right;
    *overlap = verdict_overlap(checked.verdict);
    *left = first;
    *right = second;
    verdict_number(checked.verdict)
}
