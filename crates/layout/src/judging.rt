// Judging the lent numbers: the refusals 1 to 6 of document 01's table, in its order.
ghost use Rattle.std.specs.Prelude.{◌≡◌, IfOk};
ghost use Rattle.layout.specs.Header.{bodies_at};
ghost use Rattle.layout.specs.Contents.{Lies};
ghost use Rattle.layout.specs.Judged.{judged, rank_right};
ghost use Rattle.layout.specs.Refusals.{given};

use crate::header::view_of;
use crate::listed::Listed;
use crate::prime::prime_to_251;
use crate::spanned::Spanned;
use crate::{Generator, Group, Refusal};

// Whether the rank is from 1 to 40.
fn rank_right(rank: Generator) -> bool
    ensures { result ≡ rank_right rank.0 }
{
    (1..=40).contains(&rank.0)
}

// The lent numbers as an accepted presentation, or why they are none.
pub fn accept(numbers: &[u16]) -> Result<Group<'_>, Refusal>
    ensures number { given result ≡ judged numbers.now }
    ensures same { IfOk result (λ group. group.numbers ≡ numbers.entry) }
    ensures lies { IfOk result (λ group. Lies numbers.entry (bodies_at numbers.now) group.bodies) }
{
    if numbers.len() < 2 {
        return Err(Refusal::Short);
    }
    let view = view_of(numbers);
    if !prime_to_251(view.prime) {
        return Err(Refusal::Prime);
    }
    if !rank_right(view.rank) {
        return Err(Refusal::Rank);
    }
    if numbers.len() < view.bodies {
        return Err(Refusal::Contents);
    }
    let listed = Listed { numbers, view };
    if !listed.starts_right() {
        return Err(Refusal::Contents);
    }
    if numbers.len() != listed.length_due() {
        return Err(Refusal::Length);
    }
    let spanned = Spanned { listed };
    if !spanned.bodies_right() {
        return Err(Refusal::Body);
    }
    let bodies = &numbers[view.bodies..];
    Ok(Group {
        numbers,
        view,
        bodies,
    })
}

// Whether the lent numbers are accepted as a presentation, or why not.
pub fn judge(numbers: &[u16]) -> Result<(), Refusal>
    ensures { given result ≡ judged numbers.now }
{
    accept(numbers)?;
    Ok(())
}
