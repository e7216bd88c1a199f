// Step 2 of a placing for one entry: the slots that are put for it. Inner functions of this crate.
//
// Each answers how many slots there are then as a plain number, which may be above the room: BUDGET is judged before ROOM, so the count goes
// on where the workspace is full, and `Brought` and `Filled` speak of that number. The slots are the lent workspace with their number beside
// it, `depth`, as every call of the library promises it.
ghost use Rattle.std.specs.Prelude.{◌≡◌, suc, ◌+◌, ◌*◌, ◌≤◌, length, drop};
ghost use Rattle.theory.specs.Placing.{total};
ghost use Rattle.slots.specs.Slots.{stack, Brought};
ghost use Rattle.slots.specs.declared.Slot.TheVariants.{Relation};
ghost use Rattle.layout.specs.Header.{rank_of, bodies_at};
ghost use Rattle.placing.specs.Exchange.{copies_of, entry_slots, span_of, exchange_slots, cleared, Filled};

use layout::spanned::Spanned;
use layout::{Exponent, Generator, Span, row_of};
use slots::{Slot, push, room};

// "b times, put the string w_ig and then (g, 1)". Answers how many slots there are then; where the workspace has no room for them,
// nothing is stored.
#[tactic(auto, using(crate::proofs::Copies::depth_copies))]
pub fn put_copies(work: &mut [u16], depth: usize, g: Generator, b: u8, span: Span) -> usize
    requires depth_in_bounds { 3 * depth ≤ length work.old }
    requires g_bound { (g.0 ≤ 40) × (span.start ≤ 10660) }
    ensures { Brought (copies_of b (Relation span.start span.pairs) g (stack work.old depth))
        work.old work.new result }
{
    let end = depth + 2 * usize::from(b);
    if room(work) < end {
        return end;
    }
    let mut d = depth;
    let mut copies: u8 = 0;
    // Two counters, since a for over 0..b is slower: 140 and 167 ns for an exchange of 40 generators with few and many relation words, for 128 and 148.
    while copies < b {
        push(work, d, Slot::from(span));
        push(work, d + 1, Slot::Power(g, Exponent(1)));
        d += 2;
        copies += 1;
    }
    end
}

// "If w_ig is empty, put (g, b). Otherwise, b times, put the string w_ig and then (g, 1)", for an entry b that may be 0.
pub fn put_entry(work: &mut [u16], depth: usize, g: Generator, b: u8, span: Span) -> usize
    requires depth_in_bounds { 3 * depth ≤ length work.old }
    requires g_bound { (g.0 ≤ 40) × (span.start ≤ 10660) }
    ensures { Brought (entry_slots span g b (stack work.old depth)) work.old work.new result }
{
    if b == 0 {
        return depth;
    }
    if span.pairs != 0 {
        return put_copies(work, depth, g, b, span);
    }
    if room(work) <= depth {
        return depth + 1;
    }
    push(work, depth, Slot::Power(g, Exponent(u16::from(b))));
    depth + 1
}

// The slots of all entries above generator i, from the last down, and those entries set to 0. `sum` is the sum of these entries, and `left`
// what of it is not met yet: where nothing is left, the entries that were not looked at are 0. Answers how many slots there are then, or a
// number above the room as soon as one is reached.
pub fn exchange(
    spanned: Spanned,
    vector: &mut [u8],
    i: Generator,
    sum: u32,
    work: &mut [u16],
    depth: usize,
) -> usize
    requires numbers_len_bound { length spanned.listed.numbers.now ≤ bodies_at spanned.listed.numbers.now + 2 * 10660 }
    requires le_i { (1 ≤ i.0) × (i.0 ≤ rank_of spanned.listed.numbers.now) × (length vector.old ≡ rank_of spanned.listed.numbers.now) }
    requires sum_value { sum ≡ total (drop i.0 vector.old) }
    requires depth_in_bounds { 3 * depth ≤ length work.old }
    ensures filled { Filled (exchange_slots spanned.entry.listed.numbers.now i.0 (suc i.0) (drop i.0 vector.old) (stack work.old depth))
        work.old work.new result }
    ensures vector_after { 3 * result ≤ length work.old → vector.new ≡ cleared i.0 vector.old }
{
    let row = row_of(spanned.listed.view.rank, i);
    let low = usize::from(i.0);
    let mut left = sum;
    let mut d = depth;
    let mut at = vector.len();
    // Counted down, since a reversed for tests its bound beside the sum: 125, 169 and 179 ns for 71, 139 and 167 with none, few and many words.
    while left != 0 {
        at -= 1;
        let b = vector[at];
        if b != 0 {
            left -= u32::from(b);
            vector[at] = 0;
            let span = spanned.listed.span_at(row + (at - low));
            d = put_entry(work, d, Generator::at(at), b, span);
            if room(work) < d {
                return d;
            }
        }
    }
    d
}
