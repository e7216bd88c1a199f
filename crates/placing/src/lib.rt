// One placing of a generator, by document 01's three steps.
//
// The letter that the slots begin with is placed on the vector: step 1 takes it off the slots, step 2 puts on the slots what the entries
// above it become when it moves past them, and step 3 raises its own entry. The replacements are counted first, and BUDGET and ROOM are
// judged, in this order, between steps 2 and 3. Slots only grow after step 1, so the slots after the placing exceed the room exactly if some
// slot on the way does not fit, and a refusal ends the call, so nothing needs undoing.
#![tactic(auto)]

pub mod entries; // step 2 for one entry, and for all
pub mod texts; // what is read: the accepted presentation and the input word
pub mod vectors; // sums, raising and setting down

ghost use Rattle.std.specs.Prelude.{◌≡◌, ◌≤◌, drop};
ghost use Rattle.theory.specs.Placing.{total};
ghost use Rattle.layout.specs.Refusals.{given};
ghost use Rattle.slots.specs.Pieces.{pieces, leading};
ghost use Rattle.placing.specs.Step.{due};
ghost use Rattle.placing.specs.Ready.{Ready, Passes, Steps};

use entries::exchange;
use layout::{Generator, Refusal};
use slots::{peek, room, take};
pub use texts::Texts;
use vectors::{power_uses, raise, tail_sum};

// What an accepted placing comes to: the slots after it, and its replacements, the exchanges and the power uses apart.
#[derive(Clone, Copy, PartialEq, Eq, Debug)]
pub struct Placement {
    pub depth: usize,
    pub exchanges: u32,
    pub powers: u32,
}

// "at each placing BUDGET before ROOM".
fn allow(left: u32, cost: u32, room: usize, after: usize) -> Result<(), Refusal>
    ensures { given result ≡ due left cost room after }
{
    if left < cost {
        return Err(Refusal::Budget);
    }
    if room < after {
        return Err(Refusal::Room);
    }
    Ok(())
}

// Steps 1 and 2: the letter i is taken off the slots, what the entries above it become is put on them, and these entries are 0 then; `sum`
// is their sum. Answers how many slots there are then, or a number above the room: BUDGET is judged first, and `Passes` speaks of the number.
fn slots_after(
    texts: Texts,
    vector: &mut [u8],
    i: Generator,
    sum: u32,
    work: &mut [u16],
    depth: usize,
) -> usize
    requires ready { Ready texts.group.numbers.now texts.group.bodies.now vector.old texts.word.now work.old depth }
    requires i_value { i.0 ≡ leading (pieces texts.group.bodies.now texts.word.now work.old depth) }
    requires sum_value { sum ≡ total (drop i.0 vector.old) }
    ensures { Passes texts.entry.group.numbers.now texts.entry.group.bodies.now texts.entry.word.now i.0 vector.old work.old depth
        vector.new work.new result }
{
    let taken = take(texts.group.bodies, texts.word, work, depth);
    if room(work) < taken {
        return taken;
    }
    exchange(texts.group.spanned(), vector, i, sum, work, taken)
}

// One placing. `left` is what the budget leaves above the count so far.
pub fn place(
    texts: Texts,
    vector: &mut [u8],
    left: u32,
    work: &mut [u16],
    depth: usize,
) -> Result<Placement, Refusal>
    requires ready { Ready texts.group.numbers.now texts.group.bodies.now vector.old texts.word.now work.old depth }
    ensures { Steps texts.entry.group.numbers.now texts.entry.group.bodies.now texts.entry.word.now left vector.old work.old depth
        vector.new work.new result }
{
    let i = peek(texts.group.bodies, texts.word, work, depth);
    let exchanges = tail_sum(vector, i);
    let powers = power_uses(vector, texts.group.view, i);
    let after = slots_after(texts, vector, i, exchanges, work, depth);
    allow(left, exchanges + powers, room(work), after)?;
    raise(texts.group, vector, i);
    Ok(Placement {
        depth: after,
        exchanges,
        powers,
    })
}
