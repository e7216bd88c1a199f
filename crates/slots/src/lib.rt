// Slots in the lent workspace: the stack on which the collector keeps what it has not placed yet.
//
// "The workspace is a lent slice of 16-bit numbers; its room is its length divided by 3, rounded down, in slots." The slot
// number d, counted from the bottom and from 0, is the numbers 3d, 3d + 1 and 3d + 2. A stack of `depth` slots is the first
// `depth` of them; what stands above is never read, so a stack starts on any workspace at depth 0.
//
//   first number      second       third       the slot
//   1 .. 40           0            exponent    a power of the generator that the first number names
//   41 + start        pairs left   1           the unread rest of a relation word, start in pairs from the first body
//   20,000 + start    pairs left   1           the unread rest of the input word, start in pairs from its beginning
//
// The kinds share the first number because their ranges lie apart: a generator is at most 40, and there are at most 10,660
// pairs of relation words and 4,096 of input. A string has the exponent 1, so that a power of a whole word has its place.
//
// A string is read where it stands: `bodies` is the part of the presentation from its first body on, `word` the input word.
//
// The workspace stays a lent `&mut [u16]` with the number of slots, `depth`, beside it: every call of the library promises that form. What
// `lessen` and `take` answer may be a number above the room: BUDGET is judged before ROOM, so the count goes on, and `Brought` speaks of it.
#![tactic(auto)]

ghost use Rattle.std.specs.Prelude.{◌≡◌, ◌+◌, ◌*◌, ◌-◌, ◌/◌, ◌≤◌, ◌<◌, length, get_or, replicate};
ghost use Rattle.slots.specs.Slots.{decode, numbers_of, slot_at, stack, Sound, Pushed, Brought, lessened, power_of, pair_of, front_of, rest_of};
ghost use Rattle.slots.specs.declared.Slot.TheVariants.{Relation};
ghost use Rattle.slots.specs.Pieces.{pieces, leading};
ghost use Rattle.slots.specs.Stacked.{Standing, Stacked, Took};

use layout::{Exponent, Generator, Span};

// Where the first number's ranges begin.
const RELATION: u16 = 41;

const INPUT: u16 = 20000;

// A slot: a power, or the unread rest of a relation word or of the input word, from the pair number `start` on. The two strings
// have the same fields and are two variants, since each is read from a text of its own: `decode` and `Sound` speak of them by these names.
#[derive(Clone, Copy)]
pub enum Slot {
    Power(Generator, Exponent),
    Relation { start: u16, pairs: u16 },
    Input { start: u16, pairs: u16 },
}

impl From<[u16; 3]> for Slot {
    ghost from_gives = { λ numbers slot. slot ≡ decode (get_or numbers 0 0) (get_or numbers 1 0) (get_or numbers 2 0) };

    fn from([kind, pairs, exponent]: [u16; 3]) -> Slot {
        match kind {
            ..RELATION => Slot::Power(Generator(kind), Exponent(exponent)),
            RELATION..INPUT => Slot::Relation {
                start: kind - RELATION,
                pairs,
            },
            INPUT.. => Slot::Input {
                start: kind - INPUT,
                pairs,
            },
        }
    }
}

// The whole word of a relation, unread, from what the contents say of it.
impl From<Span> for Slot {
    ghost from_gives = { λ span slot. slot ≡ Relation span.start span.pairs };

    fn from(span: Span) -> Slot {
        Slot::Relation {
            start: span.start,
            pairs: span.pairs,
        }
    }
}

impl Slot {
    // The three numbers that the workspace holds of the slot. A method, since a `From` cannot ask that the slot is sound.
    fn numbers(self) -> [u16; 3]
        requires { Sound self }
        ensures { result ≡ numbers_of self }
    {
        match self {
            Slot::Power(i, e) => [i.0, 0, e.0],
            Slot::Relation { start, pairs } => [RELATION + start, pairs, 1],
            Slot::Input { start, pairs } => [INPUT + start, pairs, 1],
        }
    }

    // The power that the slot begins with: its own, or the first pair of its string.
    fn front(self, bodies: &[u16], word: &[u16]) -> (Generator, Exponent)
        requires { Standing 40 bodies.now word.now self }
        ensures { result ≡ front_of bodies.now word.now self }
    {
        match self {
            Slot::Power(i, e) => (i, e),
            Slot::Relation { start, .. } => pair_at(bodies, start),
            Slot::Input { start, .. } => pair_at(word, start),
        }
    }

    // What is left below that power: nothing of a power, and of a string "the rest if any pair remains".
    fn rest(self) -> Option<Slot>
        requires { Sound self }
        ensures { result ≡ rest_of self }
    {
        match self {
            Slot::Relation { start, pairs } if pairs > 1 => Some(Slot::Relation {
                start: start + 1, // from the first body
                pairs: pairs - 1,
            }),
            Slot::Input { start, pairs } if pairs > 1 => Some(Slot::Input {
                start: start + 1, // from the beginning of the word
                pairs: pairs - 1,
            }),
            _ => None,
        }
    }
}

// The pair number `start` of a text.
fn pair_at(text: &[u16], start: u16) -> (Generator, Exponent)
    requires { 2 * start + 1 < length text.now }
    ensures { result ≡ pair_of text.now start }
{
    let at = 2 * usize::from(start);
    (Generator(text[at]), Exponent(text[at + 1]))
}

// How many slots the workspace has room for.
pub fn room(work: &[u16]) -> usize
    ensures { result ≡ length work.now / 3 }
{
    work.len() / 3
}

// The top slot.
pub fn top(work: &[u16], depth: usize) -> Slot
    requires { (1 ≤ depth) × (3 * depth ≤ length work.now) }
    ensures { result ≡ slot_at work.now (depth - 1) }
{
    let at = 3 * (depth - 1);
    Slot::from([work[at], work[at + 1], work[at + 2]])
}

// Puts a slot on a stack of `depth` slots.
pub fn push(work: &mut [u16], depth: usize, slot: Slot)
    requires { (3 * (depth + 1) ≤ length work.old) × Sound slot }
    ensures { Pushed slot work.old depth work.new }
{
    let at = 3 * depth;
    [work[at], work[at + 1], work[at + 2]] = slot.numbers();
}

// Every number 0, also those past the last whole slot.
pub fn clear(work: &mut [u16])
    ensures { work.new ≡ replicate (length work.old) 0 }
{
    work.fill(0);
}

// The generator that the stack's letters begin with: the one that is placed next.
pub fn peek(bodies: &[u16], word: &[u16], work: &[u16], depth: usize) -> Generator
    requires { (1 ≤ depth) × Stacked 40 bodies.now word.now work.now depth }
    ensures { result.0 ≡ leading (pieces bodies.now word.now work.now depth) }
{
    top(work, depth).front(bodies, word).0
}

// "if e > 1 put back (i, e - 1)", on a stack of `depth` slots. Answers how many slots there are then; where the workspace has
// no room for them, the power is not stored.
#[tactic(auto, using(crate::proofs::Brings::lessens))]
fn lessen(work: &mut [u16], depth: usize, i: Generator, e: Exponent) -> usize
    requires { (3 * depth ≤ length work.old) × (i.0 ≤ 40) }
    ensures { Brought (lessened (power_of i) e.0 (stack work.old depth)) work.old work.new result }
{
    if e.0 <= 1 {
        return depth;
    }
    if depth < room(work) {
        push(work, depth, Slot::Power(i, Exponent(e.0 - 1)));
    }
    depth + 1
}

// Takes the leading letter off the stack, as step 1 of a placing does, and answers how many slots are left. That is one more
// than before where a string begins with a power and goes on after it. Where the workspace has no room for them, the
// stack is lost: the placing is refused.
pub fn take(bodies: &[u16], word: &[u16], work: &mut [u16], depth: usize) -> usize
    requires { (1 ≤ depth) × Stacked 40 bodies.now word.now work.old depth }
    ensures { Took bodies.now word.now work.old depth work.new result }
{
    let slot = top(work, depth);
    let (i, e) = slot.front(bodies, word);
    let below = depth - 1;
    match slot.rest() {
        Some(rest) => {
            push(work, below, rest);
            lessen(work, depth, i, e)
        }
        None => lessen(work, below, i, e),
    }
}
