// Starting slots. Where the workspace has no room for a slot it is not stored, and the count of slots goes on: the caller judges ROOM.
// Inner functions, for this crate and those above.
ghost use Rattle.std.specs.Prelude.{◌≡◌, ◌+◌, ◌≤◌, ◌<◌, length};
ghost use Rattle.slots.specs.Slots.{Sound};
ghost use Rattle.collector.specs.Starting.{word_start, power_start, Put, Held};

use layout::{Exponent, Generator};
use slots::{Slot, push, room};

// Puts a slot on `depth` slots, if there is room for it.
pub fn put(work: &mut [u16], depth: usize, slot: Slot)
    requires { (depth ≤ 1000) × Sound slot }
    ensures { Put slot work.old depth work.new }
{
    if depth < room(work) {
        push(work, depth, slot);
    }
}

// "Collecting: the input word as one string, none if empty." Answers how many slots that is.
pub fn start_word(word: &[u16], work: &mut [u16]) -> usize
    requires { length word.now ≤ 8192 }
    ensures work_len_unchanged { length work.new ≡ length work.old }
    ensures held { Held (word_start word.now) work.new result }
{
    if word.is_empty() {
        return 0;
    }
    // At most 4,096, so the cast is exact: `try_from` would have a branch that nothing takes.
    let pairs = (word.len() / 2) as u16;
    put(work, 0, Slot::Input { start: 0, pairs });
    1
}

// "Product: each entry e not 0 of the right vector as one power, lowest generator on top." Answers how many slots that is.
pub fn start_powers(right: &[u8], work: &mut [u16]) -> usize
    requires { length right.now ≤ 40 }
    ensures work_len_unchanged { length work.new ≡ length work.old }
    ensures held { Held (power_start 1 right.now) work.new result }
{
    let mut depth: usize = 0;
    // By indices: what is left of an enumeration that runs from its end is the iterator's, and the invariant speaks of places.
    for at in (0..right.len()).rev() {
        let e = right[at];
        if e != 0 {
            put(
                work,
                depth,
                Slot::Power(Generator::at(at), Exponent(u16::from(e))),
            );
            depth += 1;
        }
    }
    depth
}
