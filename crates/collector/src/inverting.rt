// The inverse, generator by generator. Inner functions of this crate. That the vector is `Normal` stands in three contracts: it is lent
// `&mut` from call to call, and a value that holds it could not carry the fact while it is written.
ghost use Rattle.std.specs.Prelude.{◌≡◌, [], ◌∷◌, ◌+◌, ◌≤◌, ◌<◌, length};
ghost use Rattle.theory.specs.Presentation.{Normal};
ghost use Rattle.theory.specs.Placing.{complement};
ghost use Rattle.layout.specs.Header.{rank_of};
ghost use Rattle.layout.specs.Relations.{presentation};
ghost use Rattle.slots.specs.Pieces.{power};
ghost use Rattle.collector.specs.Run.{begun};
ghost use Rattle.collector.specs.Calls.{room_of, turned, inverting};
ghost use Rattle.collector.specs.Running.{Answers};

use crate::Answer;
use crate::inputs::wordless;
use crate::running::settle;
use crate::starting::put;
use layout::{Exponent, Generator, Group, View};
use slots::Slot;

// Places x_i^e on the vector as one starting slot on an empty stack.
fn place_power(
    group: Group,
    own: &mut [u8],
    i: Generator,
    e: Exponent,
    budget: u32,
    count: u32,
    work: &mut [u16],
) -> Answer
    requires normal { Normal (presentation group.numbers.now) (rank_of group.numbers.now) 1 own.old }
    requires le_i { (1 ≤ i.0) × (i.0 ≤ rank_of group.numbers.now) × (1 ≤ e.0) × (count ≤ budget) }
    ensures { Answers (begun group.entry.numbers.now budget (room_of work.old) own.old (power i.0 e.0 ∷ []) count)
        work.old own.new work.new result }
{
    put(work, 0, Slot::Power(i, e));
    settle(wordless(group), own, budget, count, work, 1)
}

// "if entry i is then a, not 0, place x_i^(p - a)": the generator at + 1.
fn clear_entry(
    group: Group,
    own: &mut [u8],
    at: usize,
    budget: u32,
    count: u32,
    work: &mut [u16],
) -> Answer
    requires normal { Normal (presentation group.numbers.now) (rank_of group.numbers.now) 1 own.old }
    requires at_bound { (at < rank_of group.numbers.now) × (count ≤ budget) }
    ensures { Answers (turned group.entry.numbers.now budget (room_of work.old) (at + 1) own.old count)
        work.old own.new work.new result }
{
    let a = u16::from(own[at]);
    if a == 0 {
        return Ok(count);
    }
    let e = Exponent(group.view.prime.0 - a);
    place_power(group, own, Generator::at(at), e, budget, count, work)
}

// "The inverse has p - a at those i, otherwise 0."
fn entry_of_inverse(view: View, a: u8) -> u8
    requires { (a < view.prime.0) × (view.prime.0 ≤ 251) }
    ensures { result ≡ complement view.prime.0 a }
{
    if a == 0 {
        return 0;
    }
    // An exponent is at most 251, so the cast is exact: `try_from` would have a branch that nothing takes.
    (view.prime.0 - u16::from(a)) as u8
}

// "Inverse: for i = 1 .. n": the entries of the inverse into `found`, by placing powers on `own` until it is the identity.
pub fn invert(
    group: Group,
    own: &mut [u8],
    found: &mut [u8],
    budget: u32,
    work: &mut [u16],
) -> Answer
    requires normal { Normal (presentation group.numbers.now) (rank_of group.numbers.now) 1 own.old }
    requires found_len { length found.old ≡ rank_of group.numbers.now }
    ensures { Answers (inverting group.entry.numbers.now budget (room_of work.old) (rank_of group.entry.numbers.now) 1 own.old 0)
        work.old found.new work.new result }
{
    let mut count: u32 = 0;
    for (at, entry) in found.iter_mut().enumerate() {
        *entry = entry_of_inverse(group.view, own[at]);
        count = clear_entry(group, own, at, budget, count, work)?;
    }
    Ok(count)
}
