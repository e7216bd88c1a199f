// The run: placing after placing, until no slot is left or a placing is refused.
ghost use Rattle.collector.specs.Running.{Begins, Ran, Sets, Settled};

use crate::{Answer, Refused};
use layout::Refusal;
use placing::{Texts, place};
use slots::room;

// Runs from the vector, the `depth` slots of the workspace and the count on. The counter of replacements runs beside the collector and is
// compared at each placing. Budget and count are handed apart: the run's contract speaks of both, the budget stays, and the count comes back
// in the answer.
pub fn run(
    texts: Texts,
    vector: &mut [u8],
    budget: u32,
    count: u32,
    work: &mut [u16],
    depth: usize,
) -> Answer
    requires begins { Begins texts.group.numbers.now texts.group.bodies.now vector.old texts.word.now budget count work.old depth }
    ensures { Ran texts.entry.group.numbers.now texts.entry.group.bodies.now vector.old texts.entry.word.now budget count work.old depth
        vector.new work.new result }
{
    let mut spent = count;
    let mut slots = depth;
    while slots != 0 {
        // Matched here: handed through `map_err`, what a placing comes to goes by way of memory, and the run takes a third longer.
        let placed = match place(texts, vector, budget - spent, work, slots) {
            Ok(placed) => placed,
            Err(refusal) => {
                return Err(Refused {
                    refusal,
                    count: spent,
                });
            }
        };
        spent += placed.exchanges + placed.powers;
        slots = placed.depth;
    }
    Ok(spent)
}

// Runs from starting slots that may exceed the room: 10 if they do.
pub fn settle(
    texts: Texts,
    vector: &mut [u8],
    budget: u32,
    count: u32,
    work: &mut [u16],
    depth: usize,
) -> Answer
    requires sets { Sets texts.group.numbers.now texts.group.bodies.now vector.old texts.word.now budget count work.old depth }
    ensures { Settled texts.entry.group.numbers.now texts.entry.group.bodies.now vector.old texts.entry.word.now budget count work.old depth
        vector.new work.new result }
{
    if room(work) < depth {
        return Err(Refused {
            refusal: Refusal::Room,
            count,
        });
    }
    run(texts, vector, budget, count, work, depth)
}
