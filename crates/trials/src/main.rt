// Both collectors on many small groups. Every accepted presentation with p = 2 and n up to 3 and a spread of larger ones, consistent
// or not, made by a fixed pseudo-random generator; on each, every vector with many words, many right factors, and its inverse. The proved
// collector's vector and count are held against those of the second one, which replaces leftmost subwords of a row of letters. A
// disagreement is printed as a case; the last line has the counts.
//
// The program itself is proved safe and no more, so its counts saturate and its functions are small.
#![tactic(auto)]

mod calls; // one call of either collector, compared
mod draws; // the pseudo-random generator
mod groups; // making presentations, vectors and words
mod report; // printing

use calls::{Call, Disagreement, held};
use draws::Draws;
use groups::{
    Digits, Group, Vector, make_vector, make_word, number_digits, present, spread_digits,
};
use report::{disagreement, summary};
use std::io;

// What was run so far.
#[derive(Clone, Copy, Default)]
pub struct Tally {
    pub presentations: u64,
    pub words: u64,
    pub products: u64,
    pub inverses: u64,
    pub replacements: u64,
    pub wrong: u64,
}

// One more.
fn bump(count: &mut u64) {
    *count = count.saturating_add(1);
}

impl Tally {
    fn add(&mut self, call: Call, held: Result<u32, Disagreement>) {
        match call {
            Call::Word(_) => bump(&mut self.words),
            Call::Product(_) => bump(&mut self.products),
            Call::Inverse => bump(&mut self.inverses),
        }
        let count = match held {
            Ok(count) => count,
            Err(Disagreement { count }) => {
                bump(&mut self.wrong);
                count
            }
        };
        self.replacements = self.replacements.saturating_add(u64::from(count));
    }
}

// The trials: where what they draw comes from, and what they ran.
#[derive(Clone, Copy)]
struct Trials {
    draws: Draws,
    tally: Tally,
}

impl Trials {
    fn one_call(
        &mut self,
        rt: &impl Print,
        group: Group,
        vector: Vector,
        call: Call,
    ) -> io::Result<()> {
        let held = held(group, vector, call);
        if held.is_err() {
            disagreement(rt, group, vector, call)?;
        }
        self.tally.add(call, held);
        Ok(())
    }

    // A word onto the vector.
    fn one_word(&mut self, rt: &impl Print, group: Group, vector: Vector) -> io::Result<()> {
        let mut room = [0u16; 8];
        let word = make_word(group, &mut self.draws, &mut room);
        self.one_call(rt, group, vector, Call::Word(word))
    }

    // The vector times one on its right.
    fn one_product(&mut self, rt: &impl Print, group: Group, vector: Vector) -> io::Result<()> {
        let right = make_vector(group, self.draws.below(3125));
        self.one_call(rt, group, vector, Call::Product(right))
    }

    // One vector: its inverse, and so many words and right factors.
    fn one_vector(
        &mut self,
        rt: &impl Print,
        group: Group,
        number: u16,
        times: u16,
    ) -> io::Result<()> {
        let vector = make_vector(group, number);
        self.one_call(rt, group, vector, Call::Inverse)?;
        for _ in 0..times {
            self.one_word(rt, group, vector)?;
            self.one_product(rt, group, vector)?;
        }
        Ok(())
    }

    // The presentation with those digits, and every vector of it.
    fn one_group(
        &mut self,
        rt: &impl Print,
        p: u8,
        n: u8,
        digits: &[u8],
        times: u16,
    ) -> io::Result<()> {
        let mut room = [0u16; 128];
        let group = present(p, n, digits, &mut room);
        bump(&mut self.tally.presentations);
        for number in 0..u16::from(p).saturating_pow(u32::from(n)) {
            self.one_vector(rt, group, number, times)?;
        }
        Ok(())
    }

    // So many presentations of p and n, their relations' digits made from p, 0, 1, .. and the draws.
    fn many_groups<F: Fn(u8, u16, &mut Draws) -> Digits>(
        &mut self,
        rt: &impl Print,
        p: u8,
        n: u8,
        many: u16,
        times: u16,
        digits: F,
    ) -> io::Result<()>
        requires { F.IsAlwaysCallable digits }
    {
        for number in 0..many {
            let digits = digits(p, number, &mut self.draws);
            self.one_group(rt, p, n, &digits, times)?;
        }
        Ok(())
    }
}

fn main(rt: HostRuntime) -> io::Result<()> {
    let mut trials = Trials {
        draws: Draws::new(2026),
        tally: Tally::default(),
    };
    // With p = 2 a relation's word is free in each generator above it: 0, 1 and 4 digits.
    trials.many_groups(&rt, 2, 1, 1, 64, number_digits)?;
    trials.many_groups(&rt, 2, 2, 2, 64, number_digits)?;
    trials.many_groups(&rt, 2, 3, 16, 64, number_digits)?;
    trials.many_groups(&rt, 2, 4, 60, 16, spread_digits)?;
    trials.many_groups(&rt, 2, 5, 60, 16, spread_digits)?;
    trials.many_groups(&rt, 3, 3, 40, 16, spread_digits)?;
    trials.many_groups(&rt, 3, 4, 24, 16, spread_digits)?;
    trials.many_groups(&rt, 5, 3, 24, 16, spread_digits)?;
    summary(&rt, &trials.tally)
}
