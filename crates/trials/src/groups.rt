// Making presentations in the lent layout, vectors and words. A presentation is made from digits: one for each relation and each
// generator that its word may have, in the order of the contents, the exponent of that generator.
use crate::draws::Draws;
use total::{part, part_mut, store};

// A vector: its n entries, and 0 past them.
pub type Vector = [u8; 8];

// The digits of a presentation's relations.
pub type Digits = [u8; 64];

// A presentation, and the p and n that it begins with.
#[derive(Clone, Copy)]
pub struct Group<'a> {
    pub p: u8,
    pub n: u8,
    pub numbers: &'a [u16],
}

// Writes the presentation.
pub fn present<'a>(p: u8, n: u8, digits: &[u8], numbers: &'a mut [u16]) -> Group<'a> {
    let last = u16::from(n);
    store(numbers, 0, u16::from(p));
    store(numbers, 1, last);
    let bodies = 2 + usize::from(last) * (usize::from(last) + 1);
    let mut entries: u16 = 0;
    let mut pairs: u16 = 0;
    let mut digits = digits.iter();
    // The words w_j with i = 0, then the w_ij; each has generators above j.
    for i in 0..=last {
        for j in i + 1..=last {
            let start = pairs;
            for g in j + 1..=last {
                let e = digits.next().copied().unwrap_or(0);
                if e != 0 {
                    let at = bodies + 2 * usize::from(pairs);
                    store(numbers, at, g);
                    store(numbers, at + 1, u16::from(e));
                    pairs = pairs.saturating_add(1);
                }
            }
            let entry = 2 + 2 * usize::from(entries);
            store(numbers, entry, start);
            store(numbers, entry + 1, pairs.saturating_sub(start));
            entries = entries.saturating_add(1);
        }
    }
    Group {
        p,
        n,
        numbers: part(numbers, bodies + 2 * usize::from(pairs)),
    }
}

// The digits of a number to a base, the lowest first.
fn write_digits(base: u8, number: u16, digits: &mut [u8]) {
    if base == 0 {
        return;
    }
    let mut left = number;
    for digit in digits {
        // The cast is proved to fit: the remainder is below the base.
        *digit = (left % u16::from(base)) as u8;
        left /= u16::from(base);
    }
}

// The digits of a number to the base p. Nothing is drawn.
pub fn number_digits(p: u8, number: u16, _draws: &mut Draws) -> Digits {
    let mut digits = [0u8; 64];
    write_digits(p, number, &mut digits);
    digits
}

// Digits below p, half of them 0, so that words are neither all full nor all empty. All are drawn, and no number is asked.
pub fn spread_digits(p: u8, _number: u16, draws: &mut Draws) -> Digits {
    let mut digits = [0u8; 64];
    for digit in &mut digits {
        let coin = draws.below(2);
        // The cast is proved to fit: the draw is at most p.
        let drawn = draws.below(u16::from(p)) as u8;
        *digit = if coin == 0 { 0 } else { drawn };
    }
    digits
}

// The vector with a number, its entries the digits to the base p.
pub fn make_vector(group: Group, number: u16) -> Vector {
    let mut vector = [0u8; 8];
    write_digits(group.p, number, part_mut(&mut vector, usize::from(group.n)));
    vector
}

// A word of up to four pairs, with exponents from 1 to p + 2.
pub fn make_word<'a>(group: Group, draws: &mut Draws, room: &'a mut [u16; 8]) -> &'a [u16] {
    let pairs = draws.below(5);
    for pair in room.as_chunks_mut::<2>().0 {
        let g = draws.below(u16::from(group.n)) + 1;
        let e = draws.below(u16::from(group.p) + 2) + 1;
        *pair = [g, e];
    }
    part(room, 2 * usize::from(pairs))
}
