// Printing: a case on which the collectors disagree, and the line of counts.
use crate::Tally;
use crate::calls::Call;
use crate::groups::{Group, Vector};
use std::io;
use total::{part, print_row};

// A case: the call, the presentation's numbers and the vector, and the word or the right factor.
pub fn disagreement(rt: &impl Print, group: Group, vector: Vector, call: Call) -> io::Result<()> {
    let n = usize::from(group.n);
    print!(rt; "the collectors disagree on {call}: numbers")?;
    print_row(rt, group.numbers)?;
    print!(rt; "; vector")?;
    print_row(rt, part(&vector, n))?;
    print!(rt; "; with")?;
    match call {
        Call::Word(word) => print_row(rt, word)?,
        Call::Product(right) => print_row(rt, part(&right, n))?,
        Call::Inverse => {}
    }
    println!(rt)
}

pub fn summary(rt: &impl Print, tally: &Tally) -> io::Result<()> {
    let Tally {
        presentations,
        words,
        products,
        inverses,
        replacements,
        wrong,
    } = *tally;
    print!(rt;
        "{presentations} presentations, {words} words, {products} products, {inverses} inverses, "
    )?;
    println!(rt; "{replacements} replacements: {wrong} disagreements")
}
