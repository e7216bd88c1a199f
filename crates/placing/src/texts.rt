// What a collection reads: an accepted presentation and the input word, from which the strings on the slots are read.
ghost use Rattle.placing.specs.Ready.{Ground};
ghost use Rattle.placing.specs.Grounds.{ground-prop};

use layout::Group;

#[derive(Clone, Copy)]
pub struct Texts<'a> {
    pub group: Group<'a>,
    // The input word; empty where none is read.
    pub word: &'a [u16],
    pub ghost ground: { Ground group.numbers.now group.view group.bodies.now word.now } by { ground-prop _ _ _ _ },
}
