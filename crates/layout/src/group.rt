// Numbers that were judged and accepted, with their header read once and the part from the first body on: what all calls go by once a
// presentation is judged. Whoever holds the value holds the proof, so nothing is judged twice.
ghost use Rattle.std.specs.Prelude.{◌≡◌, drop};
ghost use Rattle.layout.specs.Header.{Seen, bodies_at};
ghost use Rattle.layout.specs.Judged.{judged};

use crate::View;

#[derive(Clone, Copy)]
pub struct Group<'a> {
    // The lent numbers themselves.
    pub numbers: &'a [u16],
    pub view: View,
    // The numbers from the first body on, from which relation words are read.
    pub bodies: &'a [u16],
    pub ghost accepts: { judged numbers.now ≡ 0 },
    pub ghost seen: { Seen numbers.now view },
    pub ghost bodies_are: { bodies.now ≡ drop (bodies_at numbers.now) numbers.now },
}
