// Numbers with a header and every entry of the contents that its rank asks for, with the header read once: what the contents are
// read from.
ghost use Rattle.std.specs.Prelude.{◌≤◌, length};
ghost use Rattle.layout.specs.Header.{Seen, bodies_at};

use crate::View;

#[derive(Clone, Copy)]
pub struct Listed<'a> {
    // The lent numbers themselves.
    pub numbers: &'a [u16],
    pub view: View,
    pub ghost seen: { Seen numbers.now view },
    pub ghost whole: { bodies_at numbers.now ≤ length numbers.now },
}
