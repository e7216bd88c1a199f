// Numbers at the end of a text: each function adds them in decimals, a space before each. It asks for the room that it may need; how
// much that is differs from one to the next, so that the text's type can't say it.
ghost use Rattle.std.specs.Prelude.{◌≡◌, [], ◌∷◌, ◌++◌, ◌+◌, ◌*◌, ◌≤◌, length};
ghost use Rattle.text.specs.Decimal.{spaced};

use arrayvec::ArrayString;
use itoa::Buffer;

// A space and a number: at most 21 bytes.
#[tactic(auto, using(crate::proofs::Digits::printed))]
pub fn put_number<const N: usize>(out: &mut ArrayString<N>, number: u64)
    requires { length out.old.bytes + 21 ≤ N }
    ensures added { out.new.bytes ≡ out.old.bytes ++ spaced (number ∷ []) }
    ensures upper_bound { length out.new.bytes ≤ length out.old.bytes + 21 }
{
    let mut digits = Buffer::new();
    out.push(' ');
    out.push_str(digits.format(number));
}

// Each of the numbers with a space before it: at most 21 bytes a number.
#[tactic(auto, using(crate::proofs::Digits::next))]
pub fn put_numbers<const N: usize>(out: &mut ArrayString<N>, numbers: &[u64])
    requires { length out.old.bytes + 21 * length numbers.now ≤ N }
    ensures added { out.new.bytes ≡ out.old.bytes ++ spaced numbers.now }
    ensures upper_bound { length out.new.bytes ≤ length out.old.bytes + 21 * length numbers.now }
{
    for n in numbers {
        put_number(out, *n);
    }
}
