// How a call closes: the workspace is cleared, and the vector is replaced only where the call is accepted. The work is done on a vector of
// the call's own, so that a refusal leaves the lent one as it was. Inner functions, for this crate and those above.
ghost use Rattle.std.specs.Prelude.{◌≡◌, cond, length, replicate, eqb};
ghost use Rattle.collector.specs.Given.{number_in};

use crate::Answer;
use slots::clear;

// "After DONE, 9 or 10 each number of the workspace is 0", and the vector is what was worked out if the answer is DONE.
pub fn close(vector: &mut [u8], found: &[u8], work: &mut [u16], answer: Answer)
    requires { length vector.old ≡ length found.now }
    ensures work_after { work.new ≡ replicate (length work.old) 0 }
    ensures vector_after { vector.new ≡ cond (eqb (number_in answer) 0) found.now vector.old }
{
    clear(work);
    if answer.is_ok() {
        vector.copy_from_slice(found);
    }
}
