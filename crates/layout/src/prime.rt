// The primes from 2 to 251, by trial division. Inner function of this crate.
ghost use Rattle.std.specs.Prelude.{◌≡◌};
ghost use Rattle.layout.specs.Prime.{prime_to_251};

use crate::Exponent;

// Whether p is a prime from 2 to 251. A number with a divisor has one whose square is at most the number.
pub fn prime_to_251(p: Exponent) -> bool
    ensures { result ≡ prime_to_251 p.0 }
{
    if !(2..=251).contains(&p.0) {
        return false;
    }
    for d in 2..16 {
        if p.0 < d * d {
            return true;
        }
        if p.0 % d == 0 {
            return false;
        }
    }
    true
}
