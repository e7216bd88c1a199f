// A fixed pseudo-random generator, a linear congruence modulo 2^31.
ghost use Rattle.std.specs.Prelude.{◌≤◌};

const MODULUS: u64 = 2147483648;

#[derive(Clone, Copy)]
pub struct Draws {
    state: u64,
}

impl Draws {
    pub fn new(state: u64) -> Draws {
        Draws { state }
    }

    // The next number below k, or 0 if k is 0. It is made of the state's high bits: the low ones of such a generator are poor.
    pub fn below(&mut self, k: u16) -> u16
        ensures { result ≤ k }
    {
        self.state = (self.state % MODULUS * 1103515245 + 12345) % MODULUS;
        if k == 0 {
            return 0;
        }
        // The cast is proved to fit: the remainder is below k.
        (self.state / 1024 % u64::from(k)) as u16
    }
}
