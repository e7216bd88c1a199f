// The leftmost non-normal subword of a row of letters.
ghost use Rattle.std.specs.Prelude.{◌+◌, ◌≤◌, ◌<◌, length, MatchOption};
ghost use Rattle.second.specs.Normal.{Rises, Changes, Normal};
ghost use Rattle.second.specs.Reach.{reach};

// A non-normal subword: p equal letters, or a letter above the next.
#[derive(Clone, Copy, PartialEq, Eq, Debug)]
pub enum Kind {
    Equal,
    Falls,
}

// What begins at `at`.
fn kind_at(letters: &[u16], len: usize, at: usize, p: usize) -> Option<Kind>
    requires { (at < len) × (len ≤ length letters.now) }
    ensures { MatchOption result (Rises letters.now len at × Changes letters.now len p at) (λ kind. at + reach kind p ≤ len) }
{
    let g = letters[at];
    if p <= len - at && letters[at..at + p].iter().all(|x| *x == g) {
        return Some(Kind::Equal);
    }
    if at + 1 < len && letters[at + 1] < letters[at] {
        return Some(Kind::Falls);
    }
    None
}

// The first place at which a non-normal subword starts, and its kind.
pub fn leftmost(letters: &[u16], len: usize, p: usize) -> Option<(usize, Kind)>
    requires { len ≤ length letters.now }
    ensures { MatchOption result (Normal letters.now len p) (λ found. (found.0 < len) × (found.0 + reach found.1 p ≤ len)) }
{
    // Not `find_map`: what it ensures of the places passed did not prove that nothing begins at any of them.
    for at in 0..len {
        if let Some(kind) = kind_at(letters, len, at, p) {
            return Some((at, kind));
        }
    }
    None
}
