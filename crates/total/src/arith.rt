// Parts of slices and storing, which ask nothing of their callers: what is not there is left out.
ghost use Rattle.std.specs.Prelude.{◌≡◌, take, set};

// The first elements, as many as `len` says, or all of them if there are fewer.
pub fn part<T>(of: &[T], len: usize) -> &[T]
    ensures { result.now ≡ take len of.now }
{
    of.get(..len).unwrap_or(of)
}

// The same of a slice that is written to, which is another type.
pub fn part_mut<T>(of: &mut [T], len: usize) -> &mut [T]
    ensures { result.now ≡ take len of.old }
{
    let end = len.min(of.len());
    &mut of[..end]
}

// Stores an element; nothing past the end.
#[tactic(auto, using(std::proofs::lemmas::List::set_past))]
pub fn store<T: Drop>(row: &mut [T], at: usize, x: T)
    ensures { row.new ≡ set row.old at x }
{
    // By the index, not `get_mut`: what is written behind that is not known of the row at a type parameter.
    if at < row.len() {
        row[at] = x;
    }
}
