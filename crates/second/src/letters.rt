// Changing the lent letters: closing a gap, and spelling words and vectors out into them; and counting them.
ghost use Rattle.std.specs.Prelude.{◌≡◌, ◌+◌, ◌*◌, ◌-◌, ◌≤◌, length, MatchResult};

// A word or a vector that did not fit, and how many letters there are now. Where letters are appended, what came before those without room
// was put in.
#[derive(Clone, Copy, PartialEq, Eq, Debug)]
pub struct Full {
    pub len: usize,
}

// Takes out the k letters from `at` on: the later ones move up to it.
pub fn close(letters: &mut [u16], len: usize, at: usize, k: usize) -> usize
    requires { (at + k ≤ len) × (len ≤ length letters.old) }
    ensures value { result ≡ len - k }
    ensures letters_len_unchanged { length letters.new ≡ length letters.old }
{
    letters.copy_within(at + k..len, at);
    len - k
}

// Makes a gap of k letters before the letter at `at`: it and the later ones move down, once for all that is put there.
fn open(letters: &mut [u16], len: usize, at: usize, k: usize) -> Result<usize, Full>
    requires { (at ≤ len) × (len ≤ length letters.old) }
    ensures grows { MatchResult result (λ grown. (grown ≡ len + k) × (grown ≤ length letters.old)) (λ full. full.len ≡ len) }
    ensures letters_len_unchanged { length letters.new ≡ length letters.old }
{
    if k > letters.len() - len {
        return Err(Full { len });
    }
    // Most words are empty: nothing moves then.
    if k != 0 {
        letters.copy_within(at..len, at + k);
    }
    Ok(len + k)
}

// How many letters the pairs of a word spell.
fn size(word: &[u16]) -> usize
    requires { length word.now ≤ 2 * 65535 }
    ensures { result ≤ 65535 * length word.now }
{
    let mut sum = 0;
    for [_, e] in word.as_chunks::<2>().0 {
        sum += usize::from(*e);
    }
    sum
}

// Spells a word of pairs generator, exponent out into a row, as far as there is room.
fn spell(word: &[u16], row: &mut [u16])
    ensures { length row.new ≡ length row.old }
{
    let mut at = 0;
    for [g, e] in word.as_chunks::<2>().0 {
        let end = row.len().min(at + usize::from(*e));
        row[at..end].fill(*g);
        at = end;
    }
}

// Puts the letters of a word before the letter at `at`; nothing where they do not fit.
pub fn insert_word(word: &[u16], letters: &mut [u16], len: usize, at: usize) -> Result<usize, Full>
    requires { (length word.now ≤ 2 * 65535) × (at ≤ len) × (len ≤ length letters.old) }
    ensures len_bound { MatchResult result (λ grown. grown ≤ length letters.old) (λ full. full.len ≡ len) }
    ensures letters_len_unchanged { length letters.new ≡ length letters.old }
{
    let k = size(word);
    let grown = open(letters, len, at, k)?;
    spell(word, &mut letters[at..at + k]);
    Ok(grown)
}

// Puts k letters g after the first `len`; nothing where they do not fit.
fn append(letters: &mut [u16], len: usize, g: u16, k: usize) -> Result<usize, Full>
    requires { len ≤ length letters.old }
    ensures grows { MatchResult result (λ grown. (grown ≡ len + k) × (grown ≤ length letters.old)) (λ full. full.len ≡ len) }
    ensures letters_len_unchanged { length letters.new ≡ length letters.old }
{
    if k > letters.len() - len {
        return Err(Full { len });
    }
    letters[len..len + k].fill(g);
    Ok(len + k)
}

// Appends a word of pairs generator, exponent to the first `len` letters, and answers how many there are now.
pub fn append_word(word: &[u16], letters: &mut [u16], len: usize) -> Result<usize, Full>
    requires { len ≤ length letters.old }
    ensures len_bound { MatchResult result (λ grown. grown ≤ length letters.old) (λ full. full.len ≤ length letters.old) }
    ensures letters_len_unchanged { length letters.new ≡ length letters.old }
{
    let mut grown = len;
    for [g, e] in word.as_chunks::<2>().0 {
        grown = append(letters, grown, *g, usize::from(*e))?;
    }
    Ok(grown)
}

// Appends the normal word of a vector to the first `len` letters, and answers how many there are now: x_1 as often as its first entry
// says, and so on, up to 40 entries.
pub fn append_vector(vector: &[u8], letters: &mut [u16], len: usize) -> Result<usize, Full>
    requires { len ≤ length letters.old }
    ensures len_bound { MatchResult result (λ grown. grown ≤ length letters.old) (λ full. full.len ≤ length letters.old) }
    ensures letters_len_unchanged { length letters.new ≡ length letters.old }
{
    let mut grown = len;
    for (g, e) in (1..=40).zip(vector) {
        grown = append(letters, grown, g, usize::from(*e))?;
    }
    Ok(grown)
}

// The vector of a normal word: each entry becomes the number of its generator's letters among the first `len`. The letters counted come
// back, `len` if every one had an entry.
pub fn vector_of(letters: &[u16], len: usize, vector: &mut [u8]) -> usize
    requires { len ≤ length letters.now }
    ensures upper_bound { result ≤ len }
    ensures vector_len_unchanged { length vector.new ≡ length vector.old }
{
    vector.fill(0);
    let mut counted = 0;
    // Not a chain of `filter` and `count`: its test would write to the vector.
    for g in &letters[..len] {
        if one_more(vector, usize::from(*g)).is_some() {
            counted += 1;
        }
    }
    counted
}

// Counts one letter into its entry, unless it has none or that is full.
fn one_more(vector: &mut [u8], g: usize) -> Option<()>
    ensures { length vector.new ≡ length vector.old }
{
    let entry = vector.get_mut(g.checked_sub(1)?)?;
    *entry = entry.checked_add(1)?;
    Some(())
}
