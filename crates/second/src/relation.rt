// A relation's word in the lent numbers, found without any arithmetic of places: the relations are
// walked in the order of the contents, (1, 1) .. (n, n), (1, 2), (1, 3) .., and the lengths of
// those passed are summed. The starts that the contents hold are not read.
ghost use Rattle.std.specs.Prelude.{◌≡◌, ◌+◌, ◌*◌, ◌≤◌, ◌<◌, length, slice_index, IfSome};

// The relations of n = 40, the most there are.
const MOST: usize = 820;

// The relation of x_i^p where i = j, of x_j x_i where i < j.
#[derive(Clone, Copy, PartialEq, Eq)]
struct Name {
    i: usize,
    j: usize,
}

// What the walk passed: relations, and pairs of their words.
#[derive(Clone, Copy)]
struct Passed {
    relations: usize,
    pairs: usize,
}

// The number with index `at`; 0 past the end, as the clauses' `get_or` reads it: so a walk past the end needs no refusal of its own, and
// `word_of` alone tests that a word ends within the numbers.
pub fn number(numbers: &[u16], at: usize) -> usize
    ensures value { result ≡ slice_index numbers.now at }
    ensures upper_bound { result ≤ 65535 }
{
    numbers.get(at).copied().map_or(0, usize::from)
}

impl Name {
    // The relation after this one in the order of the contents; none after the last one, (n - 1, n), or (1, 1) where n is 1.
    fn next(self, n: usize) -> Option<Name>
        requires { (self.i ≤ self.j) × (1 ≤ self.j) × (self.j < 1000) }
        ensures { IfSome result (λ next. (next.i ≤ next.j) × (1 ≤ next.j) × (next.j ≤ self.j + 1)) }
    {
        let Name { i, j } = self;
        let next = if i < j && j < n {
            Name { i, j: j + 1 }
        } else if i < j {
            Name { i: i + 1, j: i + 2 }
        } else if i < n {
            Name { i: i + 1, j: j + 1 }
        } else {
            Name { i: 1, j: 2 }
        };
        (next.j <= n).then_some(next)
    }
}

// What stands before a relation in the contents; before one that is not among the first 820, all that stands there of those.
fn before(numbers: &[u16], n: usize, wanted: Name) -> Passed
    ensures { (result.relations ≤ 820) × (result.pairs ≤ 65535 * result.relations) }
{
    let mut name = Name { i: 1, j: 1 };
    let mut pairs = 0;
    for relations in 0..MOST {
        if name == wanted {
            return Passed { relations, pairs };
        }
        pairs += number(numbers, 2 * relations + 3);
        let Some(next) = name.next(n) else {
            let relations = relations + 1;
            return Passed { relations, pairs };
        };
        name = next;
    }
    Passed {
        relations: MOST,
        pairs,
    }
}

// How many relations there are for n from 1 on, up to those of n = 40. A walk of its own, which sums nothing: one walk for both took longer where the wanted
// relation stands early.
fn count(n: usize) -> usize
    ensures { result ≤ 820 }
{
    let mut name = Name { i: 1, j: 1 };
    for relations in 1..MOST {
        let Some(next) = name.next(n) else {
            return relations;
        };
        name = next;
    }
    MOST
}

// The word of the relation (i, j). It is not found where there is no such relation or the numbers
// end before its last pair.
pub fn word_of(numbers: &[u16], i: u16, j: u16) -> Option<&[u16]>
    ensures { IfSome result (λ word. (length word.now ≤ length numbers.now) × (length word.now ≤ 2 * 65535)) }
{
    let n = number(numbers, 1);
    let (i, j) = (usize::from(i), usize::from(j));
    if i == 0 || i > j || j > n {
        return None;
    }
    let passed = before(numbers, n, Name { i, j });
    let start = 2 + 2 * count(n) + 2 * passed.pairs;
    let pairs = number(numbers, 2 * passed.relations + 3);
    // Tested here, and not by `get`, so that what is proved of the part is that the word ends within the numbers.
    if start + 2 * pairs > numbers.len() {
        return None;
    }
    Some(&numbers[start..start + 2 * pairs])
}
