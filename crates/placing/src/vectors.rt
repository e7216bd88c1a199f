// The vector's part in a placing. Inner functions of this crate.
ghost use Rattle.std.specs.Prelude.{◌≡◌, ◌-◌, ◌≤◌, ◌<◌, length, get_or, drop};
ghost use Rattle.theory.specs.Placing.{total, power_uses, place};
ghost use Rattle.layout.specs.Header.{prime_of, rank_of};
ghost use Rattle.layout.specs.Relations.{presentation, settled};
ghost use Rattle.placing.specs.Settable.{Settable};
ghost use Rattle.placing.specs.Exchange.{cleared};

use layout::{Generator, Group, View};

// The sum of the entries above generator i: how many exchanges placing it takes.
pub fn tail_sum(vector: &[u8], i: Generator) -> u32
    requires { (i.0 ≤ length vector.now) × (length vector.now ≤ 40) }
    ensures { (result ≡ total (drop i.0 vector.now)) × (result ≤ 10200) }
{
    let mut sum: u32 = 0;
    for entry in &vector[usize::from(i.0)..] {
        sum += u32::from(*entry);
    }
    sum
}

// Sets the exponents of a relation's pairs down, one pair after the other.
pub fn set_down(vector: &mut [u8], stretch: &[u16])
    requires { Settable (length vector.old) stretch.now }
    ensures { vector.new ≡ settled vector.old stretch.now }
{
    for [g, a] in stretch.as_chunks::<2>().0 {
        // Proved to be a byte: there is no other case to answer.
        vector[usize::from(*g) - 1] = *a as u8;
    }
}

// Step 3 of a placing, where the entries above generator i are 0: entry i is raised by 1, and where it reaches p, w_i is set down.
pub fn raise(group: Group, vector: &mut [u8], i: Generator)
    requires le_i { (1 ≤ i.0) × (i.0 ≤ rank_of group.numbers.now) × (length vector.old ≡ rank_of group.numbers.now) }
    requires i_bound { get_or vector.old (i.0 - 1) 0 < prime_of group.numbers.now }
    requires vector_value { vector.old ≡ cleared i.0 vector.old }
    ensures { vector.new ≡ (place (presentation group.entry.numbers.now) 1 vector.old i.0).vector }
{
    let at = usize::from(i.0) - 1;
    let a = vector[at] + 1;
    if u16::from(a) != group.view.prime.0 {
        vector[at] = a;
        return;
    }
    vector[at] = 0;
    set_down(vector, group.stretch_of(i, i));
}

// 1 if placing generator i reaches its exponent, else 0.
pub fn power_uses(vector: &[u8], view: View, i: Generator) -> u32
    requires { (1 ≤ i.0) × (i.0 ≤ length vector.now) }
    ensures { (result ≡ power_uses view.prime.0 (get_or vector.now (i.0 - 1) 0)) × (result ≤ 1) }
{
    let a = u16::from(vector[usize::from(i.0) - 1]);
    u32::from(a + 1 == view.prime.0)
}
