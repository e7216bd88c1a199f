// The line of a verdict: one function for each case.
ghost use Rattle.std.specs.Prelude.{◌≡◌, [], ◌∷◌, ◌++◌, ◌+◌, ◌≤◌, length};
ghost use Rattle.text.specs.Ascii.{ascii};
ghost use Rattle.text.specs.Decimal.{spaced};
ghost use Rattle.layout.specs.Refusals.{refusal_number};
ghost use Rattle.consistency.specs.Verdict.{family_of, generators_of};
ghost use Rattle.line.specs.Line.{vector_text, pass_line, differs_line, refused_line, stopped_line, line_of};

use crate::count::overlaps;
use arrayvec::ArrayString;
use consistency::{Checked, Overlap, Verdict};
use layout::{Exponent, Generator, Refusal};
use text::{put_number, put_numbers};

// A line has at most 1,776 bytes.
pub type Line = ArrayString<2048>;

// The family and the generators of an overlap.
fn put_overlap(out: &mut Line, overlap: Overlap)
    requires { length out.old.bytes + 84 ≤ 2048 }
    ensures added { out.new.bytes ≡ out.old.bytes ++ spaced (family_of overlap ∷ generators_of overlap) }
    ensures upper_bound { length out.new.bytes ≤ length out.old.bytes + 84 }
{
    put_numbers(out, &<[u16; 4]>::from(overlap).map(u64::from));
}

// The entries of a vector, as numbers to print.
fn widened(vector: [u8; 40]) -> [u64; 40]
    ensures { result ≡ vector }
{
    vector.map(u64::from)
}

// A colon and the entries of a vector, as many as the rank says.
fn put_vector(out: &mut Line, vector: [u8; 40], rank: Generator)
    requires { length out.old.bytes + 842 ≤ 2048 }
    ensures added { out.new.bytes ≡ out.old.bytes ++ vector_text rank.0 vector }
    ensures upper_bound { length out.new.bytes ≤ length out.old.bytes + 842 }
{
    let n = usize::from(rank.0).min(40);
    out.push_str(" :");
    put_numbers(out, &widened(vector)[..n]);
}

fn pass_line(prime: Exponent, rank: Generator) -> Line
    ensures { result.bytes ≡ pass_line prime.0 rank.0 }
{
    let mut line = Line::new();
    line.push_str("pass");
    put_numbers(
        &mut line,
        &[u64::from(prime.0), u64::from(rank.0), overlaps(rank)],
    );
    line.push('\n');
    line
}

fn differs_line(rank: Generator, overlap: Overlap, left: [u8; 40], right: [u8; 40]) -> Line
    ensures { result.bytes ≡ differs_line rank.0 overlap left right }
{
    let mut line = Line::new();
    line.push_str("differs");
    put_overlap(&mut line, overlap);
    put_vector(&mut line, left, rank);
    put_vector(&mut line, right, rank);
    line.push('\n');
    line
}

// The number of a refusal, with the word before it.
fn put_refusal(out: &mut Line, refusal: Refusal)
    requires { length out.old.bytes + 28 ≤ 2048 }
    ensures added { out.new.bytes ≡ out.old.bytes ++ (ascii "refused" ++ spaced (refusal_number refusal ∷ [])) }
    ensures upper_bound { length out.new.bytes ≤ length out.old.bytes + 28 }
{
    out.push_str("refused");
    put_number(out, u64::from(u8::from(refusal)));
}

// A refusal that has no overlap. This line and the one at an overlap are two functions, as the definitions of their names are two.
pub fn refused_line(refusal: Refusal) -> Line
    ensures { result.bytes ≡ refused_line (refusal_number refusal) }
{
    let mut line = Line::new();
    put_refusal(&mut line, refusal);
    line.push('\n');
    line
}

// A refusal at an overlap.
#[tactic(auto, using(crate::proofs::Parts::stopped))]
fn stopped_line(refusal: Refusal, overlap: Overlap) -> Line
    ensures { result.bytes ≡ stopped_line (refusal_number refusal) overlap }
{
    let mut line = Line::new();
    put_refusal(&mut line, refusal);
    put_overlap(&mut line, overlap);
    line.push('\n');
    line
}

// The line of what the check answered on a presentation with this p and n.
pub fn line_of(prime: Exponent, rank: Generator, checked: Checked) -> Line
    ensures { result.bytes ≡ line_of prime.0 rank.0 checked }
{
    let Checked {
        verdict,
        left,
        right,
    } = checked;
    match verdict {
        Verdict::Pass => pass_line(prime, rank),
        Verdict::Differs(overlap) => differs_line(rank, overlap, left, right),
        Verdict::Refused(refusal) => refused_line(refusal),
        Verdict::Stopped(refusal, overlap) => stopped_line(refusal, overlap),
    }
}
