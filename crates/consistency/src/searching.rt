// The order of the overlaps, and the first one that settles the verdict: "Overlaps in order; within a family, i slowest, then j, then k, each
// rising". Inner functions of this crate. The group, the budget and the workspace are handed from call to call: the workspace is lent `&mut`
// anew at each, as promised of the calls, so that a value of the three would be built anew for each overlap and say no more.
ghost use Rattle.std.specs.Prelude.{◌≡◌, ◌/◌, length};
ghost use Rattle.layout.specs.Header.{rank_of};
ghost use Rattle.consistency.specs.Check.{decide, decision, settles, triples_of, pairs_of, singles_of};

use crate::judging::judge_overlap;
use crate::{Checked, Family, Overlap};
use layout::{Generator, Group};

// "1. i < j < k". The loops are left by label at the first overlap that settles the verdict.
pub fn search_triples(group: Group, budget: u32, work: &mut [u16]) -> Result<(), Checked>
    ensures { let nums = group.entry.numbers.now in
        result ≡ settles (rank_of nums) (decide nums budget (length work.old / 3) (triples_of (rank_of nums))) }
{
    let n = group.view.rank.0; // where i or j is n, no k is left
    let mut found = Ok(());
    'search: for i in 1..=n {
        for j in i + 1..=n {
            for k in j + 1..=n {
                let o = Overlap::Triple(Generator(i), Generator(j), Generator(k));
                found = judge_overlap(group, o, budget, work);
                if found.is_err() {
                    break 'search;
                }
            }
        }
    }
    found
}

// "2. i < j" and "3. i < j".
pub fn search_pairs(
    group: Group,
    family: Family,
    budget: u32,
    work: &mut [u16],
) -> Result<(), Checked>
    ensures { let nums = group.entry.numbers.now in
        result ≡ settles (rank_of nums) (decide nums budget (length work.old / 3) (pairs_of family (rank_of nums))) }
{
    let n = group.view.rank.0;
    let mut found = Ok(());
    'search: for i in 1..=n {
        for j in i + 1..=n {
            let o = Overlap::Pair(family, Generator(i), Generator(j));
            found = judge_overlap(group, o, budget, work);
            if found.is_err() {
                break 'search;
            }
        }
    }
    found
}

// "4. i".
pub fn search_singles(group: Group, budget: u32, work: &mut [u16]) -> Result<(), Checked>
    ensures { let nums = group.entry.numbers.now in
        result ≡ settles (rank_of nums) (decide nums budget (length work.old / 3) (singles_of (rank_of nums))) }
{
    let n = group.view.rank.0;
    let mut found = Ok(());
    'search: for i in 1..=n {
        let o = Overlap::Single(Generator(i));
        found = judge_overlap(group, o, budget, work);
        if found.is_err() {
            break 'search;
        }
    }
    found
}

// All overlaps, the families in their order.
pub fn search(group: Group, budget: u32, work: &mut [u16]) -> Result<(), Checked>
    ensures { let nums = group.entry.numbers.now in
        result ≡ settles (rank_of nums) (decision nums budget (length work.old / 3)) }
{
    search_triples(group, budget, work)?;
    search_pairs(group, Family::Upper, budget, work)?;
    search_pairs(group, Family::Lower, budget, work)?;
    search_singles(group, budget, work)
}
