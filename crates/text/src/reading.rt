// Bytes to 16-bit numbers, low byte first.
ghost use Rattle.text.specs.Numbers.{Unpacked};

// Stores the numbers of the bytes from the first place on, as far as there is room, and answers how many it stored.
// A last byte that has no partner is passed over. The answer is the count, as of a read, and no part of `numbers`: the contract says what
// all of them became, and a part given back would keep them lent.
#[tactic(auto, using(crate::proofs::Unpacking::steps))]
pub fn numbers_of(bytes: &[u8], numbers: &mut [u16]) -> usize
    ensures { Unpacked bytes.now numbers.old numbers.new result }
{
    let (pairs, _) = bytes.as_chunks::<2>();
    let count = pairs.len().min(numbers.len());
    // By the place, not `numbers.iter_mut().zip(pairs)`: after an adapter of `iter_mut` a proof knows the length and no number.
    for (i, pair) in pairs[..count].iter().enumerate() {
        numbers[i] = u16::from_le_bytes(*pair);
    }
    count
}
