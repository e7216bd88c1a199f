// Tables of text, as the witness programs read their cases: a line ends with a line feed, its fields are separated by tabs, and the
// numbers in a field by single spaces. Reading asks nothing of a table: what is missing is empty, and what is no digit is passed over.
#![tactic(auto)]

ghost use Rattle.std.specs.Prelude.{◌≤◌, length, IfSome};

use std::io::Read;
use std::rt::Files;
use std::{fs, io};
use text::numbers_of;
use total::part_mut;

// Reads an open file until the bytes are full, the file ends or a read fails: what came. `pcp_run` has its own, where a failed read makes
// the whole file count as empty: one function for both would give back what came and whether a read failed, and each would drop one.
fn read_open<'a>(file: &mut impl Read, bytes: &'a mut [u8]) -> &'a [u8]
    ensures { length result.now ≤ length bytes.old }
{
    let mut at: usize = 0;
    while at < bytes.len() {
        let got = file.read(&mut bytes[at..]).unwrap_or(0);
        if got == 0 {
            break;
        }
        at += got;
    }
    &bytes[..at]
}

// What is read of the file of this name, where it can be opened. Paths are UTF-8 text here: any other name can't be opened.
fn read_named<'a>(rt: &impl Files, name: &[u8], bytes: &'a mut [u8]) -> Option<&'a [u8]>
    ensures { IfSome result (λ read. length read.now ≤ length bytes.old) }
{
    let path = str::from_utf8(name).ok()?;
    let mut file = fs::open(rt, path).ok()?;
    Some(read_open(&mut file, bytes))
}

// Reads the file of this name, as far as there is room, and gives back the bytes that came: none if it can't be read.
pub fn read_file<'a>(rt: &impl Files, name: &[u8], bytes: &'a mut [u8]) -> &'a [u8]
    ensures { length result.now ≤ length bytes.old }
{
    read_named(rt, name, bytes).unwrap_or(&[])
}

// Reads the file of this name as 16-bit numbers, low byte first, and gives back those that came. A presentation has at most 22,962.
pub fn read_numbers<'a>(rt: &impl Files, name: &[u8], numbers: &'a mut [u16]) -> &'a [u16]
    ensures { length result.now ≤ length numbers.old }
{
    let mut bytes = [0u8; 45926];
    let count = numbers_of(read_file(rt, name, &mut bytes), numbers);
    &numbers[..count]
}

// Calls `each` with every line of the file of this name, as far as `room` holds it, until one call fails.
pub fn each_line<F: Fn(&[u8]) -> io::Result<()>>(
    rt: &impl Files,
    name: &[u8],
    room: &mut [u8],
    each: F,
) -> io::Result<()>
    requires { F.IsAlwaysCallable each }
{
    for line in read_file(rt, name, room).split_inclusive(|byte| *byte == b'\n') {
        each(before(line, b'\n'))?;
    }
    Ok(())
}

// What stands before the first `stop`.
pub fn before(text: &[u8], stop: u8) -> &[u8] {
    text.split(|byte| *byte == stop).next().unwrap_or(text)
}

// The field with k tabs before it.
pub fn field(line: &[u8], k: usize) -> &[u8] {
    line.split(|byte| *byte == b'\t').nth(k).unwrap_or(&[])
}

fn with_digit(value: u64, byte: u8) -> u64 {
    if value > 1000000000000 {
        return value;
    }
    match byte {
        b'0'..=b'9' => value * 10 + u64::from(byte - b'0'),
        _ => value,
    }
}

// The number that a text's digits make.
pub fn decimal(text: &[u8]) -> u64 {
    text.iter().fold(0, |value, byte| with_digit(value, *byte))
}

// Stores the numbers of a field, as far as there is room, and gives back the part that holds them. A number too large for its place
// is stored as 0.
pub fn numbers_in<'a, T: TryFrom<u64> + Default + Drop>(
    field: &[u8],
    out: &'a mut [T],
) -> &'a mut [T]
where
    T::Error: Drop,
    ensures { length result.now ≤ length out.old }
{
    let mut count: usize = 0;
    for (place, digits) in out
        .iter_mut()
        .zip(field.split_inclusive(|byte| *byte == b' '))
    {
        *place = T::try_from(decimal(before(digits, b' '))).unwrap_or_default();
        count = count.saturating_add(1);
    }
    part_mut(out, count)
}
