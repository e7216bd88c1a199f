// The program's reading and writing: a file's bytes in, one line out. What the line says is proved of `answer::program_line`; what
// is read and written no contract can say, so each function here is small and does one thing.
#![tactic(auto)]

ghost use Rattle.std.specs.Prelude.{◌≤◌, length, IfSome};

use std::io::Read;
use std::rt::Files;
use std::{fs, io};

// Reads an open file to its end or until the bytes are full: what it read, or nothing where a read fails.
// The library's reading to the end takes a heap, and tries an interrupted read again.
// `table` has its own, which keeps what came before a failed read: one function for both would give back that and whether a read failed.
fn read_open<'a>(file: &mut impl Read, bytes: &'a mut [u8]) -> Option<&'a [u8]>
    ensures { IfSome result (λ read. length read.now ≤ length bytes.old) }
{
    let mut at: usize = 0;
    while at < bytes.len() {
        let got = file.read(&mut bytes[at..]).ok()?;
        if got == 0 {
            break;
        }
        at += got;
    }
    Some(&bytes[..at])
}

// Reads the file of this name, where it can be read. Paths are UTF-8 text here: any other name can't be read.
fn read_file<'a>(rt: &impl Files, name: &[u8], bytes: &'a mut [u8]) -> Option<&'a [u8]>
    ensures { IfSome result (λ read. length read.now ≤ length bytes.old) }
{
    let path = str::from_utf8(name).ok()?;
    let mut file = fs::open(rt, path).ok()?;
    read_open(&mut file, bytes)
}

// Prints the line for the file of this name. Of a file with more than 45,924 bytes no more is read than shows it, and "a file that
// can't be read counts as empty".
pub fn print_line(rt: &(impl Files + Print), name: &[u8]) -> io::Result<()> {
    let mut bytes = [0u8; 45926];
    let read = read_file(rt, name, &mut bytes).unwrap_or(&[]);
    let line = answer::program_line(read);
    rt.write_all(line.as_str().as_bytes())
}
