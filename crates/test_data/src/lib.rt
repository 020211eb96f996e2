// What the test programs share: the reading of their data, and the line that they print. A crate of its own, so that it is
// proved once for all of them.
#![tactic(auto)]

ghost use Rattle.std.specs.Prelude.{◌<◌};
ghost use Rattle.io.specs.Counts.{IsPrefixLen};

use std::fs::File;
use std::io::Read;
use std::rt::Files;
use std::{io, str};

// Reads a data file, as far as there is room. The answer is how many bytes were read, and 0 where there is no such file, of
// which a line on standard error then tells. Std names files by text, so no file has a name that is none.
pub fn load(rt: &(impl Files + Eprint), path: &[u8], buf: &mut [u8]) -> usize
    ensures { IsPrefixLen result buf.new }
{
    match str::from_utf8(path) {
        Ok(name) => load_named(rt, name, buf),
        Err(error) => {
            let _ = eprintln!(rt; "{error}");
            0
        }
    }
}

fn load_named(rt: &(impl Files + Eprint), name: &str, buf: &mut [u8]) -> usize
    ensures { IsPrefixLen result buf.new }
{
    match File::open(rt, name) {
        Ok(mut file) => fill(&mut file, buf),
        Err(error) => {
            let _ = eprintln!(rt; "{name}: {error}");
            0
        }
    }
}

// Reads until there is no more room, the data ends or a read fails. The answer is how many bytes were read.
fn fill(reader: &mut impl Read, buf: &mut [u8]) -> usize
    ensures { IsPrefixLen result buf.new }
{
    let mut filled = 0;
    while filled < buf.len() {
        match reader.read(&mut buf[filled..]) {
            Ok(0) | Err(_) => break,
            Ok(n) => filled += n,
        }
    }
    filled
}

// The byte that lies some bytes behind a place, as if the data went on with zeros.
pub fn byte(data: &[u8], at: usize, by: usize) -> u8 {
    data.get(at.saturating_add(by)).copied().unwrap_or(0)
}

// The value of a hex digit, and 0 of any other byte.
fn digit(c: u8) -> u8
    ensures { result < 16 }
{
    match c {
        b'0'..=b'9' => c - b'0',
        b'a'..=b'f' => c - b'a' + 10,
        _ => 0,
    }
}

// The number in so many bytes at a place, lowest byte first.
pub fn number(data: &[u8], at: usize, count: usize) -> u64 {
    let mut value = 0u64;
    for i in (0..count).rev() {
        value = value % 0x100_0000_0000_0000 * 256 + u64::from(byte(data, at, i));
    }
    value
}

// The number that so many hex digits say at a place.
pub fn hex(data: &[u8], at: usize, count: usize) -> u64 {
    let mut value = 0u64;
    for i in 0..count {
        value = value % 0x1000_0000_0000_0000 * 16 + u64::from(digit(byte(data, at, i)));
    }
    value
}

// Prints how many cases there were, and how many came out otherwise.
pub fn report(
    rt: &impl Print,
    name: &[u8],
    count: u64,
    cases: &[u8],
    wrong: u64,
) -> io::Result<()> {
    rt.write_all(name)?;
    print!(rt; ": {count} ")?;
    rt.write_all(cases)?;
    println!(rt; ", {wrong} wrong")
}
