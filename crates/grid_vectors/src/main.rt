// Replays tools/grid_vectors.py's patterns against `grid`: each is read, and where it is on the grid
// its place is written back, which gives the pattern, with plain zero for minus zero. It prints how
// many there were and how many came out otherwise.
#![tactic(auto)]

use std::io;

// A line of the file: a kind, a blank, 16 hex digits, a blank, 8 hex digits, a line feed.
const LINE: usize = 28;

// What the file has in the place of a place where a pattern is not on the grid.
const OFF: u64 = 0xffff_ffff;

// Whether a pattern is read as the place that the file says, and that place is written as the
// pattern, cleaned.
fn read_right(bits: u64, place: u64) -> bool {
    match grid::read_place(bits) {
        Some(p) => u64::from(p) == place && grid::write_place(p) == grid::clean(bits),
        None => place == OFF,
    }
}

// Whether a place is written as the pattern that the file says.
fn write_right(place: u64, bits: u64) -> bool {
    place <= OFF && grid::write_place(place as u32) == bits
}

// Whether a line holds.
fn right(line: &[u8]) -> bool {
    let bits = test_data::hex(line, 2, 16);
    let place = test_data::hex(line, 19, 8);
    match test_data::byte(line, 0, 0) {
        b'r' => read_right(bits, place),
        b'w' => write_right(place, bits),
        _ => false,
    }
}

fn main(rt: HostRuntime) -> io::Result<()> {
    let mut buf = [0u8; 262144];
    let n = test_data::load(&rt, b"vectors", &mut buf);
    let wrong = buf[..n]
        .chunks_exact(LINE)
        .filter(|line| !right(line))
        .count();
    test_data::report(&rt, b"grid", (n / LINE) as u64, b"vectors", wrong as u64)
}
