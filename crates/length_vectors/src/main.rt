// Runs the root vectors of data/vectors, which tools/length_vectors.py writes: 16 bytes each, a number of squared grid steps and the bits of its
// length, little-endian. Prints how many there are, and how many lengths are other than these bits.
#![tactic(auto)]

use std::io;

// The bytes of a vector.
const VECTOR: usize = 16;

// The bits of a length, which is no NaN.
fn bits(n: u64) -> u64 {
    f64::to_bits(length::length(n))
}

// Whether a vector's bits are those of its length.
fn right(vector: &[u8]) -> bool {
    bits(test_data::number(vector, 0, 8)) == test_data::number(vector, 8, 8)
}

fn main(rt: HostRuntime) -> io::Result<()> {
    let mut buf = [0u8; 131072];
    let n = test_data::load(&rt, b"vectors", &mut buf);
    let wrong = buf[..n]
        .chunks_exact(VECTOR)
        .filter(|vector| !right(vector))
        .count();
    test_data::report(
        &rt,
        b"length",
        (n / VECTOR) as u64,
        b"vectors",
        wrong as u64,
    )
}
