// Reads a drawing file on standard input and prints its plan, with tables for 12 odd nodes and an output for
// 4,001 points.
#![tactic(auto)]

use limits::MOST_BYTES;
use planner_text::TEXT_ROOM;

// A file that is longer than check 1 allows is refused, so that one byte more is enough of it.
const FILE_ROOM: usize = MOST_BYTES + 1;

// 2^12 + 12^2, and 2^12
const FLOATS: usize = 4_240;

const BYTES: usize = 4_096;

// 6 + 16 * 4,001
const OUTPUT: usize = 64_022;

fn main() {
    let mut file = [0u8; FILE_ROOM];
    let n = io::read_full(0, &mut file);
    let mut floats = [0.0f64; FLOATS];
    let mut bytes = [0u8; BYTES];
    let mut output = [0u8; OUTPUT];
    let answer = planner::plan_file(&file[..n], &mut floats, &mut bytes, &mut output);
    let mut text = [0u8; TEXT_ROOM];
    let k = planner_text::text_of(answer, &output, &mut text);
    io::write_all(1, &text[..k]);
}
