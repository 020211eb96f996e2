// Reads a drawing file on standard input and writes what was read, saved again, to standard output. Where it is refused, the
// number goes to standard error and nothing to standard output.
#![tactic(auto)]

use limits::{MOST_BYTES, MOST_FILE, Refusal};

// A file that is longer than check 1 allows is refused, so that one byte more is enough of it.
const FILE_ROOM: usize = MOST_BYTES + 1;

// The room that `put_refusal` asks for.
const TEXT_ROOM: usize = 29;

fn print_refusal(refusal: Refusal) {
    let mut text = [0u8; TEXT_ROOM];
    let k = planner_text::put_refusal(&mut text, refusal.number());
    io::write_all(2, &text[..k]);
}

fn main() {
    let mut file = [0u8; FILE_ROOM];
    let n = io::read_full(0, &mut file);
    let mut destination = [0u8; MOST_FILE];
    match writer_again::save_again(&file[..n], &mut destination) {
        Ok(bytes) => {
            io::write_all(1, &destination[..bytes]);
        }
        Err(refusal) => print_refusal(refusal),
    }
}
