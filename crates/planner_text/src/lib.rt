// What the program `plan` prints, made as one text, so that it is written by one call: number by number, the calls took longer than
// the plan. A crate of its own, since it is the programs' alone: `save` prints a refusal as `plan` does.
#![tactic(auto)]

ghost use Rattle.std.specs.Prelude.{◌≡◌, ◌∷◌, [], ◌++◌, ◌+◌, ◌*◌, ◌≤◌, length, drop};
ghost use Rattle.std.specs.Float.{binary64};
ghost use Rattle.std.specs.Float.Ieee.{to_bits};
ghost use Rattle.io.specs.Counts.{IsPrefixLen};
ghost use Rattle.sums.specs.Key.{Nonneg};
ghost use Rattle.drawing_spec.specs.Read.{point, points};
ghost use Rattle.drawing_spec.specs.Bytes.{in_front};
ghost use Rattle.planner_graph.specs.Answer.{answer_of};
ghost use Rattle.planner_text.specs.Text.{decimal, hex, steps_text, point_text, points_text, field, first_line, printed, refused_word, blank, line_end};
ghost use Rattle.planner_text.specs.Put.{Put, text_room, Printable};

use grid::ORIGIN;
use planner_graph::Answer;

// Room for the longest text: the first line has at most 83 bytes, each of at most 4,001 points 22.
pub const TEXT_ROOM: usize = 88_200;

const BLANK: u8 = 32;

const LINE_END: u8 = 10;

const MINUS: u8 = 45;

// Puts a byte at a place of the text; the answer is the place behind it, here and below. (A struct that lends the text and has the place
// is no plainer: each method that takes it would need clauses of its own, that it still lends the same text.)
fn put_byte(text: &mut [u8], at: usize, byte: u8) -> usize
    requires { at + 1 ≤ length text.old }
    ensures { Put text.old at (byte ∷ []) text.new result }
{
    text[at] = byte;
    at + 1
}

// Puts a word.
fn put_word(text: &mut [u8], at: usize, word: &[u8]) -> usize
    requires { at + length word.now ≤ length text.old }
    ensures { Put text.old at word.now text.new result }
{
    let end = at + word.len();
    text[at..end].copy_from_slice(word);
    end
}

// Puts a number in decimal.
fn put_decimal(text: &mut [u8], at: usize, n: u64) -> usize
    requires { at + 20 ≤ length text.old }
    ensures put { Put text.old at (decimal n) text.new result }
    ensures short { result ≤ at + 20 }
{
    let mut spelled = [0u8; 20];
    let k = io::decimal(n, &mut spelled);
    put_word(text, at, &spelled[..k])
}

// Puts 64 bits in 16 hex digits, and a blank.
fn put_bits(text: &mut [u8], at: usize, bits: u64) -> usize
    requires { at + 17 ≤ length text.old }
    ensures put { Put text.old at (hex bits ++ (blank ∷ [])) text.new result }
    ensures short { result ≤ at + 17 }
{
    let mut spelled = [0u8; 16];
    let k = io::hex(bits, 16, &mut spelled);
    let behind = put_word(text, at, &spelled[..k]);
    put_byte(text, behind, BLANK)
}

// Puts a number, and the byte that parts it from what comes next.
fn put_field(text: &mut [u8], at: usize, n: u64, end: u8) -> usize
    requires { at + 21 ≤ length text.old }
    ensures put { Put text.old at (field n end) text.new result }
    ensures short { result ≤ at + 21 }
{
    let behind = put_decimal(text, at, n);
    put_byte(text, behind, end)
}

// Puts the coordinate whose grid place is `place`, in signed grid steps.
fn put_steps(text: &mut [u8], at: usize, place: u32) -> usize
    requires { at + 21 ≤ length text.old }
    ensures put { Put text.old at (steps_text place) text.new result }
    ensures short { result ≤ at + 10 }
{
    if place < ORIGIN {
        let behind = put_byte(text, at, MINUS);
        return put_decimal(text, behind, u64::from(ORIGIN - place));
    }
    put_decimal(text, at, u64::from(place - ORIGIN))
}

// Puts the point that stands in 16 bytes of the output, on a line of its own. The room asked for is more than it takes, since
// `put_decimal` asks for that of 20 digits.
fn put_point(text: &mut [u8], at: usize, output: &[u8], from: usize) -> usize
    requires { (at + 32 ≤ length text.old) × (from + 16 ≤ length output.now) }
    ensures put { Put text.old at (point_text (point (drop from output.now))) text.new result }
    ensures short { result ≤ at + 22 }
{
    let x = file_records::place_at(output, from);
    let behind_x = put_steps(text, at, x);
    let second = put_byte(text, behind_x, BLANK);
    let y = file_records::place_at(output, from + 8);
    let behind_y = put_steps(text, second, y);
    put_byte(text, behind_y, LINE_END)
}

// Puts the first `count` points of the record in the output.
fn put_points(text: &mut [u8], at: usize, output: &[u8], count: usize) -> usize
    requires { (at + 22 * count + 10 ≤ length text.old) × (6 + 16 * count ≤ length output.now) }
    ensures put { Put text.old at (points_text (points count (drop 6 output.now))) text.new result }
    ensures short { result ≤ at + 22 * count }
{
    let mut behind = at;
    for i in 0..count {
        behind = put_point(text, behind, output, 6 + 16 * i);
    }
    behind
}

// Puts the first line of an accepted answer.
fn put_counts(text: &mut [u8], bits: u64, before: usize, after: usize, count: usize) -> usize
    requires { 83 ≤ length text.old }
    ensures put { Put text.old 0 (first_line bits before after count) text.new result }
    ensures short { result ≤ 83 }
{
    let ok = put_word(text, 0, b"ok ");
    let first = put_bits(text, ok, bits);
    let second = put_field(text, first, before as u64, BLANK);
    let third = put_field(text, second, after as u64, BLANK);
    put_field(text, third, count as u64, LINE_END)
}

// Puts the line of a refusal.
pub fn put_refusal(text: &mut [u8], number: u8) -> usize
    requires { 29 ≤ length text.old }
    ensures put { Put text.old 0 (refused_word ++ field number line_end) text.new result }
    ensures short { result ≤ 29 }
{
    let behind = put_word(text, 0, b"refused ");
    put_field(text, behind, u64::from(number), LINE_END)
}

// What `plan` prints of an answer and of the output that goes with it, at the front of the text, whose later bytes keep their value.
// Returns how many bytes it has; that they are a part of the text (`IsPrefixLen`) is what `&text[..k]` asks.
pub fn text_of(answer: Answer, output: &[u8], text: &mut [u8]) -> usize
    requires room { text_room ≤ length text.old }
    requires answer { Printable answer output.now }
    ensures text { text.new ≡ in_front (printed (answer_of answer) output.now) text.old }
    ensures count { (result ≡ length (printed (answer_of answer) output.now)) × IsPrefixLen result text.new }
{
    match answer {
        Answer::Refused(number) => put_refusal(text, number),
        Answer::Planned(retrace, before, after, count) => {
            let bits = retrace.to_bits();
            let behind = put_counts(text, bits, before, after, count);
            put_points(text, behind, output, count)
        }
    }
}
