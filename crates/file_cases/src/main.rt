// Replays tools/reader_cases.py's drawing files against the reader, and prints how many there were and
// how many came out otherwise: another verdict, another value anywhere in the drawing.
#![tactic(auto)]

ghost use Rattle.std.specs.Prelude.{◌≤◌};

use file_drawing::Drawing;
use file_records::{MstEdge, Point};
use limits::MOST_LINKS;
use std::io;

// Room for a drawing file of 65,537 bytes.
const ROOM: usize = 65_600;

const PRIME: u64 = 4_294_967_291;

// The number in so many bytes that lie some bytes behind a place of the data.
fn number(data: &[u8], at: usize, by: usize, count: usize) -> u64 {
    test_data::number(data, at.saturating_add(by), count)
}

// Puts one copy of a run's bytes behind the bytes that are there, as far as there is room.
fn copy(data: &[u8], from: usize, count: usize, file: &mut [u8; ROOM], filled: usize) -> usize
    requires { filled ≤ 65600 }
    ensures { result ≤ 65600 }
{
    let mut end = filled;
    for i in 0..count {
        if end >= ROOM {
            return end;
        }
        file[end] = test_data::byte(data, from, i);
        end += 1;
    }
    end
}

// How many bytes a case's drawing file has, and where the data goes on.
#[derive(Clone, Copy)]
struct Built {
    len: usize,
    next: usize,
}

// Builds a case's drawing file of runs of bytes, each so many times.
fn build(data: &[u8], at: usize, file: &mut [u8; ROOM]) -> Built
    ensures { result.len ≤ 65600 }
{
    let mut next = at.saturating_add(1);
    let mut len = 0;
    'runs: for _ in 0..number(data, at, 0, 1) {
        let count = (number(data, next, 4, 2) % 65536) as usize;
        let from = next.saturating_add(6);
        'copies: for _ in 0..number(data, next, 0, 4) {
            len = copy(data, from, count, file, len);
        }
        next = from.saturating_add(count);
    }
    Built { len, next }
}

fn mixed(sum: u64, value: u64) -> u64 {
    (sum % PRIME * 31 + value % PRIME) % PRIME
}

// The checksum of all that a drawing holds but its links.
fn checksum(d: &Drawing) -> u64 {
    let sum = mixed(0, u64::from(d.settings.width));
    let sum = mixed(sum, u64::from(d.settings.height));
    let sum = mixed(sum, u64::from(d.settings.pairing));
    let sum = mixed(sum, u64::from(d.settings.flags));
    let sum = mixed(sum, d.lines as u64);
    let sum = d
        .starts
        .iter()
        .fold(sum, |sum, start| mixed(sum, u64::from(*start)));
    let sum = mixed(sum, d.points as u64);
    let sum = d.xs.iter().fold(sum, |sum, x| mixed(sum, u64::from(*x)));
    let sum = d.ys.iter().fold(sum, |sum, y| mixed(sum, u64::from(*y)));
    mixed(sum, d.link_count as u64)
}

// Whether a point is the one at the two places of the grid that the data has.
fn point_right(data: &[u8], at: usize, by: usize, p: Point) -> bool {
    let x = number(data, at, by, 4) % 4_294_967_296;
    let y = number(data, at.saturating_add(4), by, 4) % 4_294_967_296;
    p.x == grid::coordinate(x as u32) && p.y == grid::coordinate(y as u32)
}

fn names_right(data: &[u8], at: usize, e: MstEdge) -> bool {
    number(data, at, 0, 2) == u64::from(e.poly_a)
        && number(data, at, 2, 2) == u64::from(e.seg_a)
        && number(data, at, 4, 2) == u64::from(e.poly_b)
        && number(data, at, 6, 2) == u64::from(e.seg_b)
}

// Whether a link is the one that the data has at a place.
fn edge_right(data: &[u8], at: usize, e: MstEdge) -> bool {
    names_right(data, at, e)
        && point_right(data, at, 8, e.point_a)
        && point_right(data, at, 16, e.point_b)
}

fn point_empty(p: Point) -> bool {
    p.x == 0.0 && p.y == 0.0
}

// Whether nothing stands in a place for a link.
fn edge_empty(e: MstEdge) -> bool {
    e.poly_a == 0
        && e.seg_a == 0
        && e.poly_b == 0
        && e.seg_b == 0
        && point_empty(e.point_a)
        && point_empty(e.point_b)
}

// Whether the links are the data's, and the places behind them are empty.
fn edges_right(data: &[u8], at: usize, count: u64, edges: &[MstEdge; MOST_LINKS]) -> bool {
    for i in 0..MOST_LINKS {
        let right = if (i as u64) < count {
            edge_right(data, at.saturating_add(24 * i), edges[i])
        } else {
            edge_empty(edges[i])
        };
        if !right {
            return false;
        }
    }
    true
}

// Whether a file is read as the data says at a place; of a refused file it has a drawing with nothing in it.
fn right(data: &[u8], at: usize, file: &[u8]) -> bool {
    let (refusal, drawing) = match file::read(file) {
        Ok(drawing) => (0, drawing),
        Err(refusal) => (refusal.number(), Drawing::new()),
    };
    let count = number(data, at, 5, 2);
    number(data, at, 0, 1) == u64::from(refusal)
        && number(data, at, 1, 4) == checksum(&drawing)
        && drawing.link_count as u64 == count
        && edges_right(data, at.saturating_add(7), count, &drawing.links)
}

// Where the next case starts, and whether this one came out as the data says.
#[derive(Clone, Copy)]
struct Step {
    next: usize,
    right: bool,
}

fn run(data: &[u8], at: usize) -> Step {
    let mut file = [0u8; ROOM];
    let built = build(data, at, &mut file);
    let answer = built.next;
    let links = (number(data, answer, 5, 2) % 65536) as usize;
    Step {
        next: answer.saturating_add(7 + 24 * links),
        right: right(data, answer, &file[..built.len]),
    }
}

// How many of the data's cases come out otherwise.
fn count_wrong(data: &[u8], cases: u64) -> u64 {
    let mut found = 0u64;
    let mut at = 2;
    for i in 0..cases {
        let step = run(data, at);
        if !step.right {
            found += 1;
        }
        at = step.next;
    }
    found
}

fn main(rt: HostRuntime) -> io::Result<()> {
    let mut buf = [0u8; 131072];
    let n = test_data::load(&rt, b"cases", &mut buf);
    let data = &buf[..n];
    let cases = number(data, 0, 0, 2);
    test_data::report(&rt, b"reader", cases, b"files", count_wrong(data, cases))
}
