// A drawing in flat arrays: `arrays` reads the lines and the links of a file into them, and `links` is check 8.
// A crate of its own, so that what is built of a drawing does not depend on the checks' order.
#![tactic(auto)]

ghost use Rattle.std.specs.Prelude.{◌≡◌};
ghost use Rattle.file_drawing.specs.Held.{nothing};

pub mod arrays;
pub mod links;

use file_records::{MstEdge, Settings};
use limits::{MOST_LINES, MOST_LINKS, MOST_POINTS};

// A drawing in flat arrays, each filled up with zeros behind what it holds. Line i's points are those
// from starts[i] to starts[i + 1], each coordinate by its place on the grid.
#[derive(Clone, Copy)]
pub struct Drawing {
    pub settings: Settings,
    pub lines: usize,
    pub starts: [u16; MOST_LINES + 1],
    pub points: usize,
    pub xs: [u32; MOST_POINTS],
    pub ys: [u32; MOST_POINTS],
    pub link_count: usize,
    pub links: [MstEdge; MOST_LINKS],
}

impl Drawing {
    // A drawing with nothing in it, to be read into: all zeros.
    pub fn new() -> Self
        ensures { result ≡ nothing }
    {
        Drawing {
            settings: Settings {
                width: 0,
                height: 0,
                pairing: 0,
                flags: 0,
            },
            lines: 0,
            starts: [0; MOST_LINES + 1],
            points: 0,
            xs: [0; MOST_POINTS],
            ys: [0; MOST_POINTS],
            link_count: 0,
            links: [arrays::no_link(); MOST_LINKS],
        }
    }
}
