// A drawing file read and saved again: the slices that the writer takes are filled from the drawing's flat arrays, in which a
// coordinate of a line is its place on the grid and one of a link is a float.
#![tactic(auto)]

ghost use Rattle.std.specs.Prelude.{◌≡◌, not, ◌+◌, ◌*◌, ◌≤◌, ◌<◌, T, get_or, replicate};
ghost use Rattle.std.specs.Float.{binary64};
ghost use Rattle.std.specs.Float.Ieee.{is_nan, to_bits};
ghost use Rattle.std.proofs.lemmas.List.Edits.{sets};
ghost use Rattle.limits.specs.Limits.{most_lines, most_points, most_links};
ghost use Rattle.writer_spec.specs.Save.{save_again};
ghost use Rattle.writer_spec.specs.Given.{save_given};
ghost use Rattle.writer.specs.Saved.{saved_from};
ghost use Rattle.writer_again.specs.Again.{WritesCleaned};
ghost use Rattle.writer_again.specs.Filled.{size_at, sizes_in, bits_of, coordinates_in, segments_of, segments_in, ends_of, ends_in, given_in, Rising, Numbers, AreNumbers, Savable};

use file_drawing::Drawing;
use file_records::MstEdge;
use limits::{MOST_LINES, MOST_LINKS, MOST_POINTS, Refusal};
use writer_records::Given;

// Where each line starts among the points, and where the last one ends.
const STARTS: usize = MOST_LINES + 1;

// x and y of each point.
const COORDINATES: usize = 2 * MOST_POINTS;

// Of each link, four numbers, and four coordinates.
const ENDS: usize = 4 * MOST_LINKS;

// How many points a line has.
fn size_at(starts: &[u16; STARTS], line: usize) -> u32
    requires { (line < most_lines) × (get_or starts.now line 0 ≤ get_or starts.now (line + 1) 0) }
    ensures { result ≡ size_at starts.now line }
{
    u32::from(starts[line + 1] - starts[line])
}

fn sizes_of(starts: &[u16; STARTS], lines: usize) -> [u32; MOST_LINES]
    requires { (lines ≤ most_lines) × Rising starts.now lines }
    ensures { result ≡ sets (replicate most_lines 0) 0 (sizes_in starts.now lines) }
{
    let mut sizes = [0u32; MOST_LINES];
    for line in 0..lines {
        sizes[line] = size_at(starts, line);
    }
    sizes
}

// Puts x and y of a point, by the bits of the coordinates at its places.
fn put_point(coordinates: &mut [u64; COORDINATES], at: usize, x: u32, y: u32)
    requires { at + 2 ≤ 2 * most_points }
    ensures { coordinates.new ≡ sets coordinates.old at (bits_of x y) }
{
    coordinates[at] = grid::write_place(x);
    coordinates[at + 1] = grid::write_place(y);
}

fn coordinates_of(
    xs: &[u32; MOST_POINTS],
    ys: &[u32; MOST_POINTS],
    points: usize,
) -> [u64; COORDINATES]
    requires { points ≤ most_points }
    ensures { result ≡ sets (replicate (2 * most_points) 0) 0 (coordinates_in xs.now ys.now points) }
{
    let mut coordinates = [0u64; COORDINATES];
    for point in 0..points {
        put_point(&mut coordinates, 2 * point, xs[point], ys[point]);
    }
    coordinates
}

// Puts the line and the segment that each end of a link names.
fn put_segments(segments: &mut [u32; ENDS], at: usize, e: MstEdge)
    requires { at + 4 ≤ 4 * most_links }
    ensures { segments.new ≡ sets segments.old at (segments_of e) }
{
    segments[at] = u32::from(e.poly_a);
    segments[at + 1] = u32::from(e.seg_a);
    segments[at + 2] = u32::from(e.poly_b);
    segments[at + 3] = u32::from(e.seg_b);
}

fn segments_of(edges: &[MstEdge; MOST_LINKS], links: usize) -> [u32; ENDS]
    requires { links ≤ most_links }
    ensures { result ≡ sets (replicate (4 * most_links) 0) 0 (segments_in edges.now links) }
{
    let mut segments = [0u32; ENDS];
    for link in 0..links {
        put_segments(&mut segments, 4 * link, edges[link]);
    }
    segments
}

// Puts x and y of each end of a link.
fn put_ends(ends: &mut [u64; ENDS], at: usize, e: MstEdge)
    requires { (at + 4 ≤ 4 * most_links) × Numbers e }
    ensures { ends.new ≡ sets ends.old at (ends_of e) }
{
    let a = e.point_a;
    let b = e.point_b;
    ends[at] = a.x.to_bits();
    ends[at + 1] = a.y.to_bits();
    ends[at + 2] = b.x.to_bits();
    ends[at + 3] = b.y.to_bits();
}

fn ends_of(edges: &[MstEdge; MOST_LINKS], links: usize) -> [u64; ENDS]
    requires { (links ≤ most_links) × AreNumbers edges.now links }
    ensures { result ≡ sets (replicate (4 * most_links) 0) 0 (ends_in edges.now links) }
{
    let mut ends = [0u64; ENDS];
    for link in 0..links {
        put_ends(&mut ends, 4 * link, edges[link]);
    }
    ends
}

// Saves a drawing in flat arrays.
fn save_arrays(drawing: &Drawing, destination: &mut [u8]) -> Result<usize, Refusal>
    requires { Savable drawing.now }
    ensures { saved_from result destination.new ≡ save_given (given_in drawing.now) destination.old }
{
    let sizes = sizes_of(&drawing.starts, drawing.lines);
    let coordinates = coordinates_of(&drawing.xs, &drawing.ys, drawing.points);
    let segments = segments_of(&drawing.links, drawing.link_count);
    let ends = ends_of(&drawing.links, drawing.link_count);
    let lines = drawing.lines;
    let both = 2 * drawing.points;
    let four = 4 * drawing.link_count;
    let given = Given {
        settings: drawing.settings,
        sizes: &sizes[..lines],
        coordinates: &coordinates[..both],
        segments: &segments[..four],
        ends: &ends[..four],
    };
    writer::save(destination, &given)
}

// Reads a drawing file, whatever its bytes are, and saves what was read. Refused as the reader would refuse it, or because the destination
// is too short, the destination keeps its bytes; otherwise those past the file do, and what stands before them is the cleaned file: the one
// that was read, with a plain zero for each minus zero.
pub fn save_again(file: &[u8], destination: &mut [u8]) -> Result<usize, Refusal>
    ensures saved { saved_from result destination.new ≡ save_again file.now destination.old }
    ensures cleaned { WritesCleaned result file.now destination.old destination.new }
{
    let mut drawing = Drawing::new();
    match file::read_into(file, &mut drawing) {
        Err(refusal) => Err(refusal),
        Ok(()) => save_arrays(&drawing, destination),
    }
}
