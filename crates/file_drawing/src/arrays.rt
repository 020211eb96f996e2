// The lines and the links of a file, read into flat arrays.
ghost use Rattle.std.specs.Prelude.{◌≡◌, ◌+◌, ◌*◌, ◌≤◌, length, replicate};
ghost use Rattle.std.proofs.lemmas.List.Edits.{sets};
ghost use Rattle.limits.specs.Limits.{point_size, most_points, most_links};
ghost use Rattle.drawing_spec.specs.Read.{points};
ghost use Rattle.file_records.specs.Body.{record_read};
ghost use Rattle.file_drawing.specs.Held.{points_of, link_in, no_link};
ghost use Rattle.file_drawing.specs.Stores.{xs_of, ys_of};
ghost use Rattle.file_drawing.specs.Lines.{AtLines, arrays, LinesRead};
ghost use Rattle.file_drawing.specs.Links.{AtLinks, links_from};

use file_records::{Body, MstEdge, Point};
use limits::{MOST_LINES, MOST_LINKS, MOST_POINTS, POINT_SIZE};

pub fn no_link() -> MstEdge
    ensures { result ≡ no_link }
{
    let point = Point { x: 0.0, y: 0.0 };
    MstEdge {
        poly_a: 0,
        seg_a: 0,
        poly_b: 0,
        seg_b: 0,
        point_a: point,
        point_b: point,
    }
}

// The points of a line, and none where the record is another.
fn points_of(body: Body) -> usize
    ensures { result ≡ points_of body }
{
    match body {
        Body::Line(points) => points,
        Body::Settings(_) | Body::Link(_) | Body::Other => 0,
    }
}

// The link of the record at a place, and nothing where it is another.
fn link_of(file: &[u8], at: usize) -> MstEdge
    ensures { result ≡ link_in (record_read file.now at).body }
{
    match file_records::record_at(file, at).body {
        Body::Link(edge) => edge,
        Body::Settings(_) | Body::Line(_) | Body::Other => no_link(),
    }
}

// Puts the first `count` points of a line's body into the arrays from an index on.
fn fill_points(
    body: &[u8],
    count: usize,
    first: usize,
    xs: &mut [u32; MOST_POINTS],
    ys: &mut [u32; MOST_POINTS],
)
    requires { (point_size * count ≤ length body.now) × (first + count ≤ most_points) }
    ensures xs_filled { xs.new ≡ sets xs.old first (xs_of (points count body.now)) }
    ensures ys_filled { ys.new ≡ sets ys.old first (ys_of (points count body.now)) }
{
    for i in 0..count {
        let place = POINT_SIZE * i;
        xs[first + i] = file_records::place_at(body, place);
        ys[first + i] = file_records::place_at(body, place + 8);
    }
}

// Puts the lines of a file, of which there are `count`, from the place of the first on, into the arrays: `starts` from
// its index 1 on, since `starts[0]` is 0 already. The answer is the place of the first link. The arrays are lent one by one: lent a
// whole `Drawing`, this contract and `fill_points`'s would have to say of its five other fields that they stay.
pub fn fill_lines(
    file: &[u8],
    start: usize,
    count: usize,
    starts: &mut [u16; MOST_LINES + 1],
    xs: &mut [u32; MOST_POINTS],
    ys: &mut [u32; MOST_POINTS],
) -> usize
    requires { AtLines file.now start count }
    ensures { LinesRead file.now start (arrays starts.old xs.old ys.old) (arrays starts.new xs.new ys.new) result }
{
    let mut at = start;
    let mut filled = 0;
    for line in 0..count {
        let found = file_records::record_at(file, at);
        let points = points_of(found.body);
        fill_points(file_reader::body_of(file, found.at), points, filled, xs, ys);
        filled += points;
        starts[line + 1] = filled as u16;
        at = file_reader::place_behind(file, found.at);
    }
    at
}

// The links of a file, of which there are `count`, from the place of the first on.
pub fn read_links(file: &[u8], start: usize, count: usize) -> [MstEdge; MOST_LINKS]
    requires { AtLinks file.now start count }
    ensures { result ≡ sets (replicate most_links no_link) 0 (links_from file.now start) }
{
    let mut edges = [no_link(); MOST_LINKS];
    let mut at = start;
    for link in 0..count {
        edges[link] = link_of(file, at);
        at = file_reader::place_behind(file, at);
    }
    edges
}
