// The ends of a link filed by the segments that they split. An end's number is twice its link's, and
// one more for the second end.
#![tactic(auto)]

ghost use Rattle.std.specs.Prelude.{◌≡◌, ◌<◌};
ghost use Rattle.limits.specs.Limits.{most_splits, most_links};
ghost use Rattle.grid.specs.Grid.{place_of, place_at};
ghost use Rattle.graph_splits.specs.Next.{at};
ghost use Rattle.file_drawing.specs.Back.{point_back};
ghost use Rattle.graph_filing.specs.Floats.{IsCoordinate};
ghost use Rattle.graph_filing.specs.Stored.{store_end, store_link, place_in, EndFits, LinkFits};

use file_records::MstEdge;
use graph_segment_ends::SegmentEnds;
use grid::Point;
use limits::MOST_LINES;

// The place of a coordinate that is on the grid.
pub fn place_of(x: f64) -> u32
    requires { IsCoordinate x }
    ensures { result ≡ place_at (place_of x) }
{
    grid::place_number(grid::read_place(f64::to_bits(x)))
}

// The places of a point that is on the grid.
fn point_of(p: file_records::Point) -> Point
    requires { IsCoordinate p.x × IsCoordinate p.y }
    ensures { at result.x result.y ≡ point_back p }
{
    Point {
        x: place_of(p.x),
        y: place_of(p.y),
    }
}

// Files the end e, which is at p, under its segment.
fn file_one(
    ends: &mut SegmentEnds,
    starts: &[u16; MOST_LINES + 1],
    e: usize,
    line: u16,
    segment: u16,
    p: Point,
)
    requires number { e < most_splits }
    requires fits { EndFits starts.now line segment }
    ensures { ends.new ≡ store_end e (place_in starts.now line segment) (at p.x p.y) ends.old }
{
    let first = usize::from(starts[usize::from(line)]);
    let g = first + usize::from(segment);
    ends.file_end(e, g);
    ends.xs[e] = p.x;
    ends.ys[e] = p.y;
}

// Files both ends of link i.
pub fn file_link(ends: &mut SegmentEnds, starts: &[u16; MOST_LINES + 1], i: usize, link: MstEdge)
    requires number { i < most_links }
    requires fits { LinkFits starts.now link }
    ensures { ends.new ≡ store_link starts.now i link ends.old }
{
    let a = point_of(link.point_a);
    let b = point_of(link.point_b);
    file_one(ends, starts, 2 * i, link.poly_a, link.seg_a, a);
    file_one(ends, starts, 2 * i + 1, link.poly_b, link.seg_b, b);
}
