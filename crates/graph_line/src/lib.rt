// A line traced, segment by segment.
#![tactic(auto)]

ghost use Rattle.std.specs.Prelude.{◌≡◌, ◌<◌, ◌≤◌};
ghost use Rattle.limits.specs.Limits.{most_points};
ghost use Rattle.graph_splits.specs.Next.{at};
ghost use Rattle.graph_splits.specs.Points.{points, point_in, MeasurablePoints};
ghost use Rattle.graph_moves.specs.Moves.{draw_all};
ghost use Rattle.graph_chain.specs.Along.{traced_along, Traceable};
ghost use Rattle.graph_line.specs.Follow.{chain_from, Scratch};
ghost use Rattle.graph_line.specs.Lines.{filing_from, line_in, anywhere, Ready};

use file_drawing::Drawing;
use graph_segment_ends::SegmentEnds;
use graph_splits::Buffer;
use graph_strokes::Traced;
use grid::Point;

// The segment from a to b, whose newest end is `first`: its split points are gathered into `splits`, and its chain is traced.
pub fn trace_segment(
    traced: &mut Traced,
    splits: &mut Buffer,
    ends: &SegmentEnds,
    first: usize,
    a: Point,
    b: Point,
)
    requires scratch { Scratch splits.old }
    requires measurable { MeasurablePoints (points ends.now.xs ends.now.ys) }
    requires traceable { Traceable (at a.x a.y) (draw_all (chain_from (points ends.now.xs ends.now.ys) ends.now.next first (at a.x a.y) (at b.x b.y))) traced.old }
    ensures graph { traced.new ≡ traced_along (at a.x a.y) (draw_all (chain_from (points ends.now.xs ends.now.ys) ends.now.next first (at a.x a.y) (at b.x b.y))) traced.old }
    ensures scratch { Scratch splits.new }
{
    let count = ends.gather(splits, first, a);
    graph_chain::trace_chain(traced, splits, count, a, b);
}

// The point at place i among those of all lines.
fn point_at(drawing: &Drawing, i: usize) -> Point
    requires { i < most_points }
    ensures { at result.x result.y ≡ point_in (points drawing.now.xs drawing.now.ys) i }
{
    Point {
        x: drawing.xs[i],
        y: drawing.ys[i],
    }
}

// One line, whose points are those from `first` to `stop`; an empty one is nothing. What `splits` holds afterwards is left open: it is
// lent for the split points of one segment at a time.
pub fn trace_line(
    traced: &mut Traced,
    splits: &mut Buffer,
    ends: &SegmentEnds,
    drawing: &Drawing,
    first: usize,
    stop: usize,
)
    requires inside { stop ≤ most_points }
    requires scratch { Scratch splits.old }
    requires measurable { MeasurablePoints (points ends.now.xs ends.now.ys) }
    requires traceable { Ready (line_in (filing_from ends.now) (points drawing.now.xs drawing.now.ys) first stop) traced.old }
    ensures graph { traced.new ≡ traced_along anywhere (line_in (filing_from ends.now) (points drawing.now.xs drawing.now.ys) first stop) traced.old }
    ensures scratch { Scratch splits.new }
{
    if stop <= first {
        return;
    }
    traced.begin(point_at(drawing, first));
    for g in first..stop - 1 {
        let a = point_at(drawing, g);
        let b = point_at(drawing, g + 1);
        trace_segment(traced, splits, ends, usize::from(ends.newest[g]), a, b);
    }
}
