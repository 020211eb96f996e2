// All lines of a drawing traced, and then its links.
#![tactic(auto)]

ghost use Rattle.std.specs.Prelude.{◌≡◌, ◌≤◌};
ghost use Rattle.limits.specs.Limits.{most_links, most_lines};
ghost use Rattle.graph_splits.specs.Points.{points, MeasurablePoints};
ghost use Rattle.graph_chain.specs.Along.{traced_along};
ghost use Rattle.graph_line.specs.Follow.{Scratch};
ghost use Rattle.graph_line.specs.Lines.{filing_from, anywhere, Ready};
ghost use Rattle.graph_lines.specs.All.{lines_in, links_in, StartsInside};

use file_drawing::Drawing;
use graph_segment_ends::SegmentEnds;
use graph_splits::Buffer;
use graph_strokes::Traced;

// All lines, in their order: line i's points are those from starts[i] to starts[i + 1]. What `splits` holds afterwards is left open:
// it is lent for the split points of one segment at a time.
pub fn trace_lines(traced: &mut Traced, splits: &mut Buffer, ends: &SegmentEnds, drawing: &Drawing)
    requires few { drawing.now.lines ≤ most_lines }
    requires inside { StartsInside drawing.now.starts }
    requires scratch { Scratch splits.old }
    requires measurable { MeasurablePoints (points ends.now.xs ends.now.ys) }
    requires traceable { Ready (lines_in (filing_from ends.now) (points drawing.now.xs drawing.now.ys) drawing.now.starts drawing.now.lines 0) traced.old }
    ensures { traced.new ≡ traced_along anywhere (lines_in (filing_from ends.now) (points drawing.now.xs drawing.now.ys) drawing.now.starts drawing.now.lines 0) traced.old }
{
    for i in 0..drawing.lines {
        let first = usize::from(drawing.starts[i]);
        let stop = usize::from(drawing.starts[i + 1]);
        graph_line::trace_line(traced, splits, ends, drawing, first, stop);
    }
}

// All links, in their order: from the first end of each to its second. Link k has the ends 2 k and 2 k + 1.
pub fn trace_links(traced: &mut Traced, ends: &SegmentEnds, links: usize)
    requires few { links ≤ most_links }
    requires traceable { Ready (links_in (points ends.now.xs ends.now.ys) links 0) traced.old }
    ensures { traced.new ≡ traced_along anywhere (links_in (points ends.now.xs ends.now.ys) links 0) traced.old }
{
    for k in 0..links {
        let p = ends.point(2 * k);
        let q = ends.point(2 * k + 1);
        traced.begin(p);
        traced.step(p, q);
    }
}
